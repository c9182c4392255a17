//! Of which rows conditions hold, worked out by hand.
use crate::rows::{column, put_name, rows_of};
use crate::tables::{Trial, try_tables};
use row_select::{CompareOp, Conditions, Filter, Row};
use srch_base::Items;
use std::alloc::Global;
use std::test::Fail;

/// Conditions: a column, what is said of it, and the rows of which that holds.
const CONDITIONS: &str = "\
id = 18446744073709551615 ⇒ A
id = 18446744073709551616 ⇒
id = -1 ⇒
id <> 1 ⇒ ACDEF
id <> -1 ⇒ ABCDEF
id < 1 ⇒
id < 2 ⇒ B
id > 9223372036854775807 ⇒ AC
id > 18446744073709551614 ⇒ A
id > 18446744073709551615 ⇒
id <= 0 ⇒
id <= 1 ⇒ B
id <= 170141183460469231731687303715884105727 ⇒ ABCDEF
id >= 18446744073709551615 ⇒ A
id >= 18446744073709551616 ⇒
id >= -170141183460469231731687303715884105728 ⇒ ABCDEF
weight = 3 ⇒ ABE
weight <> 3 ⇒ CDF
weight > 18446744073709551614 ⇒ D
weight < 0 ⇒
weight <= 0 ⇒ F
gid = -9223372036854775808 ⇒ B
gid = 9223372036854775808 ⇒
gid <> 0 ⇒ BCDF
gid < -9223372036854775808 ⇒
gid < 0 ⇒ BF
gid < 170141183460469231731687303715884105727 ⇒ ABCDEF
gid < -170141183460469231731687303715884105728 ⇒
gid > -1 ⇒ ACDE
gid > 9223372036854775807 ⇒
gid <= -9223372036854775808 ⇒ B
gid <= 0 ⇒ ABEF
gid >= 0 ⇒ ACDE
gid >= 9223372036854775807 ⇒ D
price = 4294967295 ⇒ A
price = -1 ⇒ CE
beyond = 0 ⇒ ABCDEF
id in -1 18446744073709551615 ⇒ A
id not-in 1 1 ⇒ ACDEF
weight in 3 0 ⇒ ABEF
gid in 0 1 ⇒ ACE
gid not-in 0 1 ⇒ BDF
gid not-in -170141183460469231731687303715884105728 170141183460469231731687303715884105727 ⇒ ABCDEF
id between 2 2 ⇒ D
id between 9223372036854775808 18446744073709551615 ⇒ AC
gid between -9223372036854775808 -1 ⇒ BF
gid between 0 1 ⇒ ACE
gid between 1 0 ⇒
gid between -170141183460469231731687303715884105728 170141183460469231731687303715884105727 ⇒ ABCDEF
weight between 4 18446744073709551614 ⇒ C
";

fn comparison(sign: &str) -> Option<CompareOp> {
    match sign {
        "=" => Some(CompareOp::Equal),
        "<>" => Some(CompareOp::NotEqual),
        "<" => Some(CompareOp::Less),
        ">" => Some(CompareOp::Greater),
        "<=" => Some(CompareOp::AtMost),
        ">=" => Some(CompareOp::AtLeast),
        _ => None,
    }
}

/// A condition, as the table writes it: with one number or with two.
fn condition(alloc: Global, text: &str) -> Option<Filter> {
    let (name, rest) = text.split_once(" ")?;
    let (sign, numbers) = rest.split_once(" ")?;
    let (value, high) = numbers.split_once(" ").unwrap_or((numbers, "0"));
    let (value, high) = (value.parse::<i128>().ok()?, high.parse::<i128>().ok()?);
    let column = column(name)?;
    match sign {
        "in" | "not-in" => Some(Filter::Among {
            column,
            values: Items::new(Vec::from_slice(alloc, &[value, high]).ok()?),
            negated: sign == "not-in",
        }),
        "between" => Some(Filter::Between {
            column,
            low: value,
            high,
        }),
        _ => Some(Filter::Compare {
            column,
            op: comparison(sign)?,
            value,
        }),
    }
}

/// Appends the letters of the rows of which a condition holds, and `!` at a row of which it doesn't say the same made ready.
fn put_where(
    filter: &Filter,
    ready: &Conditions<'_>,
    rows: &[Row],
    into: &mut String,
) -> Option<()> {
    for row in rows {
        let holds = filter.holds(row);
        if holds {
            put_name(row.id, into)?;
        }
        if holds != (ready.hold_unweighed(row) && ready.hold_weighed(row)) {
            into.push('!').ok()?;
        }
    }
    Some(())
}

/// Appends the letters of the rows of which a condition holds, by itself and made ready.
pub(crate) fn put_condition(alloc: Global, text: &str, into: &mut String) -> Option<()> {
    let filter = condition(alloc, text)?;
    let rows = rows_of(alloc, "letters")?;
    match Conditions::over(alloc, std::slice::from_ref(&filter)) {
        Ok(ready) => put_where(&filter, &ready, rows.as_slice(), into),
        Err(_) => None,
    }
}

#[test]
fn conditions_hold_of_their_rows(rt: HostRuntime) -> Result<(), Fail> {
    try_tables(rt.alloc(), &[(CONDITIONS, Trial::Condition)])
}

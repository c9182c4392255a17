//! The loop over the rows of the tables: what each tells is compared with what it says.
use crate::codes::{put_hits_at, put_number_at};
use crate::images::{put_changed, put_cut};
use crate::payloads::{put_damaged, put_of_index};
use crate::tables::{COLUMNS, DAMAGE, HITS, IMAGES, LONG, NUMBERS, PAYLOADS, SHORT};
use std::alloc::Global;
use std::test::Fail;

/// Rows that tell something else than they say.
const WRONG: &str = "
number 1 ff8001ff ⇒ 129 to 3 written
number 1 ff8001ff ⇒ 128 to 4 written
number 0 8001 ⇒ none
number 0 80 ⇒ 0 to 1 written
number 1 0101 ⇒ none
hits 1 ff020101ff ⇒ 0:1 0:3 to 4 written
hits 1 ff020101ff ⇒ 0:1 0:2 to 5 written
hits 0 0101 ⇒ none
hits 0 ffff03⟨01×65535⟩ ⇒ 65535 hits up to 0:65534 to 65538 written
payload short SHORT ⇒ put 7 [] {hello@1 world@3 }; written
payload long LONG ⇒ put 258 [-1 ] {a@1 é@2 .b@4 1:1-2 0:1-4 } {c@1 0:1-1 }; kill 5; clear; written otherwise
insertion short SHORT ⇒ put 7 [] {hello@1 world@2 }; written
fronts short SHORT ⇒ 0 0 0 0 4 5 5 5 5 5 5 5 5 13 13 13 13 17 18 19 19 19 19 19 24 25 26 26 26 26 26 31 31 31 30 end
no kind | damage 4 00 ⇒ 5
columns short 6669656c64207469746c65 ⇒ written
changed 52 01 ⇒ ok
changed 52 01 ⇒ 52: marks
cut 99 - ⇒ 8: sizes
columns kinds 6669656c64207469746c650a ⇒ written
";

/// The tables, and whether their rows are right.
const TABLES: [(&str, bool); 7] = [
    (NUMBERS, true),
    (HITS, true),
    (PAYLOADS, true),
    (DAMAGE, true),
    (COLUMNS, true),
    (IMAGES, true),
    (WRONG, false),
];

/// The digits that a word stands for.
fn digits_of(word: &str) -> &str {
    match word {
        "SHORT" => SHORT,
        "LONG" => LONG,
        "-" => "",
        digits => digits,
    }
}

/// Appends the digits of `x×n`, which is x written n times.
fn put_times(times: &str, written: &mut String) -> Option<()> {
    let Some((piece, count)) = times.split_once('×') else {
        return None;
    };
    for _ in 0..count.parse::<u32>().ok()? {
        written.push_str(piece).ok()?;
    }
    Some(())
}

/// Appends digits of which some stand as `⟨x×n⟩`.
fn put_digits(digits: &str, written: &mut String) -> Option<()> {
    for part in digits.split('⟨') {
        let rest = match part.split_once('⟩') {
            Some((times, rest)) => {
                put_times(times, written)?;
                rest
            }
            None => part,
        };
        written.push_str(rest).ok()?;
    }
    Some(())
}

/// The bytes of such digits.
fn bytes_of(alloc: Global, digits: &str) -> Option<Vec<u8>> {
    let mut written = String::new(alloc);
    put_digits(digits, &mut written)?;
    hex::decode(alloc, written.as_str()).ok()
}

/// Tells whether something was written as it stands.
pub(crate) fn put_written(as_it_stands: bool, told: &mut String) -> Option<()> {
    let word = if as_it_stands {
        "written"
    } else {
        "written otherwise"
    };
    told.push_str(word).ok()
}

/// Tells what a row asks of bytes.
fn tell_bytes(
    alloc: Global,
    kind: &str,
    word: &str,
    bytes: &[u8],
    told: &mut String,
) -> Option<()> {
    match kind {
        "number" => put_number_at(alloc, bytes, word.parse::<usize>().ok()?, told),
        "hits" => put_hits_at(alloc, bytes, word.parse::<usize>().ok()?, told),
        "changed" => put_changed(alloc, word.parse::<usize>().ok()?, bytes, told),
        "cut" => put_cut(alloc, word.parse::<usize>().ok()?, told),
        "damage" => put_damaged(alloc, word.parse::<usize>().ok()?, bytes, told),
        _ => put_of_index(alloc, kind, word, bytes, told),
    }
}

/// Tells what a row asks, which has a kind, a word and digits.
fn tell(alloc: Global, case: &str, told: &mut String) -> Option<()> {
    let Some((kind, rest)) = case.split_once(' ') else {
        return None;
    };
    let Some((word, digits)) = rest.split_once(' ') else {
        return None;
    };
    let bytes = bytes_of(alloc, digits_of(digits))?;
    tell_bytes(alloc, kind, word, bytes.as_slice(), told)
}

/// What stands behind the name of a row.
fn case_of(row: &str) -> &str {
    match row.split_once(" | ") {
        Some((_, case)) => case,
        None => row,
    }
}

/// Whether a row tells what it says.
fn is_told(alloc: Global, row: &str, told: &mut String) -> bool {
    told.clear();
    match row.split_once(" ⇒ ") {
        Some((asked, wanted)) => {
            tell(alloc, case_of(asked), told).is_some() && told.as_str() == wanted
        }
        None => false,
    }
}

/// The first row that tells something else than it says, or that should and doesn't.
fn first_wrong(alloc: Global, told: &mut String) -> Option<&'static str> {
    for (table, right) in &TABLES {
        for row in table.lines().skip(1) {
            if is_told(alloc, row, told) != *right {
                return Some(row);
            }
        }
    }
    None
}

#[test]
fn bytes_are_read_and_written(rt: HostRuntime) -> Result<(), Fail> {
    let mut told = String::new(rt.alloc());
    match first_wrong(rt.alloc(), &mut told) {
        Some(row) => Err(Fail::new(format_args!("{row}: {told}"))),
        None => Ok(()),
    }
}

//! Facets of rows that are taken all at once: values with their counts, in each order, and paged.
use crate::rows::{column, rows_of};
use group_facet::{Facet, facet};
use std::alloc::Global;

/// The rows, the column, the order, the page, and the values that are shown, each with the number of rows that have it.
pub(crate) const FACETS: &str = "\
weighed: gid; count desc; 0 20 ⇒ [10 3][20 2][40 2][30 1]
weighed: gid; count asc; 0 20 ⇒ [30 1][20 2][40 2][10 3]
weighed: gid; value asc; 0 20 ⇒ [10 3][20 2][30 1][40 2]
weighed: gid; value desc; 0 20 ⇒ [40 2][30 1][20 2][10 3]
weighed: price; count desc; 0 20 ⇒ [-9223372036854775808 3][5 2][9223372036854775807 2][-1 1]
weighed: price; count asc; 0 20 ⇒ [-1 1][5 2][9223372036854775807 2][-9223372036854775808 3]
weighed: price; value asc; 0 20 ⇒ [-9223372036854775808 3][-1 1][5 2][9223372036854775807 2]
weighed: price; value desc; 0 20 ⇒ [9223372036854775807 2][5 2][-1 1][-9223372036854775808 3]
weighed: weight; count desc; 0 20 ⇒ [5 2][10 2][20 2][30 2]
weighed: weight; count asc; 0 20 ⇒ [5 2][10 2][20 2][30 2]
weighed: id; value desc; 0 2 ⇒ [18446744073709551615 1][18446744073709551614 1]
weighed: id; count desc; 0 3 ⇒ [1 1][2 1][3 1]
weighed: beyond; count desc; 0 20 ⇒ [0 8]
weighed: gid; count desc; 1 2 ⇒ [20 2][40 2]
weighed: gid; count desc; 3 5 ⇒ [30 1]
weighed: gid; count desc; 4 5 ⇒ 
weighed: gid; count desc; 0 0 ⇒ 
weighed: gid; count desc; 0 4294967295 ⇒ [10 3][20 2][40 2][30 1]
weighed: gid; count desc; 4294967295 4294967295 ⇒ 
greetings: gid; count desc; 0 20 ⇒ [10 2][20 1]
greetings: price; count desc; 0 20 ⇒ [5 2][-1 1]
none: gid; count desc; 0 20 ⇒ 
none: gid; value asc; 0 20 ⇒ 
";

fn facet_of(text: &str) -> Option<Facet> {
    let (name, rest) = text.split_once("; ")?;
    let (order, page) = rest.split_once("; ")?;
    let (by, way) = order.split_once(" ")?;
    let (offset, count) = page.split_once(" ")?;
    Some(Facet {
        column: column(name)?,
        by_count: by == "count",
        descending: way == "desc",
        offset: offset.parse::<u32>().ok()?,
        count: count.parse::<u32>().ok()?,
    })
}

/// Appends values with their counts, as the tables write them.
fn put_values(values: &[(i128, u64)], into: &mut String) -> Option<()> {
    for (value, count) in values {
        write!(into, "[{value} {count}]").ok()?;
    }
    Some(())
}

/// Appends the facet of the rows of a name that a text behind it asks for.
pub(crate) fn put_facet(alloc: Global, text: &str, into: &mut String) -> Option<()> {
    let (rows, asked) = text.split_once(": ")?;
    let asked = facet_of(asked)?;
    let rows = rows_of(alloc, rows)?;
    match facet(alloc, rows.as_slice(), &asked) {
        Ok(values) => put_values(values.as_slice(), into),
        Err(_) => None,
    }
}

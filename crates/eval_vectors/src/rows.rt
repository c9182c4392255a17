//! The rows of the tables of conditions, pages, groups and facets, how these name rows and columns, and how they tell orders and pages.
use doc_types::Value;
use row_select::{ColumnRef, Order, Page, Row};
use srch_base::Items;
use std::alloc::Global;

/// The rows of conditions and pages: id, weight and two attributes, gid and price.
const LETTERS: [(u64, u64, i64, i64); 6] = [
    (18_446_744_073_709_551_615, 3, 0, 4_294_967_295),
    (1, 3, -9_223_372_036_854_775_808, 5),
    (9_223_372_036_854_775_808, 18_446_744_073_709_551_614, 1, -1),
    (2, 18_446_744_073_709_551_615, 9_223_372_036_854_775_807, 5),
    (3, 3, 0, -1),
    (4, 0, -1, 5),
];

/// The letters that stand for these rows, with their ids.
const NAMES: [(&str, u64); 6] = [
    ("A", 18_446_744_073_709_551_615),
    ("B", 1),
    ("C", 9_223_372_036_854_775_808),
    ("D", 2),
    ("E", 3),
    ("F", 4),
];

/// Rows of groups and facets, in the order in which they are found.
const WEIGHED: [(u64, u64, i64, i64); 8] = [
    (4, 10, 10, 5),
    (2, 30, 20, 5),
    (18446744073709551614, 20, 10, -1),
    (1, 30, 20, 9223372036854775807),
    (18446744073709551615, 20, 30, 9223372036854775807),
    (3, 10, 10, -9223372036854775808),
    (6, 5, 40, -9223372036854775808),
    (5, 5, 40, -9223372036854775808),
];

/// Three documents as a query finds them.
const GREETINGS: [(u64, u64, i64, i64); 3] = [(1, 2, 10, 5), (2, 2, 20, 5), (3, 1, 10, -1)];

fn row(alloc: Global, id: u64, weight: u64, gid: i64, price: i64) -> Option<Row> {
    let mut values = Vec::new(alloc);
    values.push(Value::Whole(gid)).ok()?;
    values.push(Value::Whole(price)).ok()?;
    let values = Items::new(values);
    Some(Row { id, weight, values })
}

/// The rows of a table.
fn rows_in(alloc: Global, table: &[(u64, u64, i64, i64)]) -> Option<Vec<Row>> {
    let mut rows = Vec::new(alloc);
    for (id, weight, gid, price) in table {
        rows.push(row(alloc, *id, *weight, *gid, *price)?).ok()?;
    }
    Some(rows)
}

/// The rows of the ids 1 to 1,200, which come in no order and have one weight.
fn many(alloc: Global) -> Option<Vec<Row>> {
    let mut rows = Vec::new(alloc);
    for number in 1..1201 {
        rows.push(row(alloc, number * 7 % 1201, 1, 0, 0)?).ok()?;
    }
    Some(rows)
}

/// The rows of this name; there are none of any other one.
pub(crate) fn rows_of(alloc: Global, name: &str) -> Option<Vec<Row>> {
    match name {
        "letters" => rows_in(alloc, &LETTERS),
        "many" => many(alloc),
        "weighed" => rows_in(alloc, &WEIGHED),
        "greetings" => rows_in(alloc, &GREETINGS),
        _ => Some(Vec::new(alloc)),
    }
}

/// Appends the letter of the row with this id, or the id of one of many.
pub(crate) fn put_name(id: u64, into: &mut String) -> Option<()> {
    for (letter, named) in &NAMES {
        if *named == id {
            return into.push_str(letter).ok();
        }
    }
    write!(into, " {id}").ok()
}

pub(crate) fn column(name: &str) -> Option<ColumnRef> {
    match name {
        "id" => Some(ColumnRef::Id),
        "weight" => Some(ColumnRef::Weight),
        "gid" => Some(ColumnRef::Attr(0)),
        "price" => Some(ColumnRef::Attr(1)),
        "beyond" => Some(ColumnRef::Attr(2)),
        _ => None,
    }
}

/// A key of an order.
fn key(text: &str) -> Option<(ColumnRef, bool)> {
    let (name, way) = text.split_once(" ")?;
    let column = column(name)?;
    Some((column, way == "desc"))
}

/// The order by these keys, which may be none.
pub(crate) fn order_by(alloc: Global, text: &str) -> Option<Order> {
    let mut keys = Vec::new(alloc);
    for word in text.split_terminator(", ") {
        keys.push(key(word)?).ok()?;
    }
    Some(Order {
        keys: Items::new(keys),
    })
}

/// The page of an offset, a count and a `max_matches`.
pub(crate) fn page_of(text: &str) -> Option<Page> {
    let (offset, rest) = text.split_once(" ")?;
    let (count, max_matches) = rest.split_once(" ")?;
    Some(Page {
        offset: offset.parse::<u32>().ok()?,
        count: count.parse::<u32>().ok()?,
        max_matches: max_matches.parse::<u32>().ok()?,
    })
}

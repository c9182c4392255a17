//! Which rows pages show, worked out by hand.
use crate::rows::{order_by, page_of, put_name, rows_of};
use crate::tables::{Trial, try_tables};
use row_select::{Collector, Order, Page, Row, top};
use std::alloc::Global;
use std::test::Fail;

/// Pages: the keys, the offset, the count and `max_matches`, and the rows that are shown.
const PAGES: &str = "\
weight desc, weight desc; 0 20 1000 ⇒ DCBEAF
weight asc, weight desc; 0 20 1000 ⇒ FBEACD
id asc, id desc; 0 20 1000 ⇒ BDEFCA
id desc, id asc; 0 20 1000 ⇒ ACFEDB
gid asc, weight desc; 0 20 1000 ⇒ BFEACD
gid desc, weight desc; 0 20 1000 ⇒ DCEAFB
gid desc, id desc; 0 20 1000 ⇒ DCAEFB
price asc, weight desc; 0 20 1000 ⇒ CEDBFA
price desc, gid asc; 0 20 1000 ⇒ ABFDEC
weight desc, price asc; 0 20 1000 ⇒ DCEBAF
id asc, id asc; 0 0 1000 ⇒
id asc, id asc; 3 0 1000 ⇒
id asc, id asc; 0 1 1000 ⇒ B
id asc, id asc; 2 2 1000 ⇒ EF
id asc, id asc; 4 20 1000 ⇒ CA
id asc, id asc; 6 20 1000 ⇒
id asc, id asc; 7 1 1000 ⇒
id asc, id asc; 0 20 3 ⇒ BDE
id asc, id asc; 2 20 3 ⇒ E
id asc, id asc; 1 1 3 ⇒ D
id asc, id asc; 3 20 3 ⇒
id asc, id asc; 4 20 3 ⇒
id asc, id asc; 0 20 0 ⇒
id asc, id asc; 5 1 6 ⇒ A
id desc, id desc; 0 4294967295 4294967295 ⇒ ACFEDB
id desc, id desc; 4294967295 4294967295 4294967295 ⇒
";

/// Pages of the rows of the ids 1 to 1,200, which come in no order and have one weight.
const MANY_PAGES: &str = "\
weight desc; 995 20 1000 ⇒ 996 997 998 999 1000
weight desc; 7 20 10 ⇒ 8 9 10
weight desc; 1000 20 2000 ⇒ 1001 1002 1003 1004 1005 1006 1007 1008 1009 1010 1011 1012 1013 1014 1015 1016 1017 1018 1019 1020
";

/// The page of rows that are found one after the other.
fn collected(alloc: Global, rows: &[Row], order: &Order, page: Page) -> Option<Vec<Row>> {
    let mut collector = Collector::new(alloc, order, page);
    for row in rows {
        collector.offer(row).ok()?;
    }
    collector.finish().ok()
}

/// Appends the names of the rows that are shown, and `!` where others are shown one after the other.
fn put_names(shown: &[Row], collected: &[Row], into: &mut String) -> Option<()> {
    if shown.len() != collected.len() {
        into.push('!').ok()?;
    }
    for (row, other) in shown.iter().zip(collected) {
        put_name(row.id, into)?;
        if row.id != other.id {
            into.push('!').ok()?;
        }
    }
    Some(())
}

/// Appends the names of the rows that a page shows, at once and one after the other.
pub(crate) fn put_page(alloc: Global, text: &str, rows: &str, into: &mut String) -> Option<()> {
    let (keys, numbers) = text.split_once("; ")?;
    let page = page_of(numbers)?;
    let order = order_by(alloc, keys)?;
    let rows = rows_of(alloc, rows)?;
    let others = collected(alloc, rows.as_slice(), &order, page)?;
    match top(rows, &order, &page) {
        Ok(shown) => put_names(shown.as_slice(), others.as_slice(), into),
        Err(_) => None,
    }
}

#[test]
fn pages_show_their_rows(rt: HostRuntime) -> Result<(), Fail> {
    try_tables(
        rt.alloc(),
        &[
            (PAGES, Trial::Page("letters")),
            (MANY_PAGES, Trial::Page("many")),
        ],
    )
}

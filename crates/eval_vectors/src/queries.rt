//! What queries find in the documents of docs/cases/evaluation.md, and in many documents, worked out by how these are made; at how
//! many rows `Matches` stops there, how many lists of places are opened, and how often a row is sought.
use crate::asking::{Asked, first_wrong};
use crate::cases::QUERIES;
use crate::sets::documents_of;
use crate::tables::none_wrong;
use crate::telling::Call;
use std::alloc::Global;
use std::test::Fail;

/// Queries over the set `letters`: how many rows match, and whether a list is opened to find these. Where none is, they are found while
/// none can be opened; where one is, memory is wanted then.
const OPENING: &str = r#"
a ⇒ 8 rows, no list
absent ⇒ 0 rows, no list
a b ⇒ 7 rows, no list
a -b ⇒ 1 rows, no list
a | b ⇒ 8 rows, no list
a MAYBE b ⇒ 8 rows, no list
((a | b) c MAYBE x) -absent ⇒ 3 rows, no list
"a b c"/2 ⇒ 7 rows, no list
"a absent" ⇒ 0 rows, no list
a (b | "a b") ⇒ 7 rows, no list
"a b" ⇒ 4 rows, a list
"a b"~3 ⇒ 7 rows, a list
a << b ⇒ 5 rows, a list
a NEAR/2 b ⇒ 6 rows, a list
^a ⇒ 5 rows, a list
a$ ⇒ 3 rows, a list
@text[1] a ⇒ 5 rows, a list
a (x | "a b") ⇒ 6 rows, a list
"#;

/// Queries with how many of the many documents they find. `seven` stands in 7, 14, .., 9,996. `rare phrase` are two, and 50, 150, ..,
/// 9,950 have its words the other way round. `mark` stands at 5 to 11 in remainders 0 to 6 by 36, of which 0 comes 277 times and each
/// other one 278 times. `red` stands in the 5,000 odd ones but 8,765, and `fox` in 1, 101, .., 9,901, where `red fox` stands, and in
/// 2, 102, .., 9,902 without it. The query of five words finds 2,000 by their last digits; 1,428 of `seven`, of which 21, 91, .. and 63,
/// 133, .. are among these, 143 and 142; 102 of `rare`, of which 350, 1,050, .., 9,450 have `seven`, 14.
const COUNTS: &str = r#"
all ⇒ 10000 rows
all seven ⇒ 1428 rows
all -seven ⇒ 8572 rows
rare phrase ⇒ 102 rows
"rare phrase" ⇒ 2 rows
phrase << rare ⇒ 100 rows
"all mark"~10 ⇒ 1945 rows
all NEAR/10 mark ⇒ 1945 rows
ten1 | ten3 | seven | rare | absent ⇒ 3231 rows
red ⇒ 4999 rows
fox ⇒ 200 rows
"red fox" ⇒ 100 rows
red -fox ⇒ 4899 rows
absent ⇒ 0 rows
"#;

/// Queries over the many documents: at how many rows `Matches` stops, where each is taken, the lists that are opened there, and a
/// number that their seeks don't pass. Of an AND the rarest word goes first, and what joins places opens the lists of the rows that
/// have all its words. A row of an OR or of a quorum opens those of its words that it has: 102 of `rare`, 1,428 of `seven`, of which
/// 14 have both. A word that the query has twice is two keywords, each with a list. By going to each row that has one of its words,
/// `"red fox"` would seek some 10,000 times.
const VISITS: &str = r#"
"red fox" ⇒ 100 rows, 200 lists, seeks within 1200
fox red ⇒ 100 rows, 200 lists, seeks within 1200
all rare ⇒ 102 rows, 204 lists, seeks within 600
"rare phrase" ⇒ 102 rows, 204 lists, seeks within 600
phrase << rare ⇒ 102 rows, 204 lists, seeks within 600
all seven rare ⇒ 14 rows, 42 lists, seeks within 600
rare -seven ⇒ 88 rows, 88 lists, seeks within 800
all -absent ⇒ 10000 rows, 10000 lists, seeks within 60000
rare MAYBE all ⇒ 102 rows, 204 lists, seeks within 600
"seven rare absent"/2 ⇒ 14 rows, 28 lists, seeks within 10000
"seven rare absent"/1 ⇒ 1516 rows, 1530 lists, seeks within 15000
(all rare) | (all absent) ⇒ 102 rows, 306 lists, seeks within 1000
all absent ⇒ 0 rows, 0 lists, seeks within 2
"#;

/// The same queries: how many documents match, and how many lists are opened to find these.
const CANDIDATES: &str = r#"
"red fox" ⇒ 100 rows, 200 lists
fox red ⇒ 100 rows, 0 lists
all rare ⇒ 102 rows, 0 lists
"rare phrase" ⇒ 2 rows, 204 lists
phrase << rare ⇒ 100 rows, 204 lists
all seven rare ⇒ 14 rows, 0 lists
rare -seven ⇒ 88 rows, 0 lists
all -absent ⇒ 10000 rows, 0 lists
rare MAYBE all ⇒ 102 rows, 0 lists
"seven rare absent"/2 ⇒ 14 rows, 0 lists
"seven rare absent"/1 ⇒ 1516 rows, 0 lists
(all rare) | (all absent) ⇒ 102 rows, 0 lists
all absent ⇒ 0 rows, 0 lists
"#;

/// Searches over the many documents, each of which is ranked and offered to a page of 20 rows, with the lists that each opens. Of a
/// phrase both words' lists are opened in the 100 rows that have both. A row that has one of `rare | seven` weighs 1 at most, and one
/// that has both 2; all of them weigh 1. So behind the first 20, up to document 133, of which each has one, lists are opened of the 14
/// that have both. Both words of `fox red` are there in each row, so that each might weigh 2. Where one word decides, its fields weigh
/// a row, and no list is opened.
const SEARCHES: &str = r#"
"red fox" ⇒ 20 rows, 200 lists
fox red ⇒ 20 rows, 200 lists
rare | seven ⇒ 20 rows, 48 lists
all ⇒ 20 rows, 0 lists
absent ⇒ 0 rows, 0 lists
"#;

/// A query over 10,000 documents, of which two have its words: which these are, and a number of calls on the chunk that are enough to
/// find them. One call for each document, or for each in a hundred, would be more.
const FEW: &str = r#"
"red fox" ⇒ 17 9000, calls within 200
"#;

/// A query over the same documents that all but two match: the page, and fewer calls on the chunk than a tenth of them. Once the page is
/// full the others are only counted, and for that taken many at a time.
const COMMON: &str = r#"
grey ⇒ 1 2 3 4 5 6 7 8 9 10 11 12 13 14 15 16 18 19 20 21, calls within 999
"#;

/// The words of one of the many documents behind its first two.
fn pair_of(number: u64) -> &'static str {
    match number {
        1_234 | 8_765 => "rare phrase",
        _ if number % 100 == 50 => "phrase rare",
        _ if number % 100 == 1 => "red fox",
        _ if number % 100 == 2 => "no fox",
        _ if number % 2 == 1 => "red no",
        _ => "no no",
    }
}

/// The word of one of the many documents before these.
fn seven_of(number: u64) -> &'static str {
    if number % 7 == 0 { "seven" } else { "no" }
}

/// Appends one of the many documents, with a text of 40 words: `all`; `seven` in each seventh one; `rare phrase` in two, and `phrase
/// rare` in each hundredth one, or `red fox` or `fox` in each hundredth one, or `red` in odd ones; then `mark` among 35 words of the
/// number's last digit.
fn put_document(number: u64, into: &mut String) -> Option<()> {
    let (seven, pair, digit) = (seven_of(number), pair_of(number), number % 10);
    write!(into, "{number} ⇒ all {seven} {pair}").ok()?;
    for place in 0..36 {
        if place == number % 36 {
            into.push_str(" mark").ok()?;
        } else {
            write!(into, " ten{digit}").ok()?;
        }
    }
    into.push('\n').ok()
}

/// The many documents.
fn many(alloc: Global) -> Option<String> {
    let mut text = String::new(alloc);
    for number in 1..10_001 {
        put_document(number, &mut text)?;
    }
    Some(text)
}

/// The words of one of as many documents with one word each, but for two.
fn words_of(number: u64) -> &'static str {
    match number {
        17 | 9_000 => "red fox",
        _ => "grey",
    }
}

/// These documents.
fn grey(alloc: Global) -> Option<String> {
    let mut text = String::new(alloc);
    for number in 1..10_001 {
        let words = words_of(number);
        write!(&mut text, "{number} ⇒ {words}\n").ok()?;
    }
    Some(text)
}

/// The tables over the many documents.
const OF_MANY: [(&str, &Asked); 4] = [
    (COUNTS, &Asked::Found(Call::Count)),
    (VISITS, &Asked::Seeks(Call::Stops)),
    (CANDIDATES, &Asked::Lists(Call::Count)),
    (SEARCHES, &Asked::Search),
];

/// The tables over the documents with one word each.
const OF_GREY: [(&str, &Asked); 3] = [
    (FEW, &Asked::Calls(Call::Ids)),
    (FEW, &Asked::Shown),
    (COMMON, &Asked::Shown),
];

/// The first query over the documents of its set that finds something else.
fn first_of_sets(alloc: Global, found: &mut String) -> Option<&'static str> {
    for section in QUERIES.split("\n# ") {
        if let Some((set, lines)) = section.split_once("\n") {
            let tables = [(lines, &Asked::Found(Call::Rows))];
            let wrong = first_wrong(alloc, set, documents_of(set), &tables, found);
            if wrong.is_some() {
                return wrong;
            }
        }
    }
    None
}

/// Fails with the first line of tables over documents that isn't right. All of them are of the set `letters`.
fn try_letters(alloc: Global, documents: &str, tables: &[(&str, &Asked)]) -> Result<(), Fail> {
    let mut found = String::new(alloc);
    let wrong = first_wrong(alloc, "letters", documents, tables, &mut found);
    none_wrong(wrong, found.as_str())
}

#[test]
fn queries_find_what_they_ask_for(rt: HostRuntime) -> Result<(), Fail> {
    let mut found = String::new(rt.alloc());
    let wrong = first_of_sets(rt.alloc(), &mut found);
    none_wrong(wrong, found.as_str())
}

#[test]
fn queries_open_lists_to_find_rows(rt: HostRuntime) -> Result<(), Fail> {
    let tables = [(OPENING, &Asked::Opens(Call::Count))];
    try_letters(rt.alloc(), documents_of("letters"), &tables)
}

#[test]
fn queries_find_their_rows_among_many(rt: HostRuntime) -> Result<(), Fail> {
    let documents = many(rt.alloc()).ok_or("no documents")?;
    try_letters(rt.alloc(), documents.as_str(), &OF_MANY)
}

#[test]
fn queries_find_a_few_rows(rt: HostRuntime) -> Result<(), Fail> {
    let documents = grey(rt.alloc()).ok_or("no documents")?;
    try_letters(rt.alloc(), documents.as_str(), &OF_GREY)
}

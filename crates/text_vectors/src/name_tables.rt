//! A table of 60 keywords, made as a crate makes its own: the words and their values stand in one macro, of which the table
//! is one form and the value at a place another. That the words are in order is proved by one contract. Places are counted
//! by hand, from 0.
ghost use Rattle.std.specs.Prelude.{◌≡◌};
ghost use Rattle.name_table.specs.Order.{IsInOrder};

use name_table::{NameTable, value_at, words_of};
use std::fmt::Write;

macro_rules! keywords {
    ($form:ident $(, $argument:expr)*) => {
        $form!($($argument,)* {
            "and" => "AND",
            "as" => "AS",
            "asc" => "ASC",
            "avg" => "AVG",
            "begin" => "BEGIN",
            "between" => "BETWEEN",
            "by" => "BY",
            "columns" => "COLUMNS",
            "commit" => "COMMIT",
            "count" => "COUNT",
            "current" => "CURRENT",
            "database" => "DATABASE",
            "databases" => "DATABASES",
            "delete" => "DELETE",
            "desc" => "DESC",
            "describe" => "DESCRIBE",
            "distinct" => "DISTINCT",
            "div" => "DIV",
            "drop" => "DROP",
            "facet" => "FACET",
            "false" => "FALSE",
            "flush" => "FLUSH",
            "from" => "FROM",
            "function" => "FUNCTION",
            "global" => "GLOBAL",
            "group" => "GROUP",
            "groupby" => "GROUPBY",
            "having" => "HAVING",
            "id" => "ID",
            "in" => "IN",
            "index" => "INDEX",
            "insert" => "INSERT",
            "into" => "INTO",
            "is" => "IS",
            "isolation" => "ISOLATION",
            "join" => "JOIN",
            "key" => "KEY",
            "killed" => "KILLED",
            "like" => "LIKE",
            "limit" => "LIMIT",
            "local" => "LOCAL",
            "match" => "MATCH",
            "max" => "MAX",
            "meta" => "META",
            "min" => "MIN",
            "mod" => "MOD",
            "names" => "NAMES",
            "not" => "NOT",
            "null" => "NULL",
            "offset" => "OFFSET",
            "on" => "ON",
            "optimize" => "OPTIMIZE",
            "option" => "OPTION",
            "or" => "OR",
            "order" => "ORDER",
            "plugin" => "PLUGIN",
            "plugins" => "PLUGINS",
            "queries" => "QUERIES",
            "query" => "QUERY",
            "quick" => "QUICK",
        })
    };
}

/// A table of 60 words: its order is proved by this one contract.
fn keyword_table() -> NameTable<60>
    ensures { IsInOrder result }
{
    NameTable::ordered(keywords!(words_of))
}

fn keyword_at(place: u16) -> Option<&'static str> {
    Some(keywords!(value_at, place, return None))
}

/// Words in letters of either case, and their places.
pub(crate) const PLACES: &str = "\
and ⇒ 0
AND ⇒ 0
BeTween ⇒ 5
FACET ⇒ 19
match ⇒ 41
Quick ⇒ 59
 ⇒ none
an ⇒ none
andy ⇒ none
AND  ⇒ none
Z ⇒ none
Änd ⇒ none
";

/// Places, and the values there.
pub(crate) const VALUES: &str = "\
0 ⇒ AND
19 ⇒ FACET
59 ⇒ QUICK
60 ⇒ none
";

/// Appends the place of a word, or `none`.
pub(crate) fn put_place(word: &str, into: &mut String) -> Option<()> {
    match keyword_table().find(word.as_bytes()) {
        Some(place) => write!(into, "{place}").ok()?,
        None => into.push_str("none").ok()?,
    }
    Some(())
}

/// Appends the value at a place, or `none`.
pub(crate) fn put_value(place: &str, into: &mut String) -> Option<()> {
    let place = place.parse::<u16>().ok()?;
    into.push_str(keyword_at(place).unwrap_or("none")).ok()
}

#[test]
fn checks_the_order(rt: HostRuntime) {
    let found = [
        NameTable::<0>::new(&[]).check(),
        NameTable::<3>::new(&["a", "aa", "b"]).check(),
        NameTable::<3>::new(&["aa", "a", "b"]).check(),
        NameTable::<2>::new(&["a", "a"]).check(),
        NameTable::<2>::new(&["a", "B"]).check(),
    ];
    assert!(rt; found == [true, true, false, false, false]);
}

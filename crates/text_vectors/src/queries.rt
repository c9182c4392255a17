//! The trees of docs/cases/extended_queries.md in their written form, and the call below `read_query` that it doesn't make itself.
ghost use Rattle.doc_types.specs.Schemas.{IsSchema};
ghost use Rattle.index_conf.specs.Soundness.{IsSound};

use crate::query_trees::TREES;
use crate::spelling::spell;
use crate::tables::none_wrong;
use charset_map::Charset;
use conf_text::read_conf;
use ext_query::{put_query, read_query};
use index_conf::{Conf, IndexConf};
use query_pieces::pieces;
use std::alloc::Global;
use std::test::Fail;

/// More than the longest text of a query.
const MOST: usize = 100_000;

/// Texts in the setting of the marks, and how many pieces they have.
pub(crate) const PIECES: &str = "\
1 1 a -b ⇒ 4
";

/// Appends how many pieces a text has.
pub(crate) fn put_pieces(
    alloc: Global,
    table: &Charset,
    text: &str,
    into: &mut String,
) -> Option<()> {
    if text.len() > MOST {
        return None;
    }
    let count = pieces(alloc, table, false, text).ok()?.len();
    write!(into, "{count}").ok()
}

/// Appends the written form of the query that a text is.
fn put_tree(alloc: Global, text: &str, index: &IndexConf, into: &mut Vec<u8>) -> Option<()>
    requires { IsSchema index.now.schema }
{
    if text.len() > MOST {
        return None;
    }
    match read_query(alloc, text, &index.schema, &index.charset) {
        Ok(query) => put_query(&query, &index.schema, into).ok(),
        Err(_) => None,
    }
}

/// Whether the query of a line has the written form behind it. `spelled` is the line written out, and `written` the query.
fn is_right(
    alloc: Global,
    line: &str,
    index: &IndexConf,
    spelled: &mut String,
    written: &mut Vec<u8>,
) -> Option<bool>
    requires { IsSchema index.now.schema }
{
    spelled.clear();
    written.clear();
    spell(line, spelled)?;
    let (text, form) = spelled.as_str().split_once(" ⇒ ")?;
    put_tree(alloc, text, index, written)?;
    Some(written.as_slice() == form.as_bytes())
}

/// The first line that isn't right.
fn first_of<'t>(
    alloc: Global,
    lines: &'t str,
    index: &IndexConf,
    spelled: &mut String,
    written: &mut Vec<u8>,
) -> Option<&'t str>
    requires { IsSchema index.now.schema }
{
    for line in lines.lines() {
        if is_right(alloc, line, index, spelled, written) != Some(true) {
            return Some(line);
        }
    }
    None
}

/// The same by the first index of a configuration.
fn first_by<'t>(alloc: Global, lines: &'t str, conf: &Conf) -> Option<&'t str>
    requires { IsSound conf.now }
{
    let mut spelled = String::new(alloc);
    let mut written = Vec::new(alloc);
    match conf.indexes.as_slice().split_first() {
        Some((index, _)) => first_of(alloc, lines, index, &mut spelled, &mut written),
        None => Some("no index"),
    }
}

/// The same of a section of the table.
fn first_wrong(alloc: Global, section: &str) -> Option<&str> {
    let Some((text, lines)) = section.split_once("\n\n") else {
        return Some(section);
    };
    match read_conf(alloc, text.as_bytes()) {
        Ok(conf) => first_by(alloc, lines, &conf),
        Err(_) => Some(text),
    }
}

#[test]
fn texts_have_their_written_forms(rt: HostRuntime) -> Result<(), Fail> {
    for section in TREES.split("\n# ").skip(1) {
        none_wrong(first_wrong(rt.alloc(), section), "another form")?;
    }
    Ok(())
}

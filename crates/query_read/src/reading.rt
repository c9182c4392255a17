//! Reading a text: its marks, its first fault, and the tree that the marks are.
//!
//! The marks are first gone over by the grammar alone, up to the first one with which no query goes on, and nothing is built.
//! What else may be wrong is looked for in the marks that were read. The tree is built only where nothing is wrong, so that it
//! has at most 255 keywords: a tree nests to the left once for each operator, and what is done to it, letting go of it too,
//! calls itself as deep as it nests. All of it is linear in the text.
ghost use Rattle.std.specs.Prelude.{◌≡◌, ◌<◌, ◌^◌, length, min};
ghost use Rattle.std.specs.List.{flat_map};
ghost use Rattle.charset_map.specs.Spans.{folded};
ghost use Rattle.doc_types.specs.Schemas.{IsSchema};
ghost use Rattle.query_marks.specs.Marks.{setting_of};
ghost use Rattle.query_grammar.specs.Queries.{ReadsQuery, keys_of};

use crate::cursor::MarkCursor;
use crate::faults::first_fault;
use crate::reader::query;
use crate::recognizer::recognize;
use charset_map::Charset;
use doc_types::Schema;
use query_grammar::{Class, QueryFault};
use query_marks::{Mark, Sign, marks};
use query_tree::Query;
use srch_base::Or;
use std::alloc::Global;

/// How many keywords a mark has.
fn keywords_of(mark: &Mark) -> usize
    ensures { result ≡ length (keys_of mark.now.sign) }
{
    match &mark.sign {
        Sign::Bare(_) => 1,
        Sign::Phrase(keys) => keys.len(),
        Sign::Loose(keys, _) => keys.len(),
        _ => 0,
    }
}

/// How many keywords marks have, or 65,535 where they are more. A text with which nothing is wrong has at most 255.
fn count_keywords(marks: &[Mark]) -> u16
    ensures { result ≡ min (length (flat_map (λ m. keys_of m.sign) marks.now)) 65535 }
{
    let mut count: usize = 0;
    for mark in marks {
        count = count.saturating_add(keywords_of(mark));
    }
    if count < 65_535 { count as u16 } else { 65_535 }
}

/// The query that a text is, or its first fault.
///
/// A text without a keyword is a query without a root. Groups nest at most 32 deep, and a query has at most 255 keywords. The
/// rules are those of "Extended query syntax" in the Sphinx manual; docs/EXTENDED_QUERIES.md has them with examples, and says
/// what differs.
pub fn read_query(
    alloc: Global,
    text: &str,
    schema: &Schema,
    charset: &Charset,
) -> Result<Query, Or<QueryFault>>
    requires schema { IsSchema schema.now }
    requires size { length text.now < 2 ^ 32 }
    ensures { ReadsQuery (setting_of (folded charset.now) schema.now) text.now result }
{
    let marks = marks(alloc, charset, schema, text)?;
    let mut input = MarkCursor::new(marks.as_slice());
    if input.is_next(Class::End) {
        return Ok(Query {
            root: None,
            keywords: 0,
        });
    }
    let stop = recognize(&mut input);
    if let Some(fault) = first_fault(alloc, marks.as_slice(), stop)? {
        return Err(Or::Fault(fault));
    }
    match query(alloc, &mut MarkCursor::new(marks.as_slice())) {
        Ok(root) => {
            let keywords = count_keywords(marks.as_slice());
            let root = Some(root);
            Ok(Query { root, keywords })
        }
        Err(Or::Fault(_)) => unreachable!(),
        Err(Or::NoMemory) => Err(Or::NoMemory),
    }
}

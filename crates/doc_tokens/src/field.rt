//! The tokens of a field, in three steps: its marks (`mark_scan`), its words and the tags of its zones (`walk`), and
//! the spans of its zones (`spans`). Each step takes a time linear in what it reads, and no memory for a character.
//! A text that is one run without ends of sentences, as most are, is read without marks (`plain`).
ghost use Rattle.std.specs.Prelude.{◌<◌, ◌^◌, IfOk, length};
ghost use Rattle.charset_map.specs.Spans.{folded};
ghost use Rattle.doc_types.specs.Schemas.{AreZones};
ghost use Rattle.doc_types.specs.Documents.{IsField};
ghost use Rattle.doc_tokens.specs.Tokens.{Gives};
ghost use Rattle.doc_tokens.specs.steps.TokenReader.{FindsIn};

use crate::plain::read_plain;
use crate::reader::Found;
use crate::spans::zone_spans;
use crate::walk::read_text;
use charset_map::Charset;
use doc_types::FieldTokens;
use mark_scan::{MarkRules, marks};
use srch_base::{Items, Or};
use std::alloc::Global;

/// A text has a word whose position would be above the limit.
#[derive(Clone, Copy, PartialEq, Eq)]
pub struct TooLong {
    /// The position of the first such word.
    pub position: u32,
}

/// The words of a text and the tags of its zones.
fn found_in(
    alloc: Global,
    charset: &Charset,
    rules: &MarkRules,
    text: &str,
) -> Result<Found, Or<TooLong>>
    requires size { length text.now < 2 ^ 32 }
    requires zones { AreZones rules.now.zones }
    ensures { FindsIn (folded charset.now) rules.now text.now result }
{
    if rules.strip || rules.sp {
        let marks = marks(alloc, charset, rules, text)?;
        read_text(alloc, charset, marks.as_slice(), text)
    } else {
        read_plain(alloc, charset, text)
    }
}

/// The tokens of a field's text.
///
/// The time is linear in the text's length, whatever the markup. Memory is taken for each word and for the lists of marks,
/// words, zone tags and spans, and for no character.
pub fn tokens(
    alloc: Global,
    charset: &Charset,
    rules: &MarkRules,
    text: &str,
) -> Result<FieldTokens, Or<TooLong>>
    requires size { length text.now < 2 ^ 32 }
    requires zones { AreZones rules.now.zones }
    ensures tokens { Gives (folded charset.now) rules.now text.now result }
    ensures field { IfOk result IsField }
{
    let Found { words, tags } = found_in(alloc, charset, rules, text)?;
    let spans = zone_spans(alloc, tags.as_slice(), words.as_slice())?;
    Ok(FieldTokens {
        words: Items::new(words),
        spans: Items::new(spans),
    })
}

//! A character table, as Sphinx's manual describes it for `charset_table`, without its checkerboard ranges.
//!
//! The table keeps spans in order and not characters, so that the table of all characters is one span. ASCII
//! characters, which most texts are made of, have an array of their own: they take one look-up, and any other character
//! a bisection of the spans.
ghost use Rattle.std.specs.Prelude.{◌≡◌, ◌<◌, ◌^◌, IfOk, length};
ghost use Rattle.charset_map.specs.TableText.{IsTableOf, ReadsTable, default_text};
ghost use Rattle.charset_map.specs.Spans.{folded};

use crate::characters::{character_of, ordinal_of};
use crate::fault::{CharsetFault, CharsetKind};
use crate::gathering::read_spans;
use crate::spans::Spans;
use crate::trimming::all_blank;
use srch_base::{NoMemory, Or};
use std::alloc::Global;
use std::marker::Model;

/// The text of the default table.
const DEFAULT_TEXT: &str =
    "0..9, A..Z->a..z, _, a..z, U+410..U+42F->U+430..U+44F, U+430..U+44F, U+401->U+451, U+451";

/// A character table. Contracts see it as the list of its spans, and `folded` says what each character's value is.
#[derive(Drop)]
pub struct Charset {
    /// The values of the ASCII characters.
    ascii: [Option<char>; 128],
    spans: Spans,
}

impl Model for Charset {
    ghost use Rattle.std.specs.Prelude.{List};
    ghost use Rattle.charset_map.specs.steps.Ascii.{HasAscii};
    ghost use Rattle.charset_map.specs.declared.span.Span.{Span};

    ghost Value = { List Span };

    ghost view = { λ table. table.spans };

    ghost invariant = { λ table. HasAscii table.spans table.ascii 128 };
}

impl Charset {
    /// The table that a text is.
    ///
    /// Reading n entries takes n log n steps, in whatever order they stand, and n log² n where two of them give a character
    /// different values; and memory for each entry. The table has memory for its ranges alone.
    pub fn read(alloc: Global, text: &str) -> Result<Charset, Or<CharsetFault>>
        requires { length text.now < 2 ^ 32 }
        ensures { ReadsTable text.now result }
    {
        if all_blank(text.as_bytes()) {
            return Err(Or::Fault(CharsetFault {
                place: 0,
                kind: CharsetKind::Empty,
            }));
        }
        let spans = read_spans(alloc, text.as_bytes())?;
        Ok(Charset::of(spans))
    }

    /// The table that is meant where a configuration has none: digits, `_`, and the letters of English and Russian, made
    /// small.
    pub fn default_table(alloc: Global) -> Result<Charset, NoMemory>
        ensures { IfOk result (λ table. IsTableOf default_text (folded table)) }
    {
        match Charset::read(alloc, DEFAULT_TEXT) {
            Ok(table) => Ok(table),
            Err(Or::NoMemory) => Err(NoMemory),
            Err(Or::Fault(_)) => unreachable!(),
        }
    }

    /// The table of these spans.
    fn of(spans: Spans) -> Charset
        ensures { result ≡ spans }
    {
        let mut ascii = [None; 128];
        for code in 0..128u8 {
            ascii[usize::from(code)] = value(&spans, char::from(code));
        }
        Charset { ascii, spans }
    }

    /// The value of a character, or none where the table hasn't it.
    ///
    /// An ASCII character takes one look-up, any other a bisection of the table's ranges, and neither memory.
    pub fn fold(&self, c: char) -> Option<char>
        ensures { result ≡ folded self.now c }
    {
        if c.is_ascii() {
            self.ascii[c as usize]
        } else {
            value(&self.spans, c)
        }
    }
}

/// The value of a character by spans.
fn value(spans: &Spans, c: char) -> Option<char>
    ensures { result ≡ folded spans.now c }
{
    match spans.number(ordinal_of(c)) {
        Some(number) => character_of(number),
        None => None,
    }
}

//! A text that is one run without ends of sentences: markup isn't stripped, and no sentences are marked.
//!
//! Then each character is a letter or a separator by the table alone, so the text is read without its one mark. Most
//! characters are ASCII letters and digits that fold to themselves. A run of these is found by its bytes, and the reader
//! takes it in one piece; the character behind it is folded and read by itself.
ghost use Rattle.std.specs.Prelude.{◌≡◌};
ghost use Rattle.std.specs.List.{prefix_len};
ghost use Rattle.std.specs.Str.{chars};
ghost use Rattle.charset_map.specs.Spans.{folded};
ghost use Rattle.doc_tokens.specs.steps.TokenReader.{BeginsWithRun, Finds, is_own, plain_signs};

use crate::cover::in_run;
use crate::field::TooLong;
use crate::reader::{Found, Reader};
use crate::walk::first_char;
use charset_map::Charset;
use srch_base::Or;
use std::alloc::Global;

/// Whether a byte is an ASCII character that the table folds to itself.
fn own_letter(charset: &Charset, byte: u8) -> bool
    ensures { result ≡ is_own (folded charset.now) byte }
{
    byte.is_ascii() && charset.fold(char::from(byte)) == Some(char::from(byte))
}

/// How many characters of this kind a text begins with.
fn own_letters(charset: &Charset, text: &[u8]) -> usize
    ensures { result ≡ prefix_len (is_own (folded charset.now)) text.now }
{
    text.iter()
        .take_while(|byte| own_letter(charset, **byte))
        .count()
}

/// The characters of this kind that a text begins with, and the text after them.
fn own_run<'a>(charset: &Charset, text: &'a str) -> (&'a str, &'a str)
    ensures { BeginsWithRun (folded charset.now) text.now result.0.now result.1.now }
{
    text.split_at(own_letters(charset, text.as_bytes()))
}

/// Reads the words of a text, by the table alone.
pub(crate) fn read_plain(alloc: Global, charset: &Charset, text: &str) -> Result<Found, Or<TooLong>>
    ensures { Finds (plain_signs (folded charset.now) (chars text.now)) result }
{
    let mut reader = Reader::new(alloc, text.len())?;
    let mut rest = text;
    'chars: loop {
        let (run, behind) = own_run(charset, rest);
        reader.letters(run)?;
        match first_char(behind) {
            None => return reader.finish(alloc),
            Some((c, beyond)) => {
                reader.read(alloc, in_run(charset.fold(c), false))?;
                rest = beyond;
            }
        }
    }
}

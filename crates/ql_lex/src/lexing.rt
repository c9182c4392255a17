//! From a text to its tokens. At each offset the first byte decides which reader goes on: a name, a number, a text between
//! quotes, a name between backquotes, a system variable, a comment or a sign. What it finds ends where the next one begins.
//! The first reader that finds a fault ends the whole: a text has all its tokens or its first fault.

ghost use Rattle.std.specs.Prelude.{◌<◌, ◌^◌, length};
ghost use Rattle.ql_lex.specs.steps.Reading.{Reads};
ghost use Rattle.ql_lex.specs.Tokens.{Lexes};

use crate::bytes::{is_blank, is_letter, is_quote};
use crate::comments::comment_at;
use crate::fault::{LexFault, LexKind};
use crate::names::{name_at, quoted_at, variable_at};
use crate::numbers::number_at;
use crate::part::Part;
use crate::signs::sign_at;
use crate::texts::text_at;
use crate::token::{Token, TokenKind};
use srch_base::Or;
use std::alloc::Global;

/// Reads the part of a text at an offset.
fn part_at(text: &[u8], at: usize) -> Result<Part, LexKind>
    requires size { length text.now < 2 ^ 32 }
    requires within { at < length text.now }
    ensures { Reads text.now at result }
{
    let byte = text[at];
    if is_blank(byte) {
        Ok(Part::Blank)
    } else if is_letter(byte) {
        name_at(text, at)
    } else if byte.is_ascii_digit() {
        number_at(text, at)
    } else if is_quote(byte) {
        text_at(text, at)
    } else if byte == b'`' {
        quoted_at(text, at)
    } else if byte == b'@' {
        variable_at(text, at)
    } else if byte == b'/' {
        comment_at(text, at)
    } else {
        sign_at(text, at)
    }
}

/// How many bytes of a statement a token takes, with the blanks before the next one, where most are names and signs.
const BYTES_FOR_A_TOKEN: usize = 4;

/// For how many tokens there is room from the start, at the most: a statement's, but for the rows of a long INSERT.
const FIRST_ROOM: usize = 64;

/// The tokens of a SphinxQL text.
///
/// It takes a time linear in the text's length, whatever the text, and memory for the list alone: tokens are slices of the text.
pub fn lex<'a>(alloc: Global, text: &'a [u8]) -> Result<Vec<Token<'a>>, Or<LexFault>>
    requires { length text.now < 2 ^ 32 }
    ensures { Lexes text.now result }
{
    let room = (text.len() / BYTES_FOR_A_TOKEN).min(FIRST_ROOM);
    let mut tokens = Vec::with_capacity(alloc, room)?;
    let mut at = 0;
    while at < text.len() {
        match part_at(text, at) {
            Ok(Part::Blank) => at += 1,
            Ok(Part::Comment(to)) => at = to,
            Ok(Part::Token(kind, to)) => {
                tokens.push(Token {
                    kind,
                    text: &text[at..to],
                    at: at as u32,
                })?;
                at = to;
            }
            Err(kind) => {
                return Err(Or::Fault(LexFault {
                    place: at as u32,
                    kind,
                }));
            }
        }
    }
    tokens.push(Token {
        kind: TokenKind::End,
        text: &text[text.len()..],
        at: text.len() as u32,
    })?;
    Ok(tokens)
}

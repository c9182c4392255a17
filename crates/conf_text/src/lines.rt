//! The lines of a text.
//!
//! The text is cut after each LF; a CR before it goes too. A part that ends in a backslash is joined with the next one,
//! and the line has the number of its first part. A comment begins with `#` at the start of the line, or after a space
//! or a tab, and ends with the line. One buffer holds the line that is being read.
ghost use Rattle.std.specs.Prelude.{◌≡◌, ◌==◌, ◌<◌, ◌≤◌, ◌+◌, ◌^◌, ◌∷◌, length, IfOk};
ghost use Rattle.std.specs.Str.Lines.{lines, strip_carriage_return};
ghost use Rattle.conf_text.specs.Lines.{begins_comment, content_of, is_joined, joined_parts, uncommented, unjoined};
ghost use Rattle.conf_text.specs.steps.LineReader.{IsPartRead, ReadsLine, bound, left};

use crate::text::{place_of, trim};
use srch_base::NoMemory;

/// The lines of a text, read one by one.
#[derive(Clone, Copy)]
pub struct Lines<'a> {
    /// The text that isn't read yet.
    rest: &'a [u8],
    /// The number of its first part.
    number: u32,
}

/// A line that was read. Its parts, joined, are in the buffer.
#[derive(Clone, Copy)]
pub struct LineHead {
    pub number: u32,
    /// Whether each of its parts is UTF-8.
    pub utf8: bool,
}

/// A part that was read.
#[derive(Clone, Copy)]
struct PartHead {
    /// Whether the next part belongs to the same line.
    goes_on: bool,
    utf8: bool,
}

/// The first part of a text, and the text after it.
fn next_part(text: &[u8]) -> (&[u8], &[u8])
    requires { 0 < length text.now }
    ensures parts { lines text.now ≡ result.0.now ∷ lines result.1.now }
    ensures shorter { length result.1.now < length text.now }
    ensures size { length result.0.now + length result.1.now ≤ length text.now }
{
    let end = place_of(b'\n', text);
    if end == text.len() {
        return text.split_at(end);
    }
    let (part, beyond) = text.split_at(end);
    (without_return(part), beyond.split_at(1).1)
}

/// A part without the CR that it ends with.
fn without_return(part: &[u8]) -> &[u8]
    ensures part { result.now ≡ strip_carriage_return part.now }
    ensures size { length result.now ≤ length part.now }
{
    let count = part.len();
    if count > 0 && part[count - 1] == b'\r' {
        part.split_at(count - 1).0
    } else {
        part
    }
}

/// Whether a part is joined with the next one.
fn joins(part: &[u8]) -> bool
    ensures { result ≡ is_joined part.now }
{
    let count = part.len();
    count > 0 && part[count - 1] == b'\\'
}

/// A part without the backslash that it ends with.
fn without_join(part: &[u8]) -> &[u8]
    ensures part { result.now ≡ unjoined part.now }
    ensures size { length result.now ≤ length part.now }
{
    if joins(part) {
        part.split_at(part.len() - 1).0
    } else {
        part
    }
}

/// What a line says: its text without the comment and the blanks around it.
#[tactic(auto, unfolding(crate::specs::Lines::content_of))]
pub fn content(line: &[u8]) -> &[u8]
    ensures { result.now ≡ content_of line.now }
{
    trim(before_comment(line))
}

/// Whether a comment begins with a byte that stands after another one.
fn opens_comment(before: u8, byte: u8) -> bool
    ensures { result ≡ begins_comment before byte }
{
    byte == b'#' && (before == b' ' || before == b'\t')
}

/// What is before a line's comment.
fn before_comment(line: &[u8]) -> &[u8]
    ensures { result.now ≡ uncommented line.now }
{
    let mut before = b' ';
    for place in 0..line.len() {
        let byte = line[place];
        if opens_comment(before, byte) {
            return line.split_at(place).0;
        }
        before = byte;
    }
    line
}

impl<'a> Lines<'a> {
    /// The lines of a text, from 1.
    pub fn of(text: &'a [u8]) -> Lines<'a>
        ensures rest { result.rest.now ≡ text.now }
        ensures number { result.number ≡ 1 }
    {
        Lines {
            rest: text,
            number: 1,
        }
    }

    /// Whether no line is left.
    pub fn is_empty(&self) -> bool
        ensures { result ≡ (length self.now.rest.now == 0) }
    {
        self.rest.is_empty()
    }

    /// Reads a part, and appends it to the buffer.
    fn read_part(&mut self, buffer: &mut Vec<u8>) -> Result<PartHead, NoMemory>
        requires some { 0 < length self.old.rest.now }
        requires bound { bound self.old < 2 ^ 32 }
        ensures { IfOk result (λ head. IsPartRead self.old buffer.old.items self.new buffer.new.items head) }
    {
        let (part, beyond) = next_part(self.rest);
        buffer.extend_from_slice(without_join(part))?;
        self.rest = beyond;
        self.number += 1;
        Ok(PartHead {
            goes_on: joins(part) && !beyond.is_empty(),
            utf8: str::from_utf8(part).is_ok(),
        })
    }

    /// Reads the next line into the buffer.
    pub fn next_line(&mut self, buffer: &mut Vec<u8>) -> Result<Option<LineHead>, NoMemory>
        requires { bound self.old < 2 ^ 32 }
        ensures { IfOk result (λ head. ReadsLine self.old self.new buffer.new.items head) }
    {
        if self.rest.is_empty() {
            return Ok(None);
        }
        let number = self.number;
        let mut utf8 = true;
        buffer.clear();
        'parts: loop {
            let part = self.read_part(buffer)?;
            utf8 &= part.utf8;
            if !part.goes_on {
                return Ok(Some(LineHead { number, utf8 }));
            }
        }
    }
}

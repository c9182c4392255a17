//! What a chunk promises, whatever keeps it: each call is a fact about one list of rows. All that evaluates queries is written
//! against this trait, and so are the chunks in memory and on disk. The crate's README tells the promises in plain words.
ghost use Rattle.std.specs.Prelude.{◌≡◌, ℕ, ◌+◌, ◌<◌, ◌≤◌, ◌==◌, ◌++◌, List, [], length, map, take, unwrap_or, ◌↔◌, IsSome, IfSome, IfNone, OnOk, OnErr, slice_get, All};
ghost use Rattle.std.specs.Option.{option_map, option_map_or};
ghost use Rattle.std.specs.List.{position};
ghost use Rattle.doc_types.specs.Chunks.{
  IsContent,
  value_at,
  rows_with,
  AreWordsOf,
  last_position,
  gaps_of,
  by_field,
  spans_of,
  CursorPlace,
  IsCursorPlace,
  first_place,
  next_row,
  next_place,
  place_from,
  row_of,
};
ghost use Rattle.doc_types.specs.declared.documents.DocRow.{DocRow};
ghost use Rattle.doc_types.specs.declared.cursor.Cursor.{Cursor};
ghost use Rattle.doc_types.specs.declared.cursor.TheConstants.{NO_ROW};

use crate::cursor::{Cursor, NO_ROW};
use crate::schema::Value;
use crate::tokens::{Gap, ZoneSpan};
use srch_base::NoMemory;

/// A list of rows by ascending id, with the rows of each word.
///
/// Rows, fields, attributes and words have numbers from 0. Every answer is one of the list, whatever keeps it: a plain list,
/// posting lists in memory, or an image of a file. After want of memory all is as before. The lists of places are a trait of their
/// own: `HitLists` for a kind of chunk, `CountedLists` for what evaluates queries.
pub trait Chunk: Drop {
    /// The rows.
    ghost content: { Self → List DocRow };

    /// The words of the rows, ascending.
    ghost words_of: { Self → List (List ℕ) };

    /// The cursor is one of this chunk.
    ghost belongs: { Self → Cursor → Type 0 };

    /// Where a cursor of the chunk stands.
    ghost place: { Self → Cursor → CursorPlace };

    /// How many rows there are.
    fn rows(&self) -> u32
        ensures { result ≡ length (content self.now) };

    /// How many fields each row has: all have as many, since they are of one schema. Where there are no rows, it may be any number.
    fn fields(&self) -> u16
        ensures { All (λ row. length row.doc.fields ≡ result) (content self.now) };

    /// The row's id.
    fn id(&self, row: u32) -> u64
        requires { row < length (content self.now) }
        ensures { option_map (λ found. found.doc.id) (slice_get (content self.now) row) ≡ Some result };

    /// The number of the commit that put the row.
    fn born(&self, row: u32) -> u64
        requires { row < length (content self.now) }
        ensures { option_map (λ found. found.born) (slice_get (content self.now) row) ≡ Some result };

    /// The row's value of an attribute.
    fn value(&self, row: u32, attr: u16) -> Value
        requires { IsSome (value_at (content self.now) row attr) }
        ensures { value_at (content self.now) row attr ≡ Some result };

    /// The row of an id, if it is there.
    fn find(&self, id: u64) -> Option<u32>
        ensures { result ≡ position (λ row. row.doc.id == id) (content self.now) };

    /// How many different words there are.
    fn words(&self) -> u32
        ensures { result ≡ length (words_of self.now) };

    /// The word of this number, in the order of their bytes.
    fn word_at(&self, n: u32) -> &[u8]
        requires { n < length (words_of self.now) }
        ensures { slice_get (words_of self.now) n ≡ Some result.now };

    /// How many rows have the word.
    fn count(&self, word: &[u8]) -> u32
        ensures { result ≡ length (rows_with word.now (content self.now)) };

    /// A cursor before all rows that have the word. None exactly where no row has it.
    fn start(&self, word: &[u8]) -> Option<Cursor>
        ensures found { IsSome result ↔ (0 < length (rows_with word.now (content self.now))) }
        ensures none { IfNone result (rows_with word.now (content self.now) ≡ []) }
        ensures first { IfSome result (λ cursor. belongs self.now cursor × (place self.now cursor ≡ first_place word.now (content self.now))) };

    /// The next row that has the word, if one is left.
    fn row(&self, cursor: &Cursor) -> Option<u32>
        requires { belongs self.now cursor.now }
        ensures next { result ≡ next_row (place self.now cursor.now) }
        ensures none { IfNone result ((place self.now cursor.now).ahead ≡ []) };

    /// Goes over the next row that has the word. A cursor whose rows have ended is left as it is.
    fn advance(&self, cursor: &mut Cursor)
        requires { belongs self.now cursor.old }
        ensures stays { belongs self.now cursor.new }
        ensures next { place self.now cursor.new ≡ next_place (place self.now cursor.old) }
        ensures ended { (place self.now cursor.old).ahead ≡ [] → cursor.new ≡ cursor.old };

    /// Goes over the rows below this one that have the word, and tells the row that comes next then, or `NO_ROW` where none is left.
    fn seek(&self, cursor: &mut Cursor, row: u32) -> u32
        requires { belongs self.now cursor.old }
        ensures stays { belongs self.now cursor.new }
        ensures place { place self.now cursor.new ≡ place_from row (place self.now cursor.old) }
        ensures next { result ≡ unwrap_or (next_row (place self.now cursor.new)) NO_ROW }
    {
        while let Some(next) = self.row(cursor) {
            if next >= row {
                return next;
            }
            self.advance(cursor);
        }
        NO_ROW
    }

    /// Takes the next rows that have the word to the front of a list, as many as there is room for, and goes over them; tells how many
    /// they are. Where they are fewer, none is left.
    fn take_rows(&self, cursor: &mut Cursor, into: &mut [u32]) -> usize
        requires { belongs self.now cursor.old }
        ensures stays { belongs self.now cursor.new }
        ensures within { result ≤ length into.new }
        ensures long { length into.new ≡ length into.old }
        ensures word { (place self.now cursor.new).word ≡ (place self.now cursor.old).word }
        ensures rows { take result into.new ++ (place self.now cursor.new).ahead ≡ (place self.now cursor.old).ahead }
        ensures ended { result < length into.new → (place self.now cursor.new).ahead ≡ [] }
    {
        for taken in 0..into.len() {
            match self.row(cursor) {
                Some(row) => into[taken] = row,
                None => return taken,
            }
            self.advance(cursor);
        }
        into.len()
    }

    /// Appends the positions of the last words of the row's fields, field by field, each 0 where the field has no word.
    fn lasts(&self, row: u32, into: &mut Vec<u32>) -> Result<(), NoMemory>
        requires { row < length (content self.now) }
        ensures ok { OnOk result (into.new.items ≡ into.old.items ++ option_map_or (λ found. map last_position found.doc.fields) (slice_get (content self.now) row) []) }
        ensures err { OnErr result (into.new.items ≡ into.old.items) };

    /// Appends the boundaries of the row, each with its field and the position that it takes, by field and position.
    fn gaps(&self, row: u32, into: &mut Vec<(u16, (u32, Gap))>) -> Result<(), NoMemory>
        requires { row < length (content self.now) }
        ensures ok { OnOk result (into.new.items ≡ into.old.items ++ option_map_or (by_field gaps_of) (slice_get (content self.now) row) []) }
        ensures err { OnErr result (into.new.items ≡ into.old.items) };

    /// Appends the spans of zones of the row, each with its field, by field, first position, last position and zone.
    fn spans(&self, row: u32, into: &mut Vec<(u16, ZoneSpan)>) -> Result<(), NoMemory>
        requires { row < length (content self.now) }
        ensures ok { OnOk result (into.new.items ≡ into.old.items ++ option_map_or spans_of (slice_get (content self.now) row) []) }
        ensures err { OnErr result (into.new.items ≡ into.old.items) };

    /// Its rows are of some schema, ascend by their ids, and are not too many.
    ghost whole: { (chunk : Self) → ∥ IsContent (content chunk) ∥₁ };

    /// Its words are those of its rows.
    ghost all_words: { (chunk : Self) → AreWordsOf (content chunk) (words_of chunk) };

    /// Its cursors stand at rows of it.
    ghost places: { (chunk : Self) (cursor : Cursor) → belongs chunk cursor → IsCursorPlace (content chunk) (place chunk cursor) };

    /// A cursor's row is the next one.
    ghost nexts: { (chunk : Self) (cursor : Cursor) → belongs chunk cursor → next_row (place chunk cursor) ≡ row_of cursor.index };
}

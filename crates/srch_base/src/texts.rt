//! Bytes as contracts see them: a word, a name, a text.
//!
//! The three are one type, `Held`, with a mark that keeps them apart, so that a name is never taken for a word. Up to 30 bytes
//! lie in the value itself and take no memory, so the words of a document, which are short, are one piece of memory together;
//! more bytes lie in a `Vec`. A value has 32 bytes either way.
ghost use Rattle.std.specs.Prelude.{◌≡◌, Some, refl, nat_eq, IfOk};
ghost use Rattle.std.specs.Cmp.{partial_equiv_from_equiv};
ghost use Rattle.std.specs.Cmp.Lexicographic.{pointwise, slice_cmp, nat_list_eq_equiv, nat_list_cmp_total, texts_po, texts_ties};
ghost use Rattle.std.specs.Ordering.{nat_cmp};

use crate::NoMemory;
use crate::places::Storage;
use std::alloc::{AllocError, Global};
use std::cmp::Ordering;
use std::fmt;
use std::marker::{Model, PhantomData};

/// A word of a text: folded characters, as UTF-8 bytes.
pub type Word = Held<WordMark>;

/// A name of an index, a column, a zone or an option, as bytes.
pub type Name = Held<NameMark>;

/// A text as bytes: what a statement, a file or a peer gave.
pub type Text = Held<TextMark>;

const _: () = prove!(size_of::<Word>() == 32);

/// Bytes of a kind. Contracts see them as the list of the bytes, and they are ordered by it.
pub struct Held<Mark> {
    place: Storage,
    mark: PhantomData<Mark>,
}

/// The mark of words.
#[derive(Drop)]
pub struct WordMark;

/// The mark of names.
#[derive(Drop)]
pub struct NameMark;

/// The mark of texts.
#[derive(Drop)]
pub struct TextMark;

impl<Mark> Model for Held<Mark> {
    ghost use Rattle.std.specs.Prelude.{List, ℕ};

    ghost Value = { List ℕ };

    ghost use Rattle.srch_base.specs.Places.{bytes_in};

    ghost view = { λ held. bytes_in held.place };
}

impl<Mark> Held<Mark> {
    /// Takes the bytes over; it takes no memory. Up to 30 bytes are moved into the value, and their `Vec` is freed.
    pub fn new(bytes: Vec<u8>) -> Self
        ensures { result ≡ bytes.items }
    {
        Held {
            place: Storage::new(bytes),
            mark: PhantomData,
        }
    }

    /// Copies the bytes. Up to 30 bytes take no memory.
    pub fn from_slice(alloc: Global, bytes: &[u8]) -> Result<Self, NoMemory>
        ensures { IfOk result (λ copy. copy ≡ bytes.now) }
    {
        Ok(Held {
            place: Storage::from_slice(alloc, bytes)?,
            mark: PhantomData,
        })
    }

    pub fn as_bytes(&self) -> &[u8]
        ensures { result.now ≡ self.now }
    {
        self.place.as_slice()
    }

    /// Gives the bytes as a `Vec`. Up to 30 bytes, which lie in the value, take memory for it.
    pub fn into_vec(self) -> Result<Vec<u8>, NoMemory>
        ensures { IfOk result (λ bytes. bytes.items ≡ self) }
    {
        let Held { place, mark: _ } = self;
        Ok(place.into_vec()?)
    }
}

// Not derived: so letting go of a value is a call, and no caller's proof takes the value apart.
impl<Mark> Drop for Held<Mark> {
    fn drop(self) {
        let Held {
            place: _place,
            mark: _,
        } = self;
    }
}

impl<Mark> Clone for Held<Mark> {
    ghost is_clone = { λ a b. b ≡ a };

    fn clone(&self) -> Result<Self, AllocError> {
        Ok(Held {
            place: self.place.copied()?,
            mark: PhantomData,
        })
    }
}

impl<Mark> fmt::Debug for Held<Mark> {
    fn fmt<W: fmt::Write>(&self, f: &mut fmt::Formatter<W>) -> fmt::Result {
        f.debug_list().entries(self.as_bytes()).finish()
    }
}

impl<Mark> PartialEq for Held<Mark> {
    ghost eq = { pointwise nat_eq };

    ghost laws = { partial_equiv_from_equiv nat_list_eq_equiv };

    fn eq(&self, other: &Self) -> bool {
        self.as_bytes() == other.as_bytes()
    }
}

impl<Mark> Eq for Held<Mark> {
    ghost laws = { nat_list_eq_equiv };
}

impl<Mark> PartialOrd for Held<Mark> {
    ghost partial_cmp = { λ a b. Some (slice_cmp nat_cmp a b) };

    ghost laws = { texts_po };

    fn partial_cmp(&self, other: &Self) -> Option<Ordering> {
        Some(self.cmp(other))
    }
}

impl<Mark> Ord for Held<Mark> {
    ghost cmp = { slice_cmp nat_cmp };

    ghost total = { nat_list_cmp_total };

    ghost matches_partial_cmp = { λ _ _. refl };

    ghost matches_eq = { texts_ties };

    fn cmp(&self, other: &Self) -> Ordering {
        self.as_bytes().cmp(other.as_bytes())
    }
}

//! Where the bytes of a word, a name or a text lie: few of them in the value itself, more in a `Vec`.
//!
//! A `Storage` has the size of a `Vec` and eight bytes more; 30 is how many bytes that leaves for those inside, beside their
//! number and the tag that tells the two places apart.
ghost use Rattle.std.specs.Prelude.{◌≡◌, ◌≤◌, IfOk, length};
ghost use Rattle.srch_base.specs.Places.{bytes_in};

use std::alloc::{AllocError, Global};
use std::marker::Model;

/// How many bytes lie in the value itself.
const INSIDE: usize = 30;

/// Bytes, where they lie.
#[derive(Drop)]
pub(crate) enum Storage {
    Inside(Inside),
    Outside(Vec<u8>),
}

/// The first `count` of these bytes; the others mean nothing.
#[derive(Drop)]
pub(crate) struct Inside {
    count: u8,
    bytes: [u8; INSIDE],
    alloc: Global,
}

impl Model for Inside {
    ghost use Rattle.std.specs.Prelude.{List, ℕ, take, ◌≤◌};
    ghost use Rattle.srch_base.specs.declared.places.TheConstants.{INSIDE};

    ghost Value = { List ℕ };

    ghost view = { λ inside. take inside.count inside.bytes };

    ghost invariant = { λ inside. inside.count ≤ INSIDE };
}

impl Storage {
    /// Moves few bytes inside, and frees their `Vec`.
    pub(crate) fn new(bytes: Vec<u8>) -> Self
        ensures { bytes_in result ≡ bytes.items }
    {
        if bytes.len() <= INSIDE {
            Storage::Inside(Inside::new(*bytes.allocator(), bytes.as_slice()))
        } else {
            Storage::Outside(bytes)
        }
    }

    pub(crate) fn from_slice(alloc: Global, bytes: &[u8]) -> Result<Self, AllocError>
        ensures { IfOk result (λ copy. bytes_in copy ≡ bytes.now) }
    {
        if bytes.len() <= INSIDE {
            Ok(Storage::Inside(Inside::new(alloc, bytes)))
        } else {
            Ok(Storage::Outside(Vec::from_slice(alloc, bytes)?))
        }
    }

    pub(crate) fn as_slice(&self) -> &[u8]
        ensures { result.now ≡ bytes_in self.now }
    {
        match self {
            Storage::Inside(inside) => inside.as_slice(),
            Storage::Outside(bytes) => bytes.as_slice(),
        }
    }

    pub(crate) fn copied(&self) -> Result<Self, AllocError>
        ensures { IfOk result (λ copy. bytes_in copy ≡ bytes_in self.now) }
    {
        match self {
            Storage::Inside(inside) => Ok(Storage::Inside(inside.copied())),
            Storage::Outside(bytes) => Ok(Storage::Outside(bytes.clone()?)),
        }
    }

    /// Bytes that lie inside are copied.
    pub(crate) fn into_vec(self) -> Result<Vec<u8>, AllocError>
        ensures { IfOk result (λ bytes. bytes.items ≡ bytes_in self) }
    {
        match self {
            Storage::Inside(inside) => Vec::from_slice(inside.alloc, inside.as_slice()),
            Storage::Outside(bytes) => Ok(bytes),
        }
    }
}

impl Inside {
    fn new(alloc: Global, from: &[u8]) -> Self
        requires { length from.now ≤ INSIDE }
        ensures { result ≡ from.now }
    {
        let count = from.len();
        let mut bytes = [0; INSIDE];
        bytes[..count].copy_from_slice(from);
        Inside {
            count: count as u8,
            bytes,
            alloc,
        }
    }

    fn as_slice(&self) -> &[u8]
        ensures { result.now ≡ self.now }
    {
        &self.bytes[..self.count as usize]
    }

    fn copied(&self) -> Self
        ensures { result ≡ self.now }
    {
        Inside {
            count: self.count,
            bytes: self.bytes,
            alloc: self.alloc,
        }
    }
}

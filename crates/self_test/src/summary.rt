//! What a selftest says of its documents.
ghost use Rattle.std.specs.Prelude.{◌≡◌};
ghost use Rattle.self_test.specs.Summaries.{lines_of, many};

use crate::generator::{GROUPS, WORDS};
use std::fmt;

/// What a selftest says of its documents. It is printed as five lines, each with its LF.
#[derive(Clone, Copy)]
pub struct Summary {
    pub documents: u64,
    /// How many documents each word finds, together.
    pub words: u64,
    /// How many documents each phrase of a word and the next one finds, together. After the last word comes the first.
    pub pairs: u64,
    /// How many groups have a document.
    pub groups: u64,
    /// How many chunks are on the disk in the end.
    pub chunks: u64,
}

impl fmt::Display for Summary {
    ghost use Rattle.std.specs.Prelude.{Some};

    ghost output = { λ summary. Some (lines_of summary) };

    fn fmt<W: fmt::Write>(&self, f: &mut fmt::Formatter<W>) -> fmt::Result {
        let Summary {
            documents,
            words,
            pairs,
            groups,
            chunks,
        } = *self;
        write!(
            f,
            "documents {documents}\nwords {words}\npairs {pairs}\ngroups {groups}\nchunks {chunks}\n"
        )
    }
}

/// What is counted.
#[derive(Clone, Copy)]
pub(crate) enum Count {
    /// The documents that have a word.
    Words,
    /// Those that have a word and, next to it, the word after.
    Pairs,
    /// 1 for a group that has a document.
    Groups,
}

impl Count {
    /// How many words, phrases or groups there are.
    pub(crate) fn many(self) -> u8
        ensures { result ≡ many self }
    {
        match self {
            Count::Words | Count::Pairs => WORDS,
            Count::Groups => GROUPS,
        }
    }
}

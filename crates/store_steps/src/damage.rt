//! What is wrong with the files of an index.
ghost use Rattle.std.specs.Prelude.{◌≡◌};
ghost use Rattle.store_steps.specs.DamageTexts.{damage_text, image_text};

use chunk_damage::ChunkKind;
use std::{error, fmt};
use thiserror::Error;

/// The most chunks of an index: a root has room for no more.
pub const MOST_OPENED_CHUNKS: usize = 16;

/// Where the files of an index can't be read.
#[derive(Clone, Copy, Debug, PartialEq, Eq, Error)]
#[error("file {file} at {place}: {kind}")]
pub struct Damage {
    pub file: u32,
    pub place: u64,
    pub kind: DamageKind,
}

/// How.
#[derive(Clone, Copy, Debug, PartialEq, Eq)]
pub enum DamageKind {
    /// An open slot ends before its state does.
    RootLength,
    /// A field of an open slot's state breaks the layout, or something follows the last field.
    RootState,
    /// The root's columns aren't those of the configuration.
    RootSchema,
    ChunkMissing,
    /// A chunk's file isn't as long as the root says.
    ChunkLength,
    /// The bytes of a chunk's file are no image of a chunk of the schema.
    Image(ChunkKind),
    /// The root calls a row dead that the chunk doesn't have.
    DeadRows,
    /// A row of a chunk is newer than the last commit that the chunks have.
    Born,
    /// A row lives whose id lives in a chunk before.
    IdTwice,
    LogMissing,
    /// A record, or the gate behind it, isn't whole.
    RecordLength,
    /// The number of a record isn't the next one, or the next one would have a number that a chunk has.
    RecordNumber,
    /// A record holds no transaction of the schema.
    RecordPayload,
}

impl DamageKind {
    /// The kind in words.
    pub fn text(self) -> &'static str
        ensures { result.now ≡ damage_text self }
    {
        match self {
            DamageKind::RootLength => "root length",
            DamageKind::RootState => "root state",
            DamageKind::RootSchema => "root schema",
            DamageKind::ChunkMissing => "chunk missing",
            DamageKind::ChunkLength => "chunk length",
            DamageKind::Image(kind) => image_text(kind),
            DamageKind::DeadRows => "dead rows",
            DamageKind::Born => "born",
            DamageKind::IdTwice => "id twice",
            DamageKind::LogMissing => "log missing",
            DamageKind::RecordLength => "record length",
            DamageKind::RecordNumber => "record number",
            DamageKind::RecordPayload => "record payload",
        }
    }
}

/// The damage of an image in words.
fn image_text(kind: ChunkKind) -> &'static str
    ensures { result.now ≡ image_text kind }
{
    match kind {
        ChunkKind::Magic => "magic",
        ChunkKind::Sizes => "sizes",
        ChunkKind::RowOrder => "row order",
        ChunkKind::Marks => "marks",
        ChunkKind::WordTable => "word table",
        ChunkKind::WordOrder => "word order",
        ChunkKind::Postings => "postings",
        ChunkKind::Cover => "cover",
    }
}

impl fmt::Display for DamageKind {
    ghost use Rattle.std.specs.Prelude.{Some};
    ghost use Rattle.store_steps.specs.DamageTexts.{damage_text};

    ghost output = { λ kind. Some (damage_text kind) };

    fn fmt<W: fmt::Write>(&self, f: &mut fmt::Formatter<W>) -> fmt::Result {
        f.write_str(self.text())
    }
}

impl error::Error for DamageKind {}

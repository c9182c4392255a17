//! A state as a slot keeps it behind its number.
//!
//! ```text
//! length of the state      4 bytes
//! schema text              its length (2), its bytes
//! through                  8 bytes
//! next file                4 bytes
//! older and newer log      4 bytes each
//! chunks                   their number (2), then each: file (4), length (4), number of dead rows (4), dead rows (4 each)
//! ```
//!
//! All numbers have the low byte first.
ghost use Rattle.std.specs.Prelude.{◌≡◌, ◌++◌, ◌<◌, ◌≤◌, ◌^◌, ℕ, List, All, length, IfOk, OnOk};
ghost use Rattle.std.specs.List.{flat_map};
ghost use Rattle.std.specs.Int.{w32, to_le_bytes};
ghost use Rattle.root_slots.specs.States.{AreEntries, IsEntry, IsState, chunks_bytes, entry_bytes, numbers_bytes, state_bytes, text_bytes};

use crate::state::{ChunkEntry, RootState};
use srch_base::{NoMemory, put_u16, put_u32, put_u64};
use std::alloc::Global;
use std::marker::Model;

/// A state as it is written into a slot.
#[derive(Drop)]
pub struct RootBytes {
    bytes: Vec<u8>,
}

impl Model for RootBytes {
    ghost use Rattle.root_slots.specs.declared.state.RootState.{RootState};

    ghost Value = { RootState };

    ghost use Rattle.root_slots.specs.Reading.{state_in};
    ghost use Rattle.root_slots.specs.steps.Spelled.{IsSpelled};

    ghost view = { λ b. state_in b.bytes.items };

    ghost invariant = { λ b. IsSpelled (state_in b.bytes.items) b.bytes.items };
}

impl RootBytes {
    ghost use Rattle.root_slots.specs.Slots.{sized};

    pub fn new(alloc: Global, state: &RootState) -> Result<RootBytes, NoMemory>
        requires { IsState state.now }
        ensures { IfOk result (λ bytes. bytes ≡ state.now) }
    {
        let mut written = Vec::new(alloc);
        put_state(state, &mut written)?;
        let mut bytes = Vec::new(alloc);
        put_u32(written.len() as u32, &mut bytes)?;
        bytes.extend_from_slice(&written)?;
        Ok(RootBytes { bytes })
    }

    /// What stands behind the number.
    pub(crate) fn as_bytes(&self) -> &[u8]
        ensures bytes { result.now ≡ sized self.now }
        ensures state { IsState self.now }
    {
        &self.bytes
    }
}

fn put_state(state: &RootState, out: &mut Vec<u8>) -> Result<(), NoMemory>
    requires { IsState state.now }
    ensures { OnOk result (out.new.items ≡ out.old.items ++ state_bytes state.now) }
{
    put_text(state.schema_text.as_bytes(), out)?;
    put_numbers(state, out)?;
    put_chunks(state.chunks.as_slice(), out)
}

fn put_text(text: &[u8], out: &mut Vec<u8>) -> Result<(), NoMemory>
    requires { length text.now < 2 ^ 16 }
    ensures { OnOk result (out.new.items ≡ out.old.items ++ text_bytes text.now) }
{
    put_u16(text.len() as u16, out)?;
    out.extend_from_slice(text)?;
    Ok(())
}

fn put_numbers(state: &RootState, out: &mut Vec<u8>) -> Result<(), NoMemory>
    ensures { OnOk result (out.new.items ≡ out.old.items ++ numbers_bytes state.now) }
{
    put_u64(state.through, out)?;
    put_u32(state.next_file, out)?;
    put_u32(state.older, out)?;
    put_u32(state.newer, out)
}

fn put_chunks(chunks: &[ChunkEntry], out: &mut Vec<u8>) -> Result<(), NoMemory>
    requires few { length chunks.now ≤ 16 }
    requires dead { All (λ c. length c.dead < 2 ^ 32) chunks.now }
    ensures { OnOk result (out.new.items ≡ out.old.items ++ chunks_bytes chunks.now) }
{
    put_u16(chunks.len() as u16, out)?;
    put_entries(chunks, out)
}

fn put_entries(chunks: &[ChunkEntry], out: &mut Vec<u8>) -> Result<(), NoMemory>
    requires { All (λ c. length c.dead < 2 ^ 32) chunks.now }
    ensures { OnOk result (out.new.items ≡ out.old.items ++ flat_map entry_bytes chunks.now) }
{
    for chunk in chunks {
        put_entry(chunk, out)?;
    }
    Ok(())
}

fn put_entry(chunk: &ChunkEntry, out: &mut Vec<u8>) -> Result<(), NoMemory>
    requires { length chunk.now.dead < 2 ^ 32 }
    ensures { OnOk result (out.new.items ≡ out.old.items ++ entry_bytes chunk.now) }
{
    put_u32(chunk.file, out)?;
    put_u32(chunk.length, out)?;
    put_u32(chunk.dead.len() as u32, out)?;
    put_rows(chunk.dead.as_slice(), out)
}

fn put_rows(rows: &[u32], out: &mut Vec<u8>) -> Result<(), NoMemory>
    ensures { OnOk result (out.new.items ≡ out.old.items ++ flat_map (to_le_bytes w32) rows.now) }
{
    for row in rows {
        put_u32(*row, out)?;
    }
    Ok(())
}

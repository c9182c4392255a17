//! One record of a log, as it stands behind its gate.
//!
//! ```text
//! length of the payload   4 bytes
//! number                  8 bytes
//! payload
//! next gate               1 byte
//! ```
//!
//! All numbers have the low byte first.
ghost use Rattle.std.specs.Prelude.{◌≡◌, ◌<◌, ◌^◌, ◌++◌, ℕ, List, length, IfSome, IfNone};
ghost use Rattle.gate_log.specs.Frames.{frame};
ghost use Rattle.gate_log.specs.declared.records.LogRecord.{LogRecord};

use srch_base::{u32_at, u64_at};

/// The record at the front of what stands behind an open gate: its number, its payload, and what follows, which begins with
/// the next gate. None exactly where no record with a gate behind it stands there.
pub(crate) fn read_frame(bytes: &[u8]) -> Option<(u64, &[u8], &[u8])>
    ensures found { IfSome result (λ r. (bytes.now ≡ frame (record { number = r.0; payload = r.1.now }) ++ r.2.now)) }
    ensures gate { IfSome result (λ r. 0 < length r.2.now) }
    ensures number { IfSome result (λ r. r.0 < 2 ^ 64) }
    ensures small { IfSome result (λ r. length r.1.now < 2 ^ 32) }
    ensures none { IfNone result ((r : LogRecord) (rest : List ℕ) → length r.payload < 2 ^ 32 → 0 < length rest → bytes.now ≡ frame r ++ rest → ⊥) }
{
    let size = u32_at(bytes, 0)? as usize;
    let number = u64_at(bytes, 4)?;
    let behind = bytes.get(12..)?;
    let payload = behind.get(..size)?;
    let rest = behind.get(size..)?;
    if rest.is_empty() {
        return None;
    }
    Some((number, payload, rest))
}

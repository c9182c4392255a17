//! From the state before a piece to the one after it.
ghost use Rattle.std.specs.Prelude.{◌≡◌, ◌≤◌, ◌+◌, nat_le, OnOk, length};
ghost use Rattle.query_marks.specs.Limits.{mask as mask_of};
ghost use Rattle.query_marks.specs.Marks.{passes_limit as passes_the_limit, with_keywords, opened, closed, at_start as state_at_start, setting_of};
ghost use Rattle.charset_map.specs.Spans.{folded};

use crate::limits::all_fields;
use crate::state::State;
use charset_map::Charset;
use doc_types::Schema;
use sqlite_items::Items;
use srch_base::NoMemory;
use std::alloc::Global;

/// Before the first piece: all fields, all positions, no zones.
pub(crate) fn at_start(alloc: Global, charset: &Charset, schema: &Schema) -> State
    requires { length schema.now.fields ≤ 32 }
    ensures { result ≡ state_at_start (setting_of (folded charset.now) schema.now) }
{
    State {
        keywords: 0,
        relaxed: false,
        here: all_fields(schema.fields.as_slice()),
        around: Items::new(alloc),
    }
}

/// Whether so many more keywords are at most 255.
pub(crate) fn has_room(state: &State, more: usize) -> bool
    ensures { result ≡ nat_le (state.now.keywords + more) 255 }
{
    state.keywords <= 255 && more <= usize::from(255 - state.keywords)
}

/// Whether the 256th keyword is among so many more.
pub(crate) fn passes_limit(state: &State, more: usize) -> bool
    ensures { result ≡ passes_the_limit state.now.keywords more }
{
    state.keywords <= 255 && more > usize::from(255 - state.keywords)
}

/// Counts so many keywords more.
pub(crate) fn count(state: &mut State, more: usize)
    ensures { state.new ≡ with_keywords state.old more }
{
    if has_room(state, more) {
        state.keywords += more as u16;
    } else {
        state.keywords = 256;
    }
}

/// A group begins with the limits around it, and no ZONESPAN is in force in it.
pub(crate) fn open(state: &mut State) -> Result<(), NoMemory>
    ensures { OnOk result (state.new ≡ opened state.old) }
{
    state.around.push(state.here)?;
    state.here.span = false;
    Ok(())
}

/// After a group the limits before it are in force again.
pub(crate) fn close(state: &mut State)
    ensures { state.new ≡ closed state.old }
{
    if let Some(outer) = state.around.pop() {
        state.here = outer;
    }
}

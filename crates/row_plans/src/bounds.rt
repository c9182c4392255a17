//! The next row by the plan.
//!
//! Each part of a plan is asked, from one row, how far the next row may be, and answers that row itself exactly where it is as the
//! part wants. Only the outermost loop goes on: a part that leapt by itself would take its cursors past a row at which another
//! part stands. So of an AND the first part that isn't there says how far to go, and a common word is asked only where the rare
//! ones before it stand.
ghost use Rattle.std.specs.Prelude.{◌≡◌, ◌<◌, ◌≤◌, All, IfSome};
ghost use Rattle.std.specs.List.{list_all, list_any};
ghost use Rattle.row_plans.specs.Cursors.{Agree, has_at};
ghost use Rattle.row_plans.specs.Plans.{IsBound, IsFirst, holds, holds_some};
ghost use Rattle.row_plans.specs.steps.Tallies.{IsTally};
ghost use Rattle.doc_types.specs.declared.cursor.TheConstants.{NO_ROW};

use crate::cursors::sought;
use crate::plan::Plan;
use doc_types::{Chunk, Cursor, NO_ROW};

/// The first row from this one on whose words are as the plan wants; `NO_ROW` where there is none. The cursors stand in the order
/// of the keywords, each over the rows that have its word, and none where no row has it.
pub fn next<C: Chunk>(plan: &Plan, chunk: &C, cursors: &mut [Option<Cursor>], from: u32) -> u32
    requires { All (λ cursor. IfSome cursor (C.belongs chunk.now)) cursors.old }
    ensures agree { Agree (C.belongs chunk.now) (C.place chunk.now) result cursors.old cursors.new }
    ensures first { IsFirst (λ row. holds (has_at (C.place chunk.now) cursors.old row) plan.now) from result }
{
    let mut at = from;
    'leap: while at < NO_ROW {
        let far = bound(plan, chunk, cursors, at);
        if far == at {
            return at;
        }
        at = far;
    }
    at
}

/// A row up to which none is as the plan wants, from this one on: itself exactly where it is.
#[cycle(bounding)]
fn bound<C: Chunk>(plan: &Plan, chunk: &C, cursors: &mut [Option<Cursor>], from: u32) -> u32
    requires { All (λ cursor. IfSome cursor (C.belongs chunk.now)) cursors.old }
    ensures agree { Agree (C.belongs chunk.now) (C.place chunk.now) from cursors.old cursors.new }
    ensures bound { IsBound (λ row. holds (has_at (C.place chunk.now) cursors.old row) plan.now) from result }
{
    match plan {
        Plan::Word(number) => of_word(*number, chunk, cursors, from),
        Plan::All(parts) => of_all(parts.as_slice(), chunk, cursors, from),
        Plan::Any(parts) => of_any(parts.as_slice(), chunk, cursors, from),
        Plan::Enough { least, words } => {
            of_enough(*least as usize, words.as_slice(), chunk, cursors, from)
        }
    }
}

/// The first row from this one on that has the word of a keyword.
fn of_word<C: Chunk>(number: u16, chunk: &C, cursors: &mut [Option<Cursor>], from: u32) -> u32
    requires { All (λ cursor. IfSome cursor (C.belongs chunk.now)) cursors.old }
    ensures agree { Agree (C.belongs chunk.now) (C.place chunk.now) from cursors.old cursors.new }
    ensures bound { IsBound (λ row. has_at (C.place chunk.now) cursors.old row number) from result }
{
    let index = number as usize;
    if index >= cursors.len() {
        return NO_ROW;
    }
    sought(chunk, &mut cursors[index], from)
}

/// For all of these: the first that doesn't stand at the row says how far the next one is.
#[cycle(bounding)]
fn of_all<C: Chunk>(parts: &[Plan], chunk: &C, cursors: &mut [Option<Cursor>], from: u32) -> u32
    requires { All (λ cursor. IfSome cursor (C.belongs chunk.now)) cursors.old }
    ensures agree { Agree (C.belongs chunk.now) (C.place chunk.now) from cursors.old cursors.new }
    ensures bound { IsBound (λ row. list_all (holds (has_at (C.place chunk.now) cursors.old row)) parts.now) from result }
{
    for part in parts {
        let far = bound(part, chunk, cursors, from);
        if far > from {
            return far;
        }
    }
    from
}

/// For any of these: the least that one of them says.
#[cycle(bounding)]
fn of_any<C: Chunk>(parts: &[Plan], chunk: &C, cursors: &mut [Option<Cursor>], from: u32) -> u32
    requires { All (λ cursor. IfSome cursor (C.belongs chunk.now)) cursors.old }
    ensures agree { Agree (C.belongs chunk.now) (C.place chunk.now) from cursors.old cursors.new }
    ensures bound { IsBound (λ row. list_any (holds (has_at (C.place chunk.now) cursors.old row)) parts.now) from result }
{
    let mut least = NO_ROW;
    for part in parts {
        let far = bound(part, chunk, cursors, from);
        if far == from {
            return from;
        }
        least = least.min(far);
    }
    least
}

/// For so many of these words: the least of the rows up to which so many of them have one.
fn of_enough<C: Chunk>(
    least: usize,
    words: &[u16],
    chunk: &C,
    cursors: &mut [Option<Cursor>],
    from: u32,
) -> u32
    requires { All (λ cursor. IfSome cursor (C.belongs chunk.now)) cursors.old }
    ensures agree { Agree (C.belongs chunk.now) (C.place chunk.now) from cursors.old cursors.new }
    ensures bound { IsBound (λ row. holds_some least words.now (has_at (C.place chunk.now) cursors.old row)) from result }
{
    let mut at = from;
    'rising: while at < NO_ROW {
        let (count, later) = tally(words, chunk, cursors, from, at);
        if count >= least {
            return at;
        }
        at = later;
    }
    at
}

/// How many of the words have a row from the first one up to the second, and the least row of the others.
fn tally<C: Chunk>(
    words: &[u16],
    chunk: &C,
    cursors: &mut [Option<Cursor>],
    from: u32,
    at: u32,
) -> (usize, u32)
    requires belongs { All (λ cursor. IfSome cursor (C.belongs chunk.now)) cursors.old }
    requires within { from ≤ at }
    requires end { at < NO_ROW }
    ensures agree { Agree (C.belongs chunk.now) (C.place chunk.now) from cursors.old cursors.new }
    ensures tally { IsTally (has_at (C.place chunk.now) cursors.old) words.now from at result.0 result.1 }
{
    let mut count = 0;
    let mut later = NO_ROW;
    for word in words {
        let far = of_word(*word, chunk, cursors, from);
        if far <= at {
            count += 1;
        } else {
            later = later.min(far);
        }
    }
    (count, later)
}

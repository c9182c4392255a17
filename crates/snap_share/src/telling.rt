//! What the end of an engine tells each token, and what it answers.
ghost use Rattle.std.specs.Prelude.{◌≡◌, All, IsTrue};
ghost use Rattle.std.specs.Bool.{Decides};
ghost use Rattle.std.specs.List.{AllByRecursion, AllZip};
ghost use Rattle.store_keep.specs.Tellings.{AreOfIndex, IsTold};
ghost use Rattle.snap_share.specs.Closings.{IsOnLine};
ghost use Rattle.snap_share.specs.steps.Endings.{EndsBy, WasTold};
ghost use Rattle.snap_share.specs.steps.Takings.{HasTaken};

use commit_outcomes::Strayed;
use srch_base::Or;
use step_book::{Faults, Naming, Share, Stops};
use step_tokens::{Note, Token, learn};

/// Whether what a keeper holds is what workers were told.
fn was_told(told: &[Strayed], held: Option<Strayed>) -> bool
    ensures { Decides result (WasTold told.now held) }
{
    match held {
        Some(numbers) => told.contains(&numbers),
        None => told.is_empty(),
    }
}

/// What is answered, by the contradiction that a keeper holds, those that workers were told, and the first that a token shows. That
/// the keeper holds one that nobody was told, or none where someone was, can't come: it is answered as out of memory, where no token
/// shows one.
pub(crate) fn answer_of(
    held: Option<Strayed>,
    told: &[Strayed],
    stray: Option<Strayed>,
) -> Result<(), Or<Strayed>>
    ensures { EndsBy held told.now stray result }
{
    if !was_told(told, held) {
        return match stray {
            Some(numbers) => Err(Or::Fault(numbers)),
            None => Err(Or::NoMemory),
        };
    }
    match held.or(stray) {
        Some(numbers) => Err(Or::Fault(numbers)),
        None => Ok(()),
    }
}

/// Whether what a token took of its index's lines of calls begins them.
fn took_of<J: Naming>(token: &Token<J>, faults: &Share<J, Faults>, stops: &Share<J, Stops>) -> bool
    requires faults { faults.now.index ≡ token.now.index }
    requires stops { stops.now.index ≡ token.now.index }
    ensures { IsTrue result → HasTaken faults.now.calls stops.now.calls token.now }
{
    let mut taken_faults = token.taken_faults().again();
    let mut taken_stops = token.taken_stops().again();
    let has_faults = taken_faults.follow(faults);
    let has_stops = taken_stops.follow(stops);
    has_faults && has_stops
}

/// The same of each token.
pub(crate) fn all_took_of<J: Naming>(
    tokens: &[Token<J>],
    faults: &Share<J, Faults>,
    stops: &Share<J, Stops>,
) -> bool
    requires faults { AreOfIndex faults.now.index tokens.now }
    requires stops { stops.now.index ≡ faults.now.index }
    ensures { IsTrue result → AllByRecursion (HasTaken faults.now.calls stops.now.calls) tokens.now }
{
    match tokens.split_first() {
        None => true,
        Some((token, others)) => {
            took_of(token, faults, stops) && all_took_of(others, faults, stops)
        }
    }
}

/// Has a token learn the history of a note, and compares with that what the token left in doubt.
fn meet<J: Naming>(token: &mut Token<J>, note: &Note<J>)
    requires { note.now.index ≡ token.old.index }
    ensures told { IsTold note.now token.old token.new }
    ensures front { IsOnLine note.now.steps token.old }
{
    learn(token, note);
    let _come = token.has_come();
}

/// The same with each token.
pub(crate) fn meet_all<J: Naming>(tokens: &mut [Token<J>], note: &Note<J>)
    requires { AreOfIndex note.now.index tokens.old }
    ensures told { AllZip (IsTold note.now) tokens.old tokens.new }
    ensures fronts { All (IsOnLine note.now.steps) tokens.old }
{
    if let Some((token, others)) = tokens.split_first_mut() {
        meet(token, note);
        meet_all(others, note);
    }
}

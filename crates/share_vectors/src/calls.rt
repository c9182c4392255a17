//! What a line, its tokens and its notes tell after a few steps, call by call; a step that is published at the second attempt where
//! memory for the first one was refused; and reads after the line's end.
ghost use Rattle.std.specs.Prelude.{◌≡◌, []};
ghost use Rattle.step_line.specs.Lines.{new_line, new_token};
ghost use Rattle.step_line.specs.Tallies.{new_tally};
ghost use Rattle.share_vectors.specs.Users.{AreOfFirst};

use crate::writing::{NewLines, Tallies, is_after, new_lines, open_line, open_tallies, put, token};
use std::alloc::Global;
use std::marker::Brand;
use std::sync::Wait;
use step_book::Naming;
use step_line::Line;
use step_tokens::{Token, learn, snapshot};

/// How many steps are made: each kind once, and a second worker.
const STEPS: u64 = 4;

/// Makes the steps, after each of which the first worker's token reads. Where memory to publish one is refused, it is published at
/// the next attempt. The last step after which the token, or the line, gave another snapshot, or 0.
fn wrong_step<J: Naming, R: Wait>(
    rt: &R,
    alloc: Global,
    line: &mut Line<J>,
    token: &mut Token<J>,
) -> Option<u64> {
    let mut wrong = 0;
    for index in 0..STEPS {
        put(rt, alloc, line, index)?;
        if line.settle(rt).is_err() {
            line.settle(rt).ok()?;
        }
        let step = index + 1;
        let found = snapshot(token).ok()?;
        if token.len() != step || !is_after(&found, step) || !is_after(line.snapshot(), step) {
            wrong = step;
        }
    }
    Some(wrong)
}

/// Makes the steps, and tells of the line its index, steps and workers and the commits of each; of the first worker's token, which
/// reads after each step, its steps, the reads that gave another snapshot, and its commits, of which it is told one.
fn tell<J: Naming, R: Wait>(
    rt: &R,
    alloc: Global,
    line: &mut Line<J>,
    token: &mut Token<J>,
) -> Option<[u64; 8]> {
    let wrong = wrong_step(rt, alloc, line, token)?;
    if token.made() == 0 {
        token.count();
    }
    let workers = line.workers();
    if workers < 2 {
        return None;
    }
    Some([
        u64::from(line.front().index()),
        line.front().len(),
        workers as u64,
        line.count(1),
        line.count(2),
        token.len(),
        wrong,
        token.made(),
    ])
}

/// Tells of the second worker's token whose it is, its steps before and after it learns a note, and what it reads once the line has
/// ended: nothing.
fn ended<J: Naming, R: Wait>(rt: &R, line: Line<J>, mut token: Token<J>) -> [u64; 4] {
    let before = token.len();
    let note = line.note();
    if note.index() == token.index() {
        learn(&mut token, &note);
    }
    line.close(rt);
    let found = snapshot(&mut token).is_ok();
    [
        u64::from(token.worker()),
        before,
        token.len(),
        u64::from(found),
    ]
}

/// Enters a call of the first worker that a fault ended, and gives its token the share.
fn fault<J: Naming>(tallies: &mut Tallies<J>, token: &mut Token<J>) -> Option<()>
    requires { AreOfFirst tallies.old.faults tallies.old.stops token.old }
    ensures { AreOfFirst tallies.new.faults tallies.new.stops token.new }
{
    tallies.faults.prepare().ok()?;
    tallies.faults.enter(1, token.taken_faults());
    token.take_faults(tallies.faults.share(), tallies.faults.count(1));
    Some(())
}

/// Enters two such calls, and one that a contradiction ended. It tells how many of each line are that worker's, by the line and by the
/// token, and how many the other workers have.
fn tallied<J: Naming>(tallies: &mut Tallies<J>, token: &mut Token<J>) -> Option<[u64; 6]>
    requires { AreOfFirst tallies.old.faults tallies.old.stops token.old }
{
    fault(tallies, token)?;
    fault(tallies, token)?;
    tallies.stops.prepare().ok()?;
    tallies.stops.enter(1, token.taken_stops());
    token.take_stops(tallies.stops.share(), tallies.stops.count(1));
    Some([
        tallies.faults.count(1),
        token.faults(),
        tallies.faults.count(2),
        tallies.stops.count(1),
        token.stops(),
        tallies.stops.count(3),
    ])
}

/// Tokens of the first two workers.
fn two_tokens<J: Naming>(line: &Line<J>, tallies: &Tallies<J>) -> Option<(Token<J>, Token<J>)>
    requires { (line.now ≡ new_line 0 3) × (tallies.now.faults ≡ new_tally 0 3) × (tallies.now.stops ≡ new_tally 0 3) }
{
    Some((token(line, tallies, 1)?, token(line, tallies, 2)?))
}

/// Whether each call of a line tells what it is to tell, and then those of the lines of ended calls.
fn tell_all<J: Naming, R: Wait>(
    rt: &R,
    alloc: Global,
    line: Line<J>,
    tallies: &mut Tallies<J>,
) -> bool
    requires { (line ≡ new_line 0 3) × (tallies.old.faults ≡ new_tally 0 3) × (tallies.old.stops ≡ new_tally 0 3) }
{
    let mut line = line;
    let Some(mut again) = token(&line, tallies, 1) else {
        line.close(rt);
        return false;
    };
    match two_tokens(&line, tallies) {
        Some((mut first, second)) => {
            let told = tell(rt, alloc, &mut line, &mut first);
            let ended = ended(rt, line, second);
            let tallied = tallied(tallies, &mut again);
            told == Some([0, 4, 3, 1, 1, 4, 0, 1])
                && ended == [2, 0, 4, 0]
                && tallied == Some([2, 2, 0, 1, 1, 0])
        }
        None => {
            line.close(rt);
            false
        }
    }
}

/// Whether each call tells what it is to tell.
fn calls<J: Naming, R: Wait>(rt: &R, alloc: Global, opened: NewLines) -> bool
    requires book { opened.steps.past.seen.book ≡ J.book 0 }
    requires faults { opened.faults.past.seen.book ≡ J.faults 0 }
    requires stops { opened.stops.past.seen.book ≡ J.stops 0 }
    requires base { (J.base 0).opening ≡ record { number = 0; shape = 0; layers = [] } }
{
    let NewLines {
        steps,
        faults,
        stops,
    } = opened;
    let Some(mut tallies) = open_tallies::<J>(alloc, faults, stops) else {
        return false;
    };
    match open_line::<J>(alloc, steps) {
        Some(line) => tell_all(rt, alloc, line, &mut tallies),
        None => false,
    }
}

#[test]
fn each_call_once(rt: HostRuntime) {
    assert!(rt; calls::<Brand, _>(&rt, rt.alloc(), new_lines()));
}

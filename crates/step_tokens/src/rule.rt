//! The rule of the two ends of an index, in the words of `left_right`: whatever is published is a good history of the index with
//! its last snapshot. That a later one goes on from an earlier one isn't in the rule, since any two fronts of an index tell it.
use crate::shown::Shown;
use crossbeam_utils::rule::{Outcome, Protocol};
use std::marker::PhantomData;
use step_book::Naming;

/// What an end remembers of the rule: nothing.
pub struct Idle;

/// The rule.
pub struct Rises<J: Naming> {
    of: PhantomData<J>,
}

impl<J: Naming> Protocol<Shown, Idle> for Rises<J> {
    ghost use Rattle.step_tokens.specs.Ends.{idle};
    ghost use Rattle.step_tokens.specs.Shows.{IsShown};

    ghost holds = { λ shown views. IsShown J.book J.schema J.base shown };

    ghost first = { idle };
}

/// What a reader learns where it enters: what it finds keeps the rule.
pub struct Finds<J: Naming> {
    of: PhantomData<J>,
}

impl<J: Naming> Outcome<Shown, Idle> for Finds<J> {
    ghost use Rattle.step_tokens.specs.Shows.{IsShown};

    ghost then = { λ old before after new. IsShown J.book J.schema J.base after };
}

/// What the writing end learns where it publishes: nothing more than what it published.
pub struct Shows;

impl Outcome<Shown, Idle> for Shows {
    ghost then = { λ old before after new. Unit {0} };
}

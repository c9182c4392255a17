//! How a keeper ends: all tokens are told the whole history, and the disk is given back.
ghost use Rattle.std.specs.Prelude.{◌≡◌};
ghost use Rattle.std.specs.List.{AllZip};
ghost use Rattle.step_history.specs.History.{place_of};
ghost use Rattle.step_line.specs.Lines.{IsLine};
ghost use Rattle.store_keep.specs.Commits.{front_of};
ghost use Rattle.store_keep.specs.Tellings.{AreOfIndex, AreTokensOf, IsTold, TellsAll, first_stray};

use crate::keeper::Keeper;
use crate::kept::Kept;
use chunk_store::Disk;
use commit_outcomes::Strayed;
use srch_base::Or;
use std::sync::Wait;
use step_book::{Faults, Naming, Stops};
use step_line::Tally;
use step_tokens::{Note, Token, learn};

/// Tells each token a history.
fn tell_all<J: Naming>(tokens: &mut [Token<J>], note: &Note<J>)
    requires { AreOfIndex note.now.index tokens.old }
    ensures { AllZip (IsTold note.now) tokens.old tokens.new }
{
    if let Some((token, others)) = tokens.split_first_mut() {
        learn(token, note);
        tell_all(others, note);
    }
}

impl<D: Disk, J: Naming> Keeper<D, J> {
    /// The numbers of the first token that contradicts this keeper.
    pub fn first_stray(&self, tokens: &[Token<J>]) -> Option<Strayed>
        requires tokens { AreTokensOf self.now.kept.line tokens.now }
        requires first { self.now.first ≡ place_of (J.base self.now.kept.line.index).opening }
        ensures { result ≡ first_stray (J.base self.now.kept.line.index) self.now.kept.line tokens.now }
    {
        match tokens.split_first() {
            None => None,
            Some((token, others)) => match self.stray(token) {
                Some(strayed) => Some(strayed),
                None => self.first_stray(others),
            },
        }
    }

    /// A note of the whole history, which each of the tokens learns. No token learns anything where one contradicts the keeper, or
    /// where one did before.
    pub fn newest(&self, tokens: &mut [Token<J>]) -> Result<Note<J>, Or<Strayed>>
        requires tokens { AreTokensOf self.now.kept.line tokens.old }
        requires first { self.now.first ≡ place_of (J.base self.now.kept.line.index).opening }
        ensures tells { TellsAll (J.base self.now.kept.line.index) self.now.kept.line self.now.strayed tokens.old result tokens.new }
        ensures line { IsLine (J.schema self.now.kept.line.index) (J.base self.now.kept.line.index) self.now.kept.line }
    {
        let note = self.kept.line.note();
        if let Some(strayed) = self.strayed {
            return Err(Or::Fault(strayed));
        }
        if let Some(strayed) = self.first_stray(tokens) {
            return Err(Or::Fault(strayed));
        }
        tell_all(tokens, &note);
        Ok(note)
    }

    /// A note of the whole history.
    pub fn note(&self) -> Note<J>
        ensures note { result ≡ front_of self.now.kept.line }
        ensures line { IsLine (J.schema self.now.kept.line.index) (J.base self.now.kept.line.index) self.now.kept.line }
    {
        self.kept.line.note()
    }

    /// The calls that were charged as faults.
    pub fn faults(&self) -> &Tally<J, Faults>
        ensures { result.now ≡ self.now.faults }
    {
        &self.faults
    }

    /// The calls that were charged as stops.
    pub fn stops(&self) -> &Tally<J, Stops>
        ensures { result.now ≡ self.now.stops }
    {
        &self.stops
    }

    /// Gives the disk back. It waits for those who still read, and readers find nothing more.
    pub fn close<R: Wait>(self, rt: &R) -> D
        ensures { result ≡ self.kept.disk }
    {
        let Keeper {
            kept,
            first: _first,
            records: _records,
            documents: _documents,
            chunks: _chunks,
            strayed: _strayed,
            faults: _faults,
            stops: _stops,
        } = self;
        let Kept {
            alloc: _alloc,
            disk,
            files: _files,
            line,
        } = kept;
        line.close(rt);
        disk
    }
}

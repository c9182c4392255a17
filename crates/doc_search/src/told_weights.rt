//! What a row weighs that is found, by what is told of it alone: 1 where the ranker looks at no hits, and what its fields give where the
//! query is one keyword that goes by its fields and the ranker looks at no more than these. Such a row is offered with its weight, where
//! it stands in its window, and no cursor goes to it.
ghost use Rattle.std.specs.Prelude.{◌≡◌, ◌<◌, IfOk, IfSome, Some, length, slice_get, true};
ghost use Rattle.doc_types.specs.declared.documents.DocRow.{DocRow};
ghost use Rattle.op_eval.specs.Matching.{matches};
ghost use Rattle.doc_search.specs.declared.told_weights.ToldWeight.TheVariants as told_weights;
ghost use Rattle.doc_search.specs.steps.Gathering.{IsAskedOfDocs, IsWeighed};
ghost use Rattle.doc_search.specs.steps.Windows.{MayTell, TellsWeight};

use crate::ready::ReadyQuestion;
use crate::room::{Room, read_values};
use crate::searching::gives_one;
use doc_types::Chunk;
use op_eval::Matches;
use row_flags::Told;
use srch_base::NoMemory;

/// How the weight of a row that is found is known by what is told of it.
#[derive(Clone, Copy)]
pub(crate) enum ToldWeight {
    /// It is 1.
    One,
    /// By the fields that have a hit.
    Fields,
    /// It isn't: no more than a bound may be known.
    Bound,
}

impl ToldWeight {
    pub(crate) fn of<C: Chunk>(asked: &ReadyQuestion<'_>, stream: &Matches<'_, C>) -> ToldWeight
        ensures { stream.now.query ≡ asked.now.query → MayTell asked.now result }
    {
        if gives_one(asked) {
            return ToldWeight::One;
        }
        if asked.looks_at_fields() && stream.goes_by_fields() {
            return ToldWeight::Fields;
        }
        ToldWeight::Bound
    }

    /// Whether it is known.
    pub(crate) fn is_exact(self) -> bool {
        match self {
            ToldWeight::One | ToldWeight::Fields => true,
            ToldWeight::Bound => false,
        }
    }

    /// Whether fields have to be told.
    pub(crate) fn looks_at_fields(self) -> bool
        ensures { self ≡ told_weights.Fields → result ≡ true }
    {
        match self {
            ToldWeight::One => false,
            ToldWeight::Fields | ToldWeight::Bound => true,
        }
    }
}

/// What the row of this number weighs, which matches, by what is told of it. None where that isn't known, or it has no weight.
#[inline]
pub(crate) fn weight_told<C: Chunk>(
    asked: &ReadyQuestion<'_>,
    chunk: &C,
    number: u32,
    weighs: ToldWeight,
    its: Told,
    room: &mut Room,
) -> Result<Option<u64>, NoMemory>
    requires asked { IsAskedOfDocs asked.now (C.content chunk.now) }
    requires number { number < length (C.content chunk.now) }
    requires tells { (doc : DocRow) → slice_get (C.content chunk.now) number ≡ Some doc → TellsWeight asked.now weighs doc its }
    ensures { (doc : DocRow) → slice_get (C.content chunk.now) number ≡ Some doc → matches asked.now.query doc ≡ true → IfOk result (λ told. IfSome told (λ weight. IsWeighed asked.now doc (Some (Some weight)))) }
{
    match weighs {
        ToldWeight::One => Ok(Some(1)),
        ToldWeight::Fields => {
            read_values(asked, chunk, number, &mut room.values)?;
            Ok(asked.weigh_by_fields(its.fields, room.values.as_slice()))
        }
        ToldWeight::Bound => Ok(None),
    }
}

//! What a field gives to a ranking expression: numbers of its hits.
ghost use Rattle.std.specs.Prelude.{◌≡◌, ℕ, List};
ghost use Rattle.doc_types.specs.declared.hits.Hits.{Hits as HitsValue};
ghost use Rattle.rankers.specs.Factors.{factors_of, min_hit_pos};
ghost use Rattle.rankers.specs.Weight.{AreRanked, in_field};
ghost use Rattle.rankers.specs.steps.FieldValue.{with_hit};

use crate::offsets::longest;
use crate::ranker::Factors;
use crate::weighing::count_in;
use crate::words::distinct_words;
use doc_types::{Hit, Hits};

/// What the field gives by its hits, which may come in any order, among those of other fields.
pub fn factors(hits: &Hits, field: u16) -> Factors
    requires { (weights : List ℕ) × AreRanked hits.now weights }
    ensures { result ≡ factors_of (in_field field hits.now.list) }
{
    let list = hits.list.as_slice();
    let hit_count = count_in(list, field);
    if hit_count == 0 {
        return Factors {
            lcs: 0,
            hit_count: 0,
            word_count: 0,
            min_hit_pos: 0,
        };
    }
    Factors {
        lcs: longest(list, field) as u32,
        hit_count: hit_count as u32,
        word_count: distinct_words(list, field) as u32,
        min_hit_pos: first_position(list, field),
    }
}

/// The least position with a hit of the field, 0 where it has none.
fn first_position(hits: &[Hit], field: u16) -> u32
    ensures { result ≡ min_hit_pos (in_field field hits.now) }
{
    let mut least = None;
    for hit in hits {
        least = with_hit(least, field, hit);
    }
    least.unwrap_or(0)
}

/// The least position so far, with one hit more, which may be of another field.
fn with_hit(least: Option<u32>, field: u16, hit: &Hit) -> Option<u32>
    ensures { result ≡ with_hit field least hit.now }
{
    if hit.field != field {
        return least;
    }
    match least {
        Some(least) => Some(least.min(hit.position)),
        None => Some(hit.position),
    }
}

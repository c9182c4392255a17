//! The runs of a phrase: the places of its first keyword, followed from keyword to keyword.
ghost use Rattle.std.specs.Prelude.{◌≡◌, ℕ, ◌+◌, ◌-◌, ◌^◌, ◌<◌, ◌++◌, map, min, All, OnOk};
ghost use Rattle.std.specs.List.{filter};
ghost use Rattle.occ_lists.specs.Places.{ArePlaces, has_place, within_all};
ghost use Rattle.occ_lists.specs.Runs.{runs};
ghost use Rattle.occ_lists.specs.steps.Follow.{ending_at, next_place};
ghost use Rattle.occ_lists.specs.Terms.{IsPlaced};

use crate::occ::Occ;
use crate::places::within;
use crate::term::Term;
use doc_types::ZoneSpan;
use srch_base::NoMemory;

/// Appends the runs of the keywords inside the spans, ascending. `ends` is room to work in.
pub fn put_runs(
    terms: &[Term],
    spans: &[(u16, ZoneSpan)],
    ends: &mut Vec<(u16, u32)>,
    out: &mut Vec<Occ>,
) -> Result<(), NoMemory>
    requires { All IsPlaced terms.now }
    ensures { OnOk result (out.new.items ≡ out.old.items ++ runs (map (λ term. filter (within_all spans.now) term.places.items) terms.now)) }
{
    let Some((first, rest)) = terms.split_first() else {
        return Ok(());
    };
    ends.clear();
    ends.extend_from_slice(within(&first.places, spans))?;
    for term in rest {
        go_on(ends, within(&term.places, spans));
    }
    put_ending(ends, rest.len(), out)
}

/// Goes one position on from each place, where the keyword stands there.
fn go_on(ends: &mut Vec<(u16, u32)>, places: &[(u16, u32)])
    requires ascend { ArePlaces places.now }
    requires below { All (λ end. end.1 < 2 ^ 32 - 1) ends.old.items }
    ensures { ends.new.items ≡ filter (has_place places.now) (map next_place ends.old.items) }
{
    ends.retain_mut(|end| goes_on(end, places));
}

/// Goes one position on, and says whether the keyword stands there.
fn goes_on(end: &mut (u16, u32), places: &[(u16, u32)]) -> bool
    ensures moved { end.new ≡ (end.old.0, min (end.old.1 + 1) (2 ^ 32 - 1)) }
    ensures found { ArePlaces places.now → result ≡ has_place places.now end.new }
{
    end.1 = end.1.saturating_add(1);
    places.binary_search(end).is_ok()
}

/// Appends the occurrences that end at the places, each with so many positions before its last one.
fn put_ending(ends: &[(u16, u32)], steps: usize, out: &mut Vec<Occ>) -> Result<(), NoMemory>
    requires { All (λ end. steps < end.1) ends.now }
    ensures { OnOk result (out.new.items ≡ out.old.items ++ map (ending_at steps) ends.now) }
{
    for end in ends {
        out.push(Occ {
            field: end.0,
            first: end.1 - steps as u32,
            last: end.1,
        })?;
    }
    Ok(())
}

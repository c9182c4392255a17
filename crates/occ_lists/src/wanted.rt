//! The listed words of a proximity: how often each is listed, and where its keywords stand. From each place on, the position by
//! which a word has come often enough is found by binary search in its places.
ghost use Rattle.std.specs.Prelude.{◌≡◌, ◌==◌, ℕ, nat_le, ◌&&◌, All, IfOk};
ghost use Rattle.std.specs.List.{list_any};
ghost use Rattle.occ_lists.specs.OccLists.{SameMembers};
ghost use Rattle.occ_lists.specs.Places.{ArePlaces, occ};
ghost use Rattle.occ_lists.specs.Windows.{all_places};
ghost use Rattle.occ_lists.specs.Terms.{IsPlaced, listed_in};
ghost use Rattle.occ_lists.specs.steps.Wanted.{AreWanted, IsReady, IsWanted, held_of, holds_words, is_upto};

use crate::buffers::Buffers;
use crate::places::{from_on, within};
use crate::term::Term;
use doc_types::ZoneSpan;
use srch_base::NoMemory;

/// A listed word: how often it is listed, and the places at which a listed keyword of it stands, ascending, each once.
#[derive(Drop)]
pub(crate) struct Wanted {
    pub(crate) word: usize,
    pub(crate) times: usize,
    pub(crate) places: Vec<(u16, u32)>,
}

impl Wanted {
    /// The position by which a window from this place holds the word as often as it is listed. None where the word doesn't
    /// follow so often in the field.
    fn reached(&self, from: (u16, u32)) -> Option<u32>
        requires { IsReady self.now }
        ensures { (last : ℕ) → nat_le self.now.times (held_of self.now.places.items (occ from.0 from.1 last)) ≡ is_upto result last }
    {
        let place = from_on(&self.places, from).get(self.times - 1)?;
        if place.0 == from.0 {
            Some(place.1)
        } else {
            None
        }
    }
}

/// The least position at which a window from this place holds each word as often as it is listed. None where a word doesn't
/// follow so often in the field.
pub(crate) fn least_end(words: &[Wanted], from: (u16, u32)) -> Option<u32>
    requires { All IsReady words.now }
    ensures { (last : ℕ) → (nat_le from.1 last && holds_words words.now (occ from.0 from.1 last)) ≡ is_upto result last }
{
    let mut end = from.1;
    for wanted in words {
        end = end.max(wanted.reached(from)?);
    }
    Some(end)
}

/// The listed words of the keywords, with their places inside the spans.
pub(crate) fn listed_words(
    terms: &[Term],
    spans: &[(u16, ZoneSpan)],
    buffers: &mut Buffers,
) -> Result<Vec<Wanted>, NoMemory>
    requires { All IsPlaced terms.now }
    ensures { IfOk result (λ words. AreWanted (listed_in spans.now terms.now) words.items) }
{
    let mut words: Vec<Wanted> = Vec::new(buffers.alloc());
    for term in terms {
        let known = has_word(&words, term.word);
        if !known {
            let more = gather_word(term.word, terms, spans, buffers)?;
            words.push(more)?;
        }
    }
    Ok(words)
}

fn has_word(words: &[Wanted], word: usize) -> bool
    ensures { result ≡ list_any (λ wanted. wanted.word == word) words.now }
{
    words.iter().any(|wanted| wanted.word == word)
}

/// A word with the places of its keywords inside the spans.
fn gather_word(
    word: usize,
    terms: &[Term],
    spans: &[(u16, ZoneSpan)],
    buffers: &mut Buffers,
) -> Result<Wanted, NoMemory>
    requires { All IsPlaced terms.now }
    ensures { IfOk result (IsWanted (listed_in spans.now terms.now) word) }
{
    let mut times = 0;
    let mut places = buffers.take_places();
    for term in terms {
        if term.word == word {
            times += 1;
            places.extend_from_slice(within(&term.places, spans))?;
        }
    }
    sort_places(&mut places);
    Ok(Wanted {
        word,
        times,
        places,
    })
}

/// The places of all keywords inside the spans, ascending, each once.
pub(crate) fn places_of_all(
    terms: &[Term],
    spans: &[(u16, ZoneSpan)],
    buffers: &mut Buffers,
) -> Result<Vec<(u16, u32)>, NoMemory>
    requires { All IsPlaced terms.now }
    ensures ascend { IfOk result (λ all. ArePlaces all.items) }
    ensures same { IfOk result (λ all. SameMembers all.items (all_places (listed_in spans.now terms.now))) }
{
    let mut all = buffers.take_places();
    for term in terms {
        all.extend_from_slice(within(&term.places, spans))?;
    }
    sort_places(&mut all);
    Ok(all)
}

/// Puts places in order, and leaves each once.
fn sort_places(places: &mut Vec<(u16, u32)>)
    ensures ascend { ArePlaces places.new.items }
    ensures same { SameMembers places.new.items places.old.items }
{
    places.sort_unstable();
    places.dedup();
}

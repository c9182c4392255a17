//! Keywords by their places inside the spans in force: how many of them stand there, and what is found of them, by themselves or
//! quoted together.
ghost use Rattle.std.specs.Prelude.{◌≡◌, ◌<◌, ◌^◌, ◌++◌, map, length, All, IfOk, OnOk, if◌then◌else◌, true};
ghost use Rattle.std.specs.List.{flat_map};
ghost use Rattle.occ_lists.specs.Places.{at_place};
ghost use Rattle.occ_lists.specs.Runs.{runs};
ghost use Rattle.occ_lists.specs.Windows.{windows};
ghost use Rattle.occ_lists.specs.Terms.{IsPlaced, listed_in};
ghost use Rattle.op_eval.specs.Finding as form;
ghost use Rattle.op_eval.specs.Finding.{is_some, made, nothing};
ghost use Rattle.op_eval.specs.steps.Evaluating.{Finds};
ghost use Rattle.word_rows.specs.Terms.{AreShort};
ghost use Rattle.op_eval.specs.steps.Worded.{at_each, how_many, quoted_by, term_hits, term_places, worded};

use crate::finding::Finding;
use crate::joining::put_inside;
use crate::matching::Work;
use crate::quorum::is_enough;
use doc_types::{Hit, ZoneSpan};
use occ_lists::{Occ, Term, put_runs, put_windows, within};
use query_tree::How;
use srch_base::NoMemory;

/// Whether the keyword stands inside the spans.
fn stands(term: &Term, spans: &[(u16, ZoneSpan)]) -> bool
    requires { IsPlaced term.now }
    ensures { result ≡ is_some (term_places spans.now term.now) }
{
    !within(&term.places, spans).is_empty()
}

/// How many of the keywords stand inside the spans.
pub(crate) fn standing(terms: &[Term], spans: &[(u16, ZoneSpan)]) -> usize
    requires { All IsPlaced terms.now }
    ensures { result ≡ how_many spans.now terms.now }
{
    let mut count = 0;
    for term in terms {
        if stands(term, spans) {
            count += 1;
        }
    }
    count
}

/// The occurrence at one place.
fn at_place(place: (u16, u32)) -> Occ
    ensures { result ≡ at_place place }
{
    Occ {
        field: place.0,
        first: place.1,
        last: place.1,
    }
}

/// The number of a word as hits have it, where it is short enough.
fn hit_word(number: usize) -> u16
    ensures { number < 2 ^ 16 → result ≡ number }
{
    u16::try_from(number).unwrap_or(u16::MAX)
}

/// Appends a hit at each place of the keyword.
fn put_hits_of(term: &Term, spans: &[(u16, ZoneSpan)], hits: &mut Vec<Hit>) -> Result<(), NoMemory>
    requires { IsPlaced term.now }
    ensures { term.now.word < 2 ^ 16 → OnOk result (hits.new.items ≡ hits.old.items ++ term_hits spans.now term.now) }
{
    let word = hit_word(term.word);
    for place in within(&term.places, spans) {
        hits.push(Hit {
            query: term.query,
            word,
            field: place.0,
            position: place.1,
        })?;
    }
    Ok(())
}

/// Appends a hit at each place of each keyword.
fn put_hits(terms: &[Term], spans: &[(u16, ZoneSpan)], hits: &mut Vec<Hit>) -> Result<(), NoMemory>
    requires { All IsPlaced terms.now }
    ensures { AreShort terms.now → OnOk result (hits.new.items ≡ hits.old.items ++ flat_map (term_hits spans.now) terms.now) }
{
    for term in terms {
        put_hits_of(term, spans, hits)?;
    }
    Ok(())
}

/// Appends an occurrence and a hit at each place of the keyword.
fn put_keyword(term: &Term, spans: &[(u16, ZoneSpan)], out: &mut Finding) -> Result<(), NoMemory>
    requires { IsPlaced term.now }
    ensures occs { OnOk result (out.new.occs.items ≡ out.old.occs.items ++ map at_place (term_places spans.now term.now)) }
    ensures hits { term.now.word < 2 ^ 16 → OnOk result (out.new.hits.items ≡ out.old.hits.items ++ term_hits spans.now term.now) }
{
    let word = hit_word(term.word);
    for place in within(&term.places, spans) {
        out.occs.push(at_place(*place))?;
        out.hits.push(Hit {
            query: term.query,
            word,
            field: place.0,
            position: place.1,
        })?;
    }
    Ok(())
}

/// Appends an occurrence and a hit at each place of each keyword.
fn put_keywords(
    terms: &[Term],
    spans: &[(u16, ZoneSpan)],
    out: &mut Finding,
) -> Result<(), NoMemory>
    requires { All IsPlaced terms.now }
    ensures occs { OnOk result (out.new.occs.items ≡ out.old.occs.items ++ map at_place (flat_map (term_places spans.now) terms.now)) }
    ensures hits { AreShort terms.now → OnOk result (out.new.hits.items ≡ out.old.hits.items ++ flat_map (term_hits spans.now) terms.now) }
{
    for term in terms {
        put_keyword(term, spans, out)?;
    }
    Ok(())
}

/// What a keyword by itself finds.
pub(crate) fn find_words(
    terms: &[Term],
    spans: &[(u16, ZoneSpan)],
    out: &mut Finding,
) -> Result<bool, NoMemory>
    requires { All IsPlaced terms.now }
    ensures { IfOk result (λ told. Finds (AreShort terms.now) (worded spans.now terms.now) out.old out.new told) }
{
    let count = standing(terms, spans);
    if count == 0 {
        return Ok(false);
    }
    put_keywords(terms, spans, out)?;
    Ok(true)
}

/// What keywords that are quoted together find.
pub(crate) fn find_quoted(
    how: How,
    terms: &[Term],
    work: &mut Work,
    out: &mut Finding,
) -> Result<bool, NoMemory>
    requires { All IsPlaced terms.now }
    ensures spans { OnOk result (work.new.spans.items ≡ work.old.spans.items) }
    ensures found { IfOk result (λ told. Finds (AreShort terms.now) (quoted_by work.old.spans.items terms.now how) out.old out.new told) }
{
    match how {
        How::Phrase => find_phrase(terms, work, out),
        How::Within(n) => find_proximity(n, terms, work, out),
        How::AtLeast(_) => find_quorum(how, terms, &work.spans, out),
        How::Share { .. } => find_quorum(how, terms, &work.spans, out),
    }
}

/// What a quorum finds: each place of each keyword, where enough of them stand inside the spans.
fn find_quorum(
    how: How,
    terms: &[Term],
    spans: &[(u16, ZoneSpan)],
    out: &mut Finding,
) -> Result<bool, NoMemory>
    requires { All IsPlaced terms.now }
    ensures { IfOk result (λ told. Finds (AreShort terms.now) (if form.is_enough how (length terms.now) (how_many spans.now terms.now) then at_each spans.now terms.now true else nothing) out.old out.new told) }
{
    let enough = is_enough(how, terms.len(), standing(terms, spans));
    if !enough {
        return Ok(false);
    }
    put_keywords(terms, spans, out)?;
    Ok(true)
}

/// What a phrase finds: its runs, and the hits inside them.
fn find_phrase(terms: &[Term], work: &mut Work, out: &mut Finding) -> Result<bool, NoMemory>
    requires { All IsPlaced terms.now }
    ensures spans { OnOk result (work.new.spans.items ≡ work.old.spans.items) }
    ensures found { IfOk result (λ told. Finds (AreShort terms.now) (made (runs (map (term_places work.old.spans.items) terms.now)) (flat_map (term_hits work.old.spans.items) terms.now)) out.old out.new told) }
{
    let mut ends = work.buffers.take_places();
    let mut runs = work.buffers.take_occs();
    put_runs(terms, &work.spans, &mut ends, &mut runs)?;
    work.buffers.keep_places(ends);
    if runs.is_empty() {
        work.buffers.keep_occs(runs);
        return Ok(false);
    }
    out.occs.extend_from_slice(&runs)?;
    let mut hits = work.buffers.take_hits();
    put_hits(terms, &work.spans, &mut hits)?;
    let some = put_inside(runs, hits, &mut work.buffers, out)?;
    Ok(some)
}

/// What a proximity finds: its windows, and the hits inside them.
fn find_proximity(
    n: u32,
    terms: &[Term],
    work: &mut Work,
    out: &mut Finding,
) -> Result<bool, NoMemory>
    requires { All IsPlaced terms.now }
    ensures spans { OnOk result (work.new.spans.items ≡ work.old.spans.items) }
    ensures found { IfOk result (λ told. Finds (AreShort terms.now) (made (windows n (listed_in work.old.spans.items terms.now)) (flat_map (term_hits work.old.spans.items) terms.now)) out.old out.new told) }
{
    let mut windows = work.buffers.take_occs();
    let mut widest = work.buffers.take_occs();
    put_windows(
        n,
        terms,
        &work.spans,
        &mut work.buffers,
        &mut windows,
        &mut widest,
    )?;
    if windows.is_empty() {
        work.buffers.keep_occs(windows);
        work.buffers.keep_occs(widest);
        return Ok(false);
    }
    out.occs.extend_from_slice(&windows)?;
    work.buffers.keep_occs(windows);
    let mut hits = work.buffers.take_hits();
    put_hits(terms, &work.spans, &mut hits)?;
    let some = put_inside(widest, hits, &mut work.buffers, out)?;
    Ok(some)
}

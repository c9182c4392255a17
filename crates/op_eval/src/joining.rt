//! What is made of two findings by an operator on occurrences, and the hits inside what is made.
ghost use Rattle.std.specs.Prelude.{◌≡◌, [], ◌++◌, All, IfOk, OnOk};
ghost use Rattle.std.specs.List.{filter};
ghost use Rattle.occ_lists.specs.OccLists.{Ascend, SameMembers};
ghost use Rattle.occ_lists.specs.Sound.{IsForward};
ghost use Rattle.op_eval.specs.Finding.{is_inside, is_some, made};
ghost use Rattle.word_rows.specs.RowMarks.{AreMarks};
ghost use Rattle.op_eval.specs.steps.Evaluating.{Finds, join_by};

use crate::finding::Finding;
use doc_types::Hit;
use occ_lists::{Buffers, Cover, Occ, put_before, put_near, put_together};
use srch_base::NoMemory;
use word_rows::RowMarks;

/// An operator on occurrences.
#[derive(Clone, Copy)]
pub(crate) enum Join {
    Before,
    Near(u32),
    Sentence,
    Paragraph,
}

/// Appends those of the hits that lie inside one of the occurrences, and tells whether there is an occurrence.
pub(crate) fn put_inside(
    occs: Vec<Occ>,
    hits: Vec<Hit>,
    buffers: &mut Buffers,
    out: &mut Finding,
) -> Result<bool, NoMemory>
    ensures some { IfOk result (λ told. told ≡ is_some occs.items) }
    ensures occs { OnOk result (out.new.occs.items ≡ out.old.occs.items) }
    ensures hits { OnOk result (out.new.hits.items ≡ out.old.hits.items ++ filter (is_inside occs.items) hits.items) }
{
    let some = !occs.is_empty();
    let cover = Cover::over(occs);
    let kept = inside(&cover, hits);
    out.hits.extend_from_slice(&kept)?;
    buffers.keep_occs(cover.into_list());
    buffers.keep_hits(kept);
    Ok(some)
}

/// Those of the hits that are covered.
fn inside(cover: &Cover, hits: Vec<Hit>) -> Vec<Hit>
    ensures { result.items ≡ filter (is_inside cover.now) hits.items }
{
    let mut hits = hits;
    hits.retain(|hit| cover.holds(hit.field, hit.position));
    hits
}

/// Appends what the operator makes of two lists in order.
fn put_joined(
    join: Join,
    xs: &[Occ],
    ys: &[Occ],
    marks: &RowMarks,
    out: &mut Vec<Occ>,
) -> Result<(), NoMemory>
    requires marks { AreMarks marks.now }
    requires left { Ascend xs.now }
    requires right { Ascend ys.now }
    requires xs { All IsForward xs.now }
    requires ys { All IsForward ys.now }
    requires none { out.old.items ≡ [] }
    ensures { OnOk result (SameMembers out.new.items (join_by marks.now join xs.now ys.now)) }
{
    match join {
        Join::Before => put_before(xs, ys, out),
        Join::Near(n) => put_near(n, xs, ys, out),
        Join::Sentence => put_together(&marks.sentences, xs, ys, out),
        Join::Paragraph => put_together(&marks.paragraphs, xs, ys, out),
    }
}

/// Appends what the operator makes of two findings in order, and the hits of these inside it.
pub(crate) fn put_made(
    join: Join,
    first: Finding,
    second: Finding,
    marks: &RowMarks,
    buffers: &mut Buffers,
    out: &mut Finding,
) -> Result<bool, NoMemory>
    requires marks { AreMarks marks.now }
    requires left { Ascend first.occs.items }
    requires right { Ascend second.occs.items }
    requires xs { All IsForward first.occs.items }
    requires ys { All IsForward second.occs.items }
    requires forward { All IsForward out.old.occs.items }
    ensures forward { OnOk result (All IsForward out.new.occs.items) }
    ensures found { IfOk result (λ told. Finds (Unit {0}) (made (join_by marks.now join first.occs.items second.occs.items) (first.hits.items ++ second.hits.items)) out.old out.new told) }
{
    let mut made = buffers.take_occs();
    put_joined(join, &first.occs, &second.occs, marks, &mut made)?;
    if made.is_empty() {
        buffers.keep_occs(made);
        first.keep(buffers);
        second.keep(buffers);
        return Ok(false);
    }
    out.occs.extend_from_slice(&made)?;
    let Finding { occs, mut hits } = first;
    buffers.keep_occs(occs);
    hits.extend_from_slice(&second.hits)?;
    second.keep(buffers);
    let some = put_inside(made, hits, buffers, out)?;
    Ok(some)
}

//! A query on its way over the rows of a chunk. It goes from row to row by a plan, which says what the words of a row must be; the
//! words that are there decide where they can, and only else are lists of places opened, each keyword's once.
ghost use Rattle.std.specs.Prelude.{◌≡◌, ◌+◌, ◌<◌, ◌≤◌, ◌^◌, ℕ, List, [], true, false, Some, All, AllPairs, IfOk, IfSome, IsTrue, OnOk, ◌↔◌, length, slice_get, unwrap_or};
ghost use Rattle.occ_lists.specs.Terms.{IsPlaced};
ghost use Rattle.word_rows.specs.RowMarks.{Knows};
ghost use Rattle.word_rows.specs.Slots.{AreAt, AreSlots, keys_of, number_among};
ghost use Rattle.doc_types.specs.declared.documents.DocRow.{DocRow};
ghost use Rattle.query_tree.specs.TreeKeys.{node_keys};
ghost use Rattle.word_rows.specs.Keywords.{present_in};
ghost use Rattle.op_eval.specs.Fields.{AreFieldsOf, IsFieldWord};
ghost use Rattle.op_eval.specs.Finding.{node_finds};
ghost use Rattle.occ_lists.specs.OccLists.{SameMembers};
ghost use Rattle.op_eval.specs.steps.Searching.{IsSearch, KnowsRow, node_found};
ghost use Rattle.op_eval.specs.steps.Streaming.{IsFirstOpen};
ghost use Rattle.op_eval.specs.steps.Wanted.{is_wanted};
ghost use Rattle.row_plans.specs.Living.{HasGone};
ghost use Rattle.word_rows.specs.Terms.{AreSeenIn, AreTermsOf};
ghost use Rattle.op_eval.specs.steps.Verdicts.{AreApart};

use crate::finding::{Finding, find};
use crate::matching::{Work, matches};
use crate::planning::{has_vetoes, plan_of};
use crate::verdict::{Verdict, judge, present_count};
use crate::walking::{next_row_alive, row_counts};
use doc_types::{Chunk, CountedLists, Gap};
use occ_lists::{Buffers, Term};
use query_tree::Node;
use row_plans::Plan;
use srch_base::{NoMemory, Steps};
use std::alloc::Global;
use word_rows::{AskedMarks, RowMarks, Slots, asks_for, looks_at_fields};

/// A query's tree over a chunk.
#[derive(Drop)]
pub(crate) struct Search<'q> {
    pub root: &'q Node,
    pub slots: Slots<'q>,
    pub asked: AskedMarks,
    /// What the words of a row must be, for the row to match.
    pub plan: Plan,
    /// A row whose words are so may be vetoed by its words.
    pub vetoed: bool,
    /// It is one keyword, whose limits look at fields alone.
    pub by_fields: bool,
    /// The row that was looked at last, if the terms still know which words it has.
    pub known: Option<u32>,
    pub marks: RowMarks,
    pub work: Work,
    gaps: Vec<(u16, (u32, Gap))>,
}

impl<'q> Search<'q> {
    pub(crate) fn over<C: Chunk>(
        alloc: Global,
        root: &'q Node,
        chunk: &C,
    ) -> Result<Search<'q>, NoMemory>
        ensures { IfOk result (λ search. IsSearch (C.belongs chunk.now) (C.place chunk.now) (C.content chunk.now) 0 root.now search) }
    {
        let slots = Slots::over(alloc, root, chunk)?;
        let counts = row_counts(alloc, &slots.keys, chunk)?;
        let plan = plan_of(alloc, root, &counts)?;
        Ok(Search {
            root,
            slots,
            asked: asks_for(root),
            plan,
            vetoed: has_vetoes(root),
            by_fields: is_field_word(root),
            known: None,
            marks: RowMarks::new(alloc),
            work: Work {
                spans: Vec::new(alloc),
                buffers: Buffers::new(alloc),
            },
            gaps: Vec::new(alloc),
        })
    }

    /// The first row from this one on that isn't dead and of whose words the plan holds. The first `gone` of the dead rows lie
    /// before the row at which it begins, and then before that which it answers.
    pub(crate) fn next_row<C: Chunk>(
        &mut self,
        chunk: &C,
        dead: &[u32],
        gone: &mut usize,
        from: u32,
    ) -> Option<u32>
        requires from { from ≤ length (C.content chunk.now) }
        requires ascend { AllPairs (λ row later. row < later) dead.now }
        requires gone { HasGone dead.now gone.old from }
        requires search { IsSearch (C.belongs chunk.now) (C.place chunk.now) (C.content chunk.now) from self.old.root.now self.old }
        ensures root { self.new.root ≡ self.old.root }
        ensures gone { HasGone dead.now gone.new (unwrap_or result (length (C.content chunk.now))) }
        ensures search { IsSearch (C.belongs chunk.now) (C.place chunk.now) (C.content chunk.now) (unwrap_or result (length (C.content chunk.now))) self.old.root.now self.new }
        ensures first { IsFirstOpen (is_wanted self.old.root.now dead.now) dead.now (C.content chunk.now) from result }
    {
        self.known = None;
        next_row_alive(&self.plan, chunk, &mut self.slots, dead, gone, from)
    }

    /// Whether the row, of whose words the plan holds, may match, as far as its words tell.
    pub(crate) fn may_match<C: Chunk>(&mut self, chunk: &C, row: u32) -> bool
        requires { IsSearch (C.belongs chunk.now) (C.place chunk.now) (C.content chunk.now) row self.old.root.now self.old }
        ensures root { self.new.root ≡ self.old.root }
        ensures search { IsSearch (C.belongs chunk.now) (C.place chunk.now) (C.content chunk.now) row self.old.root.now self.new }
        ensures passed { result ≡ false → (found : DocRow) → slice_get (C.content chunk.now) row ≡ Some found → (node_found self.old.root.now found).matches ≡ false }
    {
        if !self.vetoed {
            return true;
        }
        seek(&mut self.slots, &mut self.known, chunk, row);
        may_match(self.root, &self.slots.terms)
    }

    /// How many keywords' words the row has, where its words tell that it matches. None where its places may decide. No list of them
    /// is opened.
    pub(crate) fn sure_words<C: Chunk>(&mut self, chunk: &C, row: u32) -> Option<usize>
        requires { IsSearch (C.belongs chunk.now) (C.place chunk.now) (C.content chunk.now) row self.old.root.now self.old }
        ensures root { self.new.root ≡ self.old.root }
        ensures search { IsSearch (C.belongs chunk.now) (C.place chunk.now) (C.content chunk.now) row self.old.root.now self.new }
        ensures sure { (its : DocRow) → slice_get (C.content chunk.now) row ≡ Some its → IfSome result (λ words. ((node_found self.old.root.now its).matches ≡ true) × (words ≡ present_in its (node_keys self.old.root.now))) }
    {
        seek(&mut self.slots, &mut self.known, chunk, row);
        match judge(self.root, &self.slots.terms, false) {
            Verdict::Yes => Some(present_count(&self.slots.terms)),
            Verdict::No | Verdict::Open => None,
        }
    }

    /// Whether the row matches. After want of memory the row can be asked again.
    pub(crate) fn matches<C: CountedLists>(
        &mut self,
        chunk: &C,
        row: u32,
        steps: &mut Steps<C::Book>,
    ) -> Result<bool, NoMemory>
        requires row { row < length (C.content chunk.now) }
        requires search { IsSearch (C.belongs chunk.now) (C.place chunk.now) (C.content chunk.now) row self.old.root.now self.old }
        ensures count { (its : DocRow) → slice_get (C.content chunk.now) row ≡ Some its → steps.new ≤ steps.old + present_in its (node_keys self.old.root.now) }
        ensures root { self.new.root ≡ self.old.root }
        ensures search { IsSearch (C.belongs chunk.now) (C.place chunk.now) (C.content chunk.now) row self.old.root.now self.new }
        ensures told { (found : DocRow) → slice_get (C.content chunk.now) row ≡ Some found → IfOk result (λ told. told ≡ (node_found self.old.root.now found).matches) }
    {
        seek(&mut self.slots, &mut self.known, chunk, row);
        match judge(self.root, &self.slots.terms, false) {
            Verdict::No => Ok(false),
            Verdict::Yes => Ok(true),
            Verdict::Open if self.by_fields => Ok(self.fields(chunk, row, steps) != 0),
            Verdict::Open => {
                self.load(chunk, row, steps)?;
                let told = matches(self.root, &self.slots.terms, &self.marks, &mut self.work);
                // Want of memory may have left some in force.
                self.work.spans.clear();
                told
            }
        }
    }

    /// The fields in which the row has hits, as bits, where the tree is one keyword whose limits look at fields alone. It matches
    /// where there is one.
    pub(crate) fn fields<C: CountedLists>(
        &mut self,
        chunk: &C,
        row: u32,
        steps: &mut Steps<C::Book>,
    ) -> u32
        requires row { row < length (C.content chunk.now) }
        requires search { IsSearch (C.belongs chunk.now) (C.place chunk.now) (C.content chunk.now) row self.old.root.now self.old }
        requires word { IsFieldWord self.old.root.now }
        ensures count { (its : DocRow) → slice_get (C.content chunk.now) row ≡ Some its → steps.new ≤ steps.old + present_in its (node_keys self.old.root.now) }
        ensures root { self.new.root ≡ self.old.root }
        ensures search { IsSearch (C.belongs chunk.now) (C.place chunk.now) (C.content chunk.now) row self.old.root.now self.new }
        ensures fields { (its : DocRow) → slice_get (C.content chunk.now) row ≡ Some its → AreFieldsOf (node_found self.old.root.now its) result }
    {
        seek(&mut self.slots, &mut self.known, chunk, row);
        self.slots.fields(chunk, row, steps)
    }

    /// Whether the row matches, and what is found in it, in the place of what was found before.
    pub(crate) fn find<C: CountedLists>(
        &mut self,
        chunk: &C,
        row: u32,
        found: &mut Finding,
        steps: &mut Steps<C::Book>,
    ) -> Result<bool, NoMemory>
        requires row { row < length (C.content chunk.now) }
        requires search { IsSearch (C.belongs chunk.now) (C.place chunk.now) (C.content chunk.now) row self.old.root.now self.old }
        ensures count { (its : DocRow) → slice_get (C.content chunk.now) row ≡ Some its → steps.new ≤ steps.old + present_in its (node_keys self.old.root.now) }
        ensures root { self.new.root ≡ self.old.root }
        ensures search { IsSearch (C.belongs chunk.now) (C.place chunk.now) (C.content chunk.now) row self.old.root.now self.new }
        ensures told { (its : DocRow) → slice_get (C.content chunk.now) row ≡ Some its → IfOk result (λ told. told ≡ (node_found self.old.root.now its).matches) }
        ensures occs { (its : DocRow) → slice_get (C.content chunk.now) row ≡ Some its → OnOk result (SameMembers found.new.occs.items (node_found self.old.root.now its).occurrences) }
        ensures hits { (its : DocRow) → slice_get (C.content chunk.now) row ≡ Some its → length (node_keys self.old.root.now) < 2 ^ 16 → OnOk result (SameMembers found.new.hits.items (node_found self.old.root.now its).hits) }
    {
        found.clear();
        let judged = self.is_judged(row);
        seek(&mut self.slots, &mut self.known, chunk, row);
        if is_ruled_out(judged, self.root, &self.slots.terms) {
            return Ok(false);
        }
        self.load(chunk, row, steps)?;
        let told = find(
            self.root,
            &self.slots.terms,
            &self.marks,
            &mut self.work,
            found,
        );
        // Want of memory may have left some in force.
        self.work.spans.clear();
        told
    }

    /// Whether the row's words needn't be looked at again, where the plan holds of them: none vetoes, or they were looked at last.
    fn is_judged(&self, row: u32) -> bool {
        !self.vetoed || is_row(self.known, row)
    }

    /// Reads what the query asks of the row.
    fn load<C: CountedLists>(
        &mut self,
        chunk: &C,
        row: u32,
        steps: &mut Steps<C::Book>,
    ) -> Result<(), NoMemory>
        requires row { row < length (C.content chunk.now) }
        requires search { IsSearch (C.belongs chunk.now) (C.place chunk.now) (C.content chunk.now) row self.old.root.now self.old }
        requires at { AreAt (C.place chunk.now) (C.content chunk.now) row self.old.slots }
        requires seen { (found : DocRow) → slice_get (C.content chunk.now) row ≡ Some found → AreSeenIn found (keys_of self.old.slots) self.old.slots.terms.items }
        ensures count { (its : DocRow) → slice_get (C.content chunk.now) row ≡ Some its → steps.new ≤ steps.old + present_in its (node_keys self.old.root.now) }
        ensures root { self.new.root ≡ self.old.root }
        ensures search { IsSearch (C.belongs chunk.now) (C.place chunk.now) (C.content chunk.now) row self.old.root.now self.new }
        ensures terms { (found : DocRow) → slice_get (C.content chunk.now) row ≡ Some found → OnOk result (AreTermsOf found (number_among (node_keys self.old.root.now)) (node_keys self.old.root.now) self.new.slots.terms.items) }
        ensures marks { (found : DocRow) → slice_get (C.content chunk.now) row ≡ Some found → OnOk result (Knows found self.old.root.now self.new.marks) }
        ensures placed { OnOk result (All IsPlaced self.new.slots.terms.items) }
    {
        self.known = None;
        self.marks.load(chunk, row, self.asked, &mut self.gaps)?;
        self.slots.load(chunk, row, &self.marks.spans, &mut self.work.buffers, steps)?;
        Ok(())
    }
}

/// Whether the tree is one keyword whose limits look at fields alone.
fn is_field_word(root: &Node) -> bool
    ensures { IsTrue result ↔ IsFieldWord root.now }
{
    match root {
        Node::Word(key) => looks_at_fields(key),
        _ => false,
    }
}

/// Goes to the row: each term knows afterwards whether the row has its word. At the row that was looked at last nothing is left to
/// do.
fn seek<C: Chunk>(slots: &mut Slots, known: &mut Option<u32>, chunk: &C, row: u32)
    requires slots { AreSlots (C.belongs chunk.now) (C.place chunk.now) (C.content chunk.now) row slots.old }
    requires known { KnowsRow (C.place chunk.now) (C.content chunk.now) slots.old known.old }
    ensures keys { slots.new.keys ≡ slots.old.keys }
    ensures slots { AreSlots (C.belongs chunk.now) (C.place chunk.now) (C.content chunk.now) row slots.new }
    ensures known { KnowsRow (C.place chunk.now) (C.content chunk.now) slots.new known.new }
    ensures at { AreAt (C.place chunk.now) (C.content chunk.now) row slots.new }
    ensures seen { (found : DocRow) → slice_get (C.content chunk.now) row ≡ Some found → AreSeenIn found (keys_of slots.new) slots.new.terms.items }
{
    if is_row(*known, row) {
        return;
    }
    slots.seek(chunk, row);
    *known = Some(row);
}

/// Whether it is this row.
fn is_row(known: Option<u32>, row: u32) -> bool
    ensures { result ≡ true → known ≡ Some row }
{
    match known {
        Some(known) => known == row,
        None => false,
    }
}

/// Whether the row's words rule it out, where that wasn't looked at before.
fn is_ruled_out(judged: bool, root: &Node, terms: &[Term]) -> bool
    ensures { result ≡ true → (row : DocRow) (number : List ℕ → ℕ) → AreApart number (node_keys root.now) → AreSeenIn row (node_keys root.now) terms.now → (node_finds row number root.now []).matches ≡ false }
{
    !judged && !may_match(root, terms)
}

/// Whether a row may match, as far as its words tell.
fn may_match(root: &Node, terms: &[Term]) -> bool
    ensures { result ≡ false → (row : DocRow) (number : List ℕ → ℕ) → AreApart number (node_keys root.now) → AreSeenIn row (node_keys root.now) terms.now → (node_finds row number root.now []).matches ≡ false }
{
    match judge(root, terms, false) {
        Verdict::No => false,
        Verdict::Open | Verdict::Yes => true,
    }
}

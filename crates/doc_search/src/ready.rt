//! What a search goes by.
ghost use Rattle.std.specs.Prelude.{◌≡◌, IfOk, true};
ghost use Rattle.doc_types.specs.declared.hits.Hits.{Hits as HitsValue};
ghost use Rattle.rank_expr.specs.ByFields.{AreAlone, AreFew};
ghost use Rattle.rankers.specs.Weight.{AreRanked};
ghost use Rattle.doc_search.specs.Rankings.{weigh};
ghost use Rattle.doc_search.specs.steps.ByFields.{LooksAtFields};
ghost use Rattle.doc_search.specs.steps.Lacking.{sought_question};

use crate::question::Question;
use doc_types::{Hits, Value};
use row_select::Conditions;
use srch_base::NoMemory;
use std::alloc::Global;
use std::marker::Model;

/// A question, and its conditions made ready once for all documents. Contracts see it as the question; or where it asks for documents
/// without a weight, as the question whose ranker tells that.
#[derive(Drop)]
pub(crate) struct ReadyQuestion<'a> {
    pub(crate) question: &'a Question,
    /// Whether it asks for documents without a weight.
    pub(crate) lacking: bool,
    pub(crate) conditions: Conditions<'a>,
    /// Whether conditions are asked of a row before the query is: it has no word, so that each row matches. Speed alone rests on it.
    pub(crate) conditions_first: bool,
    /// Whether the ranker weighs documents with hits of one keyword by the fields that have one.
    by_fields: bool,
    pub(crate) alloc: Global,
}

impl<'a> Model for ReadyQuestion<'a> {
    ghost use Rattle.std.specs.Prelude.{◌≡◌, true};
    ghost use Rattle.std.specs.Coded.{codes};
    ghost use Rattle.query_tree.specs.contracts.query.Node as node;
    ghost use Rattle.rank_expr.specs.contracts.expr.Expr as expr;
    ghost use Rattle.doc_search.specs.steps.ByFields.{LooksAtFields};
    ghost use Rattle.doc_search.specs.steps.Lacking.{sought_question};
    ghost use Rattle.doc_search.specs.declared.question.Question.{Question};

    ghost Value = { Question };

    ghost coded = { Prim.hlevel (codes, node.the_row.coded, expr.the_row.coded) };

    ghost view = { λ a. sought_question a.lacking a.question.now };

    ghost invariant = { λ a. (a.conditions ≡ a.question.now.filters) × (a.by_fields ≡ true → LooksAtFields a.question.now.ranker) };
}

impl<'a> ReadyQuestion<'a> {
    pub(crate) fn over(
        alloc: Global,
        question: &'a Question,
        lacking: bool,
    ) -> Result<ReadyQuestion<'a>, NoMemory>
        ensures { IfOk result (λ asked. asked ≡ sought_question lacking question.now) }
    {
        let conditions = Conditions::over(alloc, question.filters.as_slice())?;
        Ok(ReadyQuestion {
            question,
            lacking,
            conditions,
            conditions_first: question.query.root.is_none() && !question.filters.is_empty(),
            by_fields: question.ranker.looks_at_fields(),
            alloc,
        })
    }

    /// The weight of a document, by all that its ranker may look at.
    pub(crate) fn weigh(&self, hits: &Hits, values: &[Value]) -> Option<u64>
        requires { AreRanked hits.now self.now.weights.list }
        ensures { result ≡ weigh self.now.ranker hits.now self.now.weights.list values.now }
    {
        let question = self.question;
        question
            .ranker
            .weigh(self.lacking, hits, &question.weights, values)
    }

    /// Whether the ranker weighs documents with hits of one keyword by the fields that have one.
    pub(crate) fn looks_at_fields(&self) -> bool
        ensures { result ≡ true → LooksAtFields self.now.ranker }
    {
        self.by_fields
    }

    /// The weight of a document by the fields that have hits, as bits, where all hits are of one keyword.
    pub(crate) fn weigh_by_fields(&self, fields: u32, values: &[Value]) -> Option<u64>
        requires few { AreFew self.now.query.keywords self.now.weights.list }
        requires looks { LooksAtFields self.now.ranker }
        ensures { (hits : HitsValue) → AreAlone self.now.query.keywords fields self.now.weights.list hits → result ≡ weigh self.now.ranker hits self.now.weights.list values.now }
    {
        let question = self.question;
        let keywords = question.query.keywords;
        let weights = &question.weights;
        question
            .ranker
            .weigh_by_fields(self.lacking, keywords, fields, weights, values)
    }
}

//! The parts of an AND, in order: the rarest first, since the first that a row hasn't says how far the next row may be.
ghost use Rattle.std.specs.Prelude.{◌≡◌, ℕ, Bool, ◌&&◌, ◌||◌, [], IfOk, OnOk};
ghost use Rattle.std.specs.List.{list_all, list_any};
ghost use Rattle.row_plans.specs.Plans.{holds};
ghost use Rattle.row_plans.specs.declared.plan.Plan.{Plan as PlanValue};
ghost use Rattle.row_plans.specs.declared.plan.Plan.TheVariants as plans;

use row_plans::Plan;
use sqlite_items::Items;
use srch_base::NoMemory;
use std::alloc::Global;

/// A plan, with a number of rows that it lets at most through, as far as the counts of its words tell.
#[derive(Drop)]
pub(crate) struct Rated {
    pub plan: Plan,
    pub rows: u32,
}

/// Parts of an AND, by how many rows they let through. Both lists have the same order.
#[derive(Drop)]
pub(crate) struct Parts {
    pub plans: Vec<Plan>,
    pub rows: Vec<u32>,
}

impl Parts {
    /// No part yet.
    pub(crate) fn new(alloc: Global) -> Parts
        ensures { result.plans.items ≡ [] }
    {
        Parts {
            plans: Vec::new(alloc),
            rows: Vec::new(alloc),
        }
    }

    /// Puts a part in its place.
    pub(crate) fn put(&mut self, part: Rated) -> Result<(), NoMemory>
        ensures { OnOk result ((holds : PlanValue → Bool) → list_all holds self.new.plans.items ≡ (holds part.plan && list_all holds self.old.plans.items)) }
    {
        let rows = part.rows;
        let place = self.rows.partition_point(|count| *count <= rows);
        self.rows.insert(place, rows)?;
        self.plans.insert(place.min(self.plans.len()), part.plan)?;
        Ok(())
    }

    /// All of them.
    pub(crate) fn all(self) -> Rated
        ensures { result.plan ≡ plans.All self.plans.items }
    {
        Rated {
            rows: least_of(&self.rows),
            plan: Plan::All(Items::from_vec(self.plans)),
        }
    }
}

/// The first of these; where there are none, as many as there can be.
fn least_of(rows: &[u32]) -> u32 {
    match rows.first() {
        None => u32::MAX,
        Some(count) => *count,
    }
}

/// Either of two. Where the one is a choice already, the other joins it: a choice of five words is one list, not four in one another.
pub(crate) fn either(alloc: Global, one: Rated, other: Rated) -> Result<Rated, NoMemory>
    ensures { IfOk result (λ rated. (has : ℕ → Bool) → holds has rated.plan ≡ (holds has one.plan || holds has other.plan)) }
{
    let rows = one.rows.saturating_add(other.rows);
    let mut choices = choices_of(alloc, one.plan)?;
    choices.push(other.plan)?;
    Ok(Rated {
        plan: Plan::Any(choices),
        rows,
    })
}

/// The choices of a plan, of which any is enough: those of a choice, or else the plan alone.
fn choices_of(alloc: Global, plan: Plan) -> Result<Items<Plan>, NoMemory>
    ensures { IfOk result (λ choices. (has : ℕ → Bool) → list_any (holds has) choices ≡ holds has plan) }
{
    match plan {
        Plan::Any(choices) => Ok(choices),
        plan => {
            let mut alone = Vec::new(alloc);
            alone.push(plan)?;
            Ok(Items::from_vec(alone))
        }
    }
}

//! The conditions of a search, made ready once and then asked of many rows.
ghost use Rattle.std.specs.Prelude.{◌≡◌, false, IfNone, IfOk, IfSome};
ghost use Rattle.std.specs.List.{list_any};
ghost use Rattle.std.specs.List.Sorted.{IsSorted};
ghost use Rattle.std.specs.Ordering.{int_cmp};
ghost use Rattle.row_select.specs.Filters.{AreIdsOf, IsHighOf, IsLowOf, bounds_above, bounds_below, hold_unweighed, hold_weighed, holds, is_among, is_weighed, lists_ids};
ghost use Rattle.row_select.specs.steps.Listing.{AreListed, ListsIds, passes};

use crate::filter::Filter;
use crate::found::FoundRow;
use srch_base::NoMemory;
use std::alloc::Global;
use std::marker::Model;

/// The conditions of a search, ready to be asked of many rows.
///
/// They keep the numbers of each list in order, so that a row's number is looked up by binary search: the time that a list of n
/// numbers takes for a row grows with the logarithm of n. To ask takes no memory.
#[derive(Drop)]
pub struct Conditions<'a> {
    list: Vec<Condition<'a>>,
}

impl<'a> Model for Conditions<'a> {
    ghost use Rattle.std.specs.Prelude.{List};
    ghost use Rattle.row_select.specs.declared.filter.Filter.{Filter};

    ghost Value = { List Filter };

    ghost view = { λ a. a.list.items };
}

impl<'a> Conditions<'a> {
    /// Takes 16 bytes for each number of a list, and as many for a comparison.
    pub fn over(alloc: Global, filters: &'a [Filter]) -> Result<Conditions<'a>, NoMemory>
        ensures { IfOk result (λ conditions. conditions ≡ filters.now) }
    {
        let mut list = Vec::with_capacity(alloc, filters.len())?;
        for filter in filters {
            list.push(Condition::over(alloc, filter)?)?;
        }
        Ok(Conditions { list })
    }

    /// Whether those conditions hold of a row that aren't on its weight. They may be asked before it has one. Only the columns are
    /// read that are asked for, one after the other until a condition fails.
    pub fn hold_unweighed<R: FoundRow>(&self, row: &R) -> bool
        ensures { result ≡ hold_unweighed self.now (R.as_row row.now) }
    {
        self.list
            .iter()
            .all(|condition| condition.is_weighed() || condition.holds(row))
    }

    /// Numbers, in order, among which is the id of each row of which those conditions hold that aren't on its weight: those that
    /// the first condition lists that asks for one of some ids. None where no condition does.
    pub fn ids(&self) -> Option<&[i128]>
        ensures ids { IfSome result (λ ids. AreIdsOf self.now ids.now) }
        ensures none { IfNone result (list_any lists_ids self.now ≡ false) }
    {
        for condition in &self.list {
            if let Some(ids) = condition.ids() {
                return Some(ids);
            }
        }
        None
    }

    /// A number that no id is below of those rows of which those conditions hold: that of the first condition that says one. None
    /// where no condition does.
    pub fn low_id(&self) -> Option<&i128>
        ensures low { IfSome result (λ low. IsLowOf self.now low.now) }
        ensures none { IfNone result (list_any bounds_below self.now ≡ false) }
    {
        for condition in &self.list {
            if let Some(low) = condition.filter.low() {
                return Some(low);
            }
        }
        None
    }

    /// A number that no id is above of those rows of which those conditions hold. None where no condition says one.
    pub fn high_id(&self) -> Option<&i128>
        ensures high { IfSome result (λ high. IsHighOf self.now high.now) }
        ensures none { IfNone result (list_any bounds_above self.now ≡ false) }
    {
        for condition in &self.list {
            if let Some(high) = condition.filter.high() {
                return Some(high);
            }
        }
        None
    }

    /// Whether one of them is on the weight.
    pub fn look_at_weight(&self) -> bool
        ensures { result ≡ list_any is_weighed self.now }
    {
        self.list.iter().any(|condition| condition.is_weighed())
    }

    /// Whether those hold that are on its weight.
    pub fn hold_weighed<R: FoundRow>(&self, row: &R) -> bool
        ensures { result ≡ hold_weighed self.now (R.as_row row.now) }
    {
        self.list.iter().all(|condition| !condition.is_weighed() || condition.holds(row))
    }
}

/// A condition, with the numbers that it lists, in order: one for a comparison.
#[derive(Drop)]
struct Condition<'a> {
    filter: &'a Filter,
    listed: Vec<i128>,
}

impl<'a> Model for Condition<'a> {
    ghost use Rattle.row_select.specs.declared.filter.Filter.{Filter};
    ghost use Rattle.row_select.specs.steps.Listing.{AreListed};

    ghost Value = { Filter };

    ghost view = { λ a. a.filter.now };

    ghost invariant = { λ a. AreListed a.filter.now a.listed.items };
}

impl<'a> Condition<'a> {
    fn over(alloc: Global, filter: &'a Filter) -> Result<Condition<'a>, NoMemory>
        ensures { IfOk result (λ condition. condition ≡ filter.now) }
    {
        let listed = listed_in_order(alloc, filter)?;
        Ok(Condition { filter, listed })
    }

    fn is_weighed(&self) -> bool
        ensures { result ≡ is_weighed self.now }
    {
        self.filter.is_weighed()
    }

    fn holds<R: FoundRow>(&self, row: &R) -> bool
        ensures { result ≡ holds self.now (R.as_row row.now) }
    {
        self.passes(&row.value(self.filter.column()))
    }

    /// The numbers that it lists, where it asks for one of some ids. None where it doesn't.
    fn ids(&self) -> Option<&[i128]>
        ensures ids { IfSome result (λ ids. ListsIds self.now ids.now) }
        ensures none { IfNone result (lists_ids self.now ≡ false) }
    {
        if self.filter.lists_ids() {
            Some(&self.listed)
        } else {
            None
        }
    }

    /// Whether it holds of what a row has in its column.
    fn passes(&self, value: &i128) -> bool
        ensures { result ≡ passes self.now value.now }
    {
        match self.filter {
            Filter::Compare {
                op,
                value: number,
                ..
            } => op.holds(*value, *number),
            Filter::Among { negated, .. } => stands_among(&self.listed, value) != *negated,
            Filter::Between { low, high, .. } => *low <= *value && *value <= *high,
        }
    }
}

/// The numbers that a condition lists, in order.
fn listed_in_order(alloc: Global, filter: &Filter) -> Result<Vec<i128>, NoMemory>
    ensures { IfOk result (λ numbers. AreListed filter.now numbers.items) }
{
    match filter {
        Filter::Among { values, .. } => {
            let mut numbers = Vec::from_slice(alloc, values.as_slice())?;
            numbers.sort_unstable();
            Ok(numbers)
        }
        Filter::Compare { value, .. } => Ok(vec![in alloc; *value]?),
        Filter::Between { .. } => Ok(Vec::new(alloc)),
    }
}

/// Whether a number is among others that are in order.
fn stands_among(numbers: &[i128], number: &i128) -> bool
    requires { IsSorted int_cmp numbers.now }
    ensures { result ≡ is_among numbers.now number.now }
{
    numbers.binary_search(number).is_ok()
}

//! What a list of occurrences covers. In order, and each reaching as far as one before it does, one look tells whether some of
//! them holds a place: the last that begins at it or before.
ghost use Rattle.std.specs.Prelude.{◌≡◌, ℕ};
ghost use Rattle.std.specs.List.{list_any};
ghost use Rattle.occ_lists.specs.Places.{holds};
ghost use Rattle.occ_lists.specs.steps.Spread.{reaching, spread_all};

use crate::occ::Occ;
use crate::order::sort_distinct;
use std::marker::Model;

/// The places that some of a list of occurrences hold.
#[derive(Drop)]
pub struct Cover {
    /// In order, and each reaches as far as those before it in its field.
    list: Vec<Occ>,
}

impl Model for Cover {
    ghost use Rattle.std.specs.Prelude.{List};
    ghost use Rattle.occ_lists.specs.declared.occ.Occ.{Occ};
    ghost use Rattle.occ_lists.specs.steps.Spread.{IsSpread};

    ghost Value = { List Occ };

    ghost view = { λ cover. cover.list.items };

    ghost invariant = { λ cover. IsSpread cover.list.items };
}

impl Cover {
    /// What the occurrences cover.
    pub fn over(list: Vec<Occ>) -> Cover
        ensures { (place : ℕ × ℕ) → list_any (λ o. holds o place) result ≡ list_any (λ o. holds o place) list.items }
    {
        let mut list = list;
        sort_distinct(&mut list);
        spread(&mut list);
        Cover { list }
    }

    /// Whether the place is one of them.
    pub fn holds(&self, field: u16, position: u32) -> bool
        ensures { result ≡ list_any (λ o. holds o (field, position)) self.now }
    {
        let begun = self.list.partition_point(|occ| occ.field < field
            || occ.field == field && occ.first <= position);
        match self.list.split_at(begun).0.last() {
            Some(occ) => occ.field == field && position <= occ.last,
            None => false,
        }
    }

    /// Gives the list back, for its memory.
    pub fn into_list(self) -> Vec<Occ> {
        let Cover { list } = self;
        list
    }
}

/// Makes each reach as far as those before it in its field.
fn spread(list: &mut Vec<Occ>)
    ensures { list.new.items ≡ spread_all list.old.items }
{
    for at in 1..list.len() {
        list[at] = reaching(list[at - 1], list[at]);
    }
}

/// A later one, made to reach as far as the one before it.
fn reaching(before: Occ, here: Occ) -> Occ
    ensures { result ≡ reaching before here }
{
    if here.field == before.field {
        Occ {
            field: here.field,
            first: here.first,
            last: before.last.max(here.last),
        }
    } else {
        here
    }
}

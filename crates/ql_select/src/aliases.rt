//! The aliases of a SELECT's list, among which the names of orders and of HAVING are looked up.
//!
//! How many items and keys there are is looked at after their names, so both may be as many as a packet has room for. A map from
//! the aliases to the places of their items keeps that cheap: n log n comparisons for n names.
ghost use Rattle.std.specs.Prelude.{◌≡◌, ℕ, List, IfOk, OnOk, Some, None, option_copied, if◌then◌else◌};
ghost use Rattle.std.specs.Option.{option_or};
ghost use Rattle.std.specs.Str.{bytes_eq};
ghost use Rattle.ql_select.specs.Names.{alias_of, aliased, is_of_rows};
ghost use Rattle.ql_select.specs.steps.Aliases.{place_in};

use ql_tree::{SelectExpr, SelectItem};
use srch_base::NoMemory;
use std::alloc::Global;
use std::collections::BTreeMap;
use std::marker::Model;

/// The aliases of a list, each with the place of the first item that has it. Contracts see them as the list, with whether items
/// that have a value for each row count alone.
#[derive(Drop)]
pub(crate) struct Aliases<'a> {
    rows: bool,
    items: &'a [SelectItem],
    places: BTreeMap<&'a [u8], usize>,
}

impl<'a> Model for Aliases<'a> {
    ghost use Rattle.std.specs.Prelude.{Bool, List};
    ghost use Rattle.ql_tree.specs.declared.select.SelectItem.{SelectItem};
    ghost use Rattle.ql_select.specs.steps.Aliases.{HasAliases};

    ghost Value = { Bool × List SelectItem };

    ghost view = { λ aliases. (aliases.rows, aliases.items.now) };

    ghost invariant = { λ aliases. HasAliases aliases.rows aliases.places aliases.items.now };
}

impl<'a> Aliases<'a> {
    /// The aliases of these items; where rows alone count, of those that have a value for each row.
    pub(crate) fn of(
        alloc: Global,
        rows: bool,
        items: &'a [SelectItem],
    ) -> Result<Aliases<'a>, NoMemory>
        ensures { IfOk result (λ aliases. aliases ≡ (rows, items.now)) }
    {
        let mut places = BTreeMap::new(alloc);
        'items: for (place, item) in items.iter().enumerate() {
            if let Some(alias) = alias_of(rows, item) {
                put_first(&mut places, alias, place)?;
            }
        }
        Ok(Aliases {
            rows,
            items,
            places,
        })
    }

    /// The place of the first item that has the name as its alias.
    pub(crate) fn place(&self, name: &[u8]) -> Option<usize>
        ensures { result ≡ aliased self.now.0 self.now.1 name.now }
    {
        match self.places.get(name) {
            Some(place) => Some(*place),
            None => None,
        }
    }
}

/// The place of an alias, unless it has one.
fn put_first<'a>(
    places: &mut BTreeMap<&'a [u8], usize>,
    alias: &'a [u8],
    place: usize,
) -> Result<(), NoMemory>
    ensures { OnOk result ((name : List ℕ) → place_in places.new name ≡ option_or (place_in places.old name) (if bytes_eq alias.entry.now name then Some place else None)) }
{
    if !places.contains_key(alias) {
        places.insert(alias, place)?;
    }
    Ok(())
}

/// The alias of an item; where rows alone count, of one that has a value for each row.
fn alias_of(rows: bool, item: &SelectItem) -> Option<&[u8]>
    ensures { option_copied result ≡ alias_of rows item.now }
{
    match item {
        SelectItem::One {
            expr,
            alias: Some(alias),
        } if !rows || is_of_rows(expr) => Some(alias.as_bytes()),
        _ => None,
    }
}

/// Whether the expression is a name or the weight.
fn is_of_rows(expr: &SelectExpr) -> bool
    ensures { result ≡ is_of_rows expr.now }
{
    matches!(expr, SelectExpr::Column(_) | SelectExpr::Weight)
}

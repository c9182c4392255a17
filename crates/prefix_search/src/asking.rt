//! The query that is asked in the place of one with prefixes.
ghost use Rattle.std.specs.Prelude.{◌≡◌, IfOk, map};
ghost use Rattle.std.specs.List.{list_any};
ghost use Rattle.doc_types.specs.Snapshots.{all_living};
ghost use Rattle.op_eval.specs.Numbered.{IsNumbered};
ghost use Rattle.query_tree.specs.TreeKeys.{query_keys};
ghost use Rattle.prefix_search.specs.Asking.{Asks};

use doc_types::{Chunk, Snapshot};
use prefix_terms::{TooMany, expand, rewrite};
use query_tree::{Key, Query, put_keys};
use srch_base::{NoMemory, Or};
use std::alloc::Global;

/// The query without prefixes that is asked of a snapshot in the place of this one; None where it has no prefixes itself. Or how many
/// words its prefixes have, where these are too many.
pub fn query_to_ask<C: Chunk>(
    alloc: Global,
    query: &Query,
    snapshot: &Snapshot<C>,
) -> Result<Option<Query>, Or<TooMany>>
    requires { IsNumbered query.now }
    ensures { Asks query.now (all_living snapshot.now.layers) result }
{
    let has_prefix = has_prefix(alloc, query)?;
    if !has_prefix {
        return Ok(None);
    }
    match expand(alloc, snapshot, query) {
        Ok(expansion) => {
            let other = rewrite(alloc, query, &expansion)?;
            Ok(Some(other))
        }
        Err(Or::NoMemory) => Err(Or::NoMemory),
        Err(Or::Fault(many)) => Err(Or::Fault(many)),
    }
}

/// Whether one of the query's keywords is a prefix.
fn has_prefix(alloc: Global, query: &Query) -> Result<bool, NoMemory>
    ensures { IfOk result (λ has. has ≡ list_any (λ key. key.prefix) (query_keys query.now)) }
{
    let keys = keys_of(alloc, query)?;
    Ok(any_prefix(&keys))
}

/// Whether one of the keywords is a prefix.
fn any_prefix(keys: &[&Key]) -> bool
    ensures { result ≡ list_any (λ key. key.now.prefix) keys.now }
{
    keys.iter().any(|key| key.prefix)
}

/// The keywords of the query.
fn keys_of(alloc: Global, query: &Query) -> Result<Vec<&Key>, NoMemory>
    ensures { IfOk result (λ keys. map (λ key. key.now) keys.items ≡ query_keys query.now) }
{
    let mut keys = Vec::new(alloc);
    match &query.root {
        Some(root) => put_keys(root, &mut keys)?,
        None => {}
    }
    Ok(keys)
}

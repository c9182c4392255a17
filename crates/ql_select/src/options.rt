//! The options of a SELECT: `ranker`, `max_matches` and `field_weights`. Of an option that is given twice the last counts.
ghost use Rattle.std.specs.Prelude.{◌≡◌, ◌≤◌, ℕ, All, IfOk, List, Some, length, option_copied};
ghost use Rattle.doc_types.specs.declared.schema.TheConstants.{MAX_ATTRS};
ghost use Rattle.ql_tree.specs.declared.select.OptionValue.TheVariants as values;
ghost use Rattle.ql_select.specs.steps.Rankings.{RankingOr};
ghost use Rattle.ql_select.specs.Options.{field_weights_option, is_option, last_value, max_matches_of, ranker_named, ranker_option, weight_for, weights_in, weights_of};

use doc_search::Ranking;
use doc_types::Schema;
use ql_refusals::{Refusal, bad_expr};
use ql_tree::{OptionValue, SelectOption};
use rank_expr::read_expr;
use rankers::{Ranker, Weights};
use srch_base::{Items, Name, NoMemory, Or};
use std::alloc::Global;

pub(crate) const RANKER_OPTION: &[u8] = b"ranker";

pub(crate) const MAX_MATCHES_OPTION: &[u8] = b"max_matches";

pub(crate) const FIELD_WEIGHTS_OPTION: &[u8] = b"field_weights";

/// Two options that are read and not used.
const MAX_QUERY_TIME_OPTION: &[u8] = b"max_query_time";

const COMMENT_OPTION: &[u8] = b"comment";

/// The ranker whose call has an expression as its text.
pub(crate) const EXPR_RANKER: &[u8] = b"expr";

/// How many rows there are for the page where nothing is said.
pub const DEFAULT_MAX_MATCHES: u64 = 1000;

/// Whether there is an option of this name.
pub(crate) fn is_option(name: &[u8]) -> bool
    ensures { result ≡ is_option name.now }
{
    name == RANKER_OPTION
        || name == MAX_MATCHES_OPTION
        || name == FIELD_WEIGHTS_OPTION
        || name == MAX_QUERY_TIME_OPTION
        || name == COMMENT_OPTION
}

/// The ranker of a name.
pub(crate) fn ranker_named(name: &[u8]) -> Option<Ranker>
    ensures { result ≡ ranker_named name.now }
{
    if name == b"none".as_slice() {
        Some(Ranker::None)
    } else if name == b"wordcount".as_slice() {
        Some(Ranker::WordCount)
    } else if name == b"proximity".as_slice() {
        Some(Ranker::Proximity)
    } else if name == b"matchany".as_slice() {
        Some(Ranker::MatchAny)
    } else if name == b"fieldmask".as_slice() {
        Some(Ranker::FieldMask)
    } else {
        None
    }
}

/// The value of the last option of this name.
fn last_value<'a>(options: &'a [SelectOption], name: &[u8]) -> Option<&'a OptionValue>
    ensures { option_copied result ≡ last_value options.now name.now }
{
    let last = options
        .iter()
        .rev()
        .find(|option| option.name.as_bytes() == name);
    match last {
        Some(option) => Some(&option.value),
        None => None,
    }
}

/// How documents are weighed: by `proximity`, if nothing is said; or why the text of an expression is none.
pub(crate) fn ranking_of(
    alloc: Global,
    schema: &Schema,
    options: &[SelectOption],
) -> Result<Ranking, Or<Refusal>>
    requires { length schema.now.attrs ≤ MAX_ATTRS }
    ensures { RankingOr schema.now (last_value options.now ranker_option) result }
{
    match last_value(options, RANKER_OPTION) {
        Some(OptionValue::Call { text, .. }) => ranking_by(alloc, schema, text.as_bytes()),
        Some(OptionValue::Name(name)) => Ok(Ranking::Plain(ranker_named(name.as_bytes()).unwrap_or(
            Ranker::Proximity,
        ))),
        _ => Ok(Ranking::Plain(Ranker::Proximity)),
    }
}

/// How documents are weighed by the expression that a text is.
fn ranking_by(alloc: Global, schema: &Schema, text: &[u8]) -> Result<Ranking, Or<Refusal>>
    requires { length schema.now.attrs ≤ MAX_ATTRS }
    ensures { (name : List ℕ) → RankingOr schema.now (Some (values.Call name text.now)) result }
{
    match read_expr(alloc, text, schema) {
        Ok(expr) => Ok(Ranking::Expr(expr)),
        Err(Or::NoMemory) => Err(Or::NoMemory),
        Err(Or::Fault(fault)) => Err(Or::Fault(bad_expr(&fault))),
    }
}

/// How many rows there are for the page.
pub(crate) fn max_matches_of(options: &[SelectOption]) -> u64
    ensures { result ≡ max_matches_of options.now }
{
    match last_value(options, MAX_MATCHES_OPTION) {
        Some(OptionValue::Number(number)) => *number,
        _ => DEFAULT_MAX_MATCHES,
    }
}

/// The weight of each field, by the schema's order.
pub(crate) fn weights_of(
    alloc: Global,
    schema: &Schema,
    options: &[SelectOption],
) -> Result<Weights, NoMemory>
    requires small { All (λ given. given.1 ≤ 65535) (weights_in (last_value options.now field_weights_option)) }
    ensures { IfOk result (λ weights. weights.list ≡ weights_of schema.now options.now) }
{
    let given = given_weights(options);
    let mut list = Vec::with_capacity(alloc, schema.fields.len())?;
    'fields: for field in schema.fields.as_slice() {
        list.push(weight_for(given, field.as_bytes()))?;
    }
    Ok(Weights {
        list: Items::new(list),
    })
}

/// The weights that are given, by names of fields.
fn given_weights(options: &[SelectOption]) -> &[(Name, u64)]
    ensures { result.now ≡ weights_in (last_value options.now field_weights_option) }
{
    match last_value(options, FIELD_WEIGHTS_OPTION) {
        Some(OptionValue::List(list)) => list.as_slice(),
        _ => &[],
    }
}

/// The weight that is given to a field, else 1.
fn weight_for(given: &[(Name, u64)], field: &[u8]) -> u32
    requires small { All (λ one. one.1 ≤ 65535) given.now }
    ensures { result ≡ weight_for given.now field.now }
{
    'given: for one in given {
        if one.0.as_bytes() == field {
            return one.1 as u32;
        }
    }
    1
}

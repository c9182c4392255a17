//! What is wrong with the options of a SELECT: their names, the names in their values, and kinds and ranges, each from left to
//! right.
ghost use Rattle.std.specs.Prelude.{◌≡◌, ◌||◌, [], fold, is_some, not};
ghost use Rattle.std.specs.Str.{bytes_eq};
ghost use Rattle.ql_refusals.specs.Refusals.{first_of, ranker_not_offered, unless, wrong_kind};
ghost use Rattle.ql_select.specs.Options.{expr_ranker, ranker_named, ranker_option};
ghost use Rattle.ql_select.specs.FirstFaults.{sooner};
ghost use Rattle.ql_select.specs.Faults.{field_weights_fault, is_weighed, max_matches_fault, option_fault, option_name_fault, options_faults, other_fault, ranker_fault, weight_fault, weight_names_fault};

use crate::first_fault::{FaultClass, FirstFault};
use crate::options::{
    EXPR_RANKER, FIELD_WEIGHTS_OPTION, MAX_MATCHES_OPTION, RANKER_OPTION, is_option, ranker_named,
};
use doc_types::Schema;
use ql_columns::{IndexColumn, column_named, name_fault};
use ql_refusals::{
    Refusal, column_is_no_field, ranker_not_offered, unknown_option, value_out_of_range, wrong_kind,
};
use ql_tree::{OptionValue, SelectOption};
use srch_base::Name;

/// What an option's value is gone over for.
#[derive(Clone, Copy)]
pub enum Pass {
    /// Whether each name is there.
    Names,
    /// Whether each column and each value is of the kind, and in the range, that is wanted.
    Kinds,
}

/// Takes note of what is wrong with the options.
pub(crate) fn note_options(schema: &Schema, options: &[SelectOption], faults: &mut FirstFault)
    ensures { faults.new.fault ≡ fold sooner faults.old.fault (options_faults schema.now options.now) }
{
    faults.note_any(FaultClass::OptionName, option_names_fault(options));
    faults.note_any(
        FaultClass::Name,
        options_fault(Pass::Names, schema, options),
    );
    faults.note_any(
        FaultClass::Kind,
        options_fault(Pass::Kinds, schema, options),
    );
}

/// The first option whose name none has.
fn option_names_fault(options: &[SelectOption]) -> Option<Refusal>
    ensures { result ≡ first_of option_name_fault options.now }
{
    'options: for option in options {
        let name = option.name.as_bytes();
        if !is_option(name) {
            return Some(unknown_option(name));
        }
    }
    None
}

/// The first fault of the options' values.
fn options_fault(pass: Pass, schema: &Schema, options: &[SelectOption]) -> Option<Refusal>
    ensures { result ≡ first_of (option_fault pass schema.now) options.now }
{
    'options: for option in options {
        if let Some(refusal) = option_fault(pass, schema, option) {
            return Some(refusal);
        }
    }
    None
}

fn option_fault(pass: Pass, schema: &Schema, option: &SelectOption) -> Option<Refusal>
    ensures { result ≡ option_fault pass schema.now option.now }
{
    let name = option.name.as_bytes();
    if name == RANKER_OPTION {
        ranker_fault(pass, &option.value)
    } else if name == MAX_MATCHES_OPTION {
        max_matches_fault(pass, &option.value)
    } else if name == FIELD_WEIGHTS_OPTION {
        field_weights_fault(pass, schema, &option.value)
    } else {
        other_fault(pass, name, &option.value)
    }
}

fn ranker_fault(pass: Pass, value: &OptionValue) -> Option<Refusal>
    ensures { result ≡ ranker_fault pass value.now }
{
    match (pass, value) {
        (Pass::Names, OptionValue::Name(name)) => ranker_name_fault(name.as_bytes()),
        (Pass::Names, OptionValue::Call { name, .. }) => called_fault(name.as_bytes()),
        (Pass::Names, _) | (Pass::Kinds, OptionValue::Call { .. }) => None,
        (Pass::Kinds, OptionValue::Name(name)) => uncalled_fault(name.as_bytes()),
        (Pass::Kinds, _) => Some(wrong_kind(RANKER_OPTION)),
    }
}

/// No ranker has the name.
fn ranker_name_fault(name: &[u8]) -> Option<Refusal>
    ensures { result ≡ unless (is_some (ranker_named name.now) || bytes_eq name.now expr_ranker) (ranker_not_offered name.now) }
{
    if ranker_named(name).is_some() || name == EXPR_RANKER {
        return None;
    }
    Some(ranker_not_offered(name))
}

/// No ranker of the name is called with a text.
fn called_fault(name: &[u8]) -> Option<Refusal>
    ensures { result ≡ unless (bytes_eq name.now expr_ranker) (ranker_not_offered name.now) }
{
    if name == EXPR_RANKER {
        return None;
    }
    Some(ranker_not_offered(name))
}

/// The ranker of the name wants a text.
fn uncalled_fault(name: &[u8]) -> Option<Refusal>
    ensures { result ≡ unless (not (bytes_eq name.now expr_ranker)) (wrong_kind ranker_option) }
{
    if name == EXPR_RANKER {
        return Some(wrong_kind(RANKER_OPTION));
    }
    None
}

/// An option that isn't named here is set by no call.
fn other_fault(pass: Pass, option: &[u8], value: &OptionValue) -> Option<Refusal>
    ensures { result ≡ other_fault pass option.now value.now }
{
    match (pass, value) {
        (Pass::Kinds, OptionValue::Call { .. }) => Some(wrong_kind(option)),
        _ => None,
    }
}

fn max_matches_fault(pass: Pass, value: &OptionValue) -> Option<Refusal>
    ensures { result ≡ max_matches_fault pass value.now }
{
    match (pass, value) {
        (Pass::Names, _) | (Pass::Kinds, OptionValue::Number(_)) => None,
        (Pass::Kinds, _) => Some(wrong_kind(MAX_MATCHES_OPTION)),
    }
}

fn field_weights_fault(pass: Pass, schema: &Schema, value: &OptionValue) -> Option<Refusal>
    ensures { result ≡ field_weights_fault pass schema.now value.now }
{
    match (pass, value) {
        (Pass::Names, OptionValue::List(list)) => weight_names_fault(schema, list.as_slice()),
        (Pass::Names, _) => None,
        (Pass::Kinds, OptionValue::List(list)) => weights_fault(schema, list.as_slice()),
        (Pass::Kinds, _) => Some(wrong_kind(FIELD_WEIGHTS_OPTION)),
    }
}

/// The first name, from the left, that no column has, or that stands twice.
fn weight_names_fault(schema: &Schema, list: &[(Name, u64)]) -> Option<Refusal>
    ensures { result ≡ weight_names_fault schema.now [] list.now }
{
    'list: for (place, given) in list.iter().enumerate() {
        let name = given.0.as_bytes();
        if let Some(refusal) = name_fault(schema, is_weighed(&list[..place], name), name) {
            return Some(refusal);
        }
    }
    None
}

/// Whether a weight is given to the name.
fn is_weighed(list: &[(Name, u64)], name: &[u8]) -> bool
    ensures { result ≡ is_weighed list.now name.now }
{
    'list: for given in list {
        if given.0.as_bytes() == name {
            return true;
        }
    }
    false
}

fn weights_fault(schema: &Schema, list: &[(Name, u64)]) -> Option<Refusal>
    ensures { result ≡ first_of (weight_fault schema.now) list.now }
{
    'list: for given in list {
        if let Some(refusal) = weight_fault(schema, given) {
            return Some(refusal);
        }
    }
    None
}

/// A weight is given to a field, and is 1 to 65,535.
fn weight_fault(schema: &Schema, given: &(Name, u64)) -> Option<Refusal>
    ensures { result ≡ weight_fault schema.now given.now }
{
    let name = given.0.as_bytes();
    let weight = given.1;
    match column_named(schema, name) {
        Some(IndexColumn::Field(_)) if 1 <= weight && weight <= 65_535 => None,
        Some(IndexColumn::Field(_)) => Some(value_out_of_range(name)),
        _ => Some(column_is_no_field(name)),
    }
}

//! The names of factors and of functions.
//!
//! Each list has the names with what they stand for, in the order of the names' bytes. The definitions have the same lists
//! (`specs/Pieces`), and the check compares them row by row.
ghost use Rattle.std.specs.Prelude.{◌≡◌, ◌≤◌, length, slice_get};
ghost use Rattle.std.specs.Str.{str_to_ascii_lowercase};
ghost use Rattle.doc_types.specs.declared.schema.TheConstants.{MAX_ATTRS};
ghost use Rattle.name_table.specs.NamedValues.{value_named};
ghost use Rattle.name_table.specs.Order.{IsInOrder};
ghost use Rattle.rank_expr.specs.Pieces.{attr_named, call_sign, factor_leaves, factor_words, function_sign, function_values, function_words, name_sign};

use crate::expr::{DocFactor, FieldFactor, PairOp};
use crate::mark::{Function, Leaf, Sign, Single};
use doc_types::Schema;
use name_table::{NameTable, value_at, words_of};

macro_rules! factors {
    ($form:ident $(, $argument:expr)*) => {
        $form!($($argument,)* {
            "doc_word_count" => Leaf::Document(DocFactor::DocWordCount),
            "field_mask" => Leaf::Document(DocFactor::FieldMask),
            "hit_count" => Leaf::Field(FieldFactor::HitCount),
            "lcs" => Leaf::Field(FieldFactor::Lcs),
            "max_lcs" => Leaf::Document(DocFactor::MaxLcs),
            "min_hit_pos" => Leaf::Field(FieldFactor::MinHitPos),
            "user_weight" => Leaf::Field(FieldFactor::UserWeight),
            "word_count" => Leaf::Field(FieldFactor::WordCount),
        })
    };
}

macro_rules! functions {
    ($form:ident $(, $argument:expr)*) => {
        $form!($($argument,)* {
            "abs" => Function::Abs,
            "if" => Function::If,
            "max" => Function::Max,
            "min" => Function::Min,
            "sum" => Function::Sum,
        })
    };
}

#[tactic(auto, unfolding(crate::specs::Pieces::factor_words))]
fn factor_table() -> NameTable<8>
    ensures words { result ≡ factor_words }
    ensures order { IsInOrder result }
{
    NameTable::ordered(factors!(words_of))
}

#[tactic(auto, unfolding(crate::specs::Pieces::factor_leaves))]
fn factor_at(place: u16) -> Option<Leaf>
    ensures { result ≡ slice_get factor_leaves place }
{
    Some(factors!(value_at, place, return None))
}

#[tactic(auto, unfolding(crate::specs::Pieces::function_words))]
fn function_table() -> NameTable<5>
    ensures words { result ≡ function_words }
    ensures order { IsInOrder result }
{
    NameTable::ordered(functions!(words_of))
}

#[tactic(auto, unfolding(crate::specs::Pieces::function_values))]
fn function_at(place: u16) -> Option<Function>
    ensures { result ≡ slice_get function_values place }
{
    Some(functions!(value_at, place, return None))
}

/// The factor of the name, in either case.
fn factor_named(name: &[u8]) -> Option<Leaf>
    ensures { result ≡ value_named factor_words factor_leaves (str_to_ascii_lowercase name.now) }
{
    match factor_table().find(name) {
        Some(place) => factor_at(place),
        None => None,
    }
}

/// The function of the name, in either case.
fn function_named(name: &[u8]) -> Option<Function>
    ensures { result ≡ value_named function_words function_values (str_to_ascii_lowercase name.now) }
{
    match function_table().find(name) {
        Some(place) => function_at(place),
        None => None,
    }
}

/// The place of the attribute with this name, in either case.
fn attr_named(schema: &Schema, name: &[u8]) -> Option<usize>
    ensures { result ≡ attr_named schema.now name.now }
{
    schema
        .attrs
        .as_slice()
        .iter()
        .position(|attr| attr.0.as_bytes().eq_ignore_ascii_case(name))
}

/// What a name stands for that is no call.
#[tactic(auto, unfolding(crate::specs::Pieces::name_sign))]
pub(crate) fn name_sign(schema: &Schema, name: &[u8]) -> Sign
    requires { length schema.now.attrs ≤ MAX_ATTRS }
    ensures { result ≡ name_sign schema.now name.now }
{
    match factor_named(name) {
        Some(leaf) => Sign::Leaf(leaf),
        None => match attr_named(schema, name) {
            Some(attr) => Sign::Leaf(Leaf::Attr(attr as u16)),
            None => Sign::Unknown,
        },
    }
}

/// What a call of the function stands for.
fn function_sign(function: Function) -> Sign
    ensures { result ≡ function_sign function }
{
    match function {
        Function::Abs => Sign::Single(Single::Abs),
        Function::If => Sign::Triple,
        Function::Max => Sign::Double(PairOp::Max),
        Function::Min => Sign::Double(PairOp::Min),
        Function::Sum => Sign::Single(Single::Sum),
    }
}

/// What a call of the name stands for.
#[tactic(auto, unfolding(crate::specs::Pieces::call_sign))]
pub(crate) fn call_sign(name: &[u8]) -> Sign
    ensures { result ≡ call_sign name.now }
{
    match function_named(name) {
        Some(function) => function_sign(function),
        None => Sign::Unknown,
    }
}

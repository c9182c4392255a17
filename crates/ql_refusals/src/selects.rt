//! Why a SELECT is refused: by what it asks for, and last by what it finds.
ghost use Rattle.std.specs.Prelude.{◌≡◌};
ghost use Rattle.ql_refusals.specs.Refusals.{bad_expr as bad_expr_row, bad_query as bad_query_row, column_is_field as column_is_field_row, column_is_no_field as column_is_no_field_row, group_by_missing as group_by_missing_row, max_matches_out_of_range as max_matches_out_of_range_row, offset_not_below as offset_not_below_row, ranker_not_offered as ranker_not_offered_row, rank_out_of_range as rank_out_of_range_row, second_match as second_match_row, too_many_columns as too_many_columns_row, too_many_facets as too_many_facets_row, too_many_prefix_words as too_many_prefix_words_row, too_many_sort_keys as too_many_sort_keys_row};

use crate::refusal::{Refusal, WRONG};
use query_grammar::QueryFault;
use rank_expr::ExprFault;

/// No weights are offered by a ranker of this name.
pub fn ranker_not_offered(name: &[u8]) -> Refusal
    ensures { result ≡ ranker_not_offered_row name.now }
{
    Refusal::named(b"ranker '", name, b"' is not offered")
}

/// A field stands where only an attribute or the id can.
pub fn column_is_field(name: &[u8]) -> Refusal
    ensures { result ≡ column_is_field_row name.now }
{
    Refusal::named(b"column '", name, b"' is a field")
}

/// An attribute or the id stands where only a field can.
pub fn column_is_no_field(name: &[u8]) -> Refusal
    ensures { result ≡ column_is_no_field_row name.now }
{
    Refusal::named(b"column '", name, b"' is not a field")
}

/// A SELECT has two MATCH.
pub fn second_match() -> Refusal
    ensures { result ≡ second_match_row }
{
    Refusal::plain(WRONG, b"second MATCH")
}

/// A SELECT speaks of groups, and says of none.
pub fn group_by_missing() -> Refusal
    ensures { result ≡ group_by_missing_row }
{
    Refusal::plain(WRONG, b"GROUP BY is missing")
}

/// A SELECT shows more columns than it may.
pub fn too_many_columns() -> Refusal
    ensures { result ≡ too_many_columns_row }
{
    Refusal::plain(WRONG, b"too many columns")
}

/// A SELECT is sorted by more keys than it may.
pub fn too_many_sort_keys() -> Refusal
    ensures { result ≡ too_many_sort_keys_row }
{
    Refusal::plain(WRONG, b"too many sort keys")
}

/// A SELECT has more facets than it may.
pub fn too_many_facets() -> Refusal
    ensures { result ≡ too_many_facets_row }
{
    Refusal::plain(WRONG, b"too many facets")
}

/// The option `max_matches` is a number that it can't be.
pub fn max_matches_out_of_range() -> Refusal
    ensures { result ≡ max_matches_out_of_range_row }
{
    Refusal::plain(WRONG, b"max_matches out of range")
}

/// The page would begin after the last row that is kept.
pub fn offset_not_below(offset: u64, max_matches: u64) -> Refusal
    ensures { result ≡ offset_not_below_row offset max_matches }
{
    Refusal::plain(WRONG, b"offset ")
        .then_number(offset)
        .then(b" is not below max_matches ")
        .then_number(max_matches)
}

/// The text of MATCH is no query.
pub fn bad_query(fault: &QueryFault) -> Refusal
    ensures { result ≡ bad_query_row fault.now }
{
    Refusal::plain(WRONG, b"query: ")
        .then(fault.kind.text().as_bytes())
        .then_unknown(fault.kind, fault.name.as_bytes())
        .then(b" at ")
        .then_number(u64::from(fault.place))
}

/// The prefixes of the query have so many words together, and these are too many.
pub fn too_many_prefix_words(count: u64) -> Refusal
    ensures { result ≡ too_many_prefix_words_row count }
{
    Refusal::plain(WRONG, b"query: prefixes have ")
        .then_number(count)
        .then(b" words")
}

/// The text of a ranker is no expression.
pub fn bad_expr(fault: &ExprFault) -> Refusal
    ensures { result ≡ bad_expr_row fault.now }
{
    Refusal::plain(WRONG, b"expr: ")
        .then_expr(fault.kind, fault.name.as_bytes())
        .then(b" at ")
        .then_number(u64::from(fault.place))
}

/// The ranking expression gives no weight to the document of this id, which is found.
pub fn rank_out_of_range(id: u64) -> Refusal
    ensures { result ≡ rank_out_of_range_row id }
{
    Refusal::numbered(b"rank out of range at id ", id)
}

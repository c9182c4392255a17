//! Why a statement is refused: a code of the protocol and a text for each reason.
#![tactic(auto)]

mod refusal;
mod selects;
mod stores;

pub use refusal::{
    MAX_REFUSAL_BYTES, Refusal, bad_syntax, bad_token, column_twice, id_missing, id_out_of_range,
    no_memory, other_index, too_many_operations, too_many_positions, transaction_open,
    transaction_too_large, unknown_column, unknown_index, unknown_option, value_out_of_range,
    wrong_kind, wrong_number,
};
pub use selects::{
    bad_expr, bad_query, column_is_field, column_is_no_field, group_by_missing,
    max_matches_out_of_range, offset_not_below, rank_out_of_range, ranker_not_offered,
    second_match, too_many_columns, too_many_facets, too_many_prefix_words, too_many_sort_keys,
};
pub use stores::{
    disk_failed, disk_in_doubt, duplicate_id, index_full, job_in_doubt, memory_in_doubt, overtaken,
    strayed,
};

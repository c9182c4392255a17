//! What documents are: the columns of an index, the tokens of a field, rows, and transactions over them.
#![tactic(auto)]

mod chunk;
mod collecting;
mod counted;
mod cursor;
mod documents;
mod hit_lists;
mod hits;
mod laws;
mod payload;
mod plain_chunk;
mod plain_index;
mod row_parts;
mod schema;
mod snapshot;
mod tokens;
mod transactions;

pub use chunk::Chunk;
pub use counted::Counted;
pub use cursor::{Cursor, NO_ROW};
pub use documents::{Doc, DocRow};
pub use hit_lists::{CountedLists, HitLists};
pub use hits::{Hit, Hits};
pub use laws::{
    a_change_is_of_one_id, a_live_id_is_refused, an_example_of_commits, commits_in_a_row,
    nothing_is_left_by_clear, numbers_of_operations_fit, numbers_of_rows_fit, one_whole_layer,
    operations_are_tried_in_order, what_is_accepted_are_the_operations,
};
pub use payload::txn_bytes;
pub use plain_chunk::PlainChunk;
pub use schema::{AttrKind, MAX_ATTRS, MAX_FIELDS, MAX_NAME_BYTES, MAX_ZONES, Schema, Value};
pub use snapshot::{Layer, Snapshot};
pub use tokens::{
    FieldTokens, Gap, MAX_POSITION, MAX_WORD_BYTES, MAX_WORD_CHARS, TokenWord, ZoneSpan,
};
pub use transactions::{Txn, TxnOp};

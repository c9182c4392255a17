//! Statements and sessions: what is replied to the bytes of a connection, over indexes and their documents.
//!
//! One road leads from a text to its reply: tokens, statements, what each statement wants of the outside, what the outside
//! did, and the packets that say so. `ql_lex`, `ql_parse` and `ql_answers` know no store; here they meet one, whichever it is.
#![tactic(auto)]

mod answering;
mod laws;
mod line;
mod running;
mod session;
mod stores;
mod texts;

pub use laws::{
    a_command_has_one_reply, a_statement_has_one_reply, a_text_has_one_reply,
    a_text_is_read_in_one_way,
};
pub use line::serve_link;
pub use ql_answers::{Catalog, Event, JobOutcome, Need};
pub use ql_refusals::Refusal;
pub use serve_line::LinkEnd;
pub use session::{Session, StepEnd};
pub use stores::TableStore;

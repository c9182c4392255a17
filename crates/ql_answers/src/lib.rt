//! Statements: what each wants, and what is replied to it.
#![tactic(auto)]

mod event;
mod found;
mod indexes;
mod job_outcome;
mod laws;
mod meta;
mod pending;
mod plan;
mod planning;
mod refusing;
mod saying;
mod showing;
mod state;
mod statement_machine;
mod text_sets;
mod turn;
mod writing;

pub use event::{Event, Need};
pub use indexes::Catalog;
pub use job_outcome::JobOutcome;
pub use laws::{a_plan_has_one_reply, a_statement_has_one_plan};
pub use meta::Meta;
pub use pending::{MAX_OPERATIONS, MAX_TRANSACTION_BYTES, Pending};
pub use plan::{Counted, Plan};
pub use refusing::put_refusal;
pub use state::State;
pub use statement_machine::StatementMachine;
pub use turn::Turn;

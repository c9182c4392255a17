//! What a client may count on that keeps to the protocol, over a line that doesn't fail, and what the code of a refusal tells. Each
//! law is a function with an empty body: its clauses are the law.
#![tactic(auto)]

mod laws;

pub use laws::{a_client_is_answered, a_refusal_has_the_code_of_its_cause, a_session_is_complete};

//! The tokens of a SphinxQL text.
#![tactic(auto)]

mod bytes;
mod comments;
mod fault;
mod laws;
mod lexing;
mod names;
mod numbers;
mod part;
mod signs;
mod spacing;
mod texts;
mod token;
mod values;

pub use fault::{LexFault, LexKind};
pub use laws::one_reading;
pub use lexing::lex;
pub use signs::sign_of;
pub use spacing::spaced_tokens_are_read;
pub use token::{Sign, Token, TokenKind};
pub use values::{number_of, put_text, text_values_are_utf8, token_name};

//! What a search finds among the documents of an index, and the page of it that is shown.
#![tactic(auto)]

mod all_rows;
mod by_words;
mod lacking;
mod laws;
mod listed_rows;
mod pace;
mod question;
mod ranking;
mod ready;
mod rest;
mod room;
mod scanning;
mod searching;
mod told_weights;
mod windows;

pub use laws::{a_search_ends_in_one_way, a_search_shows_one_list};
pub use question::Question;
pub use ranking::Ranking;
pub use searching::{search, search_into};

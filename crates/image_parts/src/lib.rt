//! What stands where in the image of a chunk: each function reads one part of bytes that are known to be an image, and tests
//! nothing of them. What it gives is said of all rows whose image the bytes are, of which there is one list.
//!
//! ```text
//! header       32 bytes
//! rows         `rows` times `stride` bytes: id, commit, values, where the row's marks begin
//! marks        of each row, as short numbers
//! word table   `words` times 12 bytes: where the word stands, how many rows have it, where its list begins
//! dictionary   of each word its length and its bytes
//! postings     of each word its list
//! ```
#![tactic(auto)]

mod columns;
mod fixed;
mod marks;
mod numbers;
mod parts;
mod words;

pub use marks::{marks_of, put_gaps, put_lasts, put_spans};
pub use parts::{Parts, attrs_of, parts_of};

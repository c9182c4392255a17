//! The writer of a chunk's image: from rows to the bytes that a segment is in memory, and a chunk's file on a disk.
#![tactic(auto)]

mod columns;
mod gathering;
mod heads;
mod image;
mod lending;
mod lists;
mod marks;
mod words;

pub use columns::row_size;
pub use heads::{head_in, head_of, tells};
pub use image::{
    Counts, MAX_IMAGE, assembled, count_in, header_of, place_in, room_of, write_counted,
    write_docs, write_image,
};
pub use words::{Tables, put_entry};

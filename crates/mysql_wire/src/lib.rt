//! The MySQL client/server protocol 4.1, text queries: packets in any pieces, the handshake, commands, and the parts of replies, for both ends.
#![tactic(auto)]

mod both_ends;
mod commands;
mod fields;
mod framer;
mod handshake;
mod laws;
mod lengths;
mod packets;
mod readers;
mod result_sets;
mod rows;
mod small;

pub use both_ends::{replies_are_read, result_sets_are_read};
pub use commands::{Command, read_command};
pub use fields::WireFault;
pub use framer::{Framer, Next, Refusal};
pub use handshake::{BadHandshake, Response41, read_response41};
pub use laws::{bytes_begin_in_one_way, payload_is_one_response_or_bad};
pub use lengths::put_lenenc;
pub use packets::put_packet;
pub use readers::{
    WireEof, WireErr, WireGreeting, WireOk, read_eof, read_err, read_greeting, read_lenenc, read_ok,
};
pub use result_sets::{read_column, read_row};
pub use rows::{Cell, Column, ColumnKind, put_column, put_row};
pub use small::{Small, eof_packet, err_packet, greeting, ok_packet};

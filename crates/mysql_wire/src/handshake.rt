//! The client's response to the greeting: flags, sizes and a character set in 32 bytes, the user up to a NUL, an
//! authentication answer in one of three shapes that the flags pick, and, where they are flagged, a database and a plugin
//! name. Only the flags, the user and the database are used; the first field that isn't whole is where a bad one is refused.
//! "Protocol::HandshakeResponse41".
ghost use Rattle.std.specs.Prelude.{◌≡◌, ◌==◌, ◌+◌, ◌<◌, ◌^◌, ◌≤◌, length, drop, true, false, option_map, IfSome, IfOk, IfErr, MatchResult};
ghost use Rattle.std.specs.List.{position};
ghost use Rattle.mysql_wire.specs.Handshake.{speaks_41, flags_of, cut_place, IsResponse, IsBadResponse};
ghost use Rattle.mysql_wire.specs.steps.ResponseFronts.{GivesResponse, text_front, behind_answer, database_of, response_with, response_behind};
ghost use Rattle.mysql_wire.specs.Answered.{response_by};

use crate::lengths::split_lenenc;
use srch_base::u32_at;

/// A response has a database.
const CONNECT_WITH_DATABASE: u32 = 0x8;

/// The client speaks protocol 4.1.
const PROTOCOL_41: u32 = 0x200;

/// The authentication answer stands after a length of one byte.
const SECURE_CONNECTION: u32 = 0x8000;

/// The authentication answer stands after a length-encoded length.
const LENGTH_ENCODED_ANSWER: u32 = 0x20_0000;

/// The offset of the user, after the fields of fixed size.
const USER: u32 = 32;

/// A client's answer to the greeting, as far as it is looked at.
#[derive(Clone, Copy, PartialEq, Eq)]
pub struct Response41<'a> {
    /// The client's capabilities.
    pub flags: u32,
    pub user: &'a [u8],
    pub database: Option<&'a [u8]>,
}

/// A payload that is no response of protocol 4.1.
#[derive(Clone, Copy, PartialEq, Eq)]
pub struct BadHandshake {
    /// The offset of the first field that isn't whole, or 0 where the client doesn't speak protocol 4.1.
    pub place: u32,
}

/// Reads a client's answer to the greeting ("Protocol::HandshakeResponse41"). It takes no memory.
pub fn read_response41(payload: &[u8]) -> Result<Response41<'_>, BadHandshake>
    requires { length payload.now < 2 ^ 32 }
    ensures { MatchResult result (λ r. IsResponse payload.now (response_by r)) (λ e. IsBadResponse payload.now e.place) }
{
    let flags = read_flags(payload)?;
    match payload.get(USER as usize..) {
        Some(fields) => read_user(flags, fields),
        None => Err(BadHandshake {
            place: place_of_cut(payload.len()),
        }),
    }
}

/// The response, from the user on.
fn read_user(flags: u32, fields: &[u8]) -> Result<Response41<'_>, BadHandshake>
    requires { 32 + length fields.now < 2 ^ 32 }
    ensures { GivesResponse result (response_behind flags (text_front fields.now)) }
{
    match split_text(fields) {
        Some((user, behind)) => read_behind_user(flags, user, behind),
        None => Err(BadHandshake { place: USER }),
    }
}

/// The response, from the authentication answer on.
fn read_behind_user<'a>(
    flags: u32,
    user: &'a [u8],
    fields: &'a [u8],
) -> Result<Response41<'a>, BadHandshake>
    requires { 33 + length user.now < 2 ^ 32 }
    ensures { GivesResponse result (response_with flags user.now (behind_answer flags fields.now)) }
{
    match skip_answer(flags, fields) {
        Some(behind) => Ok(Response41 {
            flags,
            user,
            database: read_database(flags, behind),
        }),
        None => Err(BadHandshake {
            place: USER + 1 + user.len() as u32,
        }),
    }
}

fn read_flags(payload: &[u8]) -> Result<u32, BadHandshake>
    ensures ok { IfOk result (λ flags. (speaks_41 payload.now ≡ true) × (flags ≡ flags_of payload.now)) }
    ensures err { IfErr result (λ e. (speaks_41 payload.now ≡ false) × (e.place ≡ 0)) }
{
    match u32_at(payload, 0) {
        Some(flags) if flags & PROTOCOL_41 != 0 => Ok(flags),
        _ => Err(BadHandshake { place: 0 }),
    }
}

/// The field of fixed size that a payload of at least four bytes breaks off in.
fn place_of_cut(length: usize) -> u32
    ensures { result ≡ cut_place length }
{
    match length {
        0..8 => 4,
        8 => 8,
        _ => 9,
    }
}

/// A text up to a NUL, and what is after it.
fn split_text(bytes: &[u8]) -> Option<(&[u8], &[u8])>
    ensures split { option_map (λ split. (split.0.now, split.1.now)) result ≡ text_front bytes.now }
    ensures within { IfSome result (λ split. length split.0.now < length bytes.now) }
{
    let end = find_nul(bytes)?;
    Some((&bytes[..end], &bytes[end + 1..]))
}

fn find_nul(bytes: &[u8]) -> Option<usize>
    ensures { result ≡ position (λ byte. byte == 0) bytes.now }
{
    bytes.iter().position(|byte| *byte == 0)
}

/// What is after the authentication answer.
#[tactic(auto, unfolding(crate::specs::steps::ResponseFronts::behind_answer))]
fn skip_answer(flags: u32, bytes: &[u8]) -> Option<&[u8]>
    ensures { option_map (λ rest. rest.now) result ≡ behind_answer flags bytes.now }
{
    if flags & LENGTH_ENCODED_ANSWER != 0 {
        let (size, rest) = split_lenenc(bytes)?;
        return rest.get(size as usize..);
    }
    if flags & SECURE_CONNECTION != 0 {
        let [size, rest @ ..] = bytes else {
            return None;
        };
        return rest.get(usize::from(*size)..);
    }
    let (_, rest) = split_text(bytes)?;
    Some(rest)
}

/// The database, where the client names one: up to a NUL or to the end.
#[tactic(auto, unfolding(crate::specs::steps::ResponseFronts::database_of))]
fn read_database(flags: u32, bytes: &[u8]) -> Option<&[u8]>
    ensures { option_map (λ name. name.now) result ≡ database_of flags bytes.now }
{
    if flags & CONNECT_WITH_DATABASE == 0 {
        return None;
    }
    match split_text(bytes) {
        Some((name, _)) => Some(name),
        None => Some(bytes),
    }
}

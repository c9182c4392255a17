//! Going over a payload field by field, as the client's readers do. A field is bytes that are known, a number, or a text; the
//! first that isn't whole, or isn't what the layout says, is the place of the fault.
ghost use Rattle.std.specs.Prelude.{◌≡◌, ◌^◌, ◌<◌, length};
ghost use Rattle.std.specs.Option.{option_copied};
ghost use Rattle.mysql_wire.specs.Fields.{Exactly, Plain, Number, Lengthed};
ghost use Rattle.mysql_wire.specs.steps.NumberFronts.{fixed_front, lenenc_front};
ghost use Rattle.mysql_wire.specs.steps.Scanning.{Gives, answer_to, at, known_at, sized_at, text_at, cell_at, ended};

use crate::lengths::split_lenenc;
use srch_base::Or;

/// A payload isn't one of its kind.
#[derive(Clone, Copy, PartialEq, Eq)]
pub struct WireFault {
    /// Where the first field begins that isn't whole or breaks the layout, or the first byte after the last field: in
    /// bytes from the payload's beginning.
    pub place: u32,
}

/// How many bytes are left from the field at fault.
#[derive(Clone, Copy)]
pub(crate) struct Stop {
    pub left: usize,
}

fn stopped<T>(bytes: &[u8]) -> Result<T, Stop>
    ensures { result ≡ Err (record { left = length bytes.now }) }
{
    Err(Stop { left: bytes.len() })
}

/// What a reader of the whole payload answers.
pub(crate) fn answer<T>(payload: &[u8], read: Result<T, Stop>) -> Result<T, Or<WireFault>>
    requires { length payload.now < 2 ^ 32 }
    ensures { result ≡ answer_to payload.now read }
{
    match read {
        Ok(value) => Ok(value),
        Err(stop) => {
            let place = payload.len().saturating_sub(stop.left) as u32;
            Err(Or::Fault(WireFault { place }))
        }
    }
}

pub(crate) fn end(bytes: &[u8]) -> Result<(), Stop>
    ensures { Gives (λ x. x) result (ended tt bytes.now) }
{
    if bytes.is_empty() {
        Ok(())
    } else {
        stopped(bytes)
    }
}

pub(crate) fn exactly<'a>(want: &[u8], bytes: &'a [u8]) -> Result<&'a [u8], Stop>
    ensures { Gives (λ x. x.now) result (at bytes.now (known_at (Exactly want.now) bytes.now)) }
{
    match bytes.strip_prefix(want) {
        Some(rest) => Ok(rest),
        None => stopped(bytes),
    }
}

pub(crate) fn five_bytes(bytes: &[u8]) -> Result<([u8; 5], &[u8]), Stop>
    ensures { Gives (λ x. (x.0, x.1.now)) result (at bytes.now (sized_at 5 bytes.now)) }
{
    match bytes.split_first_chunk::<5>() {
        Some((field, rest)) => Ok((*field, rest)),
        None => stopped(bytes),
    }
}

pub(crate) fn number_of_2(bytes: &[u8]) -> Result<(u16, &[u8]), Stop>
    ensures { Gives (λ x. (x.0, x.1.now)) result (at bytes.now (fixed_front 2 bytes.now)) }
{
    match bytes.split_first_chunk::<2>() {
        Some((field, rest)) => Ok((u16::from_le_bytes(*field), rest)),
        None => stopped(bytes),
    }
}

pub(crate) fn number_of_4(bytes: &[u8]) -> Result<(u32, &[u8]), Stop>
    ensures { Gives (λ x. (x.0, x.1.now)) result (at bytes.now (fixed_front 4 bytes.now)) }
{
    match bytes.split_first_chunk::<4>() {
        Some((field, rest)) => Ok((u32::from_le_bytes(*field), rest)),
        None => stopped(bytes),
    }
}

pub(crate) fn number(bytes: &[u8]) -> Result<(u64, &[u8]), Stop>
    ensures { Gives (λ x. (x.0, x.1.now)) result (at bytes.now (lenenc_front bytes.now)) }
{
    match split_lenenc(bytes) {
        Some((n, rest)) => Ok((n, rest)),
        None => stopped(bytes),
    }
}

pub(crate) fn number_that_is(want: u64, bytes: &[u8]) -> Result<&[u8], Stop>
    ensures { Gives (λ x. x.now) result (at bytes.now (known_at (Number want) bytes.now)) }
{
    match number(bytes) {
        Ok((n, rest)) if n == want => Ok(rest),
        _ => stopped(bytes),
    }
}

pub(crate) fn text(bytes: &[u8]) -> Result<(&[u8], &[u8]), Stop>
    ensures { Gives (λ x. (x.0.now, x.1.now)) result (at bytes.now (text_at bytes.now)) }
{
    let (size, rest) = number(bytes)?;
    let size = size as usize;
    if rest.len() < size {
        return stopped(bytes);
    }
    let (text, rest) = rest.split_at(size);
    Ok((text, rest))
}

pub(crate) fn text_that_is<'a>(want: &[u8], bytes: &'a [u8]) -> Result<&'a [u8], Stop>
    ensures { Gives (λ x. x.now) result (at bytes.now (known_at (Lengthed want.now) bytes.now)) }
{
    match number_that_is(want.len() as u64, bytes) {
        Ok(rest) => match rest.strip_prefix(want) {
            Some(rest) => Ok(rest),
            None => stopped(bytes),
        },
        Err(_) => stopped(bytes),
    }
}

/// A value of a row, or None where the mark of NULL is in its place.
pub(crate) fn cell(bytes: &[u8]) -> Result<(Option<&[u8]>, &[u8]), Stop>
    ensures { Gives (λ x. (option_copied x.0, x.1.now)) result (at bytes.now (cell_at bytes.now)) }
{
    if let [0xfb, rest @ ..] = bytes {
        return Ok((None, rest));
    }
    let (text, rest) = text(bytes)?;
    Ok((Some(text), rest))
}

//! The client's readers of the packets that open a line and that answer a command: the greeting, OK, ERR and EOF, and a
//! payload that is one number. Each gives a value exactly where the payload has the fields that the server writes.
ghost use Rattle.std.specs.Prelude.{◌≡◌, ◌≢◌, ◌^◌, ◌<◌, length, Err};
ghost use Rattle.srch_base.specs.declared.faults.Or.TheVariants.{NoMemory};
ghost use Rattle.mysql_wire.specs.Fields.{Reads};
ghost use Rattle.mysql_wire.specs.Payloads.{number_fields, greeting_fields, ok_fields, err_fields, eof_fields};
ghost use Rattle.mysql_wire.specs.steps.Scanning.{Gives, scan};
ghost use Rattle.mysql_wire.specs.steps.Layouts.{number_layout, greeting_layout, capabilities_layout, plugin_layout, ok_layout, err_layout, eof_layout};

use crate::fields::{
    Stop, WireFault, answer, end, exactly, five_bytes, number, number_of_2, number_of_4,
    number_that_is,
};
use srch_base::{Or, Text};
use std::alloc::Global;

/// What a greeting says.
#[derive(Clone, Copy, PartialEq, Eq)]
pub struct WireGreeting {
    pub connection: u32,
}

/// What an OK packet says.
#[derive(Clone, Copy, PartialEq, Eq)]
pub struct WireOk {
    /// In rows.
    pub affected: u64,
    pub status: u16,
}

/// What an ERR packet says.
#[derive(Drop)]
pub struct WireErr {
    pub code: u16,
    pub state: [u8; 5],
    pub text: Text,
}

/// What an EOF packet says.
#[derive(Clone, Copy, PartialEq, Eq)]
pub struct WireEof {
    pub status: u16,
}

/// Reads a payload that is one length-encoded number, in any of its four spellings.
pub fn read_lenenc(payload: &[u8]) -> Result<u64, Or<WireFault>>
    requires { length payload.now < 2 ^ 32 }
    ensures reads { Reads (λ n. n) number_fields payload.now result }
    ensures memory { result ≢ Err NoMemory }
{
    answer(payload, number_in(payload))
}

#[tactic(auto, unfolding(crate::specs::steps::Layouts::number_layout))]
fn number_in(payload: &[u8]) -> Result<u64, Stop>
    ensures { Gives (λ n. n) result (scan number_layout payload.now) }
{
    let (value, rest) = number(payload)?;
    end(rest)?;
    Ok(value)
}

/// Reads the payload of a greeting: this server's, in which the connection's number alone may differ.
pub fn read_greeting(payload: &[u8]) -> Result<WireGreeting, Or<WireFault>>
    requires { length payload.now < 2 ^ 32 }
    ensures reads { Reads (λ greeting. greeting) greeting_fields payload.now result }
    ensures memory { result ≢ Err NoMemory }
{
    answer(payload, greeting_in(payload))
}

#[tactic(auto, unfolding(crate::specs::steps::Layouts::greeting_layout))]
fn greeting_in(payload: &[u8]) -> Result<WireGreeting, Stop>
    ensures { Gives (λ greeting. greeting) result (scan greeting_layout payload.now) }
{
    let rest = exactly(&[10], payload)?;
    let rest = exactly(b"2.2.11-rt1\0", rest)?;
    let (connection, rest) = number_of_4(rest)?;
    capabilities_in(connection, rest)
}

#[tactic(auto, unfolding(crate::specs::steps::Layouts::capabilities_layout))]
fn capabilities_in(connection: u32, bytes: &[u8]) -> Result<WireGreeting, Stop>
    ensures { Gives (λ greeting. greeting) result (scan (capabilities_layout connection) bytes.now) }
{
    let rest = exactly(&[1, 2, 3, 4, 5, 6, 7, 8], bytes)?;
    let rest = exactly(&[0], rest)?;
    let rest = exactly(&[0x09, 0xa2], rest)?;
    let rest = exactly(&[0x21], rest)?;
    let rest = exactly(&[2, 0], rest)?;
    let rest = exactly(&[0x0b, 0], rest)?;
    plugin_in(connection, rest)
}

#[tactic(auto, unfolding(crate::specs::steps::Layouts::plugin_layout))]
fn plugin_in(connection: u32, bytes: &[u8]) -> Result<WireGreeting, Stop>
    ensures { Gives (λ greeting. greeting) result (scan (plugin_layout connection) bytes.now) }
{
    let rest = exactly(&[0x15], bytes)?;
    let rest = exactly(&[0; 10], rest)?;
    let rest = exactly(&[9, 10, 11, 12, 13, 14, 15, 16, 17, 18, 19, 20, 0], rest)?;
    let rest = exactly(b"mysql_native_password\0", rest)?;
    end(rest)?;
    Ok(WireGreeting { connection })
}

/// Reads the payload of an OK packet.
pub fn read_ok(payload: &[u8]) -> Result<WireOk, Or<WireFault>>
    requires { length payload.now < 2 ^ 32 }
    ensures reads { Reads (λ ok. ok) ok_fields payload.now result }
    ensures memory { result ≢ Err NoMemory }
{
    answer(payload, ok_in(payload))
}

#[tactic(auto, unfolding(crate::specs::steps::Layouts::ok_layout))]
fn ok_in(payload: &[u8]) -> Result<WireOk, Stop>
    ensures { Gives (λ ok. ok) result (scan ok_layout payload.now) }
{
    let rest = exactly(&[0x00], payload)?;
    let (affected, rest) = number(rest)?;
    let rest = number_that_is(0, rest)?;
    let (status, rest) = number_of_2(rest)?;
    let rest = exactly(&[0, 0], rest)?;
    end(rest)?;
    Ok(WireOk { affected, status })
}

/// Reads the payload of an EOF packet.
pub fn read_eof(payload: &[u8]) -> Result<WireEof, Or<WireFault>>
    requires { length payload.now < 2 ^ 32 }
    ensures reads { Reads (λ eof. eof) eof_fields payload.now result }
    ensures memory { result ≢ Err NoMemory }
{
    answer(payload, eof_in(payload))
}

#[tactic(auto, unfolding(crate::specs::steps::Layouts::eof_layout))]
fn eof_in(payload: &[u8]) -> Result<WireEof, Stop>
    ensures { Gives (λ eof. eof) result (scan eof_layout payload.now) }
{
    let rest = exactly(&[0xfe], payload)?;
    let rest = exactly(&[0, 0], rest)?;
    let (status, rest) = number_of_2(rest)?;
    end(rest)?;
    Ok(WireEof { status })
}

/// Reads the payload of an ERR packet. The text runs to the payload's end.
pub fn read_err(alloc: Global, payload: &[u8]) -> Result<WireErr, Or<WireFault>>
    requires { length payload.now < 2 ^ 32 }
    ensures { Reads (λ err. err) err_fields payload.now result }
{
    let (code, state, text) = answer(payload, err_in(payload))?;
    let text = Text::from_slice(alloc, text)?;
    Ok(WireErr { code, state, text })
}

#[tactic(auto, unfolding(crate::specs::steps::Layouts::err_layout))]
fn err_in(payload: &[u8]) -> Result<(u16, [u8; 5], &[u8]), Stop>
    ensures { Gives (λ err. record { code = err.0; state = err.1; text = err.2.now }) result
        (scan err_layout payload.now) }
{
    let rest = exactly(&[0xff], payload)?;
    let (code, rest) = number_of_2(rest)?;
    let rest = exactly(b"#", rest)?;
    let (state, text) = five_bytes(rest)?;
    Ok((code, state, text))
}

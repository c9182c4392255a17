//! What a command packet asks for: its first byte is the command, the rest its argument. "Command Phase" of the protocol.
ghost use Rattle.std.specs.Prelude.{◌≡◌, ◌∷◌};
ghost use Rattle.mysql_wire.specs.Commands.{command_of};
ghost use Rattle.mysql_wire.specs.CommandValues.{command_value};

/// What a command packet asks for. Of the commands with no stated length, bytes that follow are not looked at.
#[derive(Clone, Copy, PartialEq, Eq)]
pub enum Command<'a> {
    Quit,
    InitDb(&'a [u8]),
    Query(&'a [u8]),
    Ping,
    SetOption(u16),
    /// Another first byte, a COM_SET_OPTION of another length, or no byte at all.
    Unknown(Option<u8>),
}

/// The command of a packet's payload ("Command Phase" of the protocol). Every payload has one.
pub fn read_command(payload: &[u8]) -> Command<'_>
    ensures { command_value result ≡ command_of payload.now }
{
    let Some((&code, rest)) = payload.split_first() else {
        return Command::Unknown(None);
    };
    match code {
        0x01 => Command::Quit,
        0x02 => Command::InitDb(rest),
        0x03 => Command::Query(rest),
        0x0e => Command::Ping,
        0x1b => set_option(rest),
        _ => Command::Unknown(Some(code)),
    }
}

fn set_option(rest: &[u8]) -> Command<'_>
    ensures { command_value result ≡ command_of (27 ∷ rest.now) }
{
    match rest {
        [low, high] => Command::SetOption(u16::from_le_bytes([*low, *high])),
        _ => Command::Unknown(Some(0x1b)),
    }
}

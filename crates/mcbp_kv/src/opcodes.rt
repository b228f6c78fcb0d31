//! A client's commands, and their opcodes.
ghost use Rattle.std.specs.Prelude.{◌≡◌, IfSome, None, false};
ghost use Rattle.mcbp_kv.specs.Requests.{is_one_of, client_opcodes, code_of};

use vb_types::Op;

/// Asks for the document of a key.
pub const GET: u8 = 0x00;

/// Writes a document, whether the key has one or not.
pub const SET: u8 = 0x01;

/// Writes a document where the key has none.
pub const ADD: u8 = 0x02;

/// Writes a document where the key has one.
pub const REPLACE: u8 = 0x03;

/// Removes a document.
pub const DELETE: u8 = 0x04;

/// Asks for an answer, and for nothing else.
pub const NOOP: u8 = 0x0a;

/// Asks for features of the connection.
pub const HELLO: u8 = 0x1f;

/// What a command does.
#[derive(Clone, Copy)]
pub enum Command {
    Get,
    Write(Op),
    Noop,
    Hello,
}

impl Command {
    /// The command of an opcode, if there is one.
    pub fn of(opcode: u8) -> Option<Command>
        ensures known { IfSome result (λ command. code_of command ≡ opcode) }
        ensures unknown { result ≡ None → is_one_of opcode client_opcodes ≡ false }
    {
        match opcode {
            GET => Some(Command::Get),
            SET => Some(Command::Write(Op::Set)),
            ADD => Some(Command::Write(Op::Add)),
            REPLACE => Some(Command::Write(Op::Replace)),
            DELETE => Some(Command::Write(Op::Delete)),
            NOOP => Some(Command::Noop),
            HELLO => Some(Command::Hello),
            _ => None,
        }
    }
}

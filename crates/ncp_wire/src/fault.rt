//! `CommandFault`, and the codes of an ERR.
use crate::command::ERROR_DATA;
use thiserror::Error;

/// Code of an ERR: the opcode is over 13.
pub const ILLEGAL_OPCODE: u8 = 1;

/// Code of an ERR: a command is cut short.
pub const SHORT_PARAMETER_SPACE: u8 = 2;

/// Code of an ERR: a field has a value that its command may not have.
pub const ERRONEOUS_PARAMETERS: u8 = 3;

/// Code of an ERR: the request names a socket that does not exist.
pub const NONEXISTENT_SOCKET: u8 = 4;

/// Code of an ERR: the link is not connected.
pub const SOCKET_NOT_CONNECTED: u8 = 5;

/// A fault in a control text, as the ERR that answers it: a code, [`ILLEGAL_OPCODE`] or
/// [`SHORT_PARAMETER_SPACE`], and the ten bytes of the text from the fault on, padded with zeros.
#[derive(Clone, Copy, Debug, Drop, PartialEq, Eq, Error)]
#[error("a control text has a fault of code {code}")]
pub struct CommandFault {
    pub code: u8,
    pub bytes: [u8; ERROR_DATA],
}

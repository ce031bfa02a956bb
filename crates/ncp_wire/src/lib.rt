//! The values of the two protocols: the fourteen commands of the Host/Host Protocol with their
//! bytes (NIC 8246), the codes of an ERR, and the subnet's answers to a message (BBN 1822).
//!
//! ```text
//! put_command(&Command::Eco { byte: 0x41 });                   // the bytes 09 41
//! ```
//!
//! - *Proved:* a command is encoded as defined in `specs/Spelling.antt`, in at most
//!   `LONGEST_COMMAND` bytes (`put_command`, clauses `spelling` and `fits`). That file has the
//!   opcodes as numerals, so a wrong constant is refused.
//! - *Tests:* `control` of `ncp_test_host`. `ncp_control` proves that no two commands have the same
//!   spelling.
#![tactic(auto)]

mod answer;
mod command;
pub mod equality;
mod fault;
pub mod laws;
mod links;
pub mod opcodes;

pub use answer::Answer;
pub use command::{Command, CommandBytes, ERROR_DATA, LONGEST_COMMAND, error_for, put_command};
pub use fault::{
    CommandFault, ERRONEOUS_PARAMETERS, ILLEGAL_OPCODE, NONEXISTENT_SOCKET, SHORT_PARAMETER_SPACE,
    SOCKET_NOT_CONNECTED,
};
pub use links::{CONTROL_LINK, CONTROL_SIZE, DATA_LINKS, FIRST_LINK, LAST_LINK, UNUSED_LINK};

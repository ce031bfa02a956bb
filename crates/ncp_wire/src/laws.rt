//! Laws of commands and answers. Each is the contract of a function with an empty body.
ghost use Rattle.std.specs.Prelude.{◌≡◌, ◌↔◌, true};
ghost use Rattle.ncp_wire.specs.declared.answer.Answer.{Answer};

use crate::answer::Answer;
use crate::command::{ERROR_DATA, LONGEST_COMMAND};
use crate::fault::{
    ERRONEOUS_PARAMETERS, ILLEGAL_OPCODE, NONEXISTENT_SOCKET, SHORT_PARAMETER_SPACE,
    SOCKET_NOT_CONNECTED,
};

/// `==` of answers is equality.
pub fn answers_are_compared()
    ensures { (a b : Answer) → ((⟦<Answer as PartialEq>⟧.eq a b ≡ true) ↔ (a ≡ b)) }
{}

/// The limits of commands, and the codes of an ERR, which the rules of a host cite by these names.
pub fn command_limits_are_these()
    ensures command { LONGEST_COMMAND ≡ 12 }
    ensures data { ERROR_DATA ≡ 10 }
    ensures illegal { ILLEGAL_OPCODE ≡ 1 }
    ensures short { SHORT_PARAMETER_SPACE ≡ 2 }
    ensures erroneous { ERRONEOUS_PARAMETERS ≡ 3 }
    ensures nonexistent { NONEXISTENT_SOCKET ≡ 4 }
    ensures not_connected { SOCKET_NOT_CONNECTED ≡ 5 }
{}

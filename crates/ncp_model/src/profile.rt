//! The limits of this profile by their numbers, and the outcomes that are violations of the
//! protocol.
ghost use Rattle.std.specs.Prelude.{◌≡◌, ℕ, List, Bool, true, false};
ghost use Rattle.ncp_wire.specs.declared.command.Command.{Command};
ghost use Rattle.ncp_model.specs.Effect.{wrong_parameters, no_socket, not_connected};
ghost use Rattle.ncp_model.specs.EndpointEvents.{is_violation};
ghost use Rattle.ncp_model.specs.EndpointEvents as all;

use crate::call_fault::CallFault;
use crate::limits::{
    GIVE_BACK_PARTS, MAX_AMOUNT, MAX_BY_PEER, MAX_CALLED, MAX_CONTROL, MAX_COUNT, MAX_ERRORS,
    MAX_MESSAGES, MAX_OWN, MAX_ROOM, MAX_TEXT, MAX_WAITING,
};
use ncp_wire::{DATA_LINKS, FIRST_LINK, LAST_LINK};

/// The limits, and the codes of ERR.
pub fn the_numbers_of_the_profile()
    ensures links { (FIRST_LINK ≡ 2) × (LAST_LINK ≡ 71) × (DATA_LINKS ≡ 70) }
    ensures text { MAX_TEXT ≡ 7928 }
    ensures control { MAX_CONTROL ≡ 120 }
    ensures waiting { MAX_WAITING ≡ 512 }
    ensures called { MAX_CALLED ≡ 256 }
    ensures own { MAX_OWN ≡ 64 }
    ensures by_peer { MAX_BY_PEER ≡ 64 }
    ensures room { MAX_ROOM ≡ 65536 }
    ensures messages { MAX_MESSAGES ≡ 65535 }
    ensures amount { MAX_AMOUNT ≡ 4294967295 }
    ensures count { MAX_COUNT ≡ 4294967295 }
    ensures parts { GIVE_BACK_PARTS ≡ 128 }
    ensures errors { MAX_ERRORS ≡ 16 }
    ensures codes { (wrong_parameters ≡ 3) × (no_socket ≡ 4) × (not_connected ≡ 5) }
{}

/// The violations: an ERR that is made, and a text that is refused. A late command or text, a
/// request for which there is no room, and a refused call are none.
pub fn what_is_against_the_protocol()
    ensures errors { (error : Command) → is_violation (all.Erred error) ≡ true }
    ensures texts { is_violation all.WrongSize ≡ true }
    ensures texts_over { is_violation all.Over ≡ true }
    ensures texts_not_connected { is_violation all.NotOpen ≡ true }
    ensures good { (is_violation all.Accepted ≡ false) × (is_violation all.Admitted ≡ false) }
    ensures late { (is_violation all.Late ≡ false) × (is_violation all.Full ≡ false) }
    ensures calls { (fault : CallFault) → is_violation (all.Refused fault) ≡ false }
    ensures own_texts { (text : List Bool) → is_violation (all.Took_out text) ≡ false }
    ensures own_texts_sent { (of_size : ℕ) (text : List Bool) → is_violation (all.Sent of_size text) ≡ false }
{}

//! Laws of leaders, messages and their bits. Each is the contract of a function with an empty body.
ghost use Rattle.std.specs.Prelude.{◌≡◌, ◌↔◌, Ok, Err, ◌<◌, ◌≤◌, ◌%◌, ◌^◌, ◌++◌, ℕ, List, Bool, length};
ghost use Rattle.ncp_leader.specs.Leader.{IsLeader, BeginsWith, leader_bits, leader_in};
ghost use Rattle.ncp_leader.specs.Message.{Message, IsMessage, Encodes, message_bits, message_in, message_at, message_with, written, IsReadFault, IsWriteFault, message_faults_judged};
ghost use Rattle.ncp_bits.specs.Reasons.{IsFirst, NoneHolds};
ghost use Rattle.ncp_numbers.specs.Numbers.{number_at};
ghost use Rattle.ncp_leader.specs.declared.leader.Leader.{Leader};
ghost use Rattle.ncp_leader.specs.declared.fault.MessageFault.{MessageFault};

use crate::kinds::{DESTINATION_DEAD, INCOMPLETE, REGULAR, RFNM};
use crate::leader::{LEADER_BITS, MAX_FLAGS, MAX_KIND};
use crate::regular::{FRONT_BITS, MAX_MADE_BITS, MAX_TEXT_BITS};

/// Bits encode at most one leader, and at most one message.
pub fn bits_stand_for_one()
    ensures leader { (bits : List Bool) (one other : Leader) →
        BeginsWith bits one → BeginsWith bits other → one ≡ other }
    ensures message { (bits : List Bool) (one other : Message) →
        Encodes bits one → Encodes bits other → one ≡ other }
{}

/// Reading what was written returns the same, regardless of the bits that follow.
pub fn written_is_read()
    ensures leader { (leader : Leader) (rest : List Bool) →
        IsLeader leader → leader_in (leader_bits leader ++ rest) ≡ Ok leader }
    ensures message { (message : Message) (rest : List Bool) →
        IsMessage message → message_in (message_bits message ++ rest) ≡ Ok message }
{}

/// Reading returns a message exactly when the bits encode it, and its leader is the one read alone.
pub fn read_stands()
    ensures message { (bits : List Bool) (message : Message) →
        (message_in bits ≡ Ok message) ↔ Encodes bits message }
    ensures leader { (bits : List Bool) (message : Message) →
        message_in bits ≡ Ok message → leader_in bits ≡ Ok message.leader }
{}

/// A leader, a byte size and a text of whole bytes, at most [`MAX_TEXT_BITS`](crate::MAX_TEXT_BITS)
/// bits, make a message.
pub fn whole_bytes_make_a_message()
    ensures { (leader : Leader) (size : ℕ) (text : List Bool) →
        IsLeader leader → 0 < size → size < 2 ^ 8 →
        length text ≤ MAX_TEXT_BITS → length text % size ≡ 0 →
        IsMessage (message_with leader size text) }
{}

/// Reading and writing are refused for the first reason that holds, in the order of
/// [`MessageFault`]. If none holds, the message is read or written.
pub fn message_faults_are_in_order()
    ensures read { (bits : List Bool) (fault : MessageFault) →
        (message_in bits ≡ Err fault) ↔ IsFirst (IsReadFault bits) message_faults_judged fault }
    ensures found { (bits : List Bool) →
        NoneHolds (IsReadFault bits) message_faults_judged → message_in bits ≡ Ok (message_at bits) }
    ensures write { (leader : Leader) (size : ℕ) (text : List Bool) (fault : MessageFault) →
        (written leader size text ≡ Err fault) ↔ IsFirst (IsWriteFault size text) message_faults_judged fault }
    ensures made { (leader : Leader) (size : ℕ) (text : List Bool) →
        NoneHolds (IsWriteFault size text) message_faults_judged →
        written leader size text ≡ Ok (message_bits (message_with leader size text)) }
{}

/// The offset of each field of a leader: the standard's bit numbers less one.
pub fn fields_have_places()
    ensures { (bits : List Bool) (leader : Leader) → leader_in bits ≡ Ok leader →
        (leader.flags ≡ number_at bits 0 4) × (leader.kind ≡ number_at bits 4 4)
        × (leader.host ≡ number_at bits 8 8) × (leader.link ≡ number_at bits 16 8)
        × (leader.low ≡ number_at bits 24 8) }
{}

/// The limits of leaders and messages.
pub fn message_limits_are_these()
    ensures leader { LEADER_BITS ≡ 32 }
    ensures flags { MAX_FLAGS ≡ 15 }
    ensures kind { MAX_KIND ≡ 15 }
    ensures front { FRONT_BITS ≡ 72 }
    ensures made { MAX_MADE_BITS ≡ 8000 }
    ensures text { MAX_TEXT_BITS ≡ 7928 }
{}

/// The types of messages, by their numbers in the standard.
pub fn types_are_numbered()
    ensures regular { REGULAR ≡ 0 }
    ensures rfnm { RFNM ≡ 5 }
    ensures dead { DESTINATION_DEAD ≡ 7 }
    ensures incomplete { INCOMPLETE ≡ 9 }
{}

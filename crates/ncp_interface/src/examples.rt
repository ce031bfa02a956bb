//! What a message carries, what an IMP reports, and what becomes of a message that was sent,
//! computed from the definitions.
ghost use Rattle.std.specs.Prelude.{◌≡◌, true, false, [], ◌∷◌, None, Some};
ghost use Rattle.ncp_numbers.specs.Bytes.{bits_of_bytes};
ghost use Rattle.ncp_interface.specs.declared.doubt.Doubt.TheVariants as doubts;
ghost use Rattle.ncp_interface.specs.declared.imp_direction.ImpDirection.TheVariants.{ToImp, FromImp};
ghost use Rattle.ncp_interface.specs.declared.message_class.MessageClass.TheVariants as carries;
ghost use Rattle.ncp_interface.specs.declared.notice.ImpNotice.TheVariants as notice;
ghost use Rattle.ncp_interface.specs.declared.sent_message.LinkState.TheVariants.{Empty, Out, Again};
ghost use Rattle.ncp_interface.specs.Contents.{message_class};
ghost use Rattle.ncp_interface.specs.Doubts.{doubt_left};
ghost use Rattle.ncp_interface.specs.Examples.{empty_message_on, control_sent, both_sent};
ghost use Rattle.ncp_interface.specs.Notices.{notice_of};
ghost use Rattle.ncp_interface.specs.Slots.{with_answer};

/// What a message carries, by its link and its byte size.
pub fn messages_carry_this()
    ensures control { message_class (empty_message_on 0 8) ≡ carries.Control }
    ensures seven { message_class (empty_message_on 0 7) ≡ carries.Stop }
    ensures unused { message_class (empty_message_on 1 8) ≡ carries.Stop }
    ensures text { message_class (empty_message_on 2 7) ≡ carries.Text }
    ensures last { message_class (empty_message_on 71 8) ≡ carries.Text }
    ensures over { message_class (empty_message_on 72 8) ≡ carries.Stop }
{}

/// What an IMP reports of the messages of its host: a reset of its interface, or that it refused the
/// one to host 2 on link 3. An RFNM is no notice, nor are bits without a leader, nor what the host
/// itself sends.
#[tactic(auto, unfolding(ncp_numbers::specs::Bytes::byte_bits, ncp_numbers::specs::Numbers::bits_of, ncp_numbers::specs::Numbers::number_of))]
pub fn notices_are_these()
    ensures reset { notice_of FromImp (bits_of_bytes (10 ∷ 0 ∷ 0 ∷ 0 ∷ [])) ≡ Some notice.InterfaceReset }
    ensures refused { notice_of FromImp (bits_of_bytes (8 ∷ 2 ∷ 3 ∷ 0 ∷ [])) ≡ Some (notice.MessageRefused 2 3) }
    ensures answer { notice_of FromImp (bits_of_bytes (5 ∷ 2 ∷ 3 ∷ 0 ∷ [])) ≡ None }
    ensures own { notice_of ToImp (bits_of_bytes (10 ∷ 0 ∷ 0 ∷ 0 ∷ [])) ≡ None }
    ensures short { notice_of FromImp [] ≡ None }
{}

/// The doubt about a message that a host sends, by the doubt about the last one on its link. None is
/// passed on if there was none. A copy of a forgotten or copied one may still arrive, of a refused
/// one none.
pub fn doubts_are_left_so()
    ensures certain { doubt_left doubts.None ≡ None }
    ensures refused { doubt_left doubts.Refused ≡ Some doubts.None }
    ensures forgotten { doubt_left doubts.Forgotten ≡ Some doubts.Copied }
    ensures copied { doubt_left doubts.Copied ≡ Some doubts.Copied }
{}

/// The stored messages after an answer to the second one. An RFNM (type 5) marks it as answered, or
/// removes it if a link without a stored message is known to be empty. After an Incomplete
/// Transmission (type 9) it is to be sent again. An answer to a message that is not outstanding, or
/// not stored, changes nothing.
pub fn answers_change_this()
    ensures delivered { with_answer false 5 (both_sent Out) (Some 1) ≡ both_sent Empty }
    ensures removed { with_answer true 5 (both_sent Out) (Some 1) ≡ control_sent ∷ [] }
    ensures incomplete { with_answer true 9 (both_sent Out) (Some 1) ≡ both_sent Again }
    ensures unasked { with_answer true 5 (both_sent Again) (Some 1) ≡ both_sent Again }
    ensures unknown { with_answer true 5 (both_sent Out) None ≡ both_sent Out }
{}

//! Conservation: sources and destinations of text that is given, taken and sent, and of allocation
//! that is granted and returned.
ghost use Rattle.std.specs.Prelude.{◌≡◌, true, false, ◌+◌, ◌≤◌, ◌++◌, [], ◌∷◌, length};
ghost use Rattle.ncp_wire.specs.declared.command.Command.TheVariants.{Ret};
ghost use Rattle.ncp_model.specs.Pairs.{sends, receives};
ghost use Rattle.ncp_model.specs.Amounts.{back};
ghost use Rattle.ncp_proof_endpoint.specs.Conserved.{OfEachGrant, OfEachAll, OfEachGvb, OfEachRet, OfEachTextIn, OfEachTextOut, OfEachTaking, OfEachRecall};
ghost use Rattle.ncp_proof_endpoint.specs.OfEnds.{OfEachLastTaking, OfEachRecalling, OfEachInterrupt};

use ncp_wire::Command;

/// An accepted allocation raises both numbers by the amounts in its ALL, and keeps the outstanding
/// and held bits within the store. An accepted ALL that arrives raises both numbers by its amounts.
pub fn grants_add_to_both_numbers()
    ensures made_messages { OfEachGrant (λ messages bits was now made. now.messages ≡ was.messages + messages) }
    ensures made_bits { OfEachGrant (λ messages bits was now made. now.bits ≡ was.bits + bits) }
    ensures made { OfEachGrant (λ messages bits was now made. made ≡ Command.All was.link messages bits ∷ []) }
    ensures held { OfEachGrant (λ messages bits was now made. now.bits + length now.stored ≤ now.room) }
    ensures messages_come { OfEachAll (λ messages bits was now. now.messages ≡ was.messages + messages) }
    ensures bits_come { OfEachAll (λ messages bits was now. now.bits ≡ was.bits + bits) }
{}

/// A GVB lowers both numbers by the amounts in the RET that answers it. A RET that arrives lowers
/// both numbers by its amounts, and the GVB is answered.
pub fn returns_take_from_both_numbers()
    ensures messages_go_back { OfEachGvb (λ on m b was now made. now.messages + back was.messages m ≡ was.messages) }
    ensures bits_go_back { OfEachGvb (λ on messages bits was now made. now.bits + back was.bits bits ≡ was.bits) }
    ensures made { OfEachGvb (λ on m b was now made. made ≡ Ret on (back was.messages m) (back was.bits b) ∷ []) }
    ensures messages_come { OfEachRet (λ messages bits was now. now.messages + messages ≡ was.messages) }
    ensures bits_come { OfEachRet (λ messages bits was now. now.bits + bits ≡ was.bits) }
    ensures answered { OfEachRet (λ messages bits was now. now.recall ≡ false) }
{}

/// An admitted text uses one message and its bits of the outstanding allocation, and is appended to
/// the held text. A text that is sent uses one message and its bits of the counters, and is removed
/// from the front of the stored text, as taken text is.
pub fn texts_take_what_they_use()
    ensures one_message_in { OfEachTextIn (λ text was now. now.messages + 1 ≡ was.messages) }
    ensures its_bits_in { OfEachTextIn (λ text was now. now.bits + length text ≡ was.bits) }
    ensures joins { OfEachTextIn (λ text was now. now.stored ≡ was.stored ++ text) }
    ensures one_message_out { OfEachTextOut (λ text was now. now.messages + 1 ≡ was.messages) }
    ensures its_bits_out { OfEachTextOut (λ text was now. now.bits + length text ≡ was.bits) }
    ensures goes_out { OfEachTextOut (λ text was now. text ++ now.stored ≡ was.stored) }
    ensures busy { OfEachTextOut (λ text was now. now.busy ≡ true) }
    ensures taken { OfEachTaking (λ text was now. text ++ now.stored ≡ was.stored) }
    ensures last { OfEachLastTaking (λ text was. text ≡ was.stored) }
{}

/// A GVB, INS or INR that a call makes names the link of its endpoint: an INS from a sender, an INR
/// from a receiver. After the call of a GVB its RET is awaited.
pub fn calls_name_the_link_of_their_end()
    ensures calls_back { OfEachRecall (λ messages bits was made. made ≡ Command.Gvb was.link messages bits ∷ []) }
    ensures recalls { OfEachRecalling (λ was now. now.recall ≡ true) }
    ensures sender { OfEachInterrupt (λ pair was made. sends pair ≡ true → made ≡ Command.Ins was.link ∷ []) }
    ensures receiver { OfEachInterrupt (λ pair was made. receives pair ≡ true → made ≡ Command.Inr was.link ∷ []) }
{}

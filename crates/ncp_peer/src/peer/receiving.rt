//! Receiving from a peer: regular messages (NIC 8246, message form), and answers to messages that
//! were sent (BBN 1822, section 3).
ghost use Rattle.std.specs.Prelude.{◌≡◌, ◌≤◌, length};
ghost use Rattle.ncp_leader.specs.Message.{message_in};
ghost use Rattle.ncp_wire.specs.declared.answer.Answer.TheVariants.{Rfnm};
ghost use Rattle.ncp_slot.specs.declared.slot.Slot.{Slot};
ghost use Rattle.ncp_slot.specs.Slots.{slot_at};
ghost use Rattle.ncp_peer.specs.PeerState.{answer_comes, after_answer};
ghost use Rattle.ncp_peer.specs.GivingUp.{gives_up, restarts};
ghost use Rattle.ncp_peer.specs.Hearing.{state_after_control, control_received, state_after_text, text_received, message_after, message_received, answer_of, answer_received, after_bits, received_of};

use crate::counts::one_more;
use crate::peer::Peer;
use crate::received::Received;
use ncp_bits::{BitStore, Part};
use ncp_leader::{DESTINATION_DEAD, FRONT_BITS, Leader, REGULAR, RFNM, Regular, read_regular_in};
use ncp_model::Took;
use ncp_wire::{Answer, CONTROL_LINK, CONTROL_SIZE, FIRST_LINK, LAST_LINK, UNUSED_LINK};

impl<S: BitStore> Peer<S> {
    // The message sent on a link is taken, and its slot is empty.
    fn hear_rfnm(&mut self, link: u8)
        requires link { link ≤ LAST_LINK }
        requires empty { slot_at self.old.slots link ≡ Slot.Empty }
        ensures { self.new ≡ record self.old { peer = after_answer link Rfnm self.old.slots self.old.peer } }
    {
        if link != CONTROL_LINK {
            self.kept.remove(link);
            self.association.free(link);
        }
        let quiet = self.is_quiet();
        self.association.settle(quiet);
    }

    // Handles an answer on a link.
    fn hear_answer(&mut self, link: u8, answer: Answer) -> Received
        ensures received { result ≡ answer_received link self.old }
        ensures state { self.new ≡ answer_comes link answer self.old }
    {
        if self.slots.answer(link, answer).is_err() {
            self.counts.stray = one_more(self.counts.stray);
            return Received::Stray;
        }
        match answer {
            Answer::Rfnm => self.hear_rfnm(link),
            Answer::Incomplete => self.again.insert(link),
            Answer::Dead => (),
        }
        Received::Answered
    }

    // Treats the message in flight on a link, if any, as not delivered.
    fn give_up(&mut self, link: u8)
        requires { link ≤ LAST_LINK }
        ensures { self.new ≡ gives_up link self.old }
    {
        if self.slots.answer(link, Answer::Incomplete).is_ok() {
            self.again.insert(link);
        }
    }

    /// Treats each message in flight as not delivered, in the order of the links.
    pub fn restart(&mut self)
        ensures { self.new ≡ restarts self.old }
    {
        self.give_up(CONTROL_LINK);
        for link in FIRST_LINK..LAST_LINK + 1 {
            self.give_up(link);
        }
    }

    // Handles a message on the control link.
    fn hear_control(&mut self, message: &Regular<'_>) -> Received
        ensures received { result ≡ control_received message.now }
        ensures state { self.new ≡ state_after_control message.now self.old }
    {
        if message.size() != CONTROL_SIZE {
            self.counts.wrong_size = one_more(self.counts.wrong_size);
            return Received::WrongSize;
        }
        let quiet = self.is_quiet();
        let count = self
            .association
            .hear_all(quiet, message.text(), &mut self.counts);
        Received::Control(count)
    }

    // Handles a text on a data link.
    fn hear_text(&mut self, link: u8, head: Part<'_>, message: &Regular<'_>) -> Received
        requires { length head ≡ FRONT_BITS }
        ensures received { result ≡ text_received link message.now self.old }
        ensures state { self.new ≡ state_after_text link head.entry message.now self.old }
    {
        if !self.association.is_up() {
            self.counts.not_up = one_more(self.counts.not_up);
            return Received::NotUp;
        }
        let took = self
            .association
            .hear_text(link, head, message.size(), message.text());
        match took {
            Took::Late => self.counts.late = one_more(self.counts.late),
            Took::WrongSize => self.counts.wrong_size = one_more(self.counts.wrong_size),
            Took::Over => self.counts.over = one_more(self.counts.over),
            Took::Admitted | Took::NotOpen => (),
        }
        Received::Text(took)
    }

    // Handles a regular message with this link in its leader.
    fn hear_message(&mut self, link: u8, bits: &Part<'_>) -> Received
        ensures received { result ≡ message_received link (message_in bits.now) self.old }
        ensures state { self.new ≡ message_after link bits.now (message_in bits.now) self.old }
    {
        let message = match read_regular_in(bits) {
            Ok(message) => message,
            Err(fault) => {
                self.counts.faults = one_more(self.counts.faults);
                return Received::Fault(fault);
            }
        };
        if link == UNUSED_LINK || link > LAST_LINK {
            self.counts.wrong_link = one_more(self.counts.wrong_link);
            return Received::WrongLink;
        }
        if link == CONTROL_LINK {
            return self.hear_control(&message);
        }
        self.hear_text(link, bits.slice(0, FRONT_BITS), &message)
    }

    /// Handles bits with this leader from the peer, of type 0, 5, 7 or 9.
    pub fn receive(&mut self, leader: &Leader, bits: &Part<'_>) -> Received
        ensures received { result ≡ received_of leader.now bits.now self.old }
        ensures state { self.new ≡ after_bits leader.now bits.now self.old }
    {
        if leader.kind == REGULAR {
            return self.hear_message(leader.link, bits);
        }
        self.hear_answer(leader.link, answer_of(leader.kind))
    }
}

/// The answer in a leader of this type, given that it is an answer: RFNM (5), Destination Dead (7),
/// or otherwise Incomplete Transmission (9) (BBN 1822, section 3).
pub fn answer_of(kind: u8) -> Answer
    ensures { result ≡ answer_of kind }
{
    match kind {
        RFNM => Answer::Rfnm,
        DESTINATION_DEAD => Answer::Dead,
        _ => Answer::Incomplete,
    }
}

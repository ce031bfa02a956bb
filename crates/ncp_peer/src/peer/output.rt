//! Sending to a peer.
ghost use Rattle.std.specs.Prelude.{◌≡◌, ◌≢◌, ◌<◌, true, false, None, is_some, IfNone};
ghost use Rattle.ncp_peer.specs.PeerState.{control_link};
ghost use Rattle.ncp_slot.specs.declared.slot.Slot.{Slot};
ghost use Rattle.ncp_slot.specs.Slots.{HasSlot, slot_at};
ghost use Rattle.ncp_peer.specs.Output.{output_on, after_output_on, next_of, after_next};
ghost use Rattle.ncp_peer.specs.Sending.{link_on};
ghost use Rattle.ncp_peer.specs.Silence.{IsSilent, SilentFrom, lower_of};

use crate::peer::Peer;
use crate::sending::{write_control, write_text};
use ncp_bits::BitStore;
use ncp_wire::{CONTROL_LINK, FIRST_LINK};

impl<S: BitStore> Peer<S> {
    // Sends the queued commands on the control link, whose slot is empty. Returns whether there are
    // any.
    fn send_control(&mut self, number: u8) -> bool
        requires { slot_at self.old.slots control_link ≡ Slot.Empty }
        ensures sent { result ≡ is_some (output_on number control_link self.old) }
        ensures state { self.new ≡ after_output_on control_link (output_on number control_link self.old) self.old }
    {
        let text = self.association.take_text();
        if text.is_empty() {
            return false;
        }
        let message = self.slots.begin(CONTROL_LINK);
        write_control(number, text.as_slice(), message);
        self.kept.insert(CONTROL_LINK);
        true
    }

    // Sends a text on a data link, whose slot is empty. Returns whether there is one.
    fn send_text(&mut self, number: u8, link: u8) -> bool
        requires link { HasSlot link }
        requires data { link ≢ control_link }
        requires empty { slot_at self.old.slots link ≡ Slot.Empty }
        ensures sent { result ≡ is_some (output_on number link self.old) }
        ensures state { self.new ≡ after_output_on link (output_on number link self.old) self.old }
    {
        let Some(counted) = self.association.next_size(link) else {
            return false;
        };
        let message = self.slots.begin(link);
        write_text(number, link, counted, &mut self.association, message);
        self.kept.insert(link);
        true
    }

    // Sends the message that is ready on a link, if any. Returns whether there is one.
    fn send_on(&mut self, number: u8, link: u8) -> bool
        requires { HasSlot link }
        ensures sent { result ≡ is_some (output_on number link self.old) }
        ensures state { self.new ≡ after_output_on link (output_on number link self.old) self.old }
    {
        if !self.slots.is_empty(link) {
            self.again.remove(link);
            return self.slots.depart(link);
        }
        if link == CONTROL_LINK {
            self.send_control(number)
        } else {
            self.send_text(number, link)
        }
    }

    // Whether a message may be ready on the control link. Makes no room for a message.
    fn may_send_control(&self) -> bool
        ensures { result ≡ false → IsSilent control_link self.now }
    {
        if !self.slots.is_empty(CONTROL_LINK) {
            return self.again.first_from(CONTROL_LINK) == Some(CONTROL_LINK);
        }
        self.association.waiting(0).is_some()
    }

    // The lowest data link from `from` on on which a message may be ready, if any. Reads no other
    // link and makes no room for a message.
    fn next_data_link(&self, from: u8) -> Option<u8>
        requires { control_link < from }
        ensures { SilentFrom from result self.now }
    {
        let again = self.again.first_from(from);
        let cut = self.association.next_cut(from);
        lower_of(again, cut)
    }

    /// Whether no message is to be sent again, no text may be sent, and no command is queued. If
    /// `true`, nothing is ready. Reads no slot.
    pub fn is_idle(&self) -> bool
        ensures { result ≡ true → SilentFrom control_link None self.now }
    {
        if self.again.first_from(CONTROL_LINK).is_some() {
            return false;
        }
        if self.association.next_cut(CONTROL_LINK).is_some() {
            return false;
        }
        if self.association.waiting(0).is_some() {
            return false;
        }
        true
    }

    /// Sends the first message that is ready, if any, on link 0 and then 2 to 71, and returns the
    /// link on which it is kept.
    pub fn send_next(&mut self, number: u8) -> Option<u8>
        ensures link { result ≡ link_on (next_of number self.old) }
        ensures state { self.new ≡ after_next (next_of number self.old) self.old }
        ensures none { IfNone result (self.new ≡ self.old) }
    {
        if self.may_send_control() {
            if self.send_on(number, CONTROL_LINK) {
                return Some(CONTROL_LINK);
            }
        }
        let mut from = FIRST_LINK;
        while let Some(link) = self.next_data_link(from) {
            if self.send_on(number, link) {
                return Some(link);
            }
            from = link + 1;
        }
        None
    }
}

// The lower of two optional links; a missing one is ignored.
fn lower_of(one: Option<u8>, other: Option<u8>) -> Option<u8>
    ensures { result ≡ lower_of one other }
{
    match (one, other) {
        (Some(one), Some(other)) => Some(one.min(other)),
        (Some(one), None) => Some(one),
        (None, other) => other,
    }
}

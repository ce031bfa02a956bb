//! Text: given, sent, admitted and taken.
ghost use Rattle.std.specs.Prelude.{◌≡◌, OnErr, true, false, Some, ◌+◌, ◌≤◌, ◌%◌, ◌==◌, ◌++◌, length};
ghost use Rattle.ncp_model.specs.Pairs.{sends};
ghost use Rattle.ncp_model.specs.Effect.{answer};
ghost use Rattle.ncp_model.specs.Calls.{bits_to_take, give_end, take_end};
ghost use Rattle.ncp_model.specs.Texts.{Rfnm, hear_text, bytes_to_send, can_send, cut, end_answered};
ghost use Rattle.ncp_conn.specs.Changes.{after, with_end, putting, with_text, marks};
ghost use Rattle.ncp_conn.specs.Cutting.{cut_sizes, cut_text};
ghost use Rattle.ncp_conn.specs.Stored.{FitsAfter};

use crate::entry::{Entry, whole_bytes};
use ncp_bits::{BitStore, Bits, MAX_BITS, Part};
use ncp_model::{CallFault, MAX_TEXT, Took};
use ncp_wire::Command;

impl<S: BitStore> Entry<S> {
    // Appends a text to the stored bits; refused if there is no room for it.
    fn put_stored(&mut self, text: Part<'_>) -> Result<(), CallFault>
        requires outstanding { FitsAfter (length text) self.old }
        ensures answer { result ≡ putting text.entry self.old.1 }
        ensures entry { self.new ≡ with_end self.old (with_text text.entry self.old.1) }
    {
        match &mut self.store {
            Some(store) => store.put(text).map_err(|_| CallFault::NoRoom),
            None if text.is_empty() => Ok(()),
            None => Err(CallFault::NoRoom),
        }
    }

    /// Stores a text to send.
    pub(crate) fn give(&mut self, text: Part<'_>) -> Result<(), CallFault>
        ensures answer { result ≡ answer (give_end self.old.0 text.entry self.old.1) }
        ensures entry { self.new ≡ after self.old (give_end self.old.0 text.entry self.old.1) }
        ensures err { OnErr result (self.new ≡ self.old) }
        ensures marks { marks self.new ≡ marks self.old }
    {
        self.may_send_on()?;
        if !is_whole(text.len(), self.size) {
            return Err(CallFault::NotWhole);
        }
        self.put_stored(text)
    }

    // The number of bits that a `take` of `bytes` bytes removes.
    fn bits_to_take(&self, bytes: u32) -> usize
        ensures bits { result ≡ bits_to_take bytes self.now.1 }
        ensures held { result ≤ length self.now.1.stored }
        ensures fits { result ≤ MAX_TEXT }
    {
        let held = whole_bytes(self.stored(), self.size);
        let most = whole_bytes(MAX_TEXT as usize, self.size);
        (bytes as usize).min(held.min(most)) * usize::from(self.size)
    }

    /// Takes held text.
    pub(crate) fn take(&mut self, bytes: u32) -> Result<(Bits, Option<Command>), CallFault>
        ensures answer { result ≡ answer (take_end self.old.0 bytes self.old.1) }
        ensures entry { self.new ≡ after self.old (take_end self.old.0 bytes self.old.1) }
        ensures err { OnErr result (self.new ≡ self.old) }
        ensures marks { marks self.new ≡ marks self.old }
    {
        if self.left {
            return Err(CallFault::Closing);
        }
        if !self.opened {
            return Err(CallFault::NotOpen);
        }
        if !self.pair.receives() {
            return Err(CallFault::WrongEnd);
        }
        let count = self.bits_to_take(bytes);
        let text = self.take_stored(count);
        if self.leaving && self.stored() == 0 {
            return Ok((text, Some(self.leave())));
        }
        Ok((text, None))
    }

    /// A text arrives at a receiver.
    pub(crate) fn hear_text(&mut self, size: u8, text: Part<'_>) -> Took
        requires { sends self.old.0 ≡ false }
        ensures answer { result ≡ answer (hear_text size text.entry (Some self.old.1)) }
        ensures entry { self.new ≡ after self.old (hear_text size text.entry (Some self.old.1)) }
        ensures marks { marks self.new ≡ marks self.old }
    {
        if self.is_closing() {
            return Took::Late;
        }
        if !self.opened {
            return Took::NotOpen;
        }
        if size != self.size {
            return Took::WrongSize;
        }
        if self.messages == 0 || text.len() as u64 > u64::from(self.bits) {
            return Took::Over;
        }
        self.messages -= 1;
        self.bits -= text.len() as u32;
        self.put_stored(text).unwrap();
        Took::Admitted
    }

    // The number of bytes in the next message.
    fn bytes_to_send(&self) -> usize
        ensures bytes { result ≡ bytes_to_send self.now.1 }
    {
        let waiting = whole_bytes(self.stored(), self.size);
        let allowed = whole_bytes(self.bits as usize, self.size);
        let most = whole_bytes(MAX_TEXT as usize, self.size);
        waiting.min(allowed.min(most))
    }

    /// Whether a text may be sent now.
    pub(crate) fn can_send(&self) -> bool
        ensures { result ≡ can_send self.now.0 self.now.1 }
    {
        self.pair.sends()
            && self.is_open()
            && !self.busy
            && self.bytes_to_send() >= 1
            && self.messages >= 1
    }

    /// The byte size of the next text to send, and its number of bytes, if there is one.
    pub(crate) fn next_size(&self) -> Option<(u8, u16)>
        ensures { result ≡ cut_sizes (answer (cut self.now.0 (Some self.now.1))) }
    {
        if !self.can_send() {
            return None;
        }
        Some((self.size, self.bytes_to_send() as u16))
    }

    /// Appends the next text to send, if there is one, to `bits`.
    pub(crate) fn cut_onto(&mut self, bits: &mut Bits)
        requires { length bits.old + MAX_TEXT ≤ MAX_BITS }
        ensures bits { bits.new ≡ bits.old ++ cut_text (answer (cut self.old.0 (Some self.old.1))) }
        ensures entry { self.new ≡ after self.old (cut self.old.0 (Some self.old.1)) }
        ensures marks { marks self.new ≡ marks self.old }
    {
        if !self.can_send() {
            return;
        }
        let count = self.bytes_to_send() * usize::from(self.size);
        self.messages -= 1;
        self.bits -= count as u32;
        self.busy = true;
        self.move_stored(count, bits);
    }

    /// An RFNM acknowledges the text that was sent.
    pub(crate) fn answered(&mut self) -> Option<Command>
        requires { sends self.old.0 ≡ true }
        ensures answer { result ≡ answer (end_answered self.old.0 Rfnm (Some self.old.1)) }
        ensures entry { self.new ≡ after self.old (end_answered self.old.0 Rfnm (Some self.old.1)) }
        ensures marks { marks self.new ≡ marks self.old }
    {
        self.busy = false;
        if self.leaving {
            return Some(self.leave());
        }
        None
    }
}

// Whether `bits` bits are whole bytes. If a byte has no bits, only 0 bits are.
fn is_whole(bits: usize, size: u8) -> bool
    ensures { result ≡ (bits % size == 0) }
{
    if size == 0 {
        return bits == 0;
    }
    bits % usize::from(size) == 0
}

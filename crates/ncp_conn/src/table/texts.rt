//! Text and its allocation.
ghost use Rattle.std.specs.Prelude.{◌≡◌, ◌+◌, ◌≤◌, ◌++◌, length, OnErr};
ghost use Rattle.std.specs.FinMap.{get};
ghost use Rattle.ncp_model.specs.Effect.{answer};
ghost use Rattle.ncp_model.specs.Calls.{give, take_held, allocate, call_back, interrupt};
ghost use Rattle.ncp_model.specs.Texts.{Rfnm};
ghost use Rattle.ncp_model.specs.Ends.{text_in, cut_in, answered_in, map_after};
ghost use Rattle.ncp_conn.specs.Hearing.{after_sender, after_receiver};
ghost use Rattle.ncp_conn.specs.Cutting.{may_cut, next_cut, cut_sizes, cut_text};

use crate::table::Table;
use ncp_bits::{BitStore, Bits, MAX_BITS, Part};
use ncp_model::{CallFault, MAX_TEXT, Pair, Took};
use ncp_wire::Command;

impl<S: BitStore> Table<S> {
    /// Gives text to send: it is appended to the stored bits.
    ///
    /// Refused, in this order: `NoEntry`, `Closing`, `NotOpen`, `WrongEnd`, `NotWhole` (not a
    /// multiple of the byte size), `NoRoom`.
    pub fn give(&mut self, pair: Pair, text: &Bits) -> Result<(), CallFault>
        ensures answer { result ≡ answer (give pair text.now (get self.old pair)) }
        ensures table { self.new ≡ map_after self.old pair (give pair text.now (get self.old pair)) }
        ensures err { OnErr result (self.new ≡ self.old) }
    {
        self.give_part(pair, text.whole())
    }

    /// [`Table::give`] of borrowed text.
    pub fn give_part(&mut self, pair: Pair, text: Part<'_>) -> Result<(), CallFault>
        ensures answer { result ≡ answer (give pair text.entry (get self.old pair)) }
        ensures table { self.new ≡ map_after self.old pair (give pair text.entry (get self.old pair)) }
        ensures err { OnErr result (self.new ≡ self.old) }
    {
        let Some(key) = self.entries.find(pair) else {
            return Err(CallFault::NoEntry);
        };
        let answer = self.entries.slab[key].give(text);
        self.entries.settle(key);
        answer
    }

    /// Takes held text from its front: as many bytes as are asked for, are held, and fit one
    /// message. The second part of the result is the CLS of a leaving receiver whose last bits are
    /// taken; the caller queues it.
    ///
    /// Refused, in this order: `NoEntry`, `Closing` (left), `NotOpen` (never opened), `WrongEnd`.
    pub fn take(&mut self, pair: Pair, bytes: u32) -> Result<(Bits, Option<Command>), CallFault>
        ensures answer { result ≡ answer (take_held pair bytes (get self.old pair)) }
        ensures table { self.new ≡ map_after self.old pair (take_held pair bytes (get self.old pair)) }
        ensures err { OnErr result (self.new ≡ self.old) }
    {
        let Some(key) = self.entries.find(pair) else {
            return Err(CallFault::NoEntry);
        };
        let answer = self.entries.slab[key].take(bytes);
        self.entries.settle(key);
        answer
    }

    /// Allocates `messages` and `bits` more to the sender. Returns the ALL, which the caller
    /// queues.
    ///
    /// Refused, in this order: `NoEntry`, `Closing`, `NotOpen`, `WrongEnd`, `TooMuch` (the
    /// outstanding, held and these bits exceed the room, or the messages `MAX_MESSAGES`),
    /// `QueueFull`.
    pub fn allocate(
        &mut self,
        pair: Pair,
        messages: u16,
        bits: u32,
        full: bool,
    ) -> Result<Command, CallFault>
        ensures answer { result ≡ answer (allocate pair messages bits full (get self.old pair)) }
        ensures table { self.new ≡ map_after self.old pair (allocate pair messages bits full (get self.old pair)) }
        ensures err { OnErr result (self.new ≡ self.old) }
    {
        let Some(key) = self.entries.find(pair) else {
            return Err(CallFault::NoEntry);
        };
        let answer = self.entries.slab[key].allocate(messages, bits, full);
        self.entries.settle(key);
        answer
    }

    /// Asks the sender to give back `fm` 128ths of its messages and `fb` 128ths of its bits.
    /// Returns the GVB, which the caller queues.
    ///
    /// Refused, in this order: `NoEntry`, `Closing`, `NotOpen`, `WrongEnd`, `Busy` (the last one is
    /// unanswered), `QueueFull`.
    pub fn call_back(
        &mut self,
        pair: Pair,
        fm: u8,
        fb: u8,
        full: bool,
    ) -> Result<Command, CallFault>
        ensures answer { result ≡ answer (call_back pair fm fb full (get self.old pair)) }
        ensures table { self.new ≡ map_after self.old pair (call_back pair fm fb full (get self.old pair)) }
        ensures err { OnErr result (self.new ≡ self.old) }
    {
        let Some(key) = self.entries.find(pair) else {
            return Err(CallFault::NoEntry);
        };
        let answer = self.entries.slab[key].call_back(fm, fb, full);
        self.entries.settle(key);
        answer
    }

    /// Interrupts the peer. Returns the INS of a sender or the INR of a receiver, which the caller
    /// queues.
    ///
    /// Refused, in this order: `NoEntry`, `Closing`, `NotOpen`, `QueueFull`.
    pub fn interrupt(&mut self, pair: Pair, full: bool) -> Result<Command, CallFault>
        ensures answer { result ≡ answer (interrupt pair full (get self.old pair)) }
        ensures table { self.new ≡ map_after self.old pair (interrupt pair full (get self.old pair)) }
        ensures err { OnErr result (self.new ≡ self.old) }
    {
        let Some(key) = self.entries.find(pair) else {
            return Err(CallFault::NoEntry);
        };
        let answer = self.entries.slab[key].interrupt(full);
        self.entries.settle(key);
        answer
    }

    /// Handles a text that arrived on a data link, in bytes of `size` bits, while the host is up
    /// with the peer. Checked in this order:
    ///
    /// - `Late`: the receiver that asked with the link is leaving or has left.
    /// - `NotOpen`: no receiver asked with the link, or it never opened.
    /// - `WrongSize`: the byte size is not the sender's.
    /// - `Over`: no message is outstanding, or fewer bits than arrived.
    /// - `Admitted`: the text is appended to the held bits, and one message and its bits are no
    ///   longer outstanding.
    ///
    /// Except for `Admitted` the text is dropped and nothing changes.
    pub fn text(&mut self, link: u8, size: u8, text: Part<'_>) -> Took
        ensures answer { result ≡ answer (text_in link size text.entry self.old) }
        ensures table { self.new ≡ after_receiver link (text_in link size text.entry self.old) self.old }
    {
        let Some(key) = self.entries.receivers.key(link) else {
            return Took::NotOpen;
        };
        let answer = self.entries.slab[key].hear_text(size, text);
        self.entries.settle(key);
        answer
    }

    /// Removes and returns the next text to send on a link, with its byte size: as many whole bytes
    /// as are stored, as the counter of bits permits, and as fit one message
    /// ([`MAX_TEXT`](ncp_model::MAX_TEXT) bits). The counters fall by one message and these bits,
    /// and the endpoint is busy: nothing more is sent on its link until [`Table::answered`].
    ///
    /// `None`, with nothing changed, if no sender heard the link, if it is not open or is busy, or
    /// if the counters and the stored bits do not permit one whole byte.
    pub fn cut(&mut self, link: u8) -> Option<(u8, Bits)>
        ensures answer { result ≡ answer (cut_in link self.old) }
        ensures table { self.new ≡ after_sender link (cut_in link self.old) self.old }
    {
        let (size, _bytes) = self.next_size(link)?;
        let mut text = Bits::new();
        self.cut_onto(link, &mut text);
        Some((size, text))
    }

    /// The byte size of the text that [`Table::cut`] would return for a link, and its number of
    /// bytes, if there is one.
    pub fn next_size(&self, link: u8) -> Option<(u8, u16)>
        ensures { result ≡ cut_sizes (answer (cut_in link self.now)) }
    {
        match self.entries.senders.key(link) {
            Some(key) => self.entries.slab[key].next_size(),
            None => None,
        }
    }

    /// Appends the text that [`Table::cut`] would return to `bits`, with the same effect on the
    /// table. If there is none, nothing changes.
    pub fn cut_onto(&mut self, link: u8, bits: &mut Bits)
        requires { length bits.old + MAX_TEXT ≤ MAX_BITS }
        ensures bits { bits.new ≡ bits.old ++ cut_text (answer (cut_in link self.old)) }
        ensures table { self.new ≡ after_sender link (cut_in link self.old) self.old }
    {
        let Some(key) = self.entries.senders.key(link) else {
            return;
        };
        self.entries.slab[key].cut_onto(bits);
        self.entries.settle(key);
    }

    /// Whether [`Table::cut`] would return a text for a link. Copies no text, and reads at most one
    /// entry.
    pub fn may_cut(&self, link: u8) -> bool
        ensures { result ≡ may_cut self.now link }
    {
        match self.entries.senders.key(link) {
            Some(key) => self.entries.slab[key].can_send(),
            None => false,
        }
    }

    /// The lowest link from `from` on, up to the last, for which [`Table::cut`] would return a
    /// text. Reads no entry.
    pub fn next_cut(&self, from: u8) -> Option<u8>
        ensures { result ≡ next_cut from self.now }
    {
        self.entries.sending.first_from(from)
    }

    /// Handles the RFNM for the text that was sent on a link: its endpoint is no longer busy.
    /// `Some` is the CLS that a leaving sender then makes, which the caller queues; the endpoint
    /// has left, or is removed if the peer's CLS was received.
    pub fn answered(&mut self, link: u8) -> Option<Command>
        ensures answer { result ≡ answer (answered_in link Rfnm self.old) }
        ensures table { self.new ≡ after_sender link (answered_in link Rfnm self.old) self.old }
    {
        let Some(key) = self.entries.senders.key(link) else {
            return None;
        };
        let answer = self.entries.slab[key].answered();
        self.entries.settle(key);
        answer
    }
}

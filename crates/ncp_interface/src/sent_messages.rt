//! `SentMessages`: the messages that are outstanding or to be sent again.
ghost use Rattle.std.specs.Prelude.{◌≡◌, ◌<◌, ◌≤◌, ◌||◌, [], None, Some, length, map, IfOk, IfSome};
ghost use Rattle.std.specs.List.{position, list_any, remove};
ghost use Rattle.ncp_interface.specs.Slots.{is_of, is_busy_on, makes_link_busy, same_bits, same_but_host, position_of, kept_at, busy_link, is_repeat, gone_out, has_room, with_out, with_kept_slot, with_answered, with_answer, after_repeat_at};
ghost use Rattle.ncp_interface.specs.Doubts.{doubt_of, with_doubt, after_reset_at, refused_at};

use crate::doubt::Doubt;
use crate::observed_link::ObservedLink;
use crate::sent_message::{LinkState, SentMessage};
use ncp_bits::Bits;
use ncp_leader::RFNM;
use std::alloc::{AllocError, Global};
use std::marker::Model;

/// The most messages stored: one for each link between eight hosts, and a few more.
pub const MAX_KEPT: usize = 4096;

/// The messages that are outstanding or to be sent again, in the order in which their links got an
/// entry. Creation allocates all their room.
#[derive(Drop)]
pub struct SentMessages {
    /// Only the first `count` are in use. New messages overwrite the others.
    all: Vec<SentMessage>,
    count: usize,
}

impl Model for SentMessages {
    ghost use Rattle.std.specs.Prelude.{◌≤◌, List, take, length};
    ghost use Rattle.std.specs.Vec.{vec_capacity};
    ghost use Rattle.ncp_interface.specs.declared.sent_message.SentMessage.{SentMessage};
    ghost use Rattle.ncp_interface.specs.declared.sent_messages.TheConstants.{MAX_KEPT};

    ghost Value = { List SentMessage };

    ghost view = { λ sent_messages. take sent_messages.count sent_messages.all.items };

    ghost invariant = { λ sent_messages. (MAX_KEPT ≤ vec_capacity sent_messages.all) × (sent_messages.count ≤ length sent_messages.all.items) };
}

// The index of the first message of a link.
fn place_in(kept: &[SentMessage], from: u8, to: u8, link: u8) -> Option<usize>
    ensures index { result ≡ position_of from to link kept.now }
    ensures inside { IfSome result (λ place. place < length kept.now) }
{
    kept.iter().position(|one| one.is_of(from, to, link))
}

// The index of the first message that makes a data link busy.
fn busy_in(kept: &[SentMessage], from: u8, to: u8) -> Option<usize>
    ensures index { result ≡ position (makes_link_busy from to) kept.now }
    ensures inside { IfSome result (λ place. place < length kept.now) }
{
    kept.iter().position(|one| one.is_busy(from, to))
}

// Whether a stored message makes the link busy.
fn is_link_busy_in(kept: &[SentMessage], from: u8, to: u8, link: u8) -> bool
    ensures { result ≡ list_any (is_busy_on from to link) kept.now }
{
    kept.iter().any(|one| one.is_busy_on(from, to, link))
}

// What a reset of the interface of host `at` leaves in doubt.
fn reset_each(kept: &mut [SentMessage], at: u8)
    ensures { kept.new ≡ map (after_reset_at at) kept.old }
{
    for one in kept.iter_mut() {
        one.reset_at(at);
    }
}

// After a reset of the interface of host `at`, each message of it may be sent again.
fn repeat_each(kept: &mut [SentMessage], at: u8)
    ensures { kept.new ≡ map (after_repeat_at at) kept.old }
{
    for one in kept.iter_mut() {
        one.repeat_at(at);
    }
}

impl SentMessages {
    /// No messages. Only this function allocates, once.
    pub fn new(alloc: Global) -> Result<SentMessages, AllocError>
        ensures { IfOk result (λ sent_messages. sent_messages ≡ []) }
    {
        Ok(SentMessages {
            all: Vec::with_capacity(alloc, MAX_KEPT)?,
            count: 0,
        })
    }

    /// The messages.
    pub fn as_slice(&self) -> &[SentMessage]
        ensures { result.now ≡ self.now }
    {
        &self.all.as_slice()[..self.count]
    }

    /// The index of a link's message, if one is stored.
    pub fn position_of(&self, from: u8, to: u8, link: u8) -> Option<usize>
        ensures index { result ≡ position_of from to link self.now }
        ensures inside { IfSome result (λ place. place < length self.now) }
    {
        place_in(self.as_slice(), from, to, link)
    }

    /// A busy data link, if there is one.
    pub fn busy_link(&self, from: u8, to: u8) -> Option<u8>
        ensures { result ≡ busy_link from to self.now }
    {
        match busy_in(self.as_slice(), from, to) {
            Some(place) => Some(self.as_slice()[place].link),
            None => None,
        }
    }

    /// Whether a message on this link is outstanding or to be sent again.
    pub fn is_link_busy(&self, from: u8, to: u8, link: u8) -> bool
        ensures { result ≡ list_any (is_busy_on from to link) self.now }
    {
        is_link_busy_in(self.as_slice(), from, to, link)
    }

    /// What became of the message at an index.
    pub fn slot(&self, place: usize) -> LinkState
        requires { place < length self.now }
        ensures { result ≡ (kept_at self.now place).slot }
    {
        self.as_slice()[place].slot
    }

    /// The message at an index.
    pub fn message(&self, place: usize) -> &Bits
        requires { place < length self.now }
        ensures { result.now ≡ (kept_at self.now place).message }
    {
        &self.as_slice()[place].message
    }

    /// Whether the message at an index has these bits.
    pub fn is_same(&self, place: usize, message: &Bits) -> bool
        requires { place < length self.now }
        ensures { result ≡ same_bits (kept_at self.now place).message message.now }
    {
        self.as_slice()[place].is_same(message)
    }

    /// Whether the message at an index has these bits, apart from the host in its leader.
    pub fn is_same_but_host(&self, place: usize, message: &Bits) -> bool
        requires { place < length self.now }
        ensures { result ≡ same_but_host (kept_at self.now place).message message.now }
    {
        self.as_slice()[place].is_same_but_host(message)
    }

    /// Whether a message is the undelivered one at an index, sent again.
    pub fn is_repeat(&self, place: Option<usize>, message: &Bits) -> bool
        requires { IfSome place (λ p. p < length self.now) }
        ensures { result ≡ is_repeat self.now place message.now }
    {
        match place {
            Some(place) => self.slot(place).is_again() && self.is_same(place, message),
            None => false,
        }
    }

    /// Stores a message that was sent: at `place`, its link's last one, or as a new one. Returns
    /// whether there was room.
    pub fn put(&mut self, place: Option<usize>, line: ObservedLink, message: &Bits) -> bool
        requires { IfSome place (λ p. p < length self.old) }
        ensures room { result ≡ has_room self.old place }
        ensures kept { self.new ≡ with_out self.old place (gone_out line.at line.peer line.link message.now) }
    {
        match place {
            Some(place) => {
                self.all[place].write(line, message);
                true
            }
            None => self.push(line, message),
        }
    }

    // Stores a new message, if there is room. Returns whether there was.
    fn push(&mut self, line: ObservedLink, message: &Bits) -> bool
        ensures room { result ≡ has_room self.old None }
        ensures kept { self.new ≡ with_out self.old None (gone_out line.at line.peer line.link message.now) }
    {
        if self.count >= MAX_KEPT {
            return false;
        }
        if self.count < self.all.len() {
            self.all[self.count].write(line, message);
        } else {
            self.all.push_reserved(SentMessage::new(line, message));
        }
        self.count += 1;
        true
    }

    // Removes a message.
    fn forget(&mut self, place: usize)
        requires { place < length self.old }
        ensures { self.new ≡ remove self.old place }
    {
        let left = self.count - 1;
        if place < left {
            let _over = self.all.remove(place);
        }
        self.count = left;
    }

    /// Sets the state of the message at an index.
    pub fn set(&mut self, place: usize, slot: LinkState)
        requires { place < length self.old }
        ensures { self.new ≡ with_kept_slot self.old place slot }
    {
        self.all[place].slot = slot;
    }

    /// What is in doubt about the message at an index.
    pub fn doubt(&self, place: Option<usize>) -> Doubt
        requires { IfSome place (λ p. p < length self.now) }
        ensures { result ≡ doubt_of self.now place }
    {
        match place {
            Some(place) => self.as_slice()[place].doubt,
            None => Doubt::None,
        }
    }

    /// Sets what is in doubt about the message at an index.
    pub fn set_doubt(&mut self, place: usize, doubt: Doubt)
        requires { place < length self.old }
        ensures { self.new ≡ with_doubt self.old (Some place) doubt }
    {
        self.all[place].doubt = doubt;
    }

    /// Notes that the IMP refused the message at an index, if that is outstanding.
    pub fn refuse(&mut self, place: Option<usize>)
        requires { IfSome place (λ p. p < length self.old) }
        ensures { self.new ≡ refused_at self.old place }
    {
        let Some(place) = place else {
            return;
        };
        let one = &self.as_slice()[place];
        if one.is_out() {
            let doubt = one.doubt.after_refusal();
            self.set_doubt(place, doubt);
        }
    }

    /// What a reset of the interface of host `at` leaves in doubt.
    pub fn reset_at(&mut self, at: u8)
        ensures { self.new ≡ map (after_reset_at at) self.old }
    {
        reset_each(&mut self.all, at);
    }

    /// After a reset of the interface of host `at`, each message of it may be sent again.
    pub fn repeat_at(&mut self, at: u8)
        ensures { self.new ≡ map (after_repeat_at at) self.old }
    {
        repeat_each(&mut self.all, at);
    }

    // The message at an index was delivered. Removes it if a link without a stored message is
    // `known` to be empty, else marks it as answered.
    fn answered(&mut self, known: bool, place: usize)
        requires { place < length self.old }
        ensures { self.new ≡ with_answered known self.old place }
    {
        if known {
            self.forget(place);
        } else {
            self.set(place, LinkState::Empty);
        }
    }

    /// Applies an answer of this type to the message at an index, if that is outstanding. It is
    /// removed if it was delivered and a link without a stored message is `known` to be empty.
    pub fn answer(&mut self, known: bool, kind: u8, place: Option<usize>)
        requires { IfSome place (λ p. p < length self.old) }
        ensures { self.new ≡ with_answer known kind self.old place }
    {
        let Some(place) = place else {
            return;
        };
        if !self.slot(place).is_out() {
            return;
        }
        if kind == RFNM {
            self.answered(known, place);
        } else {
            self.set(place, LinkState::Again);
        }
    }
}

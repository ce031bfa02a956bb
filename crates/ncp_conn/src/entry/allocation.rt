//! Allocation: a receiver grants it, a sender counts it down, and either gives it back.
ghost use Rattle.std.specs.Prelude.{◌≡◌, ◌≤◌, OnErr, Some, true};
ghost use Rattle.ncp_model.specs.Pairs.{sends};
ghost use Rattle.ncp_model.specs.Amounts.{back};
ghost use Rattle.ncp_model.specs.Effect.{answer};
ghost use Rattle.ncp_model.specs.Calls.{is_too_much, allocate_end, call_back_end};
ghost use Rattle.ncp_model.specs.Commands.{at_open, all_at, gvb_at, ret_at};
ghost use Rattle.ncp_conn.specs.Changes.{after, marks};

use crate::entry::{Entry, refused};
use ncp_bits::BitStore;
use ncp_model::{CallFault, Heard, MAX_AMOUNT, MAX_MESSAGES, give_back};
use ncp_wire::{Command, ERRONEOUS_PARAMETERS};

// The part of a counter that a GVB gives back, at most the counter.
fn part_back(counter: u32, fraction: u8) -> u32
    ensures part { result ≡ back counter fraction }
    ensures within { result ≤ counter }
{
    give_back(counter, fraction)
}

impl<S: BitStore> Entry<S> {
    // Whether the outstanding, held and added bits exceed the store, or the messages their counter.
    fn is_too_much(&self, messages: u16, bits: u32) -> bool
        ensures { result ≡ is_too_much messages bits self.now.1 }
    {
        let whole = u64::from(self.bits) + self.stored() as u64 + u64::from(bits);
        whole > self.room() as u64
            || u32::from(self.messages) + u32::from(messages) > u32::from(MAX_MESSAGES)
    }

    /// A receiver allocates: the ALL.
    pub(crate) fn allocate(
        &mut self,
        messages: u16,
        bits: u32,
        full: bool,
    ) -> Result<Command, CallFault>
        ensures answer { result ≡ answer (allocate_end self.old.0 messages bits full self.old.1) }
        ensures entry { self.new ≡ after self.old (allocate_end self.old.0 messages bits full self.old.1) }
        ensures err { OnErr result (self.new ≡ self.old) }
        ensures marks { marks self.new ≡ marks self.old }
    {
        self.may_receive_on()?;
        if self.is_too_much(messages, bits) {
            return Err(CallFault::TooMuch);
        }
        if full {
            return Err(CallFault::QueueFull);
        }
        self.messages += messages;
        self.bits += bits;
        Ok(Command::All {
            link: self.link,
            messages,
            bits,
        })
    }

    /// A receiver calls back: the GVB.
    pub(crate) fn call_back(&mut self, fm: u8, fb: u8, full: bool) -> Result<Command, CallFault>
        ensures answer { result ≡ answer (call_back_end self.old.0 fm fb full self.old.1) }
        ensures entry { self.new ≡ after self.old (call_back_end self.old.0 fm fb full self.old.1) }
        ensures err { OnErr result (self.new ≡ self.old) }
        ensures marks { marks self.new ≡ marks self.old }
    {
        self.may_receive_on()?;
        if self.recall {
            return Err(CallFault::Busy);
        }
        if full {
            return Err(CallFault::QueueFull);
        }
        self.recall = true;
        Ok(Command::Gvb {
            link: self.link,
            fm,
            fb,
        })
    }

    /// A sender receives an ALL.
    pub(crate) fn hear_all(
        &mut self,
        command: &Command,
        link: u8,
        messages: u16,
        bits: u32,
    ) -> Heard
        requires sends { sends self.old.0 ≡ true }
        requires command { command.now ≡ Command.All link messages bits }
        ensures answer { result ≡ answer (at_open command.now (all_at link messages bits) (Some self.old.1)) }
        ensures entry { self.new ≡ after self.old (at_open command.now (all_at link messages bits) (Some self.old.1)) }
        ensures marks { marks self.new ≡ marks self.old }
    {
        if let Some(refusal) = self.refusal_of(command) {
            return refusal;
        }
        if u32::from(self.messages) + u32::from(messages) > u32::from(MAX_MESSAGES)
            || u64::from(self.bits) + u64::from(bits) > u64::from(MAX_AMOUNT)
        {
            return refused(ERRONEOUS_PARAMETERS, command);
        }
        self.messages += messages;
        self.bits += bits;
        Heard::Nothing
    }

    /// A sender receives a GVB.
    pub(crate) fn hear_gvb(&mut self, command: &Command, link: u8, fm: u8, fb: u8) -> Heard
        ensures answer { result ≡ answer (at_open command.now (gvb_at link fm fb) (Some self.old.1)) }
        ensures entry { self.new ≡ after self.old (at_open command.now (gvb_at link fm fb) (Some self.old.1)) }
        ensures marks { marks self.new ≡ marks self.old }
    {
        if let Some(refusal) = self.refusal_of(command) {
            return refusal;
        }
        let messages_back = part_back(u32::from(self.messages), fm) as u16;
        let bits_back = part_back(self.bits, fb);
        self.messages -= messages_back;
        self.bits -= bits_back;
        Heard::Reply(Command::Ret {
            link,
            messages: messages_back,
            bits: bits_back,
        })
    }

    /// A receiver receives a RET.
    pub(crate) fn hear_ret(
        &mut self,
        command: &Command,
        link: u8,
        messages: u16,
        bits: u32,
    ) -> Heard
        requires { command.now ≡ Command.Ret link messages bits }
        ensures answer { result ≡ answer (at_open command.now (ret_at link messages bits) (Some self.old.1)) }
        ensures entry { self.new ≡ after self.old (at_open command.now (ret_at link messages bits) (Some self.old.1)) }
        ensures marks { marks self.new ≡ marks self.old }
    {
        if let Some(refusal) = self.refusal_of(command) {
            return refusal;
        }
        if messages > self.messages || bits > self.bits {
            return refused(ERRONEOUS_PARAMETERS, command);
        }
        self.messages -= messages;
        self.bits -= bits;
        self.recall = false;
        Heard::Nothing
    }
}

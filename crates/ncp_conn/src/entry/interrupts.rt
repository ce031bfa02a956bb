//! Interrupts.
ghost use Rattle.std.specs.Prelude.{◌≡◌, OnErr, Some};
ghost use Rattle.ncp_model.specs.Effect.{answer};
ghost use Rattle.ncp_model.specs.Calls.{interrupt_end};
ghost use Rattle.ncp_model.specs.Commands.{at_open, interrupted};
ghost use Rattle.ncp_conn.specs.Changes.{after, marks};

use crate::entry::Entry;
use ncp_bits::BitStore;
use ncp_model::{CallFault, Heard};
use ncp_wire::Command;

impl<S: BitStore> Entry<S> {
    /// Interrupts the peer: INS from a sender, INR from a receiver.
    pub(crate) fn interrupt(&mut self, full: bool) -> Result<Command, CallFault>
        ensures answer { result ≡ answer (interrupt_end self.old.0 full self.old.1) }
        ensures entry { self.new ≡ after self.old (interrupt_end self.old.0 full self.old.1) }
        ensures err { OnErr result (self.new ≡ self.old) }
        ensures marks { marks self.new ≡ marks self.old }
    {
        self.may_use()?;
        if full {
            return Err(CallFault::QueueFull);
        }
        if self.pair.sends() {
            return Ok(Command::Ins { link: self.link });
        }
        Ok(Command::Inr { link: self.link })
    }

    /// An INR or INS arrives.
    pub(crate) fn hear_interrupt(&mut self, command: &Command) -> Heard
        ensures answer { result ≡ answer (at_open command.now interrupted (Some self.old.1)) }
        ensures entry { self.new ≡ after self.old (at_open command.now interrupted (Some self.old.1)) }
        ensures marks { marks self.new ≡ marks self.old }
    {
        if let Some(refusal) = self.refusal_of(command) {
            return refusal;
        }
        self.interrupts = self.interrupts.saturating_add(1);
        Heard::Nothing
    }
}

//! Closing.
ghost use Rattle.std.specs.Prelude.{◌≡◌, OnErr};
ghost use Rattle.ncp_model.specs.Effect.{answer, leaves, closing};
ghost use Rattle.ncp_model.specs.Calls.{close_end};
ghost use Rattle.ncp_model.specs.Commands.{hear_cls_end};
ghost use Rattle.ncp_conn.specs.Changes.{after, with_end, marks};

use crate::entry::{Entry, refused};
use ncp_bits::BitStore;
use ncp_model::{CallFault, Heard};
use ncp_wire::{Command, ERRONEOUS_PARAMETERS};

impl<S: BitStore> Entry<S> {
    // Makes the CLS, and drops the stored bits.
    pub(crate) fn leave(&mut self) -> Command
        ensures answer { result ≡ closing self.old.0 }
        ensures entry { self.new ≡ with_end self.old (leaves self.old.1) }
    {
        self.drop_stored();
        self.leaving = false;
        self.left = true;
        Command::Cls {
            my: self.pair.local,
            your: self.pair.remote,
        }
    }

    /// Closes this side.
    pub(crate) fn close(&mut self, full: bool) -> Result<Option<Command>, CallFault>
        ensures answer { result ≡ answer (close_end self.old.0 full self.old.1) }
        ensures entry { self.new ≡ after self.old (close_end self.old.0 full self.old.1) }
        ensures err { OnErr result (self.new ≡ self.old) }
        ensures marks { marks self.new ≡ marks self.old }
    {
        if self.left || (self.leaving && self.pair.sends()) {
            return Err(CallFault::Closing);
        }
        if full {
            return Err(CallFault::QueueFull);
        }
        if self.pair.sends() && self.busy {
            self.drop_stored();
            self.leaving = true;
            return Ok(None);
        }
        Ok(Some(self.leave()))
    }

    /// The peer's CLS arrives.
    pub(crate) fn hear_cls(&mut self, command: &Command) -> Heard
        requires { command.now ≡ Command.Cls self.old.0.remote self.old.0.local }
        ensures answer { result ≡ answer (hear_cls_end self.old.0 self.old.1) }
        ensures entry { self.new ≡ after self.old (hear_cls_end self.old.0 self.old.1) }
        ensures marks { marks self.new ≡ marks self.old }
    {
        if self.cls {
            return refused(ERRONEOUS_PARAMETERS, command);
        }
        self.cls = true;
        if self.left || self.leaving {
            return Heard::Nothing;
        }
        if self.pair.sends() && self.busy {
            self.drop_stored();
            self.leaving = true;
            return Heard::Nothing;
        }
        if self.pair.receives() && self.stored() > 0 {
            self.leaving = true;
            return Heard::Nothing;
        }
        Heard::Reply(self.leave())
    }
}

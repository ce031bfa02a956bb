//! The refusals of a call, and of a command that names a link, if the connection is not open.
ghost use Rattle.std.specs.Prelude.{◌≡◌};
ghost use Rattle.ncp_model.specs.Calls.{may_use, may_send_on, may_receive_on};
ghost use Rattle.ncp_conn.specs.Hearing.{refusal_of};

use crate::entry::{Entry, refused};
use ncp_bits::BitStore;
use ncp_model::{CallFault, Heard};
use ncp_wire::{Command, SOCKET_NOT_CONNECTED};

impl<S: BitStore> Entry<S> {
    /// Refuses a call that needs an open connection.
    pub(crate) fn may_use(&self) -> Result<(), CallFault>
        ensures { result ≡ may_use self.now.1 }
    {
        if self.is_closing() {
            return Err(CallFault::Closing);
        }
        if !(self.asked && self.heard) {
            return Err(CallFault::NotOpen);
        }
        Ok(())
    }

    /// Refuses a call that only a sender may make.
    pub(crate) fn may_send_on(&self) -> Result<(), CallFault>
        ensures { result ≡ may_send_on self.now.0 self.now.1 }
    {
        self.may_use()?;
        if !self.pair.sends() {
            return Err(CallFault::WrongEnd);
        }
        Ok(())
    }

    /// Refuses a call that only a receiver may make.
    pub(crate) fn may_receive_on(&self) -> Result<(), CallFault>
        ensures { result ≡ may_receive_on self.now.0 self.now.1 }
    {
        self.may_use()?;
        if !self.pair.receives() {
            return Err(CallFault::WrongEnd);
        }
        Ok(())
    }

    /// The answer to a command that names a link, if the connection is not open; otherwise `None`.
    pub(crate) fn refusal_of(&self, command: &Command) -> Option<Heard>
        ensures { result ≡ refusal_of command.now self.now.1 }
    {
        if self.is_closing() {
            return Some(Heard::Late);
        }
        if !self.opened {
            return Some(refused(SOCKET_NOT_CONNECTED, command));
        }
        None
    }
}

//! The requests of both sides.
ghost use Rattle.std.specs.Prelude.{◌≡◌, ◌≤◌, false, []};
ghost use Rattle.ncp_model.specs.Calls.{asked_to_send, asked_to_receive, end_to_ask};
ghost use Rattle.ncp_model.specs.Commands.{heard_link, heard_size};
ghost use Rattle.ncp_conn.specs.Changes.{with_end};

use crate::entry::Entry;
use ncp_bits::BitStore;
use ncp_model::{CallFault, MAX_ROOM};
use ncp_wire::LAST_LINK;

impl<S: BitStore> Entry<S> {
    /// Checks whether this entry permits a local request.
    pub(crate) fn may_ask(&self) -> Result<(), CallFault>
        ensures { result ≡ end_to_ask self.now.1 }
    {
        if self.asked && !self.is_closing() {
            return Err(CallFault::AlreadyAsked);
        }
        if self.is_closing() {
            return Err(CallFault::Closing);
        }
        Ok(())
    }

    /// Makes the local request to send.
    pub(crate) fn ask_send(&mut self, size: u8, store: S)
        requires first { self.old.1.asked ≡ false }
        requires empty { S.held store ≡ [] }
        requires small { S.capacity store ≤ MAX_ROOM }
        ensures { self.new ≡ with_end self.old (asked_to_send size (S.capacity store) self.old.1) }
    {
        self.asked = true;
        self.size = size;
        self.store = Some(store);
        self.meet();
    }

    /// Makes the local request to receive.
    pub(crate) fn ask_receive(&mut self, link: u8, store: S)
        requires last { link ≤ LAST_LINK }
        requires first { self.old.1.asked ≡ false }
        requires empty { S.held store ≡ [] }
        requires small { S.capacity store ≤ MAX_ROOM }
        ensures { self.new ≡ with_end self.old (asked_to_receive link (S.capacity store) self.old.1) }
    {
        self.asked = true;
        self.link = link;
        self.store = Some(store);
        self.meet();
    }

    /// The peer's request to receive arrives.
    pub(crate) fn hear_link(&mut self, link: u8)
        requires last { link ≤ LAST_LINK }
        ensures { self.new ≡ with_end self.old (heard_link link self.old.1) }
    {
        self.heard = true;
        self.link = link;
        self.meet();
    }

    /// The peer's request to send arrives.
    pub(crate) fn hear_size(&mut self, size: u8)
        ensures { self.new ≡ with_end self.old (heard_size size self.old.1) }
    {
        self.heard = true;
        self.size = size;
        self.meet();
    }
}

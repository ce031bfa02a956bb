//! Copying an entry with its stored bits.
ghost use Rattle.std.specs.Prelude.{◌≡◌, IfOk};
ghost use Rattle.ncp_conn.specs.Stores.{stored_in, room_in};

use crate::entry::Entry;
use ncp_bits::BitStore;
use std::alloc::{AllocError, Global};

impl<S: BitStore> Entry<S> {
    /// A copy of the store, if there is one.
    pub(crate) fn copied_store(&self, alloc: Global) -> Result<Option<S>, AllocError>
        ensures stored { IfOk result (λ store. stored_in S.held store ≡ self.now.1.stored) }
        ensures room { IfOk result (λ store. room_in S.capacity store ≡ self.now.1.room) }
    {
        match &self.store {
            Some(store) => Ok(Some(store.copy(alloc)?)),
            None => Ok(None),
        }
    }

    /// A copy of the entry, with a copy of its store.
    pub(crate) fn copy(&self, alloc: Global) -> Result<Self, AllocError>
        ensures { IfOk result (λ entry. entry ≡ self.now) }
    {
        Ok(Entry {
            pair: self.pair,
            asked: self.asked,
            heard: self.heard,
            opened: self.opened,
            leaving: self.leaving,
            left: self.left,
            cls: self.cls,
            link: self.link,
            size: self.size,
            messages: self.messages,
            bits: self.bits,
            store: self.copied_store(alloc)?,
            busy: self.busy,
            recall: self.recall,
            interrupts: self.interrupts,
        })
    }
}

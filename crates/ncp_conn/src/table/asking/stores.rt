//! `Stores`.
ghost use Rattle.std.specs.Prelude.{◌≡◌, [], IfOk, IfErr};

use ncp_bits::BitStore;
use ncp_model::CallFault;
use std::alloc::Global;

/// Allocates the stores of local requests.
///
/// It has the only allocator that a table keeps, private to this file, and only requests can call
/// `make`. So after `new` a table allocates only for a request.
#[derive(Clone, Copy, Drop)]
pub(crate) struct Stores {
    alloc: Global,
}

impl Stores {
    /// Allocates stores with this allocator.
    pub(crate) fn new(alloc: Global) -> Self {
        Stores { alloc }
    }

    /// An empty store for `room` bits.
    pub(super) fn make<S: BitStore>(self, room: u32) -> Result<S, CallFault>
        ensures held { IfOk result (λ store. S.held store ≡ []) }
        ensures capacity { IfOk result (λ store. S.capacity store ≡ room) }
        ensures err { IfErr result (λ fault. fault ≡ CallFault.OutOfMemory) }
    {
        S::with_room(self.alloc, room as usize).map_err(|_| CallFault::OutOfMemory)
    }
}

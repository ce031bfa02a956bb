//! `ManyFault`.
ghost use Rattle.std.specs.Prelude.{◌≡◌};

use std::alloc::AllocError;
use thiserror::Error;

/// Why no hosts are created.
#[derive(Clone, Copy, Debug, Drop, PartialEq, Eq, Error)]
pub enum ManyFault {
    #[error("the hosts are not two to eight distinct ones")]
    BadHosts = 1,
    #[error("out of memory")]
    OutOfMemory = 2,
}

impl From<AllocError> for ManyFault {
    ghost use Rattle.ncp_world.specs.declared.many_fault.ManyFault.TheVariants.{OutOfMemory};

    ghost from_gives = { λ _ fault. fault ≡ OutOfMemory };

    fn from(_error: AllocError) -> Self {
        ManyFault::OutOfMemory
    }
}

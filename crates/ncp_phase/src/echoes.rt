//! The echo that a host awaits from one peer, the byte of the last one, and the last errors
//! received (NIC 8246, ECO, ERP and ERR).
ghost use Rattle.std.specs.Prelude.{◌≡◌, ◌∷◌, [], true, false, Some, None, IfOk};
ghost use Rattle.ncp_model.specs.Echo.{no_echoes, hear_erp, hear_err, purge_echo, is_stray_erp};

mod saving;

use crate::fixed_ring::FixedRing;
use ncp_model::{Error, MAX_ERRORS};
use std::alloc::{AllocError, Global};
use std::marker::Model;

/// The errors received from a peer, oldest first.
pub type Errors<'a> = circular_buffer::Iter<'a, Error>;

/// A host's state for a peer besides connections and phase. The room for the errors is allocated on
/// the heap at once and cannot grow.
#[derive(Drop)]
pub struct Echoes {
    awaited: bool,
    echoed: Option<u8>,
    errors: FixedRing<Error>,
}

impl Model for Echoes {
    ghost use Rattle.std.specs.Prelude.{◌≡◌};
    ghost use Rattle.ncp_model.specs.declared.limits.TheConstants.{MAX_ERRORS};
    ghost use Rattle.ncp_model.specs.Echo.{Echoes as Kept};

    ghost Value = { Kept };

    ghost view = { λ s. record { awaited = s.awaited; echoed = s.echoed; errors = s.errors.items } };

    ghost invariant = { λ s. s.errors.capacity ≡ MAX_ERRORS };
}

impl Echoes {
    /// No echo is awaited or was answered, and no error was received.
    pub fn new(alloc: Global) -> Result<Self, AllocError>
        ensures { IfOk result (λ echoes. echoes ≡ no_echoes) }
    {
        Ok(Echoes {
            awaited: false,
            echoed: None,
            errors: FixedRing::with_capacity(alloc, MAX_ERRORS)?,
        })
    }

    /// A copy.
    pub fn copy(&self, alloc: Global) -> Result<Self, AllocError>
        ensures { IfOk result (λ echoes. echoes ≡ self.now) }
    {
        Ok(Echoes {
            awaited: self.awaited,
            echoed: self.echoed,
            errors: self.errors.copy(alloc)?,
        })
    }

    /// Whether an echo is unanswered.
    pub fn is_awaited(&self) -> bool
        ensures { result ≡ self.now.awaited }
    {
        self.awaited
    }

    /// The byte of the last ERP that answered an echo.
    pub fn echoed(&self) -> Option<u8>
        ensures { result ≡ self.now.echoed }
    {
        self.echoed
    }

    /// The last errors received, oldest first.
    pub fn errors(&self) -> Errors<'_>
        ensures { result ≡ self.now.errors }
    {
        self.errors.iter()
    }

    /// The user asks for an echo.
    pub fn ask(&mut self)
        ensures { self.new ≡ record self.old { awaited = true } }
    {
        self.awaited = true;
    }

    /// Handles an ERP. Returns whether it is stray.
    pub fn hear_erp(&mut self, byte: u8) -> bool
        ensures stray { result ≡ is_stray_erp self.old }
        ensures echoes { self.new ≡ hear_erp byte self.old }
    {
        if !self.awaited {
            return true;
        }
        self.awaited = false;
        self.echoed = Some(byte);
        false
    }

    /// Handles an ERR.
    pub fn hear_err(&mut self, error: Error)
        ensures { self.new ≡ hear_err error self.old }
    {
        self.errors.push_back(error);
    }

    /// Ends the awaited echo.
    pub fn purge(&mut self)
        ensures { self.new ≡ purge_echo self.old }
    {
        self.awaited = false;
    }
}

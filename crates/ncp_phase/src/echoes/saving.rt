//! Saving the echo and the errors.
ghost use Rattle.std.specs.Prelude.{◌≡◌, ◌≤◌, ◌++◌, ◌∷◌, All, OnOk, IfSome, length};
ghost use Rattle.std.specs.Option.{option_copied};
ghost use Rattle.ncp_saved.specs.Values.{listed, error_saved};
ghost use Rattle.ncp_model.specs.declared.limits.TheConstants.{MAX_ERRORS};
ghost use Rattle.ncp_phase.specs.SavedPhase.{echoes_saved};
ghost use Rattle.ncp_phase.specs.Restoring.{HasAllData};

use crate::echoes::Echoes;
use crate::fixed_ring::FixedRing;
use ncp_model::Error;
use ncp_saved::{put_byte, put_echoed, put_error, put_mark};
use ncp_wire::{Command, put_command};
use std::alloc::AllocError;

// Writes a 1, then a received error.
fn put_error_after(out: &mut Vec<u8>, error: &Error) -> Result<(), AllocError>
    ensures { OnOk result (out.new.items ≡ out.old.items ++ 1 ∷ error_saved error.now) }
{
    put_byte(out, 1)?;
    put_error(out, error)
}

// Writes the received errors, a 1 before each, and a 0 at the end.
fn put_errors(out: &mut Vec<u8>, errors: &FixedRing<Error>) -> Result<(), AllocError>
    ensures { OnOk result (out.new.items ≡ out.old.items ++ listed error_saved errors.now.items) }
{
    for place in 0..errors.len() {
        let Some(error) = errors.get(place) else {
            break;
        };
        put_error_after(out, error)?;
    }
    put_byte(out, 0)
}

// A lemma: an error has all bytes of its data.
fn is_whole(error: Option<&Error>)
    ensures { IfSome (option_copied error.entry) HasAllData }
{
    if let Some(error) = error {
        let Error { code, bytes } = *error;
        let _bytes = put_command(&Command::Err { code, bytes });
    }
}

// A lemma: each error has.
fn are_whole(errors: &FixedRing<Error>)
    ensures { All HasAllData errors.now.items }
{
    for place in 0..errors.len() {
        is_whole(errors.get(place));
    }
}

impl Echoes {
    /// Writes the echo, then the received errors.
    #[tactic(auto, unfolding(crate::specs::SavedPhase::echoes_saved))]
    pub fn save(&self, out: &mut Vec<u8>) -> Result<(), AllocError>
        ensures { OnOk result (out.new.items ≡ out.old.items ++ echoes_saved self.now) }
    {
        put_mark(out, self.awaited)?;
        put_echoed(out, self.echoed)?;
        put_errors(out, &self.errors)
    }

    /// A lemma: there are at most [`MAX_ERRORS`](ncp_model::MAX_ERRORS) errors, each with all bytes
    /// of its data. At run time it reads the errors, and it changes nothing.
    pub fn keeps_its_limits(&self)
        ensures few { length self.now.errors ≤ MAX_ERRORS }
        ensures whole { All HasAllData self.now.errors }
    {
        let _count = self.errors.len();
        are_whole(&self.errors);
    }
}

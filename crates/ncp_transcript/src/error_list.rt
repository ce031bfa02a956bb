//! `ErrorList`.
ghost use Rattle.std.specs.Prelude.{◌≡◌, IfOk};

use ncp_host::{Error, Errors};
use std::alloc::{AllocError, Global};
use std::marker::Model;

/// The ERRs of a peer that were kept when they were read, oldest first, in as much memory as they
/// need.
#[derive(Debug, Drop)]
pub struct ErrorList {
    errors: Vec<Error>,
}

impl Model for ErrorList {
    ghost use Rattle.std.specs.Prelude.{◌≡◌, List, vec_len, vec_capacity};
    ghost use Rattle.ncp_model.specs.declared.outcomes.Error.{Error};

    ghost Value = { List Error };

    ghost view = { λ list. list.errors.items };

    ghost invariant = { λ list. vec_capacity list.errors ≡ vec_len list.errors };
}

impl ErrorList {
    /// A copy of the ERRs that are read.
    pub(crate) fn of(alloc: Global, errors: Errors<'_>) -> Result<ErrorList, AllocError>
        ensures { IfOk result (λ list. list ≡ errors.entry) }
    {
        let mut list = Vec::with_capacity(alloc, errors.len())?;
        for error in errors {
            list.push_reserved(*error);
        }
        Ok(ErrorList { errors: list })
    }

    /// The ERRs.
    pub fn as_slice(&self) -> &[Error]
        ensures { result.now ≡ self.now }
    {
        self.errors.as_slice()
    }
}

//! `Findings`: the findings of one record.
ghost use Rattle.std.specs.Prelude.{◌≡◌, ◌<◌, ◌≤◌, ◌+◌, ◌++◌, ◌∷◌, [], length, filter, IfOk};
ghost use Rattle.std.specs.Option.{option_to_list};
ghost use Rattle.ncp_monitor.specs.Resets.{reports};

use crate::finding::Finding;
use crate::resets::Trust;
use std::alloc::{AllocError, Global};
use std::marker::Model;

/// The most findings of one record: five for each byte of the longest message, and a few more.
pub const MAX_FINDINGS: usize = 5200;

/// The findings of one record, in order. Creation allocates all their room.
#[derive(Drop)]
pub struct Findings {
    all: Vec<Finding>,
}

impl Model for Findings {
    ghost use Rattle.std.specs.Prelude.{◌≤◌, List};
    ghost use Rattle.std.specs.Vec.{vec_capacity};
    ghost use Rattle.ncp_monitor.specs.declared.finding.Finding.{Finding};
    ghost use Rattle.ncp_monitor.specs.declared.findings.TheConstants.{MAX_FINDINGS};

    ghost Value = { List Finding };

    ghost view = { λ findings. findings.all.items };

    ghost invariant = { λ findings. MAX_FINDINGS ≤ vec_capacity findings.all };
}

impl Findings {
    /// No findings. Only this function allocates, once.
    pub fn new(alloc: Global) -> Result<Findings, AllocError>
        ensures { IfOk result (λ findings. findings ≡ []) }
    {
        Ok(Findings {
            all: Vec::with_capacity(alloc, MAX_FINDINGS)?,
        })
    }

    /// The findings.
    pub fn as_slice(&self) -> &[Finding]
        ensures { result.now ≡ self.now }
    {
        self.all.as_slice()
    }

    /// Removes all findings.
    pub fn clear(&mut self)
        ensures { self.new ≡ [] }
    {
        self.all.clear();
    }

    /// Leaves those that are reported, in order.
    pub(crate) fn leave_reported(&mut self, trust: Trust, at: u8)
        ensures { self.new ≡ filter (reports trust at) self.old }
    {
        self.all.retain(|finding| trust.reports(at, finding));
    }

    /// Appends a finding. Requires room.
    pub(crate) fn push(&mut self, finding: Finding)
        requires { length self.old < MAX_FINDINGS }
        ensures all { self.new ≡ self.old ++ finding ∷ [] }
        ensures len { length self.new ≡ length self.old + 1 }
    {
        self.all.push_reserved(finding);
    }

    /// Appends a finding, if there is one. Requires room.
    pub(crate) fn push_some(&mut self, finding: Option<Finding>)
        requires { length self.old < MAX_FINDINGS }
        ensures all { self.new ≡ self.old ++ option_to_list finding }
        ensures len { length self.new ≤ length self.old + 1 }
    {
        if let Some(finding) = finding {
            self.push(finding);
        }
    }
}

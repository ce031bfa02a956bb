//! The commands queued for the control link.
ghost use Rattle.std.specs.Prelude.{◌≡◌, ◌<◌, ◌≤◌, ◌++◌, [], ◌∷◌, not, nat_lt, length, drop, slice_get, IfOk};
ghost use Rattle.std.specs.List.{filter, list_any};
ghost use Rattle.ncp_wire.specs.Spelling.{spellings};
ghost use Rattle.ncp_model.specs.Phase.{is_rst, is_rrp, is_reset};
ghost use Rattle.ncp_model.specs.Sending.{next_commands};

mod shortness;

use crate::fixed_ring::FixedRing;
use arrayvec::ArrayVec;
use ncp_model::{MAX_CONTROL, MAX_WAITING};
use ncp_wire::{Command, put_command};
use std::alloc::{AllocError, Global};
use std::marker::Model;

/// The bytes of a control text.
pub type ControlText = ArrayVec<u8, MAX_CONTROL>;

/// The queued commands, oldest first. The room for `MAX_WAITING` is allocated on the heap at once
/// and cannot grow.
#[derive(Drop)]
pub(crate) struct Queue {
    commands: FixedRing<Command>,
}

impl Model for Queue {
    ghost use Rattle.std.specs.Prelude.{◌≡◌, List};
    ghost use Rattle.ncp_wire.specs.declared.command.Command.{Command};
    ghost use Rattle.ncp_model.specs.declared.limits.TheConstants.{MAX_WAITING};

    ghost Value = { List Command };

    ghost view = { λ queue. queue.commands.items };

    ghost invariant = { λ queue. queue.commands.capacity ≡ MAX_WAITING };
}

/// Whether a command is an RST.
pub fn is_rst(command: &Command) -> bool
    ensures { result ≡ is_rst command.now }
{
    matches!(command, Command::Rst)
}

/// Whether a command is an RRP.
pub fn is_rrp(command: &Command) -> bool
    ensures { result ≡ is_rrp command.now }
{
    matches!(command, Command::Rrp)
}

/// Whether a command is an RST or an RRP.
pub(crate) fn is_reset(command: &Command) -> bool
    ensures { result ≡ is_reset command.now }
{
    is_rst(command) || is_rrp(command)
}

impl Queue {
    /// An empty queue.
    pub(crate) fn new(alloc: Global) -> Result<Self, AllocError>
        ensures { IfOk result (λ queue. queue ≡ []) }
    {
        Ok(Queue {
            commands: FixedRing::with_capacity(alloc, MAX_WAITING)?,
        })
    }

    /// A copy with the same commands.
    pub(crate) fn copy(&self, alloc: Global) -> Result<Self, AllocError>
        ensures { IfOk result (λ queue. queue ≡ self.now) }
    {
        Ok(Queue {
            commands: self.commands.copy(alloc)?,
        })
    }

    /// The number of queued commands.
    pub(crate) fn len(&self) -> usize
        ensures len { result ≡ length self.now }
        ensures fits { result ≤ MAX_WAITING }
    {
        self.commands.len()
    }

    /// The command at an index.
    pub(crate) fn get(&self, place: usize) -> Option<Command>
        ensures { result ≡ slice_get self.now place }
    {
        self.commands.get(place).copied()
    }

    /// Appends a command.
    pub(crate) fn push(&mut self, command: Command)
        requires { length self.old < MAX_WAITING }
        ensures { self.new ≡ self.old ++ command ∷ [] }
    {
        let _kept = self.commands.try_push_back(command);
    }

    /// Whether an RST is queued.
    pub(crate) fn has_rst(&self) -> bool
        ensures { result ≡ list_any is_rst self.now }
    {
        self.commands.iter().any(|command| is_rst(command))
    }

    /// Whether an RRP is queued.
    pub(crate) fn has_rrp(&self) -> bool
        ensures { result ≡ list_any is_rrp self.now }
    {
        self.commands.iter().any(|command| is_rrp(command))
    }

    /// Removes all commands except RST and RRP, which keep their order.
    pub(crate) fn strike(&mut self)
        ensures { self.new ≡ filter is_reset self.old }
    {
        for _place in 0..self.commands.len() {
            if let Some(command) = self.commands.pop_front() {
                if is_reset(&command) {
                    self.commands.push_back(command);
                }
            }
        }
    }

    /// Removes the commands of the next control message, as many from the front as fit a control
    /// text, and returns their bytes.
    pub(crate) fn take_text(&mut self) -> ControlText
        ensures text { result.items ≡ spellings (next_commands self.old) }
        ensures fits { length result.items ≤ MAX_CONTROL }
        ensures rest { self.new ≡ drop (length (next_commands self.old)) self.old }
    {
        let mut text = ControlText::new();
        for _place in 0..self.commands.len() {
            let Some(command) = self.commands.front().copied() else {
                return text;
            };
            let bytes = put_command(&command);
            if bytes.len() > MAX_CONTROL - text.len() {
                return text;
            }
            text.try_extend_from_slice(bytes.as_slice()).unwrap();
            self.commands.pop_front();
        }
        text
    }
}

//! The flags for one peer, and the queued commands.
ghost use Rattle.std.specs.Prelude.{◌≡◌, ◌<◌, ◌≤◌, ◌++◌, ◌∷◌, [], true, false, length, slice_get, IfOk, OnErr};
ghost use Rattle.ncp_model.specs.Phase.{up, is_other, new_phase, phase_makes, goes_down, phase_answers, phase_asks, phase_settles, reset_answer, resets, hears_rst, hears_rrp, is_stray_rrp};
ghost use Rattle.ncp_wire.specs.Spelling.{spellings};
ghost use Rattle.ncp_model.specs.Sending.{is_full, next_commands};
ghost use Rattle.ncp_phase.specs.Flags.{flags_of};
ghost use Rattle.ncp_phase.specs.Waiting.{next_commands_leave};

mod restoring;
mod saving;

use crate::flags::Flags;
use crate::queue::{ControlText, Queue, is_reset};
use ncp_model::{CallFault, MAX_CALLED, MAX_CONTROL, MAX_WAITING};
use ncp_wire::Command;
use std::alloc::{AllocError, Global};
use std::marker::Model;

/// A host's flags for one peer, and the commands queued for the control link.
#[derive(Drop)]
pub struct Phase {
    down: bool,
    want: bool,
    owe: bool,
    wait: bool,
    waiting: Queue,
}

impl Model for Phase {
    ghost use Rattle.ncp_model.specs.Phase.{Phase as Kept};
    ghost use Rattle.ncp_phase.specs.Waiting.{QueueFits};

    ghost Value = { Kept };

    ghost view = { λ p. record { down = p.down; want = p.want; owe = p.owe; wait = p.wait; waiting = p.waiting } };

    ghost invariant = { λ p. QueueFits (record { down = p.down; want = p.want; owe = p.owe; wait = p.wait; waiting = p.waiting }) };
}

impl Phase {
    /// The phase of a new peer: `down` alone is set, and no command is queued.
    pub fn new(alloc: Global) -> Result<Self, AllocError>
        ensures { IfOk result (λ phase. phase ≡ new_phase) }
    {
        Ok(Phase {
            down: true,
            want: false,
            owe: false,
            wait: false,
            waiting: Queue::new(alloc)?,
        })
    }

    /// A copy with the same flags and commands.
    pub fn copy(&self, alloc: Global) -> Result<Self, AllocError>
        ensures { IfOk result (λ phase. phase ≡ self.now) }
    {
        let flags = self.flags();
        Ok(Phase {
            down: flags.down,
            want: flags.want,
            owe: flags.owe,
            wait: flags.wait,
            waiting: self.waiting.copy(alloc)?,
        })
    }

    /// Whether no flag is set.
    pub fn is_up(&self) -> bool
        ensures { result ≡ up self.now }
    {
        !(self.down || self.want || self.owe || self.wait)
    }

    /// The four flags.
    pub fn flags(&self) -> Flags
        ensures { result ≡ flags_of self.now }
    {
        Flags {
            down: self.down,
            want: self.want,
            owe: self.owe,
            wait: self.wait,
        }
    }

    /// The queued command at index `place`.
    pub fn waiting(&self, place: usize) -> Option<Command>
        ensures { result ≡ slice_get self.now.waiting place }
    {
        self.waiting.get(place)
    }

    /// Whether the queue has no room for a call's command.
    pub fn is_full(&self) -> bool
        ensures { result ≡ is_full self.now }
    {
        self.waiting.len() >= MAX_CALLED
    }

    /// Goes down: removes all queued commands except RST and RRP.
    pub fn go_down(&mut self)
        ensures { self.new ≡ goes_down self.old }
    {
        self.waiting.strike();
        self.down = true;
    }

    /// Queues a command; if the queue is full, goes down instead. Does nothing while not up, or for
    /// an RST or RRP.
    pub fn make(&mut self, command: Command)
        ensures { self.new ≡ phase_makes command self.old }
    {
        if is_reset(&command) || !self.is_up() {
            return;
        }
        if self.waiting.len() >= MAX_WAITING {
            self.go_down();
            return;
        }
        self.waiting.push(command);
    }

    // Makes the owed RRP.
    fn answer(&mut self)
        ensures { self.new ≡ phase_answers self.old }
    {
        if !self.owe {
            return;
        }
        self.down = false;
        self.owe = false;
        if !self.waiting.has_rrp() {
            self.waiting.push(Command::Rrp);
        }
    }

    // Makes the wanted RST.
    fn ask(&mut self)
        ensures { self.new ≡ phase_asks self.old }
    {
        if !self.want {
            return;
        }
        self.down = false;
        self.want = false;
        self.wait = true;
        if !self.waiting.has_rst() {
            self.waiting.push(Command::Rst);
        }
    }

    /// If the data links are quiet, makes the owed RRP and the wanted RST.
    pub fn settle(&mut self, quiet: bool)
        ensures { self.new ≡ phase_settles quiet self.old }
    {
        if quiet {
            self.answer();
            self.ask();
        }
    }

    /// Requests a reset, and settles. Refused (`Busy`) while a reset is wanted or awaited.
    pub fn reset(&mut self, quiet: bool) -> Result<(), CallFault>
        ensures answer { result ≡ reset_answer self.old }
        ensures phase { self.new ≡ resets quiet self.old }
        ensures err { OnErr result (self.new ≡ self.old) }
    {
        if self.want || self.wait {
            return Err(CallFault::Busy);
        }
        self.waiting.strike();
        self.want = true;
        self.settle(quiet);
        Ok(())
    }

    /// Handles an RST.
    pub fn hear_rst(&mut self, quiet: bool)
        ensures { self.new ≡ hears_rst quiet self.old }
    {
        self.waiting.strike();
        self.owe = true;
        self.settle(quiet);
    }

    /// Handles an RRP. Returns whether it is stray.
    pub fn hear_rrp(&mut self) -> bool
        ensures stray { result ≡ is_stray_rrp self.old }
        ensures phase { self.new ≡ hears_rrp self.old }
    {
        let stray = !self.wait;
        self.wait = false;
        stray
    }

    /// Removes the commands of the next control message from the queue, and returns their bytes.
    pub fn take_text(&mut self) -> ControlText
        ensures text { result.items ≡ spellings (next_commands self.old.waiting) }
        ensures fits { length result.items ≤ MAX_CONTROL }
        ensures phase { self.new ≡ next_commands_leave self.old }
    {
        self.waiting.take_text()
    }
}

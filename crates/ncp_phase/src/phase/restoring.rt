//! Restoring a phase.
ghost use Rattle.std.specs.Prelude.{◌≡◌, [], All, IfOk};
ghost use Rattle.std.specs.List.{list_all};
ghost use Rattle.ncp_saved.specs.Reading.{HasItsData};
ghost use Rattle.ncp_phase.specs.Waiting.{QueueFits, has_short_data};
ghost use Rattle.ncp_phase.specs.Restoring.{phase_with, restored};

use crate::flags::Flags;
use crate::phase::Phase;
use crate::queue::{Queue, is_reset, is_rrp, is_rst};
use ncp_model::MAX_WAITING;
use ncp_wire::Command;
use std::alloc::{AllocError, Global};

impl Phase {
    /// A phase with these flags and no queued commands.
    pub fn with_flags(alloc: Global, flags: Flags) -> Result<Self, AllocError>
        ensures { IfOk result (λ phase. phase ≡ phase_with flags []) }
    {
        Ok(Phase {
            down: flags.down,
            want: flags.want,
            owe: flags.owe,
            wait: flags.wait,
            waiting: Queue::new(alloc)?,
        })
    }

    /// Queues a command. Ignores it if the queue is full, if it is an RST or RRP and one is queued,
    /// or if it is another command and the host is not up.
    pub fn restore(&mut self, command: Command)
        ensures { self.new ≡ restored command self.old }
    {
        if self.waiting.len() >= MAX_WAITING {
            return;
        }
        if is_rst(&command) {
            self.restore_rst();
        } else if is_rrp(&command) {
            self.restore_rrp();
        } else {
            self.make(command);
        }
    }

    // Queues an RST, unless one is queued or the queue is full.
    fn restore_rst(&mut self)
        ensures { self.new ≡ restored Command.Rst self.old }
    {
        if self.waiting.len() < MAX_WAITING && !self.waiting.has_rst() {
            self.waiting.push(Command::Rst);
        }
    }

    // Queues an RRP, unless one is queued or the queue is full.
    fn restore_rrp(&mut self)
        ensures { self.new ≡ restored Command.Rrp self.old }
    {
        if self.waiting.len() < MAX_WAITING && !self.waiting.has_rrp() {
            self.waiting.push(Command::Rrp);
        }
    }

    /// Whether the data of each queued ERR have at most ten bytes, so that each queued command fits
    /// a control message.
    pub fn is_short(&self) -> bool
        ensures { result ≡ list_all has_short_data self.now.waiting }
    {
        self.waiting.is_short()
    }

    /// A lemma: what every phase keeps of its queue. At run time it reads the queue, and it changes
    /// nothing.
    pub fn keeps_its_limits(&self)
        ensures fits { QueueFits self.now }
        ensures data { All HasItsData self.now.waiting }
    {
        self.waiting.have_their_data();
    }
}

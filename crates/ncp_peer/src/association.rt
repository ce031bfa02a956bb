//! The state between a host and one peer, except the messages on the links: the rules for one peer.
ghost use Rattle.std.specs.Prelude.{◌≡◌, ◌∷◌, [], ◌+◌, ◌≤◌, ◌++◌, length, true, IfOk, OnErr};
ghost use Rattle.ncp_model.specs.Phase.{up, reset_answer};
ghost use Rattle.ncp_model.specs.Effect.{answer, made_if_any};
ghost use Rattle.ncp_model.specs.Ends.{cut_in};
ghost use Rattle.ncp_model.specs.Sending.{next_commands};
ghost use Rattle.ncp_wire.specs.Spelling.{spellings};
ghost use Rattle.ncp_model.specs.Peers.{new_peer, falls, makes, calls_reset, settles, frees, peer_sends, cuts};
ghost use Rattle.ncp_conn.specs.Cutting.{next_cut, cut_sizes, cut_text};

mod calls;
mod hearing;
mod readers;
mod restoring;
mod saving;

use ncp_bits::{BitStore, Bits, MAX_BITS};
use ncp_conn::Table;
use ncp_model::{CallFault, MAX_CONTROL, MAX_TEXT};
use ncp_phase::{ControlText, Echoes, Phase};
use ncp_wire::Command;
use std::alloc::{AllocError, Global};
use std::marker::Model;

/// The state between a host and one peer: the phase and the queued commands, the connections, the
/// echo and the errors.
#[derive(Drop)]
pub(crate) struct Association<S: BitStore> {
    phase: Phase,
    table: Table<S>,
    echoes: Echoes,
}

impl<S: BitStore> Model for Association<S> {
    ghost use Rattle.std.specs.Coded.{codes};
    ghost use Rattle.ncp_peer.specs.Codes.{coded_ends};
    ghost use Rattle.ncp_model.specs.Peers.{Peer};

    ghost Value = { Peer };

    ghost coded = { Prim.hlevel (codes, coded_ends) };

    ghost view = { λ a. record { phase = a.phase; ends = a.table; echoes = a.echoes } };
}

impl<S: BitStore> Association<S> {
    /// A new association: down, without connections. Allocates all room at once, except the stores
    /// of bits.
    pub(crate) fn new(alloc: Global) -> Result<Self, AllocError>
        ensures { IfOk result (λ association. association ≡ new_peer) }
    {
        Ok(Association {
            phase: Phase::new(alloc)?,
            table: Table::new(alloc)?,
            echoes: Echoes::new(alloc)?,
        })
    }

    /// A copy in the same state.
    pub(crate) fn copy(&self, alloc: Global) -> Result<Self, AllocError>
        ensures { IfOk result (λ association. association ≡ self.now) }
    {
        Ok(Association {
            phase: self.phase.copy(alloc)?,
            table: self.table.copy(alloc)?,
            echoes: self.echoes.copy(alloc)?,
        })
    }

    /// Whether the host is up with the peer.
    pub(crate) fn is_up(&self) -> bool
        ensures { result ≡ up self.now.phase }
    {
        self.phase.is_up()
    }

    // Goes down.
    fn fall(&mut self)
        ensures { self.new ≡ falls self.old }
    {
        self.phase.go_down();
        self.table.purge();
        self.echoes.purge();
    }

    // Queues a command, if the host is up. Goes down if the queue is full.
    fn make(&mut self, command: Command)
        ensures { self.new ≡ makes (command ∷ []) self.old }
    {
        self.phase.make(command);
        if !self.phase.is_up() {
            self.table.purge();
            self.echoes.purge();
        }
    }

    // Queues a command, if there is one.
    fn make_any(&mut self, command: Option<Command>)
        requires { up self.old.phase ≡ true }
        ensures { self.new ≡ makes (made_if_any command) self.old }
    {
        if let Some(command) = command {
            self.make(command);
        }
    }

    /// Queues the RRP that is owed and the RST that is wanted, if the data links are quiet.
    pub(crate) fn settle(&mut self, quiet: bool)
        ensures { self.new ≡ settles quiet self.old }
    {
        self.phase.settle(quiet);
    }

    /// Resets. Refused: `Busy` (a reset is under way).
    pub(crate) fn reset(&mut self, quiet: bool) -> Result<(), CallFault>
        ensures reply { result ≡ reset_answer self.old.phase }
        ensures peer { self.new ≡ calls_reset quiet self.old }
        ensures err { OnErr result (self.new ≡ self.old) }
    {
        self.phase.reset(quiet)?;
        self.table.purge();
        self.echoes.purge();
        Ok(())
    }

    /// Removes the commands of the next control message from the queue, and returns their bytes.
    pub(crate) fn take_text(&mut self) -> ControlText
        ensures text { result.items ≡ spellings (next_commands self.old.phase.waiting) }
        ensures fits { length result.items ≤ MAX_CONTROL }
        ensures peer { self.new ≡ peer_sends self.old }
    {
        self.phase.take_text()
    }

    /// The lowest link from `from` on on which a text may be sent, if any.
    pub(crate) fn next_cut(&self, from: u8) -> Option<u8>
        ensures { result ≡ next_cut from self.now.ends }
    {
        self.table.next_cut(from)
    }

    /// The byte size and the length in bytes of the next text on a link, if any.
    pub(crate) fn next_size(&self, link: u8) -> Option<(u8, u16)>
        ensures { result ≡ cut_sizes (answer (cut_in link self.now.ends)) }
    {
        self.table.next_size(link)
    }

    /// Removes the next text on a link, if any, from its store, and appends it to `bits`.
    pub(crate) fn cut_onto(&mut self, link: u8, bits: &mut Bits)
        requires { length bits.old + MAX_TEXT ≤ MAX_BITS }
        ensures bits { bits.new ≡ bits.old ++ cut_text (answer (cut_in link self.old.ends)) }
        ensures peer { self.new ≡ cuts link self.old }
    {
        self.table.cut_onto(link, bits);
    }

    /// A text that was sent is taken (RFNM).
    pub(crate) fn free(&mut self, link: u8)
        ensures { self.new ≡ frees link self.old }
    {
        if self.phase.is_up() {
            let command = self.table.answered(link);
            self.make_any(command);
        }
    }
}

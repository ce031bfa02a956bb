//! Receiving from a peer: the commands of a control text in order and then its fault, and texts.
ghost use Rattle.std.specs.Prelude.{◌≡◌, ◌∷◌, ◌%◌, length, Bool, true};
ghost use Rattle.ncp_numbers.specs.Bytes.{bytes_of};
ghost use Rattle.ncp_control.specs.Reading.{commands_in};
ghost use Rattle.ncp_model.specs.Phase.{up, is_other};
ghost use Rattle.ncp_model.specs.Effect.{answer, text_error};
ghost use Rattle.ncp_model.specs.Ends.{text_in};
ghost use Rattle.ncp_model.specs.Peers.{hears, hears_other, hears_fault, takes_text};
ghost use Rattle.ncp_peer.specs.Counting.{counts_while_up, counts_after, counts_after_fault};
ghost use Rattle.ncp_peer.specs.Acted.{by_connection, counted_late, heard_text};

use crate::association::Association;
use crate::counts::{Counts, one_more};
use ncp_bits::{BitStore, Part};
use ncp_control::Commands;
use ncp_leader::FRONT_BITS;
use ncp_model::{Error, Heard, Took};
use ncp_phase::{is_rrp, is_rst};
use ncp_wire::{Command, CommandFault, ERROR_DATA, SOCKET_NOT_CONNECTED};

/// The number of bits of a text that an ERR about it shows.
const SHOWN_BITS: usize = 8;

// The ERR about a text for which there is no connection.
fn text_error(head: Part<'_>, text: Part<'_>) -> Command
    requires { length head ≡ FRONT_BITS }
    ensures { result ≡ text_error head.entry text.entry }
{
    let shown = text.len().min(SHOWN_BITS);
    let mut bits = head.to_bits();
    bits.append(text.slice(0, shown)).unwrap();
    bits.push_number(0, SHOWN_BITS - shown).unwrap();
    let mut bytes = [0; ERROR_DATA];
    bits.to_bytes(&mut bytes);
    Command::Err {
        code: SOCKET_NOT_CONNECTED,
        bytes,
    }
}

impl<S: BitStore> Association<S> {
    // Handles a command other than an echo, while up. RST and RRP have no effect here.
    fn hear_connection(&mut self, command: &Command, counts: &mut Counts)
        requires up { up self.old.phase ≡ true }
        ensures peer { self.new ≡ by_connection command.now self.old }
        ensures counts { counts.new ≡ counted_late command.now self.old counts.old }
    {
        match self.table.hear(command) {
            Heard::Nothing => (),
            Heard::Reply(reply) => self.make(reply),
            Heard::Late => counts.late = one_more(counts.late),
            Heard::Full => self.fall(),
        }
    }

    // Handles any command other than RST and RRP, while up.
    fn hear_other(&mut self, command: &Command, counts: &mut Counts)
        requires up { up self.old.phase ≡ true }
        requires other { is_other command.now ≡ true }
        ensures peer { (quiet : Bool) → self.new ≡ hears_other quiet command.now self.old }
        ensures counts { counts.new ≡ counts_while_up command.now self.old counts.old }
    {
        match *command {
            Command::Eco { byte } => self.make(Command::Erp { byte }),
            Command::Erp { byte } => {
                if self.echoes.hear_erp(byte) {
                    counts.stray = one_more(counts.stray);
                }
            }
            Command::Err { code, bytes } => self.echoes.hear_err(Error { code, bytes }),
            _ => self.hear_connection(command, counts),
        }
    }

    // Handles an RST.
    fn hear_rst(&mut self, quiet: bool)
        ensures { self.new ≡ hears quiet Command.Rst self.old }
    {
        self.phase.hear_rst(quiet);
        self.table.purge();
        self.echoes.purge();
    }

    /// Handles a command. Counts a command that is late, not expected, or received while not up.
    pub(crate) fn hear(&mut self, quiet: bool, command: &Command, counts: &mut Counts)
        ensures peer { self.new ≡ hears quiet command.now self.old }
        ensures counts { counts.new ≡ counts_after command.now self.old counts.old }
    {
        if is_rst(command) {
            self.hear_rst(quiet);
        } else if is_rrp(command) {
            if self.phase.hear_rrp() {
                counts.stray = one_more(counts.stray);
            }
        } else if self.phase.is_up() {
            self.hear_other(command, counts);
        } else {
            counts.not_up = one_more(counts.not_up);
        }
    }

    /// Handles the fault of a control text.
    pub(crate) fn hear_fault(&mut self, fault: CommandFault, counts: &mut Counts)
        ensures peer { self.new ≡ hears_fault fault self.old }
        ensures counts { counts.new ≡ counts_after_fault self.old counts.old }
    {
        if self.phase.is_up() {
            let bytes = fault.bytes;
            self.make(Command::Err {
                code: fault.code,
                bytes,
            });
        } else {
            counts.not_up = one_more(counts.not_up);
        }
    }

    /// Handles a control text: its commands in order, and then its fault. Returns the number of its
    /// commands.
    pub(crate) fn hear_all(&mut self, quiet: bool, text: Part<'_>, counts: &mut Counts) -> u32
        requires { length text % 8 ≡ 0 }
        ensures count { result ≡ length (commands_in (bytes_of text.entry)) }
        ensures peer { self.new ≡ (heard_text quiet (bytes_of text.entry) (self.old, counts.old)).0 }
        ensures counts { counts.new ≡ (heard_text quiet (bytes_of text.entry) (self.old, counts.old)).1 }
    {
        // There are no more commands than bytes.
        let _bits = text.len();
        let mut count = 0;
        for item in Commands::new(text) {
            match item {
                Ok(command) => {
                    self.hear(quiet, &command, counts);
                    count += 1;
                }
                Err(fault) => self.hear_fault(fault, counts),
            }
        }
        count
    }

    /// Handles a text on a data link, while up. `head` is the leader and the prefix of its message.
    pub(crate) fn hear_text(&mut self, link: u8, head: Part<'_>, size: u8, text: Part<'_>) -> Took
        requires up { up self.old.phase ≡ true }
        requires head { length head ≡ FRONT_BITS }
        ensures took { result ≡ answer (text_in link size text.entry self.old.ends) }
        ensures peer { self.new ≡ takes_text link head.entry size text.entry self.old }
    {
        let took = self.table.text(link, size, text.slice(0, text.len()));
        if let Took::NotOpen = took {
            self.make(text_error(head, text));
        }
        took
    }
}

//! `Commands`.
ghost use Rattle.std.specs.Prelude.{◌≡◌, ◌*◌, ◌≤◌, ◌%◌, length};
ghost use Rattle.std.specs.Iterator.{YieldsFirst, item_count};
ghost use Rattle.ncp_numbers.specs.Bytes.{bytes_of};
ghost use Rattle.ncp_control.specs.Texts.{Reads, items_of, commands_among, fault_among, EndsAtFault};
ghost use Rattle.ncp_control.specs.Reading.{commands_in, rest_in, fault_in};

use crate::front::read_front;
use ncp_bits::Part;
use ncp_wire::{Command, CommandFault};
use std::iter::FusedIterator;
use std::marker::Model;

/// An iterator over the commands of a control text in order, then its fault, if it has one.
/// Contracts see the list of the remaining items.
#[derive(Drop)]
pub struct Commands<'a> {
    text: Part<'a>,
}

impl<'a> Model for Commands<'a> {
    ghost use Rattle.std.specs.Prelude.{◌≡◌, ◌%◌, List, Result, length};
    ghost use Rattle.ncp_numbers.specs.Bytes.{bytes_of};
    ghost use Rattle.ncp_control.specs.Reading.{items_in};
    ghost use Rattle.ncp_wire.specs.declared.command.Command.{Command};
    ghost use Rattle.ncp_wire.specs.declared.fault.CommandFault.{CommandFault};

    ghost Value = { List (Result Command CommandFault) };

    ghost view = { λ commands. items_in (bytes_of commands.text) };

    ghost invariant = { λ commands. length commands.text % 8 ≡ 0 };
}

impl<'a> Commands<'a> {
    /// Reads a control text of whole bytes, without a copy.
    pub fn new(text: Part<'a>) -> Commands<'a>
        requires { length text % 8 ≡ 0 }
        // The commands in order, followed by the fault, if there is one.
        ensures items { let bytes = bytes_of text.entry in result ≡ items_of (commands_in bytes) (fault_in bytes) }
        ensures commands { commands_among result ≡ commands_in (bytes_of text.entry) }
        ensures fault { fault_among result ≡ fault_in (bytes_of text.entry) }
        ensures last { EndsAtFault result }
        // The commands are the longest list whose joined spellings are a prefix of the text.
        ensures reads { let bytes = bytes_of text.entry in Reads bytes (commands_in bytes) (rest_in bytes) }
        // Each item uses at least one byte.
        ensures count { 8 * length result ≤ length text.entry }
    {
        Commands { text }
    }
}

impl<'a> Iterator for Commands<'a> {
    type Item = Result<Command, CommandFault>;

    ghost next_gives = { YieldsFirst (λ items. items) };

    ghost remaining = { item_count (λ items. items) };

    // Inlined into the loops over commands, with everything that reads a command, so that they have
    // no call per command.
    #[inline(always)]
    fn next(&mut self) -> Option<Result<Command, CommandFault>> {
        if self.text.is_empty() {
            return None;
        }
        match read_front(&self.text) {
            Ok((command, rest)) => {
                self.text = rest;
                Some(Ok(command))
            }
            Err(fault) => {
                self.text = self.text.slice(self.text.len(), 0);
                Some(Err(fault))
            }
        }
    }
}

impl<'a> FusedIterator for Commands<'a> {}

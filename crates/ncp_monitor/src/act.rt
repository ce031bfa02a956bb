//! `Act`: how an item of a control text affects the phase.
ghost use Rattle.std.specs.Prelude.{◌≡◌, Ok};
ghost use Rattle.ncp_monitor.specs.Acts.{act_of};

use crate::finding::ItemKind;
use ncp_wire::{Command, CommandFault};

/// How an item of a control text affects the phase.
#[derive(Clone, Copy, Drop)]
pub enum Act {
    /// An RST.
    Reset,
    /// An RRP.
    Reply,
    /// Any other command, or a fault.
    Other(ItemKind),
}

// Classifies a command for the phase.
fn act_of_command(command: &Command) -> Act
    ensures { result ≡ act_of (Ok command.now) }
{
    match *command {
        Command::Nop => Act::Other(ItemKind::Nop),
        Command::Rts { .. } => Act::Other(ItemKind::Rts),
        Command::Str { .. } => Act::Other(ItemKind::Str),
        Command::Cls { .. } => Act::Other(ItemKind::Cls),
        Command::All { .. } => Act::Other(ItemKind::All),
        Command::Gvb { .. } => Act::Other(ItemKind::Gvb),
        Command::Ret { .. } => Act::Other(ItemKind::Ret),
        Command::Inr { .. } => Act::Other(ItemKind::Inr),
        Command::Ins { .. } => Act::Other(ItemKind::Ins),
        Command::Eco { .. } => Act::Other(ItemKind::Eco),
        Command::Erp { .. } => Act::Other(ItemKind::Erp),
        Command::Err { .. } => Act::Other(ItemKind::Err),
        Command::Rst => Act::Reset,
        Command::Rrp => Act::Reply,
    }
}

/// Classifies an item of a control text for the phase.
pub(crate) fn act_of(item: &Result<Command, CommandFault>) -> Act
    ensures { result ≡ act_of item.now }
{
    match item {
        Ok(command) => act_of_command(command),
        Err(_) => Act::Other(ItemKind::Bad),
    }
}

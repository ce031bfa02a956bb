//! The commands of a control message, one by one: a receiver can read what a peer asks for.
ghost use Rattle.std.specs.Prelude.{◌≡◌, ◌%◌, ◌∷◌, [], length, slice_get, Some};
ghost use Rattle.ncp_numbers.specs.Bytes.{bytes_of};
ghost use Rattle.ncp_control.specs.Texts.{commands_among};
ghost use Rattle.ncp_control.specs.Reading.{commands_in};
ghost use Rattle.ncp_results.specs.Commands.{is_control_message, command_of, command_of_message, items_read, no_tally, command_tally_from, command_tally_of};
ghost use Rattle.ncp_results.specs.Unacknowledged.{has_reset_among, has_reset};

use ncp_bits::Part;
use ncp_control::Commands;
use ncp_leader::{REGULAR, Regular, read_regular_in};
use ncp_wire::{CONTROL_LINK, CONTROL_SIZE, Command, CommandFault};

fn is_control(message: &Regular<'_>) -> bool
    ensures { result ≡ is_control_message message.now }
{
    let leader = message.leader();
    leader.kind == REGULAR && leader.link == CONTROL_LINK && message.size() == CONTROL_SIZE
}

fn command_of(item: Result<Command, CommandFault>) -> Option<Command>
    ensures { result ≡ command_of (Some item) }
{
    match item {
        Ok(command) => Some(command),
        Err(_) => None,
    }
}

// The command at index `place` of a control text.
fn command_at(text: Part<'_>, place: u32) -> Option<Command>
    requires { length text % 8 ≡ 0 }
    ensures { result ≡ command_of (slice_get (items_read text.entry) place) }
{
    let mut left = place;
    for item in Commands::new(text) {
        if left == 0 {
            return command_of(item);
        }
        left -= 1;
    }
    None
}

/// The command at index `place` (the first is 0) of a message. `None` if it is no control message,
/// or has fewer commands.
pub fn command_in(came: &Part<'_>, place: u32) -> Option<Command>
    ensures { result ≡ command_of_message came.now place }
{
    let Ok(message) = read_regular_in(came) else {
        return None;
    };
    if !is_control(&message) {
        return None;
    }
    command_at(message.text(), place)
}

/// The numbers of ERRs and RSTs among commands.
#[derive(Clone, Copy, Drop)]
pub(crate) struct Tally {
    pub errors: u32,
    pub resets: u32,
}

fn no_tally() -> Tally
    ensures { result ≡ no_tally }
{
    Tally {
        errors: 0,
        resets: 0,
    }
}

fn tallied(item: Result<Command, CommandFault>, tally: Tally) -> Tally
    ensures { result ≡ command_tally_from tally (commands_among (item ∷ [])) }
{
    match item {
        Ok(Command::Err { .. }) => Tally {
            errors: tally.errors.saturating_add(1),
            ..tally
        },
        Ok(Command::Rst) => Tally {
            resets: tally.resets.saturating_add(1),
            ..tally
        },
        _ => tally,
    }
}

// The tally of a control text.
fn tally_at(text: Part<'_>) -> Tally
    requires { length text % 8 ≡ 0 }
    ensures { result ≡ command_tally_from no_tally (commands_in (bytes_of text.entry)) }
{
    let mut tally = no_tally();
    for item in Commands::new(text) {
        tally = tallied(item, tally);
    }
    tally
}

// The tally of a control message; zero for any other message.
pub(crate) fn tally_in(came: &Part<'_>) -> Tally
    ensures { result ≡ command_tally_of came.now }
{
    let Ok(message) = read_regular_in(came) else {
        return no_tally();
    };
    if !is_control(&message) {
        return no_tally();
    }
    tally_at(message.text())
}

fn is_reset(item: Result<Command, CommandFault>) -> bool
    ensures { result ≡ has_reset_among (commands_among (item ∷ [])) }
{
    match item {
        Ok(Command::Rst | Command::Rrp) => true,
        _ => false,
    }
}

// Whether a control text has an RST or an RRP.
fn has_reset_at(text: Part<'_>) -> bool
    requires { length text % 8 ≡ 0 }
    ensures { result ≡ has_reset_among (commands_in (bytes_of text.entry)) }
{
    for item in Commands::new(text) {
        if is_reset(item) {
            return true;
        }
    }
    false
}

// Whether a control message has an RST or an RRP; no other message has.
pub(crate) fn has_reset(message: &Part<'_>) -> bool
    ensures { result ≡ has_reset message.now }
{
    let Ok(regular) = read_regular_in(message) else {
        return false;
    };
    if !is_control(&regular) {
        return false;
    }
    has_reset_at(regular.text())
}

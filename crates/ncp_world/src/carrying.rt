//! The amounts in the ALLs and RETs that are underway (queued or in flight).
ghost use Rattle.std.specs.Prelude.{◌≡◌, ◌%◌, ◌^◌, [], ◌∷◌, length, take};
ghost use Rattle.ncp_numbers.specs.Bytes.{bytes_of};
ghost use Rattle.ncp_leader.specs.Message.{message_in};
ghost use Rattle.ncp_control.specs.Reading.{commands_in};
ghost use Rattle.ncp_model.specs.declared.limits.TheConstants.{MAX_WAITING as Most};
ghost use Rattle.ncp_model.specs.Amounts.{amount, ◌⊕◌, ◌⊑◌};
ghost use Rattle.ncp_host.specs.Host.{state_of};
ghost use Rattle.ncp_world.specs.Reckoning.{carried_on, carried_both, OfAtMost, control_commands, waiting_of};

use ncp_bits::{BitStore, Bits, Part};
use ncp_control::Commands;
use ncp_host::Host;
use ncp_leader::read_regular;
use ncp_model::{Amount, MAX_WAITING};
use ncp_wire::{CONTROL_SIZE, Command};

/// The amounts granted and returned by some commands on a link, summed.
#[derive(Clone, Copy, Drop)]
pub(crate) struct Carried {
    /// The sum of the amounts that ALLs grant.
    pub granted: Amount,
    /// The sum of the amounts that RETs return.
    pub returned: Amount,
}

/// No messages, and no bits.
pub(crate) const NO_AMOUNT: Amount = Amount {
    messages: 0,
    bits: 0,
};

// The sum of two amounts.
fn both(a: Amount, b: Amount) -> Amount
    requires small { a ⊑ amount (2 ^ 62) (2 ^ 62) }
    requires small_too { b ⊑ amount (2 ^ 62) (2 ^ 62) }
    ensures { result ≡ a ⊕ b }
{
    Amount {
        messages: a.messages + b.messages,
        bits: a.bits + b.bits,
    }
}

impl Carried {
    /// The sums for no commands.
    pub const NONE: Carried = Carried {
        granted: NO_AMOUNT,
        returned: NO_AMOUNT,
    };

    /// The sums of both together.
    pub fn plus(self, others: Carried) -> Carried
        requires few { OfAtMost (2 ^ 30) self }
        requires few_too { OfAtMost (2 ^ 30) others }
        ensures { result ≡ carried_both self others }
    {
        Carried {
            granted: both(self.granted, others.granted),
            returned: both(self.returned, others.returned),
        }
    }
}

// The amounts in one command on a link.
fn carried_by_command(command: Command, link: u8) -> Carried
    ensures sum { result ≡ carried_on link (command ∷ []) }
    ensures small { OfAtMost 1 result }
{
    match command {
        Command::All {
            link: on,
            messages,
            bits,
        } if on == link => Carried {
            granted: Amount {
                messages: u64::from(messages),
                bits: u64::from(bits),
            },
            returned: NO_AMOUNT,
        },
        Command::Ret {
            link: on,
            messages,
            bits,
        } if on == link => Carried {
            granted: NO_AMOUNT,
            returned: Amount {
                messages: u64::from(messages),
                bits: u64::from(bits),
            },
        },
        _ => Carried::NONE,
    }
}

// The sums for the commands of a control text, on a link.
fn carried_by_text(text: Part<'_>, link: u8) -> Carried
    requires { length text % 8 ≡ 0 }
    ensures sum { result ≡ carried_on link (commands_in (bytes_of text.entry)) }
    ensures small { OfAtMost (2 ^ 16) result }
{
    // For the prover: there are no more commands than bytes.
    let _bits = text.len();
    let mut sum = Carried::NONE;
    for item in Commands::new(text) {
        if let Ok(command) = item {
            sum = sum.plus(carried_by_command(command, link));
        }
    }
    sum
}

/// The sums for the commands of a control message, on a link.
pub(crate) fn carried_by_message(message: &Bits, link: u8) -> Carried
    ensures sum { result ≡ carried_on link (control_commands (message_in message.now)) }
    ensures small { OfAtMost (2 ^ 16) result }
{
    match read_regular(message) {
        Ok(message) => {
            if message.size() == CONTROL_SIZE {
                carried_by_text(message.text(), link)
            } else {
                Carried::NONE
            }
        }
        Err(_) => Carried::NONE,
    }
}

/// The sums for the commands queued for a peer, on a link.
pub(crate) fn carried_by_waiting<S: BitStore>(host: &Host<S>, peer: u8, link: u8) -> Carried
    ensures sum { result ≡ carried_on link (take Most (waiting_of (state_of host.now peer))) }
    ensures small { OfAtMost (2 ^ 16) result }
{
    let mut sum = Carried::NONE;
    for place in 0..MAX_WAITING as u32 {
        let Some(command) = host.waiting(peer, place) else {
            return sum;
        };
        sum = sum.plus(carried_by_command(command, link));
    }
    sum
}

//! The rules of a message by itself.
ghost use Rattle.std.specs.Prelude.{◌≡◌, ◌≤◌, length, drop};
ghost use Rattle.ncp_leader.specs.Message.{message_in};
ghost use Rattle.ncp_bits.specs.declared.bits.TheConstants.{MAX_BITS};
ghost use Rattle.ncp_monitor.specs.Messages.{is_padding, judged_bits, bits_after_text, most_bits, has_extras, extras_of, rule_of_regular, rule_of_message};
ghost use Rattle.ncp_interface.specs.Contents.{is_unused};

use crate::finding::Rule;
use ncp_bits::Bits;
use ncp_interface::is_unused;
use ncp_leader::{FRONT_BITS, MAX_TEXT_BITS, MessageFault, Regular};
use ncp_wire::{CONTROL_LINK, CONTROL_SIZE};

// The most bits of a control text that this profile makes (NIC 8246: 120 bytes).
const MAX_CONTROL_BITS: usize = 960;

/// The most bits of padding after a text: at most 35 that fill a word of 36 bits, a one, and zeros
/// up to a word of the IMP.
pub const MAX_PADDING_BITS: usize = 52;

// The most bits of a text that this profile makes, by its link.
fn most_bits(link: u8) -> usize
    ensures { result ≡ most_bits link }
{
    if link == CONTROL_LINK {
        MAX_CONTROL_BITS
    } else {
        MAX_TEXT_BITS
    }
}

// Whether what follows the bit at `end` is padding.
fn is_padding(message: &Bits, end: usize) -> bool
    requires { end ≤ length message.now }
    ensures padding { result ≡ is_padding (drop end message.now) }
    ensures fits { end ≤ MAX_BITS }
{
    let rest = message.len() - end;
    rest <= MAX_PADDING_BITS && message.number(end, rest).count_ones() <= 1
}

/// The number of bits that are judged of a message: all but its padding.
pub(crate) fn judged_bits(read: &Result<Regular<'_>, MessageFault>, message: &Bits) -> usize
    requires { read.now ≡ message_in message.now }
    ensures bits { result ≡ judged_bits read.now message.now }
    ensures fits { result ≤ MAX_BITS }
{
    let Ok(regular) = read else {
        return message.len();
    };
    let end = FRONT_BITS + regular.text().len();
    if is_padding(message, end) {
        end
    } else {
        message.len()
    }
}

// The number of bits after the text, in a message of `len` bits.
fn bits_after(regular: &Regular<'_>, len: usize) -> usize
    ensures { result ≡ bits_after_text regular.now len }
{
    len.saturating_sub(FRONT_BITS)
        .saturating_sub(regular.text().len())
}

// Whether a message of `len` bits has extras: anything that this profile does not make.
fn has_extras(regular: &Regular<'_>, len: usize) -> bool
    ensures { result ≡ has_extras regular.now len }
{
    let leader = regular.leader();
    leader.flags != 0
        || leader.low != 0
        || bits_after(regular, len) != 0
        || regular.text().len() == 0
        || regular.text().len() > most_bits(leader.link)
}

// The rule with the extras of a message.
fn extras_of(regular: &Regular<'_>, len: usize) -> Rule
    requires { len ≤ MAX_BITS }
    ensures { result ≡ extras_of regular.now len }
{
    let leader = regular.leader();
    Rule::Extras {
        flags: leader.flags,
        low: leader.low,
        text: regular.text().len() as u32,
        rest: bits_after(regular, len) as u32,
    }
}

// The rule that a regular message of `len` bits breaks by itself.
fn rule_of_regular(regular: &Regular<'_>, len: usize) -> Option<Rule>
    requires { len ≤ MAX_BITS }
    ensures { result ≡ rule_of_regular regular.now len }
{
    let link = regular.leader().link;
    if is_unused(link) {
        Some(Rule::WrongLink { link })
    } else if link == CONTROL_LINK && regular.size() != CONTROL_SIZE {
        Some(Rule::WrongSize {
            size: regular.size(),
        })
    } else if has_extras(regular, len) {
        Some(extras_of(regular, len))
    } else {
        None
    }
}

/// The rule that a message of `len` bits breaks by itself, by what was read of it.
pub(crate) fn rule_of_message(
    read: &Result<Regular<'_>, MessageFault>,
    link: u8,
    len: usize,
) -> Option<Rule>
    requires { len ≤ MAX_BITS }
    ensures { result ≡ rule_of_message read.now link len }
{
    match read {
        Ok(regular) => rule_of_regular(regular, len),
        Err(fault) => Some(Rule::Fault {
            fault: *fault,
            link,
        }),
    }
}

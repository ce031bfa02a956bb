//! `Regular`.
ghost use Rattle.std.specs.Prelude.{◌≡◌, ◌<◌, ◌≤◌, ◌+◌, ◌*◌, length, IfOk};
ghost use Rattle.ncp_leader.specs.Leader.{IsLeader};
ghost use Rattle.ncp_leader.specs.declared.leader.TheConstants.{MAX_FLAGS, MAX_KIND};
ghost use Rattle.ncp_leader.specs.Message.{Message, Encodes, message_bits, message_in, message_byte_at, message_with, written};
ghost use Rattle.ncp_leader.specs.Front.{front_bits};

use crate::fault::MessageFault;
use crate::leader::{Leader, leader_bytes, leader_of};
use ncp_bits::{Bits, Part};
use std::marker::Model;

/// The number of bits before the text of a regular message: leader and prefix.
pub const FRONT_BITS: usize = 72;

/// The most bits of a message that is made.
pub const MAX_MADE_BITS: usize = 8000;

/// The most bits of text in a message that is made.
pub const MAX_TEXT_BITS: usize = MAX_MADE_BITS - FRONT_BITS;

/// A regular message that was read. Its text is borrowed from the bits that were read.
#[derive(Debug, Drop)]
pub struct Regular<'a> {
    leader: Leader,
    size: u8,
    count: u16,
    text: Part<'a>,
}

impl<'a> Model for Regular<'a> {
    ghost use Rattle.ncp_leader.specs.Message.{Message, IsMessage};

    ghost Value = { Message };

    ghost view = { λ regular. record {
      leader = regular.leader;
      size = regular.size;
      count = regular.count;
      text = regular.text;
    } };

    ghost invariant = { λ regular. IsMessage (record {
      leader = regular.leader;
      size = regular.size;
      count = regular.count;
      text = regular.text;
    }) };
}

impl<'a> Regular<'a> {
    /// The leader.
    pub fn leader(&self) -> Leader
        ensures leader { result ≡ self.now.leader }
        ensures fits { IsLeader result }
    {
        self.leader
    }

    /// The number of bits per byte, 1 to 255.
    pub fn size(&self) -> u8
        ensures size { result ≡ self.now.size }
        ensures some { 0 < result }
    {
        self.size
    }

    /// The number of bytes of the text.
    pub fn count(&self) -> u16
        ensures { result ≡ self.now.count }
    {
        self.count
    }

    /// The text, `size * count` bits.
    pub fn text(&self) -> Part<'a>
        ensures text { result ≡ self.now.text }
        ensures whole { length result ≡ self.now.size * self.now.count }
    {
        self.text.slice(0, self.text.len())
    }

    /// The byte of the text at index `place`, from 0.
    pub fn byte(&self, place: u16) -> Part<'a>
        requires { place < self.now.count }
        ensures bits { result ≡ message_byte_at self.now place }
        ensures len { length result ≡ self.now.size }
    {
        let width = usize::from(self.size);
        self.text.slice(width * usize::from(place), width)
    }
}

impl<'a> PartialEq for Regular<'a> {
    ghost use Rattle.std.specs.Cmp.{partial_equiv_from_equiv};
    ghost use Rattle.ncp_leader.specs.Same.{same_message, message_equiv};

    ghost eq = { same_message };

    ghost laws = { partial_equiv_from_equiv message_equiv };

    fn eq(&self, other: &Regular<'a>) -> bool {
        self.leader == other.leader
            && self.size == other.size
            && self.count == other.count
            && self.text == other.text
    }
}

impl<'a> Eq for Regular<'a> {
    ghost use Rattle.ncp_leader.specs.Same.{message_equiv};

    ghost laws = { message_equiv };
}

// The message with which the bits start, or the first fault.
#[inline(always)]
fn message_of<'a>(part: &Part<'a>) -> Result<Regular<'a>, MessageFault>
    ensures { result ≡ message_in part.now }
{
    if part.len() < FRONT_BITS {
        return Err(MessageFault::ShortPrefix);
    }
    if part.number(32, 8) != 0 {
        return Err(MessageFault::M1NotZero);
    }
    let size = part.number(40, 8) as u8;
    if size == 0 {
        return Err(MessageFault::SizeZero);
    }
    if part.number(64, 8) != 0 {
        return Err(MessageFault::M2NotZero);
    }
    let count = part.number(48, 16) as u16;
    let len = usize::from(size) * usize::from(count);
    if part.len() - FRONT_BITS < len {
        return Err(MessageFault::TextMissing);
    }
    Ok(Regular {
        leader: leader_of(part),
        size,
        count,
        text: part.slice(FRONT_BITS, len),
    })
}

/// The regular message with which the bits start, regardless of its type and of the bits after its
/// text.
///
/// Refused, in this order: `ShortPrefix` (under [`FRONT_BITS`]), `M1NotZero`, `SizeZero`,
/// `M2NotZero`, `TextMissing`.
#[inline(always)]
pub fn read_regular(bits: &Bits) -> Result<Regular<'_>, MessageFault>
    ensures exact { result ≡ message_in bits.now }
    // The bits encode the result.
    ensures found { IfOk result (λ message. Encodes bits.now message) }
    // A message that they encode is the result.
    ensures only { (message : Message) → Encodes bits.now message → result ≡ Ok message }
{
    read_regular_in(&bits.whole())
}

/// As [`read_regular`], for a message within other bits or in bytes. The text is borrowed from the
/// same source as the part.
#[inline(always)]
pub fn read_regular_in<'a>(part: &Part<'a>) -> Result<Regular<'a>, MessageFault>
    ensures exact { result ≡ message_in part.now }
    // The bits encode the result.
    ensures found { IfOk result (λ message. Encodes part.now message) }
    // A message that they encode is the result.
    ensures only { (message : Message) → Encodes part.now message → result ≡ Ok message }
{
    message_of(part)
}

// The bits of the message with this leader, byte size and text of whole bytes. Leader and prefix
// are whole bytes, and are written by one copy. Inlined, as `put_regular` is: the message is then
// built where its maker wants it.
#[inline(always)]
fn put_message(leader: &Leader, size: u8, text: Part<'_>) -> Bits
    requires flags { leader.now.flags ≤ MAX_FLAGS }
    requires kind { leader.now.kind ≤ MAX_KIND }
    requires some { 0 < size }
    requires text { length text ≤ MAX_TEXT_BITS }
    ensures bits { result ≡ message_bits (message_with leader.now size text.entry) }
    ensures len { length result ≡ FRONT_BITS + length text.entry }
    ensures fits { IsLeader leader.now }
{
    let count = (text.len() / usize::from(size)) as u16;
    let mut bits = Bits::new();
    put_front(leader, size, count, &mut bits);
    bits.append(text).unwrap();
    bits
}

/// Overwrites `bits` with the leader and prefix of a regular message: [`FRONT_BITS`] bits, for
/// `count` bytes of `size` bits.
#[inline(always)]
pub fn put_front(leader: &Leader, size: u8, count: u16, bits: &mut Bits)
    requires flags { leader.now.flags ≤ MAX_FLAGS }
    requires kind { leader.now.kind ≤ MAX_KIND }
    ensures bits { bits.new ≡ front_bits leader.now size count }
    ensures len { length bits.new ≡ FRONT_BITS }
    ensures fits { IsLeader leader.now }
{
    let [first, host, link, last] = leader_bytes(*leader);
    let [high, low] = count.to_be_bytes();
    let front = [first, host, link, last, 0, size, high, low, 0];
    bits.copy_from_bytes(&front, FRONT_BITS).unwrap();
}

/// The bits of a regular message, without padding.
///
/// Refused, in this order: `SizeZero`, `TextTooLong` (over [`MAX_TEXT_BITS`]), `NotWhole` (the text
/// is no multiple of the byte size).
#[inline(always)]
pub fn put_regular(leader: &Leader, size: u8, text: Part<'_>) -> Result<Bits, MessageFault>
    requires flags { leader.now.flags ≤ MAX_FLAGS }
    requires kind { leader.now.kind ≤ MAX_KIND }
    ensures exact { result ≡ written leader.now size text.entry }
    ensures stands { IfOk result (λ bits. Encodes bits (message_with leader.now size text.entry)) }
    ensures fits { IfOk result (λ bits. length bits ≤ MAX_MADE_BITS) }
{
    if size == 0 {
        return Err(MessageFault::SizeZero);
    }
    let len = text.len();
    if len > MAX_TEXT_BITS {
        return Err(MessageFault::TextTooLong);
    }
    if len % usize::from(size) != 0 {
        return Err(MessageFault::NotWhole);
    }
    Ok(put_message(leader, size, text))
}

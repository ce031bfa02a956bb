//! `Totals`: the number of messages, and of those of each kind.
ghost use Rattle.std.specs.Prelude.{◌≡◌, ◌+◌, ◌≤◌, ◌++◌, length};
ghost use Rattle.ncp_leader.specs.Message.{message_in};
ghost use Rattle.ncp_play_files.specs.Checked.{is_bad_text, record_class_of_message, record_class_of, capped, is_sound, totals_line};
ghost use Rattle.ncp_play_files.specs.Tallies.{no_messages, totals_with, put_together};

use crate::control::{is_of_control, is_on_control_link};
use crate::line::MAX_LINE_LEN;
use ncp_bits::Part;
use ncp_control::find_fault;
use ncp_leader::{REGULAR, Regular, read_leader_in, read_regular_in};
use ncp_play_buffer::{OutBuffer, PAGE_SIZE, push_field};

/// The class of a message.
#[derive(Clone, Copy, Debug, Drop, PartialEq, Eq)]
pub(crate) enum RecordClass {
    /// It is too short for a leader.
    Short,
    /// It is not of type 0.
    Other,
    /// It is of type 0, and has nothing wrong.
    Sound,
    /// It is of type 0, and has a fault.
    Faulty,
    /// It is of type 0 and on the control link, and its size or its text is wrong.
    Bad,
}

/// The number of messages, and of those of each kind. Counts saturate.
#[derive(Clone, Copy, Debug, Drop, PartialEq, Eq)]
pub(crate) struct Totals {
    pub messages: u32,
    pub short: u32,
    pub regular: u32,
    pub faults: u32,
    pub bad: u32,
}

// Whether something is wrong with a message of the control link.
fn is_bad(message: &Regular<'_>) -> bool
    ensures { result ≡ is_bad_text message.now }
{
    if !is_on_control_link(message) {
        return false;
    }
    !is_of_control(message) || find_fault(&message.text()).is_some()
}

// The class of a message of type 0.
#[inline(always)]
fn judge_regular(message: &Part<'_>) -> RecordClass
    ensures { result ≡ record_class_of_message (message_in message.now) }
{
    match read_regular_in(message) {
        Err(_) => RecordClass::Faulty,
        Ok(regular) => {
            if is_bad(&regular) {
                RecordClass::Bad
            } else {
                RecordClass::Sound
            }
        }
    }
}

/// The class of a message.
// Inlined in the loop of `check`, where the compiler sees that a message begins with a byte.
#[inline(always)]
pub(crate) fn judge(message: &Part<'_>) -> RecordClass
    ensures { result ≡ record_class_of message.now }
{
    match read_leader_in(message) {
        Err(_) => RecordClass::Short,
        Ok(leader) => {
            if leader.kind == REGULAR {
                judge_regular(message)
            } else {
                RecordClass::Other
            }
        }
    }
}

/// The number of messages of each class. Counts saturate.
#[derive(Drop)]
pub(crate) struct Counts {
    short: u32,
    other: u32,
    sound: u32,
    faulty: u32,
    bad: u32,
}

// The sum, or the largest number if the sum is greater.
fn capped(number: u64) -> u32
    ensures { result ≡ capped number }
{
    number.min(u64::from(u32::MAX)) as u32
}

impl Counts {
    /// Counts of no messages.
    pub(crate) fn new() -> Self
        ensures { put_together result ≡ no_messages }
    {
        Counts {
            short: 0,
            other: 0,
            sound: 0,
            faulty: 0,
            bad: 0,
        }
    }

    /// Counts a message.
    #[inline(always)]
    pub(crate) fn count(&mut self, record_class: RecordClass)
        ensures { put_together self.new ≡ totals_with (put_together self.old) record_class }
    {
        match record_class {
            RecordClass::Short => self.short = self.short.saturating_add(1),
            RecordClass::Other => self.other = self.other.saturating_add(1),
            RecordClass::Sound => self.sound = self.sound.saturating_add(1),
            RecordClass::Faulty => self.faulty = self.faulty.saturating_add(1),
            RecordClass::Bad => self.bad = self.bad.saturating_add(1),
        }
    }

    /// The totals of these counts.
    pub(crate) fn tally(&self) -> Totals
        ensures { result ≡ put_together self.now }
    {
        let regular = u64::from(self.sound) + u64::from(self.faulty) + u64::from(self.bad);
        let others = u64::from(self.short) + u64::from(self.other);
        Totals {
            messages: capped(regular + others),
            short: self.short,
            regular: capped(regular),
            faults: self.faulty,
            bad: self.bad,
        }
    }
}

impl Totals {
    /// Whether no message is short, faulty or bad.
    pub(crate) fn is_sound(&self) -> bool
        ensures { result ≡ is_sound self.now }
    {
        self.short == 0 && self.faults == 0 && self.bad == 0
    }
}

/// Appends the line of the totals.
pub(crate) fn push_totals(page: &mut OutBuffer, tally: &Totals)
    requires { length page.old + MAX_LINE_LEN ≤ PAGE_SIZE }
    ensures { page.new ≡ page.old ++ totals_line tally.now }
{
    push_field(page, b"messages=", tally.messages);
    push_field(page, b" short=", tally.short);
    push_field(page, b" regular=", tally.regular);
    push_field(page, b" faults=", tally.faults);
    push_field(page, b" bad=", tally.bad);
    page.push(b'\n');
}

//! The result of a call, as its line shows it.
ghost use Rattle.std.specs.Prelude.{◌≡◌, ◌+◌, ◌≤◌, ◌++◌, length};
ghost use Rattle.ncp_play_notes.specs.Results.{refused_words, took_words, end_name, field_known, is_link_known, is_size_known, mark_words, number_words, state_words, word_if, set_flags, phase_words, echoed_words, errors_words, counts_words, ignored_words, result_words};

use ncp_bits::MAX_BITS;
use ncp_host::{CallFault, Counts, Flags, Ignored, Record, Role};
use ncp_play_buffer::{MAX_NUMBER_LEN, OutBuffer, PAGE_SIZE, push_field};
use ncp_play_files::push_text_word;
use ncp_transcript::{ErrorList, HostNote, Message};

/// The maximum length of a call's result, in bytes.
pub(crate) const MAX_RESULT_LEN: usize = MAX_PRINTED_LEN + MAX_BITS / 4;

// The maximum length of a result without a taken text, in bytes.
const MAX_PRINTED_LEN: usize = 256;

// The maximum length of a peer's flags, in bytes.
const MAX_FLAGS_LEN: usize = 20;

// The maximum length of a connection's flags, in bytes.
const MAX_MARKS_LEN: usize = 112;

// The maximum length of a connection's numbers, in bytes.
const MAX_NUMBERS_LEN: usize = 112;

// Appends why a call was refused.
fn push_refused(page: &mut OutBuffer, fault: CallFault)
    requires { length page.old + MAX_PRINTED_LEN ≤ PAGE_SIZE }
    ensures bytes { page.new ≡ page.old ++ refused_words fault }
    ensures len { length page.new ≤ length page.old + MAX_PRINTED_LEN }
{
    page.push_text(b" refused ");
    page.push_text(fault.name().as_bytes());
}

// Appends a taken text.
fn push_took(page: &mut OutBuffer, text: &Message)
    requires { length page.old + MAX_RESULT_LEN ≤ PAGE_SIZE }
    ensures bytes { page.new ≡ page.old ++ took_words text.now }
    ensures len { length page.new ≤ length page.old + MAX_RESULT_LEN }
{
    push_field(page, b" ok bits=", text.len() as u32);
    push_text_word(page, &text.whole());
}

// Appends the role of the local end: sender or receiver.
fn push_end(page: &mut OutBuffer, end: Role)
    requires { length page.old + 7 ≤ PAGE_SIZE }
    ensures bytes { page.new ≡ page.old ++ end_name end }
    ensures len { length page.new ≤ length page.old + 7 }
{
    match end {
        Role::Send => page.push_text(b"send"),
        Role::Receive => page.push_text(b"receive"),
    }
}

// Appends a number after its name, or `-` if it is not known.
fn push_if_known(page: &mut OutBuffer, name: &[u8], known: bool, number: u32)
    requires { length page.old + length name.now + MAX_NUMBER_LEN ≤ PAGE_SIZE }
    ensures bytes { page.new ≡ page.old ++ field_known name.now known number }
    ensures len { length page.new ≤ length page.old + length name.now + MAX_NUMBER_LEN }
{
    if known {
        push_field(page, name, number);
    } else {
        page.push_text(name);
        page.push(b'-');
    }
}

// Whether this end knows the connection's link.
fn is_link_known(known: &Record) -> bool
    ensures { result ≡ is_link_known known.now.end known.now }
{
    match known.end {
        Role::Receive => known.asked,
        Role::Send => known.heard,
    }
}

// Whether this end knows the connection's byte size.
fn is_size_known(known: &Record) -> bool
    ensures { result ≡ is_size_known known.now.end known.now }
{
    match known.end {
        Role::Send => known.asked,
        Role::Receive => known.heard,
    }
}

// Appends the flags of a connection.
fn push_marks(page: &mut OutBuffer, known: &Record)
    requires { length page.old + MAX_MARKS_LEN ≤ PAGE_SIZE }
    ensures bytes { page.new ≡ page.old ++ mark_words known.now }
    ensures len { length page.new ≤ length page.old + MAX_MARKS_LEN }
{
    push_field(page, b" asked=", u32::from(known.asked));
    push_field(page, b" heard=", u32::from(known.heard));
    push_field(page, b" opened=", u32::from(known.opened));
    push_field(page, b" leaving=", u32::from(known.leaving));
    push_field(page, b" left=", u32::from(known.left));
    push_field(page, b" cls=", u32::from(known.cls));
}

// Appends the numbers of a connection.
fn push_numbers(page: &mut OutBuffer, known: &Record)
    requires { length page.old + MAX_NUMBERS_LEN ≤ PAGE_SIZE }
    ensures bytes { page.new ≡ page.old ++ number_words known.now }
    ensures len { length page.new ≤ length page.old + MAX_NUMBERS_LEN }
{
    push_if_known(page, b" link=", is_link_known(known), u32::from(known.link));
    push_if_known(page, b" size=", is_size_known(known), u32::from(known.size));
    push_field(page, b" messages=", u32::from(known.messages));
    push_field(page, b" bits=", known.bits);
    push_field(page, b" stored=", known.stored);
    push_field(page, b" interrupts=", known.interrupts);
}

// Appends the state of a connection.
fn push_state(page: &mut OutBuffer, known: &Record)
    requires { length page.old + MAX_PRINTED_LEN ≤ PAGE_SIZE }
    ensures bytes { page.new ≡ page.old ++ state_words known.now }
    ensures len { length page.new ≤ length page.old + MAX_PRINTED_LEN }
{
    page.push_text(b" ok end=");
    push_end(page, known.end);
    push_marks(page, known);
    push_numbers(page, known);
}

// Appends a word if a flag is set.
fn push_word_if(page: &mut OutBuffer, set: bool, word: &[u8])
    requires { length page.old + length word.now ≤ PAGE_SIZE }
    ensures bytes { page.new ≡ page.old ++ word_if set word.now }
    ensures len { length page.new ≤ length page.old + length word.now }
{
    if set {
        page.push_text(word);
    }
}

// Appends the flags that are set.
fn push_set_flags(page: &mut OutBuffer, flags: Flags)
    requires { length page.old + MAX_FLAGS_LEN ≤ PAGE_SIZE }
    ensures bytes { page.new ≡ page.old ++ set_flags flags }
    ensures len { length page.new ≤ length page.old + MAX_FLAGS_LEN }
{
    push_word_if(page, flags.down, b" down");
    push_word_if(page, flags.want, b" want");
    push_word_if(page, flags.owe, b" owe");
    push_word_if(page, flags.wait, b" wait");
}

// Appends the flags of a peer, or `up` if none is set.
fn push_phase(page: &mut OutBuffer, flags: Flags)
    requires { length page.old + MAX_PRINTED_LEN ≤ PAGE_SIZE }
    ensures bytes { page.new ≡ page.old ++ phase_words flags }
    ensures len { length page.new ≤ length page.old + MAX_PRINTED_LEN }
{
    page.push_text(b" ok");
    if flags.up() {
        page.push_text(b" up");
    } else {
        push_set_flags(page, flags);
    }
}

// Appends the byte of the last echo reply, or `none`.
fn push_echoed(page: &mut OutBuffer, byte: Option<u8>)
    requires { length page.old + MAX_PRINTED_LEN ≤ PAGE_SIZE }
    ensures bytes { page.new ≡ page.old ++ echoed_words byte }
    ensures len { length page.new ≤ length page.old + MAX_PRINTED_LEN }
{
    match byte {
        None => page.push_text(b" ok none"),
        Some(byte) => push_field(page, b" ok ", u32::from(byte)),
    }
}

// Appends the number of ERRs.
fn push_errors(page: &mut OutBuffer, errors: &ErrorList)
    requires { length page.old + MAX_PRINTED_LEN ≤ PAGE_SIZE }
    ensures bytes { page.new ≡ page.old ++ errors_words errors.now }
    ensures len { length page.new ≤ length page.old + MAX_PRINTED_LEN }
{
    let count = u32::try_from(errors.as_slice().len()).unwrap_or(u32::MAX);
    push_field(page, b" ok ", count);
}

// Appends the counts of a peer.
fn push_counts(page: &mut OutBuffer, counts: &Counts)
    requires { length page.old + MAX_PRINTED_LEN ≤ PAGE_SIZE }
    ensures bytes { page.new ≡ page.old ++ counts_words counts.now }
    ensures len { length page.new ≤ length page.old + MAX_PRINTED_LEN }
{
    push_field(page, b" ok stray=", counts.stray);
    push_field(page, b" faults=", counts.faults);
    push_field(page, b" wrong-link=", counts.wrong_link);
    push_field(page, b" wrong-size=", counts.wrong_size);
    push_field(page, b" not-up=", counts.not_up);
    push_field(page, b" late=", counts.late);
    push_field(page, b" over=", counts.over);
}

// Appends the counts of messages that belong to no peer.
fn push_ignored(page: &mut OutBuffer, ignored: &Ignored)
    requires { length page.old + MAX_PRINTED_LEN ≤ PAGE_SIZE }
    ensures bytes { page.new ≡ page.old ++ ignored_words ignored.now }
    ensures len { length page.new ≤ length page.old + MAX_PRINTED_LEN }
{
    push_field(page, b" ok short=", ignored.short);
    push_field(page, b" other=", ignored.other);
    push_field(page, b" unknown=", ignored.unknown);
}

/// Appends the result of a note's call.
pub(crate) fn push_result(page: &mut OutBuffer, note: &HostNote)
    requires { length page.old + MAX_RESULT_LEN ≤ PAGE_SIZE }
    ensures bytes { page.new ≡ page.old ++ result_words note.now }
    ensures len { length page.new ≤ length page.old + MAX_RESULT_LEN }
{
    match *note {
        HostNote::Refused { fault, .. } => push_refused(page, fault),
        HostNote::Done { .. } => page.push_text(b" ok"),
        HostNote::Took { ref text, .. } => push_took(page, text),
        HostNote::State { ref record, .. } => push_state(page, record),
        HostNote::Phase { flags, .. } => push_phase(page, flags),
        HostNote::Echoed { byte, .. } => push_echoed(page, byte),
        HostNote::Errors { ref errors, .. } => push_errors(page, errors),
        HostNote::Counts { ref counts, .. } => push_counts(page, counts),
        HostNote::Ignored { ref ignored } => push_ignored(page, ignored),
        _ => {}
    }
}

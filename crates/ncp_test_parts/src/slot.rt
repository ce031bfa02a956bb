//! Properties that no clause states: calls succeed, memory is allocated only when needed, and the
//! definitions mean the same as the worked examples.
use crate::known::{is_shown, is_told};
use crate::made::bits_of;
use ncp_bits::Bits;
use ncp_slot::laws::{
    LinkEvent, LinkNote, a_message_is_kept, each_slot_is_woken, links_are_numbered,
    quiet_links_are_empty, refusals_are_compared, run_link, slots_are_compared,
    slots_are_independent, what_is_held_stays,
};
use ncp_slot::{Busy, Slot, Slots, Stray, has_slot};
use ncp_wire::laws::answers_are_compared;
use ncp_wire::{Answer, FIRST_LINK, LAST_LINK, UNUSED_LINK};
use std::alloc::{AllocError, Global};
use std::process::Abort;
use std::test::Fail;

// RST to host 2 on link 0: 80 bits.
const RESET: [u8; 10] = [0x00, 0x02, 0x00, 0x00, 0x00, 0x08, 0x00, 0x01, 0x00, 0x0c];

// Two bytes of size 8, 6162, to host 2 on link 2: 88 bits.
const TEXT: [u8; 11] = [
    0x00, 0x02, 0x02, 0x00, 0x00, 0x08, 0x00, 0x02, 0x00, 0x61, 0x62,
];

// Whether the message returned is the one wanted, if any.
fn is_given(rt: &impl Abort, given: Option<&Bits>, wanted: Option<&[u8]>) -> bool {
    match (given, wanted) {
        (Some(bits), Some(bytes)) => *bits == bits_of(rt, bytes),
        (None, None) => true,
        _ => false,
    }
}

/// An event on a link's slot, with its expected note.
#[derive(Clone, Copy, Drop)]
enum Noted<'a> {
    /// A message is queued, and accepted or not.
    Put(&'a [u8], bool),
    /// The message handed out, if any.
    Handed(Option<&'a [u8]>),
    /// An answer arrives, and is accepted or not.
    Answered(Answer, bool),
    Woken,
}

fn event_of(rt: &impl Abort, noted: &Noted<'_>) -> LinkEvent {
    match noted {
        Noted::Put(bytes, _) => LinkEvent::Put(bits_of(rt, bytes)),
        Noted::Handed(_) => LinkEvent::Hand,
        Noted::Answered(answer, _) => LinkEvent::Answer(*answer),
        Noted::Woken => LinkEvent::Wake,
    }
}

fn says(rt: &impl Abort, note: &LinkNote, noted: &Noted<'_>) -> bool {
    match (note, noted) {
        (LinkNote::Put(put), Noted::Put(_, wanted)) => *put == *wanted,
        (LinkNote::Handed(bits), Noted::Handed(wanted)) => is_given(rt, bits.as_ref(), *wanted),
        (LinkNote::Answered(taken), Noted::Answered(_, wanted)) => *taken == *wanted,
        (LinkNote::Woken, Noted::Woken) => true,
        _ => false,
    }
}

fn events_of(
    rt: &impl Abort,
    alloc: Global,
    all_noted: &[Noted<'_>],
) -> Result<Vec<LinkEvent>, AllocError> {
    let mut events = Vec::new(alloc);
    for noted in all_noted {
        events.push(event_of(rt, noted))?;
    }
    Ok(events)
}

fn says_each(rt: &impl Abort, notes: &[LinkNote], all_noted: &[Noted<'_>]) -> bool {
    if notes.len() != all_noted.len() {
        return false;
    }
    for (place, noted) in all_noted.iter().enumerate() {
        if !says(rt, &notes[place], noted) {
            return false;
        }
    }
    true
}

/// Runs events on a link. Without a contract, so that the prover need not follow them.
fn run(
    rt: &impl Abort,
    alloc: Global,
    link: u8,
    events: &[LinkEvent],
) -> Result<(Slots, Vec<LinkNote>), AllocError> {
    assert!(rt; has_slot(link));
    run_link(alloc, link, events)
}

/// The slots after these events on a link. Checks that exactly these notes are left.
fn slots_after(
    rt: &impl Abort,
    alloc: Global,
    link: u8,
    all_noted: &[Noted<'_>],
) -> Result<Slots, AllocError> {
    let events = events_of(rt, alloc, all_noted)?;
    let (slots, notes) = run(rt, alloc, link, events.as_slice())?;
    assert!(rt; says_each(rt, notes.as_slice(), all_noted));
    Ok(slots)
}

/// A step of slots, with its expected result.
#[derive(Clone, Copy, Drop)]
enum Step<'a> {
    /// A message is accepted on a link.
    Puts(u8, &'a [u8]),
    /// A message is refused.
    IsBusy(u8, &'a [u8]),
    /// The message that a link hands out, if any.
    Hands(u8, Option<&'a [u8]>),
    /// An answer is accepted on a link.
    Answers(u8, Answer),
    /// An answer is refused.
    IsStray(u8, Answer),
    /// The user wakes held messages.
    Wakes,
    /// The message that a link keeps, if any.
    Keeps(u8, Option<&'a [u8]>),
    /// The first link with a message to hand out, if any.
    HasReady(Option<u8>),
    IsQuiet(bool),
    IsEmpty(u8, bool),
}

/// Runs all steps. The functions that it calls have no contracts, so the prover need not follow
/// slots through an example.
fn goes_on(rt: &impl Abort, slots: &mut Slots, name: &str, steps: &[Step<'_>]) {
    for (place, step) in steps.iter().enumerate() {
        assert!(rt; does(rt, slots, step), "{name} at step {place}");
    }
}

/// Runs all steps on new slots.
fn goes(rt: &impl Abort, alloc: Global, name: &str, steps: &[Step<'_>]) -> Result<(), AllocError> {
    let mut slots = Slots::new(alloc)?;
    goes_on(rt, &mut slots, name, steps);
    Ok(())
}

fn does(rt: &impl Abort, slots: &mut Slots, step: &Step<'_>) -> bool {
    match step {
        Step::Puts(link, bytes) => puts(rt, slots, *link, bytes).is_ok(),
        Step::IsBusy(link, bytes) => puts(rt, slots, *link, bytes) == Err(Busy),
        Step::Hands(link, wanted) => is_given(rt, hands(rt, slots, *link).as_ref(), *wanted),
        Step::Answers(link, answer) => answers(slots, *link, *answer).is_ok(),
        Step::IsStray(link, answer) => answers(slots, *link, *answer) == Err(Stray),
        Step::Wakes => {
            slots.wake();
            true
        }
        _ => tells(rt, slots, step),
    }
}

fn puts(rt: &impl Abort, slots: &mut Slots, link: u8, bytes: &[u8]) -> Result<(), Busy> {
    assert!(rt; has_slot(link));
    slots.put(link, &bits_of(rt, bytes))
}

fn answers(slots: &mut Slots, link: u8, answer: Answer) -> Result<(), Stray> {
    slots.answer(link, answer)
}

fn hands(rt: &impl Abort, slots: &mut Slots, link: u8) -> Option<Bits> {
    assert!(rt; has_slot(link));
    slots.hand(link)
}

fn tells(rt: &impl Abort, slots: &Slots, step: &Step<'_>) -> bool {
    match step {
        Step::Keeps(link, wanted) => is_given(rt, slots.kept(*link), *wanted),
        Step::HasReady(link) => slots.first_ready() == *link,
        Step::IsQuiet(quiet) => slots.quiet() == *quiet,
        Step::IsEmpty(link, empty) => has_slot(*link) && slots.is_empty(*link) == *empty,
        _ => false,
    }
}

/// Events on a link with their notes, and steps that check the slots afterwards.
const RUNS: &[(&str, u8, &[Noted<'static>], &[Step<'static>])] = &[
    (
        "hands_out_again_until_taken",
        0,
        &[
            Noted::Put(&RESET, true),
            Noted::Handed(Some(&RESET)),
            Noted::Answered(Answer::Incomplete, true),
            Noted::Handed(Some(&RESET)),
            Noted::Answered(Answer::Rfnm, true),
            Noted::Handed(None),
            Noted::Answered(Answer::Rfnm, false),
        ],
        &[Step::HasReady(None)],
    ),
    (
        "holds_a_message_until_woken",
        FIRST_LINK,
        &[
            Noted::Put(&TEXT, true),
            Noted::Handed(Some(&TEXT)),
            Noted::Answered(Answer::Dead, true),
            Noted::Handed(None),
            Noted::Answered(Answer::Rfnm, false),
            Noted::Woken,
            Noted::Handed(Some(&TEXT)),
            Noted::Answered(Answer::Rfnm, true),
        ],
        &[Step::IsQuiet(true)],
    ),
    (
        "wakes_only_what_is_held",
        LAST_LINK,
        &[
            Noted::Woken,
            Noted::Put(&TEXT, true),
            Noted::Handed(Some(&TEXT)),
            Noted::Woken,
            Noted::Answered(Answer::Dead, true),
            Noted::Put(&RESET, false),
        ],
        &[
            Step::IsQuiet(false),
            Step::HasReady(None),
            Step::Keeps(LAST_LINK, Some(&TEXT)),
            Step::Wakes,
            Step::HasReady(Some(LAST_LINK)),
        ],
    ),
];

#[test]
fn runs_are_noted(rt: HostRuntime) -> Result<(), Fail> {
    for &(name, link, noted, steps) in RUNS {
        let mut slots = slots_after(&rt, rt.alloc(), link, noted)?;
        goes_on(&rt, &mut slots, name, steps);
    }
    Ok(())
}

/// Steps of new slots.
const EXAMPLES: &[(&str, &[Step<'static>])] = &[
    (
        "wakes_every_link",
        &[
            Step::Puts(0, &TEXT),
            Step::Hands(0, Some(&TEXT)),
            Step::Answers(0, Answer::Dead),
            Step::Puts(FIRST_LINK, &TEXT),
            Step::Hands(FIRST_LINK, Some(&TEXT)),
            Step::Answers(FIRST_LINK, Answer::Dead),
            Step::Puts(LAST_LINK, &TEXT),
            Step::Hands(LAST_LINK, Some(&TEXT)),
            Step::Answers(LAST_LINK, Answer::Dead),
            Step::HasReady(None),
            Step::Wakes,
            Step::Hands(0, Some(&TEXT)),
            Step::Hands(FIRST_LINK, Some(&TEXT)),
            Step::Hands(LAST_LINK, Some(&TEXT)),
        ],
    ),
    (
        "lends_what_is_kept",
        &[
            Step::Keeps(0, None),
            Step::Keeps(UNUSED_LINK, None),
            Step::Keeps(FIRST_LINK, None),
            Step::Keeps(LAST_LINK, None),
            Step::Keeps(72, None),
            Step::Keeps(255, None),
            Step::Puts(FIRST_LINK, &TEXT),
            Step::Keeps(FIRST_LINK, Some(&TEXT)),
            Step::Hands(FIRST_LINK, Some(&TEXT)),
            Step::Keeps(FIRST_LINK, Some(&TEXT)),
            Step::Answers(FIRST_LINK, Answer::Dead),
            Step::Keeps(FIRST_LINK, Some(&TEXT)),
            Step::Wakes,
            Step::Hands(FIRST_LINK, Some(&TEXT)),
            Step::Answers(FIRST_LINK, Answer::Rfnm),
            Step::Keeps(FIRST_LINK, None),
        ],
    ),
    (
        "keeps_a_message_until_answered",
        &[
            Step::IsQuiet(true),
            Step::HasReady(None),
            Step::Puts(71, &TEXT),
            Step::Puts(2, &TEXT),
            Step::Puts(0, &RESET),
            Step::IsBusy(2, &RESET),
            Step::HasReady(Some(0)),
            Step::Hands(0, Some(&RESET)),
            Step::HasReady(Some(2)),
            Step::Hands(2, Some(&TEXT)),
            Step::Hands(2, None),
            Step::IsBusy(2, &TEXT),
            Step::HasReady(Some(71)),
            Step::Answers(2, Answer::Incomplete),
            Step::HasReady(Some(2)),
            Step::Hands(2, Some(&TEXT)),
            Step::Answers(2, Answer::Rfnm),
            Step::IsStray(2, Answer::Rfnm),
            Step::IsQuiet(false),
            Step::Hands(71, Some(&TEXT)),
            Step::Answers(71, Answer::Rfnm),
            Step::IsQuiet(true),
            Step::Answers(0, Answer::Rfnm),
        ],
    ),
];

#[test]
fn examples_are_followed(rt: HostRuntime) -> Result<(), Fail> {
    for &(name, steps) in EXAMPLES {
        goes(&rt, rt.alloc(), name, steps)?;
    }
    Ok(())
}

#[test]
fn states_laws(_rt: HostRuntime) {
    slots_are_independent();
    quiet_links_are_empty();
    each_slot_is_woken();
    a_message_is_kept::<Bits>();
    what_is_held_stays::<Bits>();
    links_are_numbered();
    answers_are_compared();
    refusals_are_compared();
    slots_are_compared::<u8>();
}

// Whether slots with a message on this link are quiet.
fn is_quiet_with(rt: &impl Abort, alloc: Global, link: u8) -> Result<bool, AllocError> {
    let mut slots = Slots::new(alloc)?;
    assert!(rt; puts(rt, &mut slots, link, &RESET).is_ok());
    assert!(rt; tells(rt, &slots, &Step::IsEmpty(link, false)));
    Ok(slots.quiet())
}

#[test]
fn is_quiet_without_the_control_link(rt: HostRuntime) -> Result<(), Fail> {
    const ROWS: &[(u8, bool)] = &[(0, true), (2, false), (3, false), (71, false)];
    for &(link, quiet) in ROWS {
        assert!(rt; is_quiet_with(&rt, rt.alloc(), link)? == quiet);
    }
    Ok(())
}

#[test]
fn compares_and_tells(rt: HostRuntime) -> Result<(), Fail> {
    assert!(rt;
        is_shown(rt.alloc(), &Answer::Dead, "Dead")?
            && is_shown(rt.alloc(), &Slot::Held(3u8), "Held(3)")?
    );
    Ok(())
}

#[test]
fn tells_apart(rt: HostRuntime) {
    assert!(rt;
        Answer::Dead == Answer::Dead
            && Answer::Dead != Answer::Incomplete
            && Slot::Held(3u8) == Slot::Held(3)
            && Slot::Held(3u8) != Slot::Ready(3)
    );
}

#[test]
fn knows_which_links_have_slots(rt: HostRuntime) -> Result<(), Fail> {
    const ROWS: &[(u8, bool)] = &[
        (0, true),
        (1, false),
        (2, true),
        (71, true),
        (72, false),
        (255, false),
    ];
    let mut slots = Slots::new(rt.alloc())?;
    for &(link, has) in ROWS {
        assert!(rt;
            has_slot(link) == has
                && answers(&mut slots, link, Answer::Rfnm) == Err(Stray)
                && answers(&mut slots, link, Answer::Incomplete) == Err(Stray)
        );
    }
    Ok(())
}

#[test]
fn tells_refusals(rt: HostRuntime) -> Result<(), Fail> {
    const BUSY: &str = "a message of this link is not taken yet";
    const STRAY: &str = "no message of this link waits for an answer";
    assert!(rt; is_told(rt.alloc(), &Busy, BUSY)? && is_told(rt.alloc(), &Stray, STRAY)?);
    Ok(())
}

#[test]
fn has_memory_for_slots(rt: HostRuntime) {
    assert!(rt; Slots::new(rt.alloc()).is_ok());
}

// A run of so many events has memory: in turn a message is handed out, and acknowledged.
fn runs_with_memory(alloc: Global, count: usize) -> Result<(), Fail> {
    let mut events = Vec::new(alloc);
    for each in 0..count {
        events.push(if each % 2 == 0 {
            LinkEvent::Hand
        } else {
            LinkEvent::Answer(Answer::Rfnm)
        })?;
    }
    run_link(alloc, 71, events.as_slice())?;
    Ok(())
}

#[test]
fn has_memory_for_runs(rt: HostRuntime) -> Result<(), Fail> {
    for count in [0, 1, 2, 100, 2000] {
        runs_with_memory(rt.alloc(), count)?;
    }
    Ok(())
}

// Only `Slots::new` allocates: this test also passes if each later allocation fails, under `rt try
// --test --fail-alloc N -- asks_for_memory_once` with any N from 2 on.
#[test]
fn asks_for_memory_once(rt: HostRuntime) -> Result<(), Fail> {
    const STEPS: &[Step<'static>] = &[
        Step::Puts(FIRST_LINK, &TEXT),
        Step::IsBusy(FIRST_LINK, &TEXT),
        Step::HasReady(Some(FIRST_LINK)),
        Step::Hands(FIRST_LINK, Some(&TEXT)),
        Step::Answers(FIRST_LINK, Answer::Dead),
        Step::IsStray(FIRST_LINK, Answer::Dead),
        Step::Wakes,
        Step::Keeps(FIRST_LINK, Some(&TEXT)),
        Step::IsQuiet(false),
        Step::Hands(FIRST_LINK, Some(&TEXT)),
        Step::Answers(FIRST_LINK, Answer::Rfnm),
        Step::IsEmpty(FIRST_LINK, true),
        Step::IsQuiet(true),
    ];
    goes(&rt, rt.alloc(), "asks_for_memory_once", STEPS)?;
    Ok(())
}

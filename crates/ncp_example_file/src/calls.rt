//! One call of a user, and what it adds to the accounts of the two users.
ghost use Rattle.std.specs.Prelude.{◌≡◌, ◌-◌, false, IfOk, OnOk, length, slice_get};
ghost use Rattle.ncp_transcript_two.specs.Transcript.{IsStep};
ghost use Rattle.ncp_example_file.specs.Calls.{was_accepted, bits_taken, is_take, IsCounted, CountsStay};

use ncp_bits::BitStore;
use ncp_transcript::{Call, HostNote};
use ncp_world::{Event, Note, Side, World};
use std::alloc::AllocError;

// Whether the last event was a call that was accepted.
fn was_accepted(notes: &[Note]) -> bool
    ensures { result ≡ was_accepted (slice_get notes.now (length notes.now - 1)) }
{
    match notes.last() {
        Some(Note::Called { note, .. }) => !note.is_refusal(),
        _ => false,
    }
}

/// The number of bits that the last event took.
pub(crate) fn bits_taken(notes: &[Note]) -> usize
    ensures { result ≡ bits_taken (slice_get notes.now (length notes.now - 1)) }
{
    match notes.last() {
        Some(
            Note::Called {
                note: HostNote::Took { text, .. },
                ..
            },
        ) => text.len(),
        _ => 0,
    }
}

/// An event happens, and is noted.
pub(crate) fn step<S: BitStore>(world: &mut World<S>, event: Event) -> Result<(), AllocError>
    ensures step { OnOk result (IsStep event world.old world.new) }
{
    let stepped = world.step(&event);
    drop(event);
    stepped
}

/// A user of a side calls. Returns whether the call was accepted.
pub(crate) fn call<S: BitStore>(
    world: &mut World<S>,
    by: Side,
    call: Call,
) -> Result<bool, AllocError>
    requires { is_take call ≡ false }
    ensures counted { IfOk result (λ accepted. IsCounted by call accepted world.old.notes world.new.notes) }
{
    step(world, Event::Call { side: by, call })?;
    Ok(was_accepted(world.transcript()))
}

/// The world settles: see `World::settle`.
pub(crate) fn settle<S: BitStore>(world: &mut World<S>) -> Result<(), AllocError>
    ensures { OnOk result (CountsStay world.old.notes world.new.notes) }
{
    world.settle()?;
    Ok(())
}

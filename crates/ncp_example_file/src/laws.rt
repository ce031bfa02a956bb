//! A text has arrived whole once both users say so: a law alone.
ghost use Rattle.ncp_example_file.specs.Accounts.{WhatBothSayIsSo};

use ncp_bits::BitStore;
use ncp_proof_pipe::notes::each_bit_is_taken_once_ever;
use ncp_world::World;

/// In any world of two hosts, for each pair that sends: once both users say so, a text has arrived
/// whole. They count bits: neither sees the other's.
///
/// The notes of a world are a transcript, and a law of the pipe says of each transcript that each
/// bit is taken once, ever. No rule of a host is cited.
pub(crate) fn what_both_say_is_so<S: BitStore>(world: &World<S>)
    // theorem: A text has arrived whole once both users say so. In any world of two hosts, if the
    // sender's user gave a text on its only connection, and the receiver's user took at least as
    // many bits on its only connection, then what it took is that text.
    ensures { WhatBothSayIsSo world.now.notes }
{
    let _notes = world.transcript();
    each_bit_is_taken_once_ever();
}

//! Sends a file from one host to another in pieces, and prints `whole` if both say so. An example of
//! a program whose promise follows from a theorem about these hosts, not from their code.
//!
//! To its two users a connection is a pipe (`each_pair_is_a_pipe` of `ncp_proof_pipe`). So what was
//! taken is a prefix of what was given, and neither user has to see the other's bits: once the
//! sender has given the whole file, and the receiver misses nothing of its length, it has arrived.
//!
//! Where to look:
//!
//! - *The promise:* `send_file` in `transfer.rt`, clause `whole`. It is about the notes of the
//!   transcript (`given` and `taken` of `ncp_statement`), and follows from `what_both_say_is_so` in
//!   `laws.rt`.
//! - *The accounts:* `specs/Accounts.antt` defines what either user has counted, by the notes.
//! - *To copy it:* the functions in `calls.rt` make a call and say what it adds to the accounts;
//!   those in `transfer.rt` are made of them.
#![tactic(auto)]

mod calls;
mod laws;
mod transfer;

use anyhow::Result;
use ncp_bits::{Bits, PackedStore};
use ncp_transcript::{Call, HostNote};
use ncp_world::{Note, World};
use transfer::{HOST_A, HOST_B, send_file};

/// The file.
const FILE: &[u8] = b"What hath God wrought?";

// Prints the whole bytes of a text as letters.
fn print_text(rt: &HostRuntime, text: &Bits) -> Result<()> {
    for place in 0..text.len() / 8 {
        let letter = text.number(8 * place, 8) as u8;
        print!(rt; "{}", char::from(letter))?;
    }
    println!(rt)?;
    Ok(())
}

// Prints the text of a call that gave or took one.
fn print_call(rt: &HostRuntime, note: &HostNote) -> Result<()> {
    match note {
        HostNote::Done {
            call: Call::Give { text, .. },
        } => {
            print!(rt; "given ")?;
            print_text(rt, &text.to_bits())
        }
        HostNote::Took { text, .. } => {
            print!(rt; "taken ")?;
            print_text(rt, &text.to_bits())
        }
        _ => Ok(()),
    }
}

// Prints each text that was given and each that was taken.
fn print_texts(rt: &HostRuntime, notes: &[Note]) -> Result<()> {
    for note in notes {
        if let Note::Called { note, .. } = note {
            print_call(rt, note)?;
        }
    }
    Ok(())
}

fn main(rt: HostRuntime) -> Result<()> {
    let alloc = rt.alloc();
    let file = Bits::from_bytes(FILE, 8 * FILE.len())?;
    let mut world: World<PackedStore> = World::new(alloc, HOST_A, HOST_B)?;
    let whole = send_file(alloc, &mut world, &file)?;
    print_texts(&rt, world.transcript())?;
    if whole {
        println!(rt; "whole")?;
    } else {
        println!(rt; "not whole")?;
    }
    Ok(())
}

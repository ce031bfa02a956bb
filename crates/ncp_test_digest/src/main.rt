//! Random calls, messages and saved bytes, valid and invalid, at two hosts, the subnet between them
//! and a third host that comes and goes. Makes as many steps as the command line gives, and prints
//! a digest of all results after some of them. `examples/embed/digest.c` does the same through the
//! functions for C.
#![tactic(auto)]

mod calls;
mod dice;
mod digest;
mod messages;
mod play;
mod reading;
mod saving;
mod table;
mod talk;
mod transit;

use anyhow::Result;
use play::Play;
use std::alloc::AllocGlobal;
use std::env::{self, Env};

// The digest is printed after so many steps.
const PRINTED: [u64; 5] = [1_000, 20_000, 100_000, 300_000, 1_000_000];

// The number of steps in the command line, or 0.
fn steps<R: Env + AllocGlobal>(rt: &R) -> Result<u64> {
    let words = env::args(rt)?.collect::<Vec<String>>(rt.alloc())?;
    match words.get(1) {
        Some(word) => Ok(word.parse::<u64>().unwrap_or(0)),
        None => Ok(0),
    }
}

fn main(rt: HostRuntime) -> Result<()> {
    let alloc = rt.alloc();
    let count = steps(&rt)?;
    let mut play = Play::new(alloc)?;
    for made in 0..count {
        play.step(made + 1)?;
        if PRINTED.contains(&(made + 1)) {
            println!(rt; "{} {:016x}", made + 1, play.digest())?;
        }
    }
    Ok(())
}

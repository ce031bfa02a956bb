//! `InputTail`: the part of the input that is stored to explain a fault.

use ncp_play_script::{is_skipped, text_of};
use std::alloc::{AllocError, Global};

// The number of bytes stored from the front of input that is no script.
const HEAD: usize = 64;

// The number of bytes stored of a line.
const LINE: usize = 4096;

// The minimum number of bytes stored of a script, once that many were read: more than the program
// reads ahead, with a line.
const HALF: usize = 65536;

// The number of bytes searched together for ends of lines, so that a processor can compare them in
// parallel.
const FEW: usize = 128;

/// The position of a fault in a message file: the number of records before it, and its offset in
/// all bytes read.
#[derive(Clone, Copy, Drop)]
pub(crate) struct FaultOffset {
    pub records: u32,
    pub bytes: u64,
}

/// The stored part of the input: its length and its first bytes; of a script the first line that is
/// played, and the last lines; and the position of a fault in a message file.
#[derive(Drop)]
pub(crate) struct InputTail {
    alloc: Global,
    is_script: bool,
    bytes: u64,
    place: Option<FaultOffset>,
    first: Vec<u8>,
    found: bool,
    // The number of lines that ended before the older of the two stored halves.
    ended: u32,
    older: Vec<u8>,
    newer: Vec<u8>,
}

// The number of lines that end in these bytes; there are few enough to count in eight bits.
fn ends_in_few(bytes: &[u8]) -> u8 {
    let mut ended = 0u8;
    for byte in bytes {
        ended = ended.wrapping_add(u8::from(*byte == b'\n'));
    }
    ended
}

// The number of lines that end in these bytes.
fn ends_in(bytes: &[u8]) -> usize {
    let mut ended = 0usize;
    for few in bytes.chunks(FEW) {
        ended = ended.wrapping_add(usize::from(ends_in_few(few)));
    }
    ended
}

impl InputTail {
    /// The state before any input.
    pub(crate) fn new(alloc: Global, is_script: bool) -> Self {
        InputTail {
            alloc,
            is_script,
            bytes: 0,
            place: None,
            first: Vec::new(alloc),
            found: false,
            ended: 0,
            older: Vec::new(alloc),
            newer: Vec::new(alloc),
        }
    }

    // Stores a byte read while the first line that is played is incomplete.
    fn look(&mut self, byte: u8) -> Result<(), AllocError> {
        if byte != b'\n' {
            if self.first.len() < LINE {
                self.first.push(byte)?;
            }
            return Ok(());
        }
        if is_skipped(text_of(self.first.as_slice(), true)) {
            self.first.clear();
        } else {
            self.found = true;
        }
        Ok(())
    }

    // Stores bytes of a script.
    fn add_script(&mut self, piece: &[u8]) -> Result<(), AllocError> {
        for byte in piece {
            if self.found {
                break;
            }
            self.look(*byte)?;
        }
        if self.newer.len() > HALF {
            let ended = ends_in(self.older.as_slice()).min(u32::MAX as usize) as u32;
            self.ended = self.ended.saturating_add(ended);
            std::mem::swap(&mut self.older, &mut self.newer);
            self.newer.clear();
        }
        self.newer.extend_from_slice(piece)?;
        Ok(())
    }

    // Stores bytes of a message file.
    fn add_file(&mut self, piece: &[u8]) -> Result<(), AllocError> {
        for byte in piece {
            if self.first.len() >= HEAD {
                break;
            }
            self.first.push(*byte)?;
        }
        Ok(())
    }

    /// Stores bytes of input. After an allocation failure less can be explained.
    pub(crate) fn add(&mut self, piece: &[u8]) {
        self.bytes = self.bytes.saturating_add(piece.len() as u64);
        let _kept = if self.is_script {
            self.add_script(piece)
        } else {
            self.add_file(piece)
        };
    }

    /// Stores the position of a fault in a message file: after `records` records, with the last
    /// `ahead` bytes not consumed.
    pub(crate) fn stop(&mut self, records: u32, ahead: usize) {
        self.place = Some(FaultOffset {
            records,
            bytes: self.bytes.saturating_sub(ahead as u64),
        });
    }

    /// The position of a fault in a message file, if there was one.
    pub(crate) fn place(&self) -> Option<FaultOffset> {
        self.place
    }

    /// The first bytes of a message file; the first line of a script that is played, empty if there
    /// is none.
    pub(crate) fn first(&self) -> &[u8] {
        let first = self.first.as_slice();
        if !self.is_script {
            return first;
        }
        let text = text_of(first, self.found);
        if is_skipped(text) { &[] } else { text }
    }

    /// The line with this number, as far as it is stored.
    pub(crate) fn line(&self, number: u32) -> Result<Vec<u8>, AllocError> {
        let mut line = Vec::new(self.alloc);
        let mut at = self.ended.saturating_add(1);
        let mut was_ended = false;
        for byte in self.older.iter().chain(self.newer.iter()) {
            if *byte == b'\n' {
                if at == number {
                    was_ended = true;
                    break;
                }
                at = at.saturating_add(1);
            } else if at == number && line.len() <= LINE {
                line.push(*byte)?;
            }
        }
        if was_ended && line.as_slice().ends_with(b"\r") {
            let _return = line.pop();
        }
        Ok(line)
    }
}

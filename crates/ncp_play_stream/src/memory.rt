//! `MemorySource` and `MemorySink`: bytes in memory, with a call that can be made to fail.
ghost use Rattle.std.specs.Prelude.{◌≡◌, ◌+◌, ◌-◌, ◌<◌, ◌≤◌, ◌||◌, ◌↔◌, min, IfOk, IsErr, MatchResult, Some, is_err, length, drop, [], true, false};
ghost use Rattle.std.specs.Io.KnownBytes.{ReadConsumes, WriteAppends};
ghost use Rattle.ncp_play_stream.specs.Memory.{ReadFails, WriteFails, write_number};

use crate::sink::Sink;
use crate::source::{Failed, Source};
use std::alloc::{AllocError, Global};
use std::marker::Model;

/// Reads bytes in memory. Can be made to fail at its n-th read into a piece that is not empty,
/// counted from 1.
#[derive(Drop)]
pub struct MemorySource<'a> {
    bytes: &'a [u8],
    fails_at: Option<u32>,
    reads: u32,
    failed: bool,
}

impl<'a> Model for MemorySource<'a> {
    ghost use Rattle.ncp_play_stream.specs.Memory.{Reading};

    ghost Value = { Reading };

    ghost view = { λ source. record {
      left = source.bytes.now;
      reads = source.reads;
      fails_at = source.fails_at;
      failed = source.failed;
    } };
}

impl<'a> MemorySource<'a> {
    /// A source of these bytes. It allows 4,294,967,295 reads.
    pub fn new(bytes: &'a [u8], fails_at: Option<u32>) -> Self
        ensures { result ≡ record {
          left = bytes.now;
          reads = u32.MAX;
          fails_at = fails_at;
          failed = false;
        } }
    {
        MemorySource {
            bytes,
            fails_at,
            reads: u32::MAX,
            failed: false,
        }
    }
}

impl Source for MemorySource<'_> {
    ghost use Rattle.std.specs.Prelude.{Some, true};

    ghost left = { λ source. Some source.left };

    ghost gives_all = { true };

    ghost reads = { λ source. source.reads };

    ghost has_failed = { λ source. source.failed };

    fn read(&mut self, piece: &mut [u8]) -> Result<usize, Failed>
        ensures count { IfOk result (λ count. count ≤ length piece.new) }
        ensures bytes { ReadConsumes (Some self.old.left) (Some self.new.left) result piece.new }
        ensures all { IfOk result (λ count. count ≡ min (length piece.old) (length self.old.left)) }
        ensures lowers { 0 < length piece.old → self.new.reads ≡ self.old.reads - 1 }
        ensures stays { length piece.old ≡ 0 → self.new.reads ≡ self.old.reads }
        ensures spent { 0 < length piece.old → self.old.reads ≡ 0 → IsErr result }
        ensures mark { self.new.failed ≡ (self.old.failed || is_err result) }

        // Fails exactly as `ReadFails` defines, and writes into the piece only the bytes that it
        // returns.
        ensures fails { IsErr result ↔ ReadFails self.old (length piece.old) }
        ensures following { IfOk result (λ count. drop count piece.new ≡ drop count piece.old) }
        ensures untouched { IsErr result → piece.new ≡ piece.old }
        ensures same { self.new.fails_at ≡ self.old.fails_at }
    {
        if piece.is_empty() {
            return Ok(0);
        }
        if self.reads == 0 {
            self.failed = true;
            return Err(Failed);
        }
        self.reads -= 1;
        if self.fails_at == Some(u32::MAX - self.reads) {
            self.failed = true;
            return Err(Failed);
        }
        let count = piece.len().min(self.bytes.len());
        let (front, rest) = self.bytes.split_at(count);
        piece[..count].copy_from_slice(front);
        self.bytes = rest;
        Ok(count)
    }

    fn failed(&self) -> bool {
        self.failed
    }
}

/// Keeps bytes in memory, up to its capacity. Can be made to fail at its n-th write, counted from
/// 1.
#[derive(Drop)]
pub struct MemorySink {
    bytes: Vec<u8>,
    capacity: usize,
    fails_at: Option<u32>,
    writes: u32,
    failed: bool,
}

impl Model for MemorySink {
    ghost use Rattle.std.specs.Prelude.{◌-◌, ◌≤◌, vec_len, vec_capacity};
    ghost use Rattle.ncp_play_stream.specs.Memory.{Writing};

    ghost Value = { Writing };

    ghost view = { λ sink. record {
      written = sink.bytes.items;
      room = sink.capacity - vec_len sink.bytes;
      writes = sink.writes;
      fails_at = sink.fails_at;
      failed = sink.failed;
    } };

    ghost invariant = { λ sink. (sink.capacity ≤ vec_capacity sink.bytes) × (vec_len sink.bytes ≤ sink.capacity) };
}

impl MemorySink {
    /// An empty sink with room for `room` bytes. No write allocates.
    pub fn new(alloc: Global, room: usize, fails_at: Option<u32>) -> Result<Self, AllocError>
        ensures { IfOk result (λ sink. sink ≡ record {
          written = [];
          room = room;
          writes = 0;
          fails_at = fails_at;
          failed = false;
        }) }
    {
        Ok(MemorySink {
            bytes: Vec::with_capacity(alloc, room)?,
            capacity: room,
            fails_at,
            writes: 0,
            failed: false,
        })
    }

    /// The bytes that were written.
    pub fn bytes(&self) -> &[u8]
        ensures { result.now ≡ self.now.written }
    {
        self.bytes.as_slice()
    }
}

impl Sink for MemorySink {
    ghost use Rattle.std.specs.Prelude.{Some, true};
    ghost use Rattle.ncp_play_stream.specs.Memory.{writes_left};

    ghost written = { λ sink. Some sink.written };

    ghost takes_all = { true };

    ghost room = { λ sink. sink.room };

    ghost writes = { λ sink. writes_left sink };

    ghost has_failed = { λ sink. sink.failed };

    fn write(&mut self, piece: &[u8]) -> Result<usize, Failed>
        ensures count { IfOk result (λ count. count ≤ length piece.now) }
        ensures some { IfOk result (λ count. 0 < length piece.now → 0 < count) }
        ensures bytes { WriteAppends (Some self.old.written) (Some self.new.written) result piece.now }
        ensures all { IfOk result (λ count. count ≡ min (length piece.now) self.old.room) }
        ensures room { MatchResult result (λ count. self.new.room + count ≡ self.old.room) (λ _. self.new.room ≡ self.old.room) }
        ensures counted { self.new.writes ≡ write_number self.old }
        ensures mark { self.new.failed ≡ (self.old.failed || is_err result) }

        // Fails exactly as `WriteFails` defines: at the chosen write, or when bytes find no room.
        ensures fails { IsErr result ↔ WriteFails self.old (length piece.now) }
        ensures same { self.new.fails_at ≡ self.old.fails_at }
    {
        self.writes = self.writes.saturating_add(1);
        let room = self.capacity - self.bytes.len();
        if self.fails_at == Some(self.writes) || (room == 0 && !piece.is_empty()) {
            self.failed = true;
            return Err(Failed);
        }
        let count = piece.len().min(room);
        match self.bytes.extend_from_slice(&piece[..count]) {
            Ok(()) => Ok(count),
            Err(_) => {
                self.failed = true;
                Err(Failed)
            }
        }
    }

    fn failed(&self) -> bool {
        self.failed
    }
}

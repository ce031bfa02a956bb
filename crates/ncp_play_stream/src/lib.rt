//! Sources and sinks of bytes.
//!
//! ```text
//! let mut source = FromRead::new(rt.stdin());                  // or MemorySource::new(bytes, None)
//! let mut sink = ToWrite::new(rt.stdout());                    // or MemorySink::new(alloc, 4096, None)?
//! ```
//!
//! - *Proved:* a `Source` returns a prefix of the bytes left, and a `Sink` appends what it takes
//!   (the clauses of `read` and `write`); a failure stays recorded (`mark`). The clauses know the
//!   bytes of memory streams completely, but of a real stream only the number of reads and writes.
//! - *Tests:* `pieces` and `failures` of `ncp_test_files`.
#![tactic(auto)]

pub mod laws;
mod memory;
mod sink;
mod source;

pub use memory::{MemorySink, MemorySource};
pub use sink::{Sink, ToWrite};
pub use source::{Failed, FromRead, LEAST_PIECE, Source, stop_at_fault};

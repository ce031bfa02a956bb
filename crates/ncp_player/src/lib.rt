//! Message files and scripts for use in a program. It shows, checks, counts, audits and follows a file,
//! and converts it between versions; it plays and records scripts; and it has the command line with its
//! statuses. Bytes are read from sources and written to sinks, over std's readers and writers or
//! over memory.
//!
//! It has no code of its own. Each item is in a crate below, and so are the definitions that the
//! contracts cite: `specs/Lib.antt` re-exports these, so that a user of a call names only this
//! crate.
//!
//! ```text
//! let mut source = MemorySource::new(bytes, None);             // or FromRead::new(rt.stdin())
//! let mut sink = ToWrite::new(rt.stdout());
//! show(&mut source, &mut sink)?;                               // the lines of a message file
//! play_world::<PackedStore, _, _>(rt.alloc(), &mut source, &mut sink)?;    // or those of a script
//! ```
//!
//! - *Use:* `worked` of `ncp_test_program` goes through the players and the files.
//! - *Proved:* the output is a stated function of the input (clause `output` of each call), and no
//!   failure of a read or a write is hidden (`read_failed`, `write_failed`).
//! - *Tests:* `ncp_test_play`, `ncp_test_files`, the cases of `ncp_test_cases`, and the runs of
//!   `ncp_test_program`.
#![tactic(auto)]

pub use ncp_follow::Follower;
pub use ncp_play_audit::{Auditor, audit};
pub use ncp_play_command_line::{Order, Report, order};
pub use ncp_play_files::{FileFault, check, convert, count, show};
pub use ncp_play_follow::{follow, follow_text};
pub use ncp_play_host::play_host;
pub use ncp_play_notes::PlayFault;
pub use ncp_play_program::status;
pub use ncp_play_stream::{Failed, FromRead, MemorySink, MemorySource, Sink, Source, ToWrite};
pub use ncp_play_world::{play_world, record_world};

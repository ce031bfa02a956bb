//! A static library with the functions that a page calls. From bytes to bytes they play and record
//! scripts, and show, check, follow and audit message files. A session is a set of hosts at a
//! handle: the page plays a script on them line by line and event by event, and reads them in
//! between.
//!
//! Requirements on the page:
//!
//! - A handle is all zeros before its first use, and then holds what these functions left in it.
//!   The page does not alter it, and does not use a copy of it besides the original.
//! - Pointers refer to memory of the stated length, and do not overlap.
//! - A struct that is passed has the layout of its declaration, and a `bool` in it is 0 or 1.
//!
//! The length of a buffer for bytes follows it as an argument. The number of bytes written is
//! stored in `written`, or in `WrittenLengths`.
//!
//! Where to look:
//!
//! - *Use:* `web/ncp.html`, whose module this library is.
//! - *Proved:* the output is that of the players and of the readers of files (clauses `played`,
//!   `recorded`, `shown`, `checked`, `followed` and `audited`). A step performs the next event of
//!   its line, and writes what a script prints for it (`step`). A reading between steps is as
//!   defined for the hosts and the subnet (`asked`, `waits`, `message`, `output`, `transit_state`),
//!   and leaves the session unchanged (`session`).
//! - *Tests:* `web/test`, in a browser.
#![tactic(auto)]

mod answer;
mod faults;
mod files;
mod handle;
pub mod laws;
mod lent;
mod readers;
mod reading;
mod scripts;
mod session;
mod stage;
mod stepping;
mod transit;

pub use answer::{
    BAD, DONE, FAULT, FULL, GOES_ON, LONGEST_MESSAGE, NO_LINE, NO_MEMORY, NO_SESSION, NOTHING,
};
pub use handle::SessionHandle;
pub use lent::{AuditOptions, LinkBetween, Queued, Sender, WrittenLengths};
pub use readers::{AmountRepr, LedgerRepr};
pub use stage::{HostsOf, ManyStage, SessionHosts, TwoStage};
pub use transit::TransitState;

//! The connections of a host with one peer.
//!
//! In the contracts, a table is a map from pairs of sockets to endpoints. The effect of a call or a
//! command on an endpoint is a rule of the model (`ncp_model`), which the contracts cite.
//!
//! A table makes and reads commands, and sends nothing: its caller queues the commands that it
//! returns. One connection, where `here` is the sender's table and `there` the receiver's:
//!
//! ```text
//! let out = Pair { local: 3, remote: 2 };                // an odd socket sends
//! let inward = Pair { local: 2, remote: 3 };             // an even one receives
//!
//! let str = here.ask_send(3, 2, 8, 1024, false)?;        // bytes of 8 bits, room for 1,024 bits
//! let rts = there.ask_receive(2, 3, 1024, false)?;       // on the lowest free link, 2
//! there.hear(&str);                                      // Nothing: it is open there
//! here.hear(&rts);                                       // Nothing: and here
//!
//! let all = there.allocate(inward, 1, 16, false)?;       // one message, sixteen bits
//! here.hear(&all);                                       // Nothing: the counters rise
//! here.give(out, &text)?;                                // two bytes are stored
//! let (size, bits) = here.cut(2)?;                       // they are to be sent, and link 2 is busy
//! there.text(2, size, bits.whole());                     // Admitted: they are held
//! here.answered(2);                                      // None: on the RFNM, link 2 is not busy
//! let (taken, none) = there.take(inward, 2)?;            // the text, and no command
//!
//! let cls = here.close(out, false)?;                     // Some(CLS): left here
//! let reply = there.hear(&cls);                          // Reply(CLS): over there, and removed
//! here.hear(&reply);                                     // Nothing: over here, and removed
//! ```
//!
//! A text is admitted in `entry/texts.rt` (`hear_text`), by the rule `hear_text` of
//! `specs/Texts.antt` in `ncp_model`. A new effect is a method of an entry (files under `entry`)
//! and one of the table (under `table`): find, change, settle; of a request: find, change, lead.
//! `settle` and `lead` record whether a text may be sent on the entry's link. Only
//! `table/asking.rt` can allocate a store. `table/readers.rt` reads the entries, and the endpoint
//! that a link identifies.
//!
//! - *Proved:* each call's answer, and the table after it, are those of the model's effect at the
//!   entry that the call names (clauses `answer`, `table`, and `done` of the requests); a refusal
//!   changes nothing (`err`). Only `Table::new`, `copy`, `ask_send` and `ask_receive` allocate.
//! - *Tests:* `table` of `ncp_test_files`; allocation failure in its `refused`.
#![tactic(auto)]

mod entries;
mod entry;
pub mod equality;
mod fixed_slab;
mod link_index;
mod link_set;
mod pairs;
mod record;
mod table;

pub use link_set::LinkSet;
pub use ncp_model::{
    CallFault, Heard, MAX_AMOUNT, MAX_BY_PEER, MAX_MESSAGES, MAX_OWN, MAX_ROOM, MAX_TEXT, Pair,
    Took,
};
pub use pairs::Pairs;
pub use record::{Record, Role};
pub use table::{Table, Unfit};

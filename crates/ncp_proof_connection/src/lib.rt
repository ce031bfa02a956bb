//! The machine of one connection, and of many over the same links: their ends, the commands underway
//! (queued or in flight) between them, and the unacknowledged texts. Either host may be cleared at
//! any moment.
//!
//! - *Use:* the connections in each direction between two hosts are a run of it
//!   (`ncp_proof_headline`, `machines`).
//! - *Proved:* no end makes an ERR for a command of its peer; the amounts granted, used and
//!   underway agree; the text got is a prefix of the text given
//!   (`connections::nothing_is_lost_or_made`, clauses `safe`, `amounts`, `beginning`; with
//!   clearings `clearings_lose_and_make_nothing`). The same of each of many
//!   (`sharing::each_loses_and_makes_nothing`): links and sockets demultiplex correctly
//!   (`links_lead_home`, `sockets_lead_home`), and none opens on a link with an unacknowledged text
//!   (`none_opens_on_a_busy_link`).
//! - *Tests:* worked runs in `runs`: a text is got, a part is called back, either side closes with
//!   a text unacknowledged; and `sharing::two_connections_share_the_lists`.
#![tactic(auto)]

pub mod connections;
pub mod runs;
pub mod sharing;

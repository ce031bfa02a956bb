//! Follows the texts of each connection over the records of a message file of version 2. Reads each
//! record once, in order. Reads no file and writes no line.
//!
//! - *Use:* `ncp_play_follow` follows a message file with it, record by record.
//! - *Proved:* the state after a record is that of the definitions (`Follower::hear`): which
//!   connections were opened, in order, the texts of each, and how each ended.
//! - *Tests:* worked cases in `laws`; captures in the cases `follow_*` of `ncp_test_cases`.
#![tactic(auto)]

mod amount;
mod connection;
mod followed_conn;
mod follower;
pub mod laws;
mod observation;
mod opened;
mod saying;
mod session;
mod sessions;
mod tables;
mod tracks;

pub use amount::SaturatingAmount;
pub use connection::{Connection, EndReason};
pub use follower::Follower;
pub use opened::MAX_OPENED;
pub use session::Session;
pub use sessions::MAX_SESSIONS;
pub use tracks::MAX_TRACKS;

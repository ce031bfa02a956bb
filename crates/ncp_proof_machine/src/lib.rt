//! Two hosts with all their connections and texts, and the links between them; and the machine of
//! resets, which they refine: their flags, queued commands and control links alone.
//!
//! - *Use:* a world of bits refines this machine (`ncp_transcript_two`,
//!   `transcripts_are_of_the_model`).
//! - *Proved:* commands act once and in order, whenever either host resets or goes down, and
//!   regardless of connections and texts (`resets::commands_act_once_in_each_schedule`,
//!   `hosts::hosts_act_once_in_order`); no other command acts until a reset is answered
//!   (`resets::nothing_acts_until_the_reset_is_answered`); a host has ends only while it is up
//!   (`hosts::ends_stand_only_while_up`); a host evolves as one peer with history variables
//!   (`hosts_are_watched_peers`).
//! - *Tests:* worked schedules in `resets`, and worked runs in `hosts`: a text is lost twice, resets,
//!   closing, a second connection, going down.
#![tactic(auto)]

pub mod hosts;
pub mod resets;

//! The headline of two hosts with all their connections. In each direction the hosts refine the
//! machine of many connections, and they refine the machine of resets; so theorems about these
//! machines apply to them.
//!
//! - *Use:* `ncp_transcript_two` carries it over to transcripts. The statement for users is in
//!   `ncp_statement`.
//! - *Proved:* no ERR for a command or a text of the other, an allocation that adds up, and the
//!   text got is a prefix of the text given (`headline::hosts_lose_and_make_nothing`).
//!   `machines::hosts_are_tied_to_machines` relates the hosts to the machines.
//! - *Tests:* `all_terms_are_underway` and `openings_and_texts_out_happen` are worked examples.
#![tactic(auto)]

pub mod headline;
pub mod machines;

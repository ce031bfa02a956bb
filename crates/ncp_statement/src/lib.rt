//! One page (`specs/Statement.antt`) of what two hosts guarantee their users, as a property of the
//! notes of a transcript. The proof that it holds is in `ncp_proof_statement`.
//!
//! - *Use:* the record `Headline` is a clause of `World::step`, and of `Many::step` for each two
//!   hosts. Outside, `letter` of `ncp_test_program` cites its fields `TakenIsPrefix` and
//!   `WithinAllowance`.
//! - *Proved:* here only that the page is not empty: `examples` has notes that each field admits,
//!   and notes that it refuses.
//! - *Tests:* wrong pages in `mutants/ncp_statement.edits`; an example refuses each.
#![tactic(auto)]

pub mod examples;

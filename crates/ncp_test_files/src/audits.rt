//! Audits: captures of many connections, the meanings of rules, and allocation failures. Captures
//! with their findings are the cases `audit_*.cases` of `ncp_test_cases`.

mod outstanding;
mod overlapped;
mod refused;
mod rules;

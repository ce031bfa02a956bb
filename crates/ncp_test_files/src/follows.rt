//! Connections of captures: a long text, the meanings of their ends, and allocation failures.
//! Captures with their connections are the cases `follow_connections.cases` of `ncp_test_cases`.

mod ends;
mod long_text;
mod refused;

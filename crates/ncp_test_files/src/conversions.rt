//! Two files that are conversions of each other. Further conversions are the cases `convert.cases`
//! of `ncp_test_cases`.

/// Two answers, in a file of version 1.
pub(crate) const RESULT_CODES: &[u8] = b"NCPI\x00\x20\x05\x02\x00\x00\x00\x20\x09\x02\x00\x00";

/// The same at host 7, in a file of version 2.
pub(crate) const PLACED: &[u8] = b"NCPJI\x07\x00\x20\x05\x02\x00\x00I\x07\x00\x20\x09\x02\x00\x00";

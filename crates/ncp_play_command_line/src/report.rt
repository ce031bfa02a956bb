//! `Report`.

/// What an audit reports.
#[derive(Clone, Copy, Debug, Drop, PartialEq, Eq)]
pub enum Report {
    /// The broken rules.
    Findings,
    /// What was not judged, too.
    Coverage,
    /// The same. What was not judged counts like a broken rule, except what one interface alone does
    /// not show.
    Strict,
}

//! The texts reported of connections.
ghost use Rattle.std.specs.Prelude.{◌≡◌, [], true, replicate};
ghost use Rattle.ncp_follow.specs.Examples.{spoken, crossed, overdrawn, as_sender};
ghost use Rattle.ncp_proof_follow_tables.specs.Examples.{of_sockets};
ghost use Rattle.ncp_proof_follow_tables.specs.TextReported.{text_told};
ghost use Rattle.ncp_proof_follow_tables.specs.FileFollowed.{ReportsAtItsOwnInterface};

/// Worked cases: a text is reported for the connection of its sockets, and for no other. Nothing is
/// reported before a text is sent, nor of a text beyond the allocation.
pub fn texts_are_opened_so()
    ensures said { text_told 1 2 (of_sockets 3 2) spoken ≡ replicate 8 true }
    ensures other { text_told 1 2 (of_sockets 5 2) spoken ≡ [] }
    ensures elsewhere { text_told 2 1 (of_sockets 2 3) spoken ≡ [] }
    ensures unsaid { text_told 1 2 (of_sockets 3 2) as_sender ≡ [] }
    ensures beyond { text_told 1 2 (of_sockets 3 2) overdrawn ≡ [] }
    ensures over { text_told 1 2 (of_sockets 2 3) crossed ≡ [] }
{}

/// In any file, a record at the interface of one host changes no text reported at the interface of
/// another.
pub fn a_record_reports_at_its_own_interface()
    ensures { ReportsAtItsOwnInterface }
{}

//! Notes that meet the premise, and notes that do not.
ghost use Rattle.ncp_peer.specs.declared.received.Received.{Received};
ghost use Rattle.ncp_proof_statement.specs.HonestRuns.{IsHonestRun};
ghost use Rattle.ncp_proof_statement.specs.Examples.{delivered_once, delivered_twice};

/// Host 1 resets: its RST is sent, delivered to host 2 and answered (`once`). A second delivery is
/// not honest (`twice`).
pub fn a_message_is_delivered_once()
    ensures once { (there : Received) × (here : Received) × IsHonestRun 1 2 (delivered_once there here) }
    ensures twice { (there again here : Received) → IsHonestRun 1 2 (delivered_twice there again here) → ⊥ }
{}

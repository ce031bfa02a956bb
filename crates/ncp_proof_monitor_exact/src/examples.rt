//! Three captures: one that these laws call clean, one that they do not, and one with a record that
//! is not judged.
ghost use Rattle.std.specs.Prelude.{◌≡◌, ◌∷◌, [], true, false};
ghost use Rattle.ncp_monitor.specs.declared.finding.Rule.{Rule};
ghost use Rattle.ncp_monitor.specs.declared.finding.Unsent.TheVariants.{Twice};
ghost use Rattle.ncp_monitor.specs.Judged.{new_monitor, by_imp};
ghost use Rattle.ncp_proof_monitor_messages.specs.Files.{findings_in, found_by};
ghost use Rattle.ncp_proof_monitor_exact.specs.Deeds.{deeds_recorded, IsFaithful};
ghost use Rattle.ncp_proof_monitor_exact.specs.Exact.{is_of_messages, found_toward, is_watched};
ghost use Rattle.ncp_proof_monitor_exact.specs.Examples.{once, twice, unseen};

/// A capture with an RST that is delivered once has no findings, every record is judged, and it is
/// faithful.
pub fn a_faithful_capture_is_clean()
    ensures found { findings_in (new_monitor false) once ≡ [] }
    ensures watched { is_watched 1 2 false false once ≡ true }
    ensures faithful { IsFaithful 1 (deeds_recorded 1 2 0 once) }
{}

/// If the RST is delivered twice, an audit reports it, and the capture is not faithful.
pub fn a_second_delivery_is_found()
    ensures found { found_by is_of_messages (found_toward 1 2 (new_monitor false) twice) ≡ by_imp (Rule.Unsent 1 0 Twice) ∷ [] }
    ensures unfaithful { IsFaithful 1 (deeds_recorded 1 2 0 twice) → ⊥ }
{}

/// The delivery to a host without a record is unknown, so its RFNM is not judged and there is no
/// finding.
pub fn an_unseen_delivery_is_not_judged()
    ensures found { findings_in (new_monitor false) unseen ≡ [] }
    ensures watched { is_watched 1 2 false false unseen ≡ false }
{}

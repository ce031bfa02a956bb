//! What the events of a script do to a host. Each is the contract of a function with an empty body.
ghost use Rattle.std.specs.Prelude.{◌≡◌, ◌<◌, ℕ, true, false, List, [], ◌∷◌, ◌++◌, None, Some};
ghost use Rattle.ncp_slot.specs.Slots.{data_links};
ghost use Rattle.ncp_peer.specs.PeerState.{control_link};
ghost use Rattle.ncp_host.specs.Host.{Host, state_of};
ghost use Rattle.ncp_host.specs.Restarting.{incomplete_bits, is_message_out, incomplete_comes, after_restart};
ghost use Rattle.ncp_transcript.specs.declared.input.Input.{Input};
ghost use Rattle.ncp_transcript.specs.declared.input.Input.TheVariants.{In};
ghost use Rattle.ncp_transcript.specs.Alone.{Alone, AreHostSteps};
ghost use Rattle.ncp_play_script.specs.declared.host_lines.HostEvent.{HostEvent};
ghost use Rattle.ncp_play_script.specs.declared.host_lines.HostEvent.TheVariants as events;
ghost use Rattle.ncp_play_host.specs.Events.{incompletes_on, inputs_of_restart, inputs_of, AreEvents, AreFirstInputs};

/// After the inputs of a restart for a peer the host is as after [`ncp_host::Host::restart`].
pub fn a_restart_is_its_incompletes()
    ensures { (number : ℕ) (before now : Alone) → number < 256
        → AreHostSteps (inputs_of_restart number before.host) before now → now.host ≡ after_restart number before.host }
{}

/// The inputs begin at the control link, if a message on it is unanswered (`control`), and else
/// at the data links (`data`). If nothing is unanswered, there are none (`none`).
pub fn restarts_begin_at_the_lowest_link()
    ensures control { (number : ℕ) (h : Host) → is_message_out control_link (state_of h number) ≡ true
        → inputs_of_restart number h ≡ In (incomplete_bits number 0) ∷ incompletes_on number data_links (incomplete_comes number 0 h) }
    ensures data { (number : ℕ) (h : Host) → is_message_out control_link (state_of h number) ≡ false
        → inputs_of_restart number h ≡ incompletes_on number data_links h }
    ensures none { (number : ℕ) (h : Host) → ((on : ℕ) → is_message_out on (state_of h number) ≡ false) → inputs_of_restart number h ≡ [] }
{}

/// A restart is for the peer that it names, or for each in the order of the first line.
pub fn restarts_are_for_these_peers()
    ensures one { (h : Host) → inputs_of (2 ∷ 3 ∷ []) (events.Restart (Some 3)) h ≡ inputs_of_restart 3 h }
    ensures each { (h : Host) → inputs_of (3 ∷ 2 ∷ []) (events.Restart None) h ≡ inputs_of_restart 3 h ++ (inputs_of_restart 2 (after_restart 3 h) ++ []) }
{}

/// The events of a script are inputs, all of them (`all`) and a prefix (`first`). So each law of the
/// runs of a host is one of scripts with restarts.
pub fn events_are_inputs()
    ensures all { (peers : List ℕ) (given : List HostEvent) (before now : Alone) → AreEvents peers given before now
        → (inputs : List Input) × AreHostSteps inputs before now }
    ensures first { (peers : List ℕ) (given : List HostEvent) (before now : Alone) → AreFirstInputs peers given before now
        → (inputs : List Input) × AreHostSteps inputs before now }
{}

//! Events at the two endpoints of a pair, as steps of a pipe.
ghost use Rattle.std.specs.Prelude.{◌≡◌, ℕ, Bool, true, false, if◌then◌else◌, List, [], Option, Some};
ghost use Rattle.ncp_pipe.specs.Pipe.{Stage, Closed, Asked, Open, Closing, is_on, is_open, Step, IsRun, new_pipe};
ghost use Rattle.ncp_pipe.specs.Accounts.{user_steps, ArePrefixes, texts_taken, texts_given};
ghost use Rattle.ncp_proof_connection.specs.Sharing.{Shared_event, new_shared, shared, connection_at, AllMayHappen};
ghost use Rattle.ncp_model.specs.declared.pair.Pair.{Pair};
ghost use Rattle.ncp_model.specs.Pairs.{sends, receives};
ghost use Rattle.ncp_model.specs.Endpoint.{Endpoint};
ghost use Rattle.ncp_model.specs.EndpointEvents.{EndpointEvent, Refused, happens};
ghost use Rattle.ncp_model.specs.declared.call_fault.CallFault.TheVariants.{NotOpen, WrongEnd};
ghost use Rattle.ncp_model.specs.declared.call_fault.CallFault.TheVariants as faults;
ghost use Rattle.ncp_proof_endpoint.specs.Histories.{EndpointWithHistory, watches};
ghost use Rattle.ncp_proof_endpoint.specs.Sound.{SoundAt};
ghost use Rattle.ncp_proof_pipe.specs.Views.{EndView, pipe_of_views, FreshAt, SenderDid, ReceiverDid, Moves, sender_view, receiver_view, sender_step, receiver_step, stage_of, is_sender_use, is_receiver_use, is_use, is_of_sender, is_of_receiver, pipe_of, user_steps_from};
ghost use Rattle.ncp_proof_pipe.specs.Calls.{steps_of_sender, steps_of_receiver, sender_steps, receiver_steps};

use ncp_pipe::pipes::each_bit_is_taken_once;

/// Each change of an endpoint is a list of steps of the pipe.
pub fn what_ends_did_is_steps()
    ensures sender { (what : EndpointEvent) (s z r : EndView) (given now out : List Bool) (fresh : Bool) (users : List Step) → FreshAt s.at s.stored given fresh → SenderDid what s z given now users → (s.at ≡ Closed → is_on z.at ≡ true → is_open r.at ≡ false) → Moves (pipe_of_views s r out fresh) users z r out now }
    ensures receiver { (what : EndpointEvent) (s r z : EndView) (given out : List Bool) (fresh : Bool) (users : List Step) → FreshAt s.at s.stored given fresh → ReceiverDid what r z users → (is_open r.at ≡ false → ((r.at ≡ Closing) → ⊥) → (out ≡ []) × (is_on s.at ≡ true → fresh ≡ true)) → Moves (pipe_of_views s r out fresh) users s z out given }
{}

/// Every event at a sender's endpoint other than the sending of a text is one of these changes, and
/// every event at a receiver's other than the arrival of a text.
pub fn what_happens_at_ends()
    ensures sender { (pair : Pair) (what : EndpointEvent) (w : EndpointWithHistory) → sends pair ≡ true → is_of_sender what ≡ true → SoundAt pair w.end → SenderDid what (sender_view w.end) (sender_view (watches pair what w).end) w.past.given (watches pair what w).past.given (sender_step what (happens pair what w.end).outcome) }
    ensures receiver { (pair : Pair) (what : EndpointEvent) (s : Option Endpoint) → receives pair ≡ true → is_of_receiver what ≡ true → SoundAt pair s → ReceiverDid what (receiver_view s) (receiver_view (happens pair what s).after) (receiver_step what (happens pair what s).outcome) }
{}

/// Three refusals of `give`, `allocate` and `call_back` follow from the stage of the pipe: `Closing`
/// and `NotOpen`, and at an open connection `WrongEnd`. The others are about rooms, sizes, the queue
/// and memory, and a pipe has none of these.
pub fn refusals_follow_from_the_stage()
    ensures closing { (pair : Pair) (what : EndpointEvent) (e : Endpoint) → is_use what ≡ true → stage_of e ≡ Closing → (happens pair what (Some e)).outcome ≡ Refused faults.Closing }
    ensures not_open { (pair : Pair) (what : EndpointEvent) (e : Endpoint) → SoundAt pair (Some e) → is_use what ≡ true → stage_of e ≡ Asked → (happens pair what (Some e)).outcome ≡ Refused NotOpen }
    ensures wrong_end { (pair : Pair) (what : EndpointEvent) (e : Endpoint) → SoundAt pair (Some e) → (if sends pair then is_receiver_use what else is_sender_use what) ≡ true → stage_of e ≡ Open → (happens pair what (Some e)).outcome ≡ Refused WrongEnd }
{}

/// Each of any number of connections that share their commands is a run of the pipe. The users' steps
/// are the accepted calls among its events. Messages may be lost, delayed or cleared.
pub fn connections_are_pipes()
    ensures { (events : List Shared_event) (pair : Pair) → AllMayHappen events new_shared → sends pair ≡ true → (steps : List Step) × (fresh : Bool) × IsRun new_pipe steps (pipe_of (connection_at pair (shared events)) fresh) × (user_steps steps ≡ user_steps_from pair events new_shared) }
{}

/// So of each, the texts taken on its successive connections are prefixes of texts given on successive
/// ones, by the calls of its users.
pub fn connections_give_each_bit_once()
    ensures { (events : List Shared_event) (pair : Pair) → AllMayHappen events new_shared → sends pair ≡ true → ArePrefixes (texts_taken (user_steps_from pair events new_shared)) (texts_given (user_steps_from pair events new_shared)) }
{
    each_bit_is_taken_once();
    connections_are_pipes();
}

/// The calls of each side among the events are those in its history, over all connections of the pair.
pub fn histories_have_the_calls()
    ensures { (events : List Shared_event) (pair : Pair) → sends pair ≡ true → (steps_of_sender (user_steps_from pair events new_shared) ≡ sender_steps ((shared events).sender pair).past.calls) × (steps_of_receiver (user_steps_from pair events new_shared) ≡ receiver_steps ((shared events).receiver pair).past.calls) }
{}

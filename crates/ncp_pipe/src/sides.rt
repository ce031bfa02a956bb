//! What the two sides of a pipe do by themselves.
ghost use Rattle.std.specs.Prelude.{◌≡◌, Bool, true, List, [], ◌∷◌};
ghost use Rattle.ncp_pipe.specs.Pipe.{Pipe, Closed, Step, Leaves_sender, Ends_sender, Cuts_sender, Leaves_receiver, Ends_receiver, Cuts_receiver, is_on, IsStep, IsRun, new_pipe};
ghost use Rattle.ncp_pipe.specs.Sides.{those, is_sender_step, is_receiver_step, is_sender_stop, is_receiver_stop, IsSenderAccount, IsReceiverAccount};

/// In a run each side may stop as another account of that side says. The account has the same calls
/// as the run and leads to the same stage, and if it dropped what was held, nothing is held. Then a
/// run to the same state has these calls, and its leaves and cuts are those of the two accounts.
pub fn each_side_may_stop_as_its_account_says()
    ensures { (steps sender receiver : List Step) (q : Pipe) (dropped : Bool) → IsRun new_pipe steps q → IsSenderAccount Closed sender q.sender → IsReceiverAccount Closed true receiver q.receiver dropped → (dropped ≡ true → q.held ≡ []) → those is_sender_step sender ≡ those is_sender_step steps → those is_receiver_step receiver ≡ those is_receiver_step steps → (now : List Step) × IsRun new_pipe now q × (those is_sender_step now ≡ those is_sender_step steps) × (those is_receiver_step now ≡ those is_receiver_step steps) × (those is_sender_stop now ≡ those is_sender_stop sender) × (those is_receiver_stop now ≡ those is_receiver_stop receiver) }
{}

/// A side that is asked for or open may leave and end in place of a cut. So a bound on the cuts of a
/// run says nothing without one on its leaves.
pub fn a_cut_may_be_a_leave()
    ensures sender { (p q : Pipe) → is_on p.sender ≡ true → IsStep Cuts_sender p q → IsRun p (Leaves_sender ∷ Ends_sender ∷ []) q }
    ensures receiver { (p q : Pipe) → is_on p.receiver ≡ true → IsStep Cuts_receiver p q → IsRun p (Leaves_receiver ∷ Ends_receiver ∷ []) q }
{}

//! Laws of pipes.
ghost use Rattle.std.specs.Prelude.{◌≡◌, ◌≤◌, ℕ, ◌+◌, Bool, true, false, List, [], ◌∷◌, ◌++◌, length};
ghost use Rattle.ncp_pipe.specs.Pipe.{Pipe, Step, Closed, Open, Asked, Opens_sender, Takes, Gives, Delivers, Sends, Asks_to_send, Opens_receiver, IsStep, IsRun, new_pipe};
ghost use Rattle.ncp_pipe.specs.Accounts.{OfEachRun, ArePrefixes, texts_taken, texts_given, allowance_after, no_allowance, head_of};
ghost use Rattle.ncp_pipe.specs.Runs.{opening, one_is_delivered, again, once, taken_twice, given_then_none, two_given, two_turned};

/// Each bit is taken once, over all connections of a pipe: the texts taken on its successive
/// connections are prefixes of texts given on successive ones, in the same order.
pub fn each_bit_is_taken_once()
    ensures { OfEachRun (λ steps q. ArePrefixes (texts_taken steps) (texts_given steps)) }
{}

/// While both sides are open nothing is lost: the bits given are those taken, held, in flight and
/// queued, in this order.
pub fn nothing_is_lost_while_both_are_open()
    ensures { OfEachRun (λ steps q. q.sender ≡ Open → q.receiver ≡ Open → head_of (texts_given steps) ≡ head_of (texts_taken steps) ++ (q.held ++ (q.in_flight ++ q.queued))) }
{}

/// The bits taken and the bits returned since the receiver asked are at most those allowed since.
pub fn what_is_taken_is_within_the_allowance()
    ensures { OfEachRun (λ steps q. let a = allowance_after steps no_allowance in length (head_of (texts_taken steps)) + a.back ≤ a.let_in) }
{}

/// Runs exist: a connection opens; a bit is delivered; it is taken, and the connection opens again
/// after a cut.
pub fn pipes_run()
    ensures opens { (q : Pipe) × IsRun new_pipe opening q }
    ensures comes { (q : Pipe) × IsRun new_pipe one_is_delivered q }
    ensures again { (q : Pipe) × IsRun new_pipe again q }
{}

/// A text taken twice is no prefix, with one connection more or without; nor are texts in another
/// order.
pub fn taking_twice_is_seen()
    ensures once { ArePrefixes once once }
    ensures later { ArePrefixes once two_given }
    ensures twice { ArePrefixes taken_twice once → ⊥ }
    ensures again { ArePrefixes taken_twice given_then_none → ⊥ }
    ensures order { ArePrefixes two_turned two_given → ⊥ }
{}

/// Steps that do not exist: bits that are not held, or not first, are not taken; bits beyond the
/// allowance are not delivered; bits that are not queued are not sent; a side opens only if it was
/// asked for; a sender does not ask while the receiver is open; a receiver does not open after the
/// sender has sent.
pub fn what_a_pipe_does_not_do()
    ensures taken { (p q : Pipe) → p.held ≡ [] → IsStep (Takes (true ∷ [])) p q → ⊥ }
    ensures other { (p q : Pipe) → p.held ≡ false ∷ [] → IsStep (Takes (true ∷ [])) p q → ⊥ }
    ensures allowed { (p q : Pipe) → p.allowed ≡ 0 → p.in_flight ≡ true ∷ [] → IsStep Delivers p q → ⊥ }
    ensures queued { (p q : Pipe) (bits : ℕ) → p.queued ≡ [] → IsStep (Sends bits) p q → ⊥ }
    ensures asks { (p q : Pipe) → p.receiver ≡ Open → IsStep Asks_to_send p q → ⊥ }
    ensures unasked_sender { (p q : Pipe) → p.sender ≡ Closed → IsStep Opens_sender p q → ⊥ }
    ensures unasked_receiver { (p q : Pipe) → p.receiver ≡ Closed → IsStep Opens_receiver p q → ⊥ }
    ensures gives { (p q : Pipe) (text : List Bool) → p.sender ≡ Asked → IsStep (Gives text) p q → ⊥ }
    ensures opens { (p q : Pipe) → p.sender ≡ Open → p.fresh ≡ false → IsStep Opens_receiver p q → ⊥ }
{}

//! Examples of the definitions. Each function is a lemma: its contract is the theorem.
ghost use Rattle.std.specs.Prelude.{◌≡◌, ◌≢◌, [], ◌∷◌, AllPairs, None, Some, codes};
ghost use Rattle.ncp_play_explain.specs.Near.{IsNear};
ghost use Rattle.ncp_play_explain.specs.Hosts.{many_printed};
ghost use Rattle.ncp_play_explain.specs.Lines.{numbers_named, PrintsOfWorld};
ghost use Rattle.ncp_play_explain.specs.Names.{table};
ghost use Rattle.ncp_play_explain.specs.Printed.{printed};
ghost use Rattle.ncp_play_explain.specs.Printing.{words_of};

/// Words that are near, and words that are not: three letters are wrong, or two places, or only one
/// letter is the same.
pub fn near_words_are_these()
    ensures missing { IsNear 2 (codes "rest") (codes "reset") }
    ensures too_many { IsNear 2 (codes "wakeup") (codes "wake") }
    ensures capital { IsNear 2 (codes "Reset") (codes "reset") }
    ensures underscore { IsNear 2 (codes "ask_send") (codes "ask-send") }
    ensures three_letters { ¬ (IsNear 2 (codes "closing") (codes "close")) }
    ensures two_places { ¬ (IsNear 2 (codes "allacote") (codes "allocate")) }
    ensures one_in_common { ¬ (IsNear 2 (codes "an") (codes "in")) }
{}

/// The hosts whose numbers begin later lines, after a first line without a sender to watch and
/// after one with it; none if sides begin them. A socket of the sender names no host.
pub fn hosts_are_named_so()
    ensures alone { numbers_named (codes "many 1 2") ≡ Some (codes "1" ∷ codes "2" ∷ []) }
    ensures watched { numbers_named (codes "many 1 2 watch 1 2 5 2") ≡ Some (codes "1" ∷ codes "2" ∷ []) }
    ensures sides { numbers_named (codes "hosts 1 2") ≡ None }
    ensures socket { PrintsOfWorld (numbers_named (codes "many 1 2 watch 1 2 5 2")) (words_of (codes "5 out"))
        (codes "'5' is none of the hosts 1 2: a line begins with the number of one") }
{}

/// What is wrong with the words after `many`: a host is named twice; the host of the sender is its
/// peer too, or its peer is none of the hosts; or its sockets are a receiver's.
pub fn senders_are_refused_so()
    ensures twice { many_printed (words_of (codes "1 2 01 watch 1 2 5 2"))
        ≡ codes "host 01 is named twice: many N1 N2 .." }
    ensures itself { many_printed (words_of (codes "1 2 watch 1 1 5 2"))
        ≡ codes "H and P are both host 1, and a host is no peer of itself: many N1 N2 .. watch H P LOCAL REMOTE" }
    ensures stranger { many_printed (words_of (codes "1 2 watch 1 3 5 2"))
        ≡ codes "host 3 is none of these hosts: many N1 N2 .. watch H P LOCAL REMOTE" }
    ensures receiver { many_printed (words_of (codes "1 2 watch 1 2 2 5"))
        ≡ codes "a sender is watched: LOCAL is odd, and REMOTE is even" }
{}

/// Each name is in the table once, so it has one meaning.
pub fn each_name_has_one_meaning()
    ensures { AllPairs (λ one other. one.0 ≢ other.0) table }
{}

/// Each word of a line is in the three tables once, so it has one meaning.
pub fn each_word_has_one_meaning()
    ensures { AllPairs (λ one other. one.0 ≢ other.0) printed }
{}

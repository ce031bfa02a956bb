//! Laws about feeds. Each is a lemma: its contract is the theorem.
ghost use Rattle.std.specs.Prelude.{◌≡◌, ◌↔◌, ℕ, List, [], ◌∷◌, ◌++◌, Bool, Option, Some, None, codes};
ghost use Rattle.ncp_numbers.specs.Bytes.{bits_of_bytes};
ghost use Rattle.ncp_play_files.specs.declared.file.FileFault.{FileFault as Fault};
ghost use Rattle.ncp_play_files.specs.declared.file.FileFault.TheVariants.{BadHeader, Truncated};
ghost use Rattle.ncp_play_files.specs.File.{HoldsMessages};
ghost use Rattle.ncp_play_feed.specs.Feeds.{FeedHolds};
ghost use Rattle.ncp_play_feed.specs.Examples.{first_feed, rst_message, rfnm_from_2};

/// Bytes are a feed in exactly one way: with these messages, and with this fault or none.
pub fn feeds_have_one_reading()
    ensures some { (bytes : List ℕ) → (messages : List (List Bool)) × (fault : Option Fault) × FeedHolds bytes messages fault }
    ensures only { (bytes : List ℕ) (messages others : List (List Bool)) (fault other : Option Fault)
        → FeedHolds bytes messages fault → FeedHolds bytes others other → (messages ≡ others) × (fault ≡ other) }
{}

/// Only a file from an IMP can be fed: after its header follow the records of a message file. A
/// file to an IMP has a bad header, and so has one that ends within it.
pub fn feeds_are_files_from_an_imp()
    ensures from_imp { (bytes : List ℕ) (messages : List (List Bool)) (fault : Option Fault)
        → FeedHolds (codes "NCPI" ++ bytes) messages fault ↔ HoldsMessages bytes messages fault }
    ensures to_imp { (bytes : List ℕ) → FeedHolds (codes "NCPH" ++ bytes) [] (Some BadHeader) }
    ensures short { FeedHolds (codes "NCP") [] (Some BadHeader) }
{}

/// The worked feed: an RST from host 2, and an RFNM that answers no message. With one more byte it
/// is truncated after both messages.
pub fn worked_feed()
    ensures whole { FeedHolds first_feed (rst_message ∷ rfnm_from_2 ∷ []) None }
    ensures cut { FeedHolds (first_feed ++ 0 ∷ []) (rst_message ∷ rfnm_from_2 ∷ []) (Some Truncated) }
{}

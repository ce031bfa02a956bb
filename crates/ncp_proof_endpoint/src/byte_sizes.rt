//! Bytes of every size: given, taken and sent text is a whole number of them.
ghost use Rattle.std.specs.Prelude.{◌≡◌, ℕ, ◌*◌, ◌%◌, ◌≤◌, length, take, ◌++◌, None, Some, Ok, Err};
ghost use Rattle.ncp_model.specs.Endpoint.{Endpoint};
ghost use Rattle.ncp_model.specs.Effect.{Stays, Becomes};
ghost use Rattle.ncp_model.specs.Calls.{give, bits_to_take};
ghost use Rattle.ncp_model.specs.Texts.{hear_text, cut, bytes_to_send};
ghost use Rattle.ncp_proof_endpoint.specs.ByteSizes.{bytes_stored, TakenFrom, SentFrom, WellFilled, WhenGiven};
ghost use Rattle.ncp_model.specs.Rows.{outward, ones, zero_bits, sized, with_counters, with_stored};
ghost use Rattle.ncp_proof_endpoint.specs.OfEnds.{OfTextsGiven, OfTextsTaken, OfTextsSent, OfBytesAsked, OfBytesToTake, OfBytesToSend, stored_36, stored_255, ready_1, ready_36, ready_255, granted_36};

use ncp_model::{CallFault, MAX_TEXT, Took};

/// An accepted text is a whole number of bytes, is appended to the stored text, and fits the store.
pub fn what_is_given_is_whole()
    ensures whole { OfTextsGiven (λ text was. length text % was.size ≡ 0) }
    ensures joins { WhenGiven (λ text was now. now.stored ≡ was.stored ++ text) }
    ensures fits { WhenGiven (λ text was now. length now.stored ≤ now.room) }
{}

/// A `take` removes whole bytes from the front: as many as are asked for, are held, and fit a
/// message.
pub fn what_is_taken_is_whole()
    ensures whole { OfBytesAsked (λ bytes e. (count : ℕ) × (bits_to_take bytes e ≡ count * e.size) × (count ≤ bytes)) }
    ensures held { (bytes : ℕ) (e : Endpoint) → bits_to_take bytes e ≤ length e.stored }
    ensures fits { (bytes : ℕ) (e : Endpoint) → bits_to_take bytes e ≤ MAX_TEXT }
    ensures as_many { OfBytesToTake (λ bytes count e. count * e.size ≤ bits_to_take bytes e) }
    ensures front { OfTextsTaken (λ bytes text was. text ≡ take (bits_to_take bytes was) was.stored) }
{}

/// A text that is sent is whole bytes from the front: as many as are stored, are allocated, and fit
/// a message.
pub fn what_goes_out_is_whole()
    ensures waits { (e : Endpoint) → bytes_to_send e * e.size ≤ length e.stored }
    ensures allocated { (e : Endpoint) → bytes_to_send e * e.size ≤ e.bits }
    ensures fits { (e : Endpoint) → bytes_to_send e * e.size ≤ MAX_TEXT }
    ensures as_many { OfBytesToSend (λ count e. count ≤ bytes_to_send e) }
    ensures of_its_size { OfTextsSent (λ of_size text was. of_size ≡ was.size) }
    ensures front { OfTextsSent (λ of_size text was. text ≡ take (bytes_to_send was * was.size) was.stored) }
{}

/// Bytes of 1, of 36 and of 255 bits.
pub fn bytes_of_every_size()
    ensures given_small { give outward (ones 3) (Some (sized 1)) ≡ Becomes (bytes_stored 1 (ones 3)) (Ok tt) }
    ensures given_middle { give outward (ones 72) (Some (sized 36)) ≡ Becomes (bytes_stored 36 (ones 72)) (Ok tt) }
    ensures given_large { give outward (ones 255) (Some (sized 255)) ≡ Becomes (bytes_stored 255 (ones 255)) (Ok tt) }
    ensures not_whole_over { give outward (ones 40) (Some (sized 36)) ≡ Stays (Err CallFault.NotWhole) }
    ensures not_whole_under { give outward (ones 35) (Some (sized 36)) ≡ Stays (Err CallFault.NotWhole) }
    ensures not_whole_large { give outward (ones 256) (Some (sized 255)) ≡ Stays (Err CallFault.NotWhole) }
    ensures taken_small { TakenFrom 3 (bytes_stored 1 (ones 3 ++ zero_bits 5)) (bytes_stored 1 (zero_bits 5)) (ones 3) }
    ensures taken_middle { TakenFrom 1 (stored_36 (ones 36 ++ zero_bits 36)) (stored_36 (zero_bits 36)) (ones 36) }
    ensures taken_large { TakenFrom 9 (stored_255 (ones 255 ++ zero_bits 255)) (sized 255) (ones 255 ++ zero_bits 255) }
    ensures sent_small { SentFrom 1 (ready_1 (ones 3 ++ zero_bits 5) 2 3) (ready_1 (zero_bits 5) 1 0) (ones 3) }
    ensures sent_middle { SentFrom 36 (ready_36 (ones 72 ++ zero_bits 36) 2 100) (ready_36 (zero_bits 36) 1 28) (ones 72) }
    ensures sent_large { SentFrom 255 (ready_255 (ones 255) 1 1020) (with_counters 0 765 (sized 255)) (ones 255) }
    ensures less_than_one { cut outward (Some (with_stored (ones 72) (with_counters 2 35 (sized 36)))) ≡ Stays None }
    ensures less_of_large { cut outward (Some (ready_255 (ones 254) 2 1020)) ≡ Stays None }
    ensures admitted { hear_text 36 (ones 36) (Some granted_36) ≡ Becomes (stored_36 (ones 36)) Took.Admitted }
    ensures most_small { WellFilled 1 (λ e. bytes_to_send e ≡ 7928) }
    ensures most_small_taken { WellFilled 1 (λ e. bits_to_take 8000 e ≡ 7928) }
    ensures most_middle { WellFilled 36 (λ e. bytes_to_send e ≡ 220) }
    ensures most_middle_taken { WellFilled 36 (λ e. bits_to_take 8000 e ≡ 7920) }
    ensures most_large { WellFilled 255 (λ e. bytes_to_send e ≡ 31) }
    ensures most_large_taken { WellFilled 255 (λ e. bits_to_take 8000 e ≡ 7905) }
{}

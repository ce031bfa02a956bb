//! Copies of events among many hosts.
use crate::events::{SENDER, bits_of};
use crate::refused::is_same;
use ncp_transcript::{Call, Message};
use ncp_world::ManyEvent;
use std::test::Fail;

/// A copy of a call has its numbers and its text, also after the call is dropped.
#[test]
fn a_copy_of_a_call_has_its_text(rt: HostRuntime) -> Result<(), Fail> {
    let text = bits_of(&rt, b"ab");
    let event = ManyEvent::Call {
        host: 3,
        call: Call::Give {
            peer: 1,
            pair: SENDER,
            text: Message::from_bits(rt.alloc(), &text)?,
        },
    };
    let copy = event.copied(rt.alloc())?;
    drop(event);
    let same = match &copy {
        ManyEvent::Call {
            host: 3,
            call: Call::Give {
                peer: 1,
                pair,
                text: copied,
            },
        } => *pair == SENDER && copied.to_bits() == text,
        _ => false,
    };
    assert!(rt; same);
    Ok(())
}

/// A copy of a subnet event names the same two hosts and the same link.
#[test]
fn a_copy_of_a_loss_is_of_the_same_message(rt: HostRuntime) -> Result<(), Fail> {
    let event = ManyEvent::Lose {
        from: 3,
        to: 1,
        link: 2,
    };
    let copy = event.copied(rt.alloc())?;
    assert!(rt; is_same(rt.alloc(), &copy, &event)?);
    Ok(())
}

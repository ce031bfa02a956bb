//! Allocation failures of the command line and of a sink. Here each test has ample memory:
//! `bench/refuse.py` runs each test repeatedly, fails one allocation after the other, and reads the
//! line printed for it.
use clap::error::ErrorKind;
use ncp_play_command_line::{Order, order};
use ncp_play_stream::MemorySink;
use std::test::Fail;

#[test]
fn reading_an_order(rt: HostRuntime) -> Result<(), Fail> {
    let words = ["ncp", "convert", "--at", "7"];
    match order(rt.alloc(), &words) {
        Ok(order) => assert!(rt; matches!(order, Order::Convert(7))),
        Err(error) => {
            assert!(rt;
                matches!(error.kind(), ErrorKind::OutOfMemory)
                    && matches!(order(rt.alloc(), &words), Ok(Order::Convert(7)))
            );
            println!(rt; "refused: an error of want of memory, no order")?;
        }
    }
    Ok(())
}

#[test]
fn memory_sink_new(rt: HostRuntime) -> Result<(), Fail> {
    if MemorySink::new(rt.alloc(), 1024, None).is_err() {
        MemorySink::new(rt.alloc(), 1024, None)?;
        println!(rt; "refused: AllocError, no sink")?;
    }
    Ok(())
}

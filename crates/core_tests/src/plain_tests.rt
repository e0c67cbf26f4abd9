//! The desk that keeps its entries takes memory for them when it is made.
use desk_base::{Minute, Month, Window};
use desk_model::{Edition, Opening};
use plain_core::PlainCore;
use std::test::Fail;

fn opening() -> Option<Opening> {
    let window = Window::new(Month::read(b"2024-03")?, 1)?;
    Opening::new(Minute::read(b"2024-03-04 00:00")?, window, 15, Edition::One)
}

#[test]
fn more_steps_than_memory_holds(rt: HostRuntime) -> Result<(), Fail> {
    let opening = opening().ok_or("no opening")?;
    assert!(rt; PlainCore::new(rt.alloc(), opening, u64::MAX).is_err());
    assert!(rt; PlainCore::new(rt.alloc(), opening, 0).is_ok());
    Ok(())
}

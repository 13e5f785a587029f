//! Seats in threads of their own.
use asm_seats::length_after;
use std::test::Fail;

#[test]
fn two_threads_of_a_thousand_steps_end_in_one_journal(rt: HostRuntime) -> Result<(), Fail> {
    assert_eq!(rt; length_after(&rt, rt.alloc(), 2, 1000)?, 2001);
    Ok(())
}

#[test]
fn sixty_four_seats_step_once_each(rt: HostRuntime) -> Result<(), Fail> {
    assert_eq!(rt; length_after(&rt, rt.alloc(), 64, 1)?, 65);
    Ok(())
}

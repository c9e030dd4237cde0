//! Waits of two threads at one monitor.
use crate::{Condition, Look, Monitor};
use std::sync::Wait;
use std::thread;
use std::thread::Threads;
use std::time::Duration;

/// Waits in one thread until another one put `put`, and returns what the first one found.
fn hand_over<R: Threads + Wait + Sync>(rt: &R, put: u64) -> u64 {
    let slot = Monitor::new(None);
    let filled = Condition::new();
    let (found, _put) = thread::join(
        rt,
        || slot.wait_until(rt, &filled, |slot| Look::of(slot.take())),
        || slot.change(rt, &filled, |slot| *slot = Some(put)),
    );
    found
}

#[test]
fn a_waiter_finds_what_another_thread_puts(rt: HostRuntime) {
    assert!(rt; hand_over(&rt, 7) == 7);
}

/// Nobody notifies the thread that waits.
#[test]
fn a_look_is_made_again_after_its_longest_sleep(rt: HostRuntime) {
    let never = Condition::new();
    let looks = Monitor::new(0u64).wait_until(&rt, &never, |looks| {
        *looks = looks.saturating_add(1);
        if *looks < 3 {
            return Look::Again(Duration::from_millis(1));
        }
        Look::Found(*looks)
    });
    assert!(rt; looks == 3);
}

//! The processor time that calls take. Where the clock can't be read, that time is 0.
use std::time::{CpuClock, Duration};

/// Returns the processor time that this thread has had so far.
pub(crate) fn moment(rt: &impl CpuClock) -> Duration {
    rt.thread_cpu_time().unwrap_or(Duration::ZERO)
}

/// Returns the nanoseconds since `started`, divided by `calls`.
pub(crate) fn each_since(rt: &impl CpuClock, started: Duration, calls: u64) -> u64 {
    let spent = moment(rt).saturating_sub(started);
    let nanos = spent
        .as_secs()
        .saturating_mul(1_000_000_000)
        .saturating_add(u64::from(spent.subsec_nanos()));
    nanos / calls.max(1)
}

//! Delays, one after another.

use kube_meta::Moment;
use kube_streams::{Backoff, ExponentialBackoff, LinearBackoff, ResetTimerBackoff};

const SECOND: u64 = 1_000_000_000;

/// The delay at a moment, both in seconds.
fn delay<B: Backoff>(backoff: &mut B, at: u64) -> u64 {
    let delay = backoff.next(Moment(at.saturating_mul(SECOND)));
    delay.unwrap_or(0) / SECOND
}

#[test]
fn a_long_silence_resets(rt: HostRuntime) {
    let mut backoff = ResetTimerBackoff::new(LinearBackoff::new(2 * SECOND), 60 * SECOND);
    // one that is as long as the time for that does not
    let delays = [
        delay(&mut backoff, 0),
        delay(&mut backoff, 40),
        delay(&mut backoff, 80),
        delay(&mut backoff, 160),
        delay(&mut backoff, 240),
        delay(&mut backoff, 300),
    ];
    assert_eq!(rt; delays, [2, 4, 6, 2, 2, 4]);
}

#[test]
fn delays_double_up_to_the_cap(rt: HostRuntime) {
    let mut backoff = ExponentialBackoff::new(800_000_000, 2, 1, 30_000_000_000);
    for millis in [800u64, 1_600, 3_200, 6_400, 12_800, 25_600, 30_000, 30_000] {
        let delay = backoff.next(Moment(0));
        assert_eq!(rt; delay, Some(millis.saturating_mul(1_000_000)));
    }
}

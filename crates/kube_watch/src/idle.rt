//! The idle window.

ghost use Rattle.std.specs.Prelude.{◌≡◌};
ghost use Rattle.kube_model.specs.World.{window_after};
ghost use Rattle.kube_model.specs.Fits.{is_window_over};
ghost use Rattle.kube_watch.specs.Units.{nanos_of};

use kube_meta::Moment;

/// The timeout in seconds that is counted where none is set.
const DEFAULT_TIMEOUT: u32 = 290;

/// So many seconds more than its timeout a watch may be silent.
const MARGIN: u64 = 5;

/// How long a watch may be silent, in nanoseconds; for ever where the timeout is 0.
fn window_of(timeout: Option<u32>) -> Option<u64>
    ensures { result ≡ window_after timeout }
{
    let seconds = timeout.unwrap_or(DEFAULT_TIMEOUT);
    if seconds == 0 {
        return None;
    }
    Some((u64::from(seconds) + MARGIN) * 1_000_000_000)
}

/// Whether a watch that is silent since a moment has been so for longer than it may.
pub fn is_too_silent(timeout: Option<u32>, since: Option<Moment>, now: Moment) -> bool
    ensures { result ≡ is_window_over (window_after timeout) (nanos_of since) now.0 }
{
    let Some(window) = window_of(timeout) else {
        return false;
    };
    match since {
        Some(since) => window <= now.0.saturating_sub(since.0),
        None => window == 0,
    }
}

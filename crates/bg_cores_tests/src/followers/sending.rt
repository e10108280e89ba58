//! When followers send.
use super::watchers::fresh;
use crate::checks::check_row;
use bg_party::Watcher;

/// Whether a watcher sends on the ticks 1, 2, 4, 8, 16, 32, 64, 96 and 128, and on no other up to
/// 128.
fn keeps_the_gaps(watcher: &mut Watcher) -> bool {
    for tick in 1..129 {
        let sends = matches!(tick, 1 | 2 | 4 | 8 | 16 | 32 | 64 | 96 | 128);
        if watcher.tick().is_some() != sends {
            return false;
        }
    }
    true
}

#[test]
fn gaps_between_ticks(rt: HostRuntime) {
    check_row(&rt, "gaps", keeps_the_gaps(fresh(&rt)));
}

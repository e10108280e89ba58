//! Matches between processes, each ended and begun again at random.
use crate::helpers::folders::{new_folder, remove_folder};
use crate::helpers::hosts::Host;
use crate::helpers::tables::real_devices::sit_down;
use crate::helpers::tables::{Devices, Sitting, Table, check_end};
use bg_match::Rules;
use bg_world::{Keeper, Link};

/// A match by these rules over devices that save in a folder. About one turn in so many ends a
/// process.
#[derive(Drop)]
struct Kills<'a> {
    folder: &'a str,
    rules: Rules,
    seed: u32,
    kills: u32,
}

impl<'a> Sitting for Kills<'a> {
    /// The match ends for everybody as for the referee.
    fn sit<R: Host, L: Link + Drop, K: Keeper + Drop, D: Devices<L, K> + Drop>(
        &self,
        rt: &R,
        table: &mut Table<D, L, K>,
    ) {
        let ends = table.play(self.seed, self.kills);
        check_end(rt, self.folder, self.rules, ends, table.watched());
    }
}

/// Matches whose processes end at random, about one turn in so many, and of each of which one call
/// fails, counted from the first; of call 0 there is none.
fn check_matches(rt: &impl Host, name: &str, rules: Rules, kills: u32, calls: &[u32]) {
    for failing in calls {
        let folder = new_folder(rt, name);
        check_match(rt, folder, rules, kills, *failing);
        remove_folder(rt, folder);
    }
}

/// A match of which a call fails.
fn check_match(rt: &impl Host, folder: &str, rules: Rules, kills: u32, failing: u32) {
    let kills = Kills {
        folder,
        rules,
        seed: failing.wrapping_add(kills),
        kills,
    };
    sit_down(rt, &kills, folder, rules, failing);
}

#[test]
fn a_match_between_processes(rt: HostRuntime) {
    check_matches(&rt, "processes", Rules::One, 0, &[0]);
}

#[test]
fn processes_that_end_at_any_moment(rt: HostRuntime) {
    check_matches(&rt, "kills", Rules::Two, 4, &[0]);
}

#[test]
fn one_of_the_first_calls_of_a_device_fails(rt: HostRuntime) {
    check_matches(&rt, "first-fails", Rules::One, 10, &[3, 17, 40, 41]);
}

#[test]
fn one_of_the_later_calls_of_a_device_fails(rt: HostRuntime) {
    check_matches(&rt, "later-fails", Rules::One, 10, &[42, 77, 150, 1000]);
}

//! Keepers in memory: what their slots keep, which writes are torn, and which reads fail.
use crate::worlds::memory_nets::LAST;
use crate::worlds::memory_worlds::{check_plays, played};

/// In `slots_are_kept` a slot has what was last written to it: nothing, then one entry, then two.
/// The third write is torn in the slot of the first; the second stays in the other one.
///
/// In `tears_of_others` entries of no call tear nothing, and each of another party tears that
/// one's. Of two entries for one write the first counts.
///
/// In `failing_reads` reads are counted by themselves at each party, those that failed included: a
/// restart reads slot 0 and then slot 1.
const PLAYS: &str = "\
slots_are_kept
fails: write 0 3 20
restart 0 -> restarted
due 12 -> entry 1
save 0 -> saved 1
restart 0 -> restarted
tick 1 -> sent 1
take 0 0 0 -> answer to 1: entries 1 to 1
take 1 0 0 -> learned 1
held: 1 1 0
choose X move 8-5 6-5 -> claimed 2
save 1 -> saved 1
tick 1 -> sent 1
take 0 1 0 -> accepted 2
save 0 -> saved 2
restart 0 -> restarted
held: 2 1 0
save 0 -> save fault
restart 0 -> restarted
save 0 -> saved 3
save 0 -> saved 4
restart 0 -> restarted
held: 2 1 0

tears_of_others
fails: write 2 1 none
fails: write 1 0 none
fails: write 1 4294967295 none
fails: write 1 2 37
fails: write 1 2 none
as to_the_torn_write
as the_write_itself
save 0 -> saved 2
save 2 -> save fault
restart 2 -> restarted
save 2 -> saved 1

failing_reads
fails: read 1 2
fails: read 0 1
fails: read 1 4294967295
as to_the_choice
as to_the_claim
restart 1 -> restore fault: device
save 1 -> down
restart 1 -> restarted
restart 1 -> restarted
restart 2 -> restarted
restart 0 -> restore fault: device
restart 0 -> restarted
held: 1 1 0
";

#[test]
fn keepers_in_memory(rt: HostRuntime) {
    check_plays(&rt, PLAYS);
}

/// The second write of the seat of X is torn. In `the_write_before` the save before it is restored,
/// and the next writes are whole; in `the_write_itself` the torn save is restored, as all of it was
/// left.
const TORN: &str = "\
the_write_before
fails: write 1 2 cut
as to_the_torn_write
restart 1 -> restarted
choose X move 8-5 6-5 -> claimed 2
save 1 -> saved 2
restart 1 -> restarted
choose X move 8-5 6-5 -> claim refused: already claimed

the_write_itself
fails: write 1 2 cut
as to_the_torn_write
as the_write_itself
";

/// A torn write leaves the first bytes, as many as the cut says, all of them where there are no
/// more, or the slot as it was. The text has 37: 20, a claim of 10, a count of 4 and the opening of
/// 3.
#[test]
fn torn_writes(rt: HostRuntime) {
    for cut in [None, Some(0), Some(1), Some(19), Some(36)] {
        played(&rt, TORN, "the_write_before", cut);
    }
    for cut in [37, 38, LAST] {
        played(&rt, TORN, "the_write_itself", Some(cut));
    }
}

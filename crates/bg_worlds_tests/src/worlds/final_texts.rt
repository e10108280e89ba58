//! What is printed of worlds in the end.
use crate::checks::{check, check_no_growth_is_left};
use crate::worlds::memory_worlds::{MemoryWorld, played, world_of};
use bg_world::final_text;
use std::alloc::AllocError;
use std::process::Abort;
use std::test::Fail;

/// In `a_seat_that_is_down` and `a_referee_that_is_down` the first save of the party is torn.
const PLAYS: &str = "\
the_start
length 3

a_turn_with_a_watcher_in_the_end
watchers 1
as a_turn

a_seat_that_is_down
length 3
fails: write 1 1 none
save 1 -> save fault
tick 1 -> down

a_referee_that_is_down
length 3
watchers 2
fails: write 0 1 none
save 0 -> save fault
due 12 -> down
";

const AFTER_THE_TURN: &str = "party 0: 2 entries
party 1: 1 entries
party 2: 0 entries
party 3: 2 entries
length 1 game 1 score 0-0 cube 1 middle crawford
  13  14  15  16  17  18  19  20  21  22  23  24
  X5   .   .   .  O3   .  O5   .   .   .   .  X2
  O5   .   .   .  X2   .  X4  X2   .   .   .  O2
  12  11  10   9   8   7   6   5   4   3   2   1
bar X 0 O 0 off X 0 O 0
O to roll
";

const AT_THE_START: &str = "party 0: 0 entries
party 1: 0 entries
party 2: 0 entries
length 3 game 1 score 0-0 cube 1 middle
  13  14  15  16  17  18  19  20  21  22  23  24
  X5   .   .   .  O3   .  O5   .   .   .   .  X2
  O5   .   .   .  X3   .  X5   .   .   .   .  O2
  12  11  10   9   8   7   6   5   4   3   2   1
bar X 0 O 0 off X 0 O 0
opening
";

const A_SEAT_IS_DOWN: &str = "party 0: 0 entries
party 1: down
party 2: 0 entries
length 3 game 1 score 0-0 cube 1 middle
  13  14  15  16  17  18  19  20  21  22  23  24
  X5   .   .   .  O3   .  O5   .   .   .   .  X2
  O5   .   .   .  X3   .  X5   .   .   .   .  O2
  12  11  10   9   8   7   6   5   4   3   2   1
bar X 0 O 0 off X 0 O 0
opening
";

const THE_REFEREE_IS_DOWN: &str = "party 0: down
party 1: 0 entries
party 2: 0 entries
party 3: 0 entries
party 4: 0 entries
";

/// What is printed of a world.
fn text_of(world: &MemoryWorld) -> Result<Vec<u8>, AllocError> {
    final_text(world)
}

/// What is printed of a world, once more where there was no memory for it, is this.
fn check_final(rt: &impl Abort, world: &MemoryWorld, name: &str, expected: &str) {
    let text = match text_of(world) {
        Ok(text) => text,
        Err(AllocError) => text_of(world).expect(rt, "memory"),
    };
    check(rt, name, text.as_slice() == expected.as_bytes());
}

#[test]
fn final_texts(rt: HostRuntime) {
    for (name, expected) in [
        ("the_start", AT_THE_START),
        ("a_turn_with_a_watcher_in_the_end", AFTER_THE_TURN),
        ("a_seat_that_is_down", A_SEAT_IS_DOWN),
        ("a_referee_that_is_down", THE_REFEREE_IS_DOWN),
    ] {
        check_final(&rt, played(&rt, PLAYS, name, None), name, expected);
    }
}

/// Want of memory is answered and harms nothing: asked again, the answer is the same. No run of the
/// tests refuses any, but `tools/checks/refuse_growths` refuses each growth in turn.
#[test]
fn refused_growths_of_final_texts(rt: HostRuntime) -> Result<(), Fail> {
    let world = world_of(&rt, &["length 3"]);
    check_final(&rt, world, "the_start", AT_THE_START);
    check_no_growth_is_left(rt.alloc())
}

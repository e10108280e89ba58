//! The calls of the devices of matches in rounds, as texts: all those of the first rounds, and
//! parts of others.

/// Of the first rounds and of others, what several matches have.
///
/// The referee and both seats begin again from their slots, 0 before 1 (`the_start`).
///
/// In round 1 the referee has been sent nothing, opens a game and saves it. Nobody else has
/// anything, or does anything, but for saving; and all want what they have not.
///
/// In round 2 all are answered, and learn the opening. X claims his move, and saves that before he
/// sends it; the others want what comes after the opening.
///
/// In `vain_wants` the referee takes what all want, and has nothing for them.
pub(crate) const SHARED_CALLS: &str = "\
the_start
read 0 0
read 0 1
read 1 0
read 1 1
read 2 0
read 2 1

round_1
take 0 0: nothing
take 0 0: nothing
take 0 0: nothing
take 0 0: nothing
write 0 1 1 0 1
take 1 0: nothing
take 2 0: nothing
take 3 0: nothing
take 1 0: nothing
take 2 0: nothing
take 3 0: nothing
write 1 1 1 0 0
write 2 1 1 0 0
send 0: want 1 0
send 0: want 2 0
send 0: want 3 0

nothing_for_the_referee
take 0 0: nothing
take 0 0: nothing
take 0 0: nothing
take 0 0: nothing

nothing_for_the_others
take 1 0: nothing
take 2 0: nothing
take 3 0: nothing
take 1 0: nothing
take 2 0: nothing
take 3 0: nothing

first_saves_and_wants
write 1 1 1 0 0
write 2 1 1 0 0
send 0: want 1 0
send 0: want 2 0
send 0: want 3 0

all_want_all
send 0: want 1 0
send 0: want 2 0
send 0: want 3 0

vain_wants
take 0 0: want 1 0
take 0 0: want 2 0
take 0 0: want 3 0
take 0 0: nothing

answers_of_round_2
take 0 0: want 1 0
send 1: entries 1 1
take 0 0: want 2 0
send 2: entries 1 1
take 0 0: want 3 0
send 3: entries 1 1
take 0 0: nothing

takes_of_round_2
take 1 0: entries 1 1
take 2 0: entries 1 1
take 3 0: entries 1 1
take 1 0: nothing
take 2 0: nothing
take 3 0: nothing

claim_of_x
write 1 0 2 2 1
write 2 0 2 0 1
send 0: claim 1 2
send 0: want 2 1
send 0: want 3 1

garbled_takes
take 1 0: garbled
take 2 0: garbled
take 3 0: nothing
take 1 0: garbled
take 2 0: garbled
take 3 0: nothing

takes_of_the_opening
take 1 0: garbled
take 2 0: garbled
take 3 0: entries 1 1
take 1 0: entries 1 1
take 2 0: entries 1 1
take 3 0: nothing

";

/// In round 3 the referee accepts the move, and saves it before it tells it: its tick pushes it to
/// the first two who lack it. Nobody has learned anything, so all send what they sent, one tick
/// after the last. In round 4 all are answered: the seats are told the move twice over, and the
/// watcher once. O claims his roll; X keeps the claim that is answered.
///
/// In `game_is_opened_in_the_third_round` the referee is handed one word in each round, the next
/// one where the last had equal dice. The opening is then pushed to the first two, who have asked;
/// nobody asks on the third tick.
///
/// In `what_is_taken_second_counts_for_x`, and for O, three datagrams that are no packets wait for
/// each seat. A seat that learns the opening by what it takes second claims its move in the same
/// round, X as well as O.
///
/// In `game_is_opened_in_the_round_that_ends_the_last` all restore nine entries but the watcher. X
/// claims the drop. The claim is the last that the referee takes in the next round: with it the
/// game is over. The next one is opened in the same round, and both entries are saved at once.
///
/// A party whose save fails reads its slots at once, and goes on from what it saved before: the
/// referee with the opening, the seats with nothing (`referee_restarts_where_its_save_fails`, and
/// the same of X and of O).
///
/// Slots of one byte restore nothing, and are not empty: the match stops
/// (`slots_of_one_byte_stop_the_referee`, and the same of X and of O).
pub(crate) const CALLS: &str = "\
calls_of_no_round
as the_start

calls_of_the_first_round
as the_start
as round_1

calls_of_the_first_rounds
as the_start
as round_1
as answers_of_round_2
write 0 0 2 0 1
as takes_of_round_2
as claim_of_x
take 0 0: claim 1 2
take 0 0: want 2 1
take 0 0: want 3 1
take 0 0: nothing
write 0 1 3 0 2
as nothing_for_the_others
write 1 1 3 2 1
write 2 1 3 0 1
send 1: entries 2 1
send 2: entries 2 1
send 0: claim 1 2
send 0: want 2 1
send 0: want 3 1
take 0 0: claim 1 2
send 1: entries 2 1
take 0 0: want 2 1
send 2: entries 2 1
take 0 0: want 3 1
send 3: entries 2 1
take 0 0: nothing
write 0 0 4 0 2
take 1 0: entries 2 1
take 2 0: entries 2 1
take 3 0: entries 2 1
take 1 0: entries 2 1
take 2 0: entries 2 1
take 3 0: nothing
write 1 0 4 2 2
write 2 0 4 3 2
send 0: want 1 2
send 0: claim 2 3
send 0: want 3 2

game_is_opened_in_the_third_round
as the_start
as nothing_for_the_referee
write 0 1 1 0 0
as nothing_for_the_others
as first_saves_and_wants
as vain_wants
write 0 0 2 0 0
as nothing_for_the_others
write 1 0 2 0 0
write 2 0 2 0 0
as all_want_all
as vain_wants
write 0 1 3 0 1
as nothing_for_the_others
write 1 1 3 0 0
write 2 1 3 0 0
send 1: entries 1 1
send 2: entries 1 1

what_is_taken_second_counts_for_x
as the_start
as nothing_for_the_referee
write 0 1 1 0 1
as garbled_takes
as first_saves_and_wants
as answers_of_round_2
write 0 0 2 0 1
as takes_of_the_opening
as claim_of_x

what_is_taken_second_counts_for_o
as the_start
as nothing_for_the_referee
write 0 1 1 0 1
as garbled_takes
as first_saves_and_wants
as answers_of_round_2
write 0 0 2 0 1
as takes_of_the_opening
write 1 0 2 0 1
write 2 0 2 2 1
send 0: want 1 1
send 0: claim 2 2
send 0: want 3 1

game_is_opened_in_the_round_that_ends_the_last
as the_start
take 0 0: garbled
take 0 0: garbled
take 0 0: garbled
take 0 0: garbled
write 0 0 2 0 9
as nothing_for_the_others
write 1 0 2 10 9
write 2 0 2 0 9
send 0: claim 1 10
send 0: want 2 9
send 0: want 3 0
take 0 0: garbled
take 0 0: garbled
take 0 0: garbled
take 0 0: claim 1 10
write 0 1 3 0 11
as nothing_for_the_others
write 1 1 3 10 9
write 2 1 3 0 9
send 1: entries 10 2
send 0: claim 1 10
send 0: want 2 9
send 0: want 3 0

referee_restarts_where_its_save_fails
as the_start
as round_1
as answers_of_round_2
failed write 0 0 2 0 1
read 0 0
read 0 1
as takes_of_round_2
as claim_of_x

x_restarts_where_its_save_fails
as the_start
as round_1
as answers_of_round_2
write 0 0 2 0 1
as takes_of_round_2
failed write 1 0 2 2 1
read 1 0
read 1 1
write 2 0 2 0 1
send 0: want 1 0
send 0: want 2 1
send 0: want 3 1

o_restarts_where_its_save_fails
as the_start
as round_1
as answers_of_round_2
write 0 0 2 0 1
as takes_of_round_2
write 1 0 2 2 1
failed write 2 0 2 0 1
read 2 0
read 2 1
send 0: claim 1 2
send 0: want 2 0
send 0: want 3 1

slots_of_one_byte_stop_the_referee
read 0 0
read 0 1

slots_of_one_byte_stop_x
read 0 0
read 0 1
read 1 0
read 1 1

slots_of_one_byte_stop_o
as the_start
";

/// Save 1 of the referee of match 7, of length 3: the opening 3 1, X moves 8-5 6-5, O resigns three
/// times over, which X rejects, and doubles. X drops that as entry 10, since 5 divides 10. The text
/// is in the layout that is read, and no longer written.
pub(crate) const BEFORE_THE_DROP: [u8; 40] = [
    0x42, 0x47, 0x53, 0x31, 0, 0, 0, 0, 0, 0, 0, 0, 7, 3, 0, 0, 0, 1, 0, 0, 9, 1, 3, 1, 6, 2, 8, 5,
    6, 5, 7, 1, 9, 7, 1, 9, 7, 1, 9, 3,
];

//! The lines of use that stand in each library's documentation, run (`tools/checks/check_uses`
//! compares them).
use bg_auto::{auto_action, dice_word, sim_text};
use bg_board::{Board, Die, Player, Step};
use bg_match::{Action, Actor, Entry, Level, Record, Rules, Terms};
use bg_parties::Party;
use bg_party::{Learned, Seat};
use bg_referee::{Referee, TakeOutcome};
use bg_streams::{Reading, Writing, read_input, write_text};
use bg_text::{Verdict, entry_text, judge_text, parse_entry};
use bg_turns::{dice_of, judge_turn, legal_turns, most};
use bg_wire::{Packet, decode, encode};
use bg_world::{Event, Outcome, Plan, Setup, outcome_text, parse_event, simulate};
use std::process::Abort;
use std::test::Fail;

#[test]
fn boards(rt: HostRuntime) -> Result<(), Fail> {
    // bg_board
    let board = Board::start();
    let step = Step::new(8, 5).expect(&rt, "a step leads to a lower point");
    let after = board.play_step(Player::X, step, Die::Three)?;
    assert!(rt; after.count(Player::X, 8) == 2 && after.count(Player::X, 5) == 1);
    // O holds his 6 point, which is 19 to X: nobody steps there.
    let blocked = Step::new(24, 19).expect(&rt, "a step leads to a lower point");
    assert!(rt; board.play_step(Player::X, blocked, Die::Five).is_err());
    // end
    Ok(())
}

#[test]
fn turns(rt: HostRuntime) -> Result<(), Fail> {
    let alloc = rt.alloc();
    // bg_turns
    let board = Board::start();
    let dice = dice_of(12).expect(&rt, "all words but the last four have dice");
    assert!(rt; (dice.first, dice.second) == (Die::Three, Die::One));
    assert!(rt; most(&board, Player::X, dice) == 2);
    let turns = legal_turns(alloc, &board, Player::X, dice)?;
    for turn in &turns {
        assert!(rt; judge_turn(&board, Player::X, dice, turn).is_ok());
    }
    // end
    Ok(())
}

fn check_records(rt: &(impl AllocGlobal + Abort)) -> Result<(), Fail> {
    let alloc = rt.alloc();
    // bg_match
    let mut record = Record::new(alloc, 1, 5, Rules::One)?;
    record.push(Entry::Opening(Die::Three, Die::One))?;
    record.push(Entry::Resigned(Level::Gammon))?;
    // X offered, so O answers; a double does not follow.
    assert!(rt; record.actor() == Actor::Seat(Player::O));
    assert!(rt; record.check(&Entry::Doubled).is_err());
    record.push(Entry::Accepted)?;
    assert!(rt; record.standing().score() == (0, 2));
    // end
    Ok(())
}

#[test]
fn records(rt: HostRuntime) -> Result<(), Fail> {
    check_records(&rt)
}

fn check_streams(rt: &(impl AllocGlobal + Abort)) -> Result<(), Fail> {
    let alloc = rt.alloc();
    // bg_streams
    let mut source = Reading::new("some bytes".as_bytes());
    let input = read_input(alloc, &mut source, 10)?;
    let mut written = Vec::new(alloc);
    write_text(&mut Writing::new(&mut written), &input)?;
    assert!(rt; written.ends_with(b"some bytes"));
    // end
    Ok(())
}

#[test]
fn streams(rt: HostRuntime) -> Result<(), Fail> {
    check_streams(&rt)
}

fn check_texts(rt: &(impl AllocGlobal + Abort)) -> Result<(), Fail> {
    let alloc = rt.alloc();
    // bg_text
    let (player, entry) = parse_entry(b"X roll 3 1")?;
    assert!(rt; entry_text(player, &entry).as_str() == "X roll 3 1");
    let judged = judge_text(alloc, b"length 1\nopen 3 1\nX move 8-5 6-5\n")?;
    assert!(rt; judged.verdict == Verdict::Fine(2));
    assert!(rt; judged.text.ends_with(b"O to roll\nok 2\n"));
    // end
    Ok(())
}

#[test]
fn texts(rt: HostRuntime) -> Result<(), Fail> {
    check_texts(&rt)
}

#[test]
fn bytes(rt: HostRuntime) -> Result<(), Fail> {
    // bg_wire
    let packet = Packet::Want {
        id: 1,
        rules: Rules::One,
        sender: 3,
        held: 0,
    };
    let bytes = encode(&packet);
    assert!(rt; bytes.len() == 18 && decode(bytes.as_slice()) == Ok(packet));
    // end
    Ok(())
}

fn check_referees(rt: &(impl AllocGlobal + Abort)) -> Result<(), Fail> {
    let alloc = rt.alloc();
    // bg_referee
    let mut referee = Referee::fresh(alloc, 1, 5, Rules::One)?;
    assert!(rt; referee.due(12) == Ok(1));
    // Nothing is told before it is saved: write the text to the slot, and then say so.
    let (_slot, save, _text) = referee.to_save()?;
    referee.mark_saved(save);
    let want = Packet::Want {
        id: 1,
        rules: Rules::One,
        sender: 3,
        held: 0,
    };
    // The answer goes to party 3.
    assert!(rt; matches!(referee.take(&want, 0), TakeOutcome::Answer(3, _)));
    // end
    Ok(())
}

#[test]
fn referees(rt: HostRuntime) -> Result<(), Fail> {
    check_referees(&rt)
}

fn check_parties(rt: &(impl AllocGlobal + Abort)) -> Result<(), Fail> {
    let alloc = rt.alloc();
    // bg_parties
    let terms = Terms {
        length: 5,
        rules: Rules::One,
    };
    // Party 0 is the referee. Its two slots are empty, so it begins afresh.
    let mut referee = Party::open(alloc, 0, 1, terms, b"", b"")?;
    assert!(rt; referee.due(12) == Ok(1));
    // Nothing is told before it is saved: write the text to the slot, and then say so.
    let (_slot, save, _text) = referee.to_save()?;
    assert!(rt; referee.mark_saved(save).is_ok());
    // An entry that comes in between ends the save, so that it can't be marked.
    let (_slot, save, _text) = referee.to_save()?;
    let resigns = Packet::Claim {
        id: 1,
        rules: Rules::One,
        sender: 1,
        number: 2,
        action: Action::Resign(Level::Normal),
    };
    assert!(rt; referee.take(&resigns, 0).grows());
    assert!(rt; referee.mark_saved(save).is_err());
    // end
    Ok(())
}

#[test]
fn parties(rt: HostRuntime) -> Result<(), Fail> {
    check_parties(&rt)
}

fn check_seats(rt: &(impl AllocGlobal + Abort)) -> Result<(), Fail> {
    let alloc = rt.alloc();
    // bg_party
    let mut seat = Seat::fresh(alloc, Player::X, 1, 5, Rules::One)?;
    // What it gives is sent to the referee, and what the referee answers is taken.
    assert!(rt; matches!(seat.tick(), Some(Packet::Want { held: 0, .. })));
    let bytes = [
        66, 71, 2, 3, 0, 0, 0, 0, 0, 0, 0, 1, 1, 0, 0, 0, 1, 1, 1, 3, 1,
    ];
    assert!(rt; seat.take(&decode(&bytes)?) == Learned::Grew(1));
    assert!(rt; seat.choose(Action::Resign(Level::Normal)) == Ok(2));
    // A claim is sent only once it is saved: write the text to the slot, and then say so.
    let (_slot, save, _text) = seat.to_save()?;
    seat.mark_saved(save);
    assert!(rt; matches!(seat.tick(), Some(Packet::Claim { number: 2, .. })));
    // end
    Ok(())
}

#[test]
fn seats(rt: HostRuntime) -> Result<(), Fail> {
    check_seats(&rt)
}

fn check_worlds(rt: &(impl AllocGlobal + Abort)) -> Result<(), Fail> {
    let alloc = rt.alloc();
    // bg_world
    let setup = Setup {
        id: 1,
        length: 5,
        rules: Rules::One,
        watchers: 0,
    };
    let no_failures = Plan {
        tears: Vec::new(alloc),
        sends: Vec::new(alloc),
        reads: Vec::new(alloc),
    };
    let events = [Event::Due { word: 12 }, Event::Save { party: 0 }];
    let tick = parse_event(b"tick 1")?;
    let (mut world, report) = simulate(alloc, setup, &no_failures, &events)?;
    let outcome = world.step(tick);
    drop(world);
    assert!(rt; report.done == 2 && report.faults == 0);
    assert!(rt; outcome == Outcome::Sent(1) && outcome_text(&outcome).as_str() == "sent 1");
    // end
    Ok(())
}

#[test]
fn worlds(rt: HostRuntime) -> Result<(), Fail> {
    check_worlds(&rt)
}

#[test]
fn automatic_players(rt: HostRuntime) -> Result<(), Fail> {
    let alloc = rt.alloc();
    // bg_auto
    // Match 7, of length 3 and with one watcher, after 2,000 events in memory.
    let text = sim_text(alloc, 7, 3, Rules::One, 1, 2000)?;
    assert!(rt; text.starts_with(b"length 3\nopen 6 3\nX move "));
    // In a match of one's own: the dice of its first entry, and what the players do after it.
    let mut record = Record::new(alloc, 7, 3, Rules::One)?;
    let dice = dice_of(dice_word(7, 1, 0)).expect(&rt, "all words but the last four have dice");
    record.push(Entry::Opening(dice.first, dice.second))?;
    let action = auto_action(alloc, &record, Player::X)?;
    assert!(rt; matches!(action, Some(Action::Move(_))));
    assert!(rt; auto_action(alloc, &record, Player::O)?.is_none());
    // end
    Ok(())
}

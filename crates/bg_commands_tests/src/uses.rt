//! The lines of use of the libraries of commands and of processes, run (`tools/checks/check_uses`
//! compares them).
use crate::folders::new_folder;
use bg_auto::NoObserver;
use bg_board::{Die, Player};
use bg_command_parts::{Asked, FailureReporter, OwnSaves, stopped};
use bg_console::{Progress, Telling, check_folder};
use bg_file_commands::show;
use bg_match::{Entry, Record, Rules, Terms};
use bg_match_commands::sim;
use bg_options::{Request, SeatOptions, ShowOptions, SimOptions, command_line};
use bg_picture::Numbering;
use bg_processes::{
    Failures, FileKeeper, Going, Keyring, MatchFile, PartySocket, RefereeProcess, read_saved,
};
use bg_reports::Ending;
use bg_seals::MasterSecret;
use bg_seat_commands::auto;
use bg_wire::REFEREE;
use bg_world::Outcome;
use std::fs;
use std::process::Abort;
use std::test::Fail;

fn check_a_page_is_asked_for(rt: &(impl AllocGlobal + Abort)) -> Result<(), Fail> {
    let alloc = rt.alloc();
    // bg_options
    // The command line has the command that its first argument names, and its help all of them.
    let words = ["bg_relay", "page", "--title", "Anna against Otto"];
    let matches = command_line(alloc, Some("page"))?.try_get_matches_from(words.as_slice())?;
    let Ok(Request::Page(page)) = Request::read(&matches) else {
        return Err(Fail::from("another request"));
    };
    assert!(rt; page.title == Some("Anna against Otto") && page.numbering == Numbering::Mover);
    // end
    Ok(())
}

#[test]
fn a_page_is_asked_for(rt: HostRuntime) -> Result<(), Fail> {
    check_a_page_is_asked_for(&rt)
}

#[test]
fn a_transcript_grows(rt: HostRuntime) -> Result<(), Fail> {
    let alloc = rt.alloc();
    // bg_console
    // A record is printed as a transcript, entry by entry.
    let mut record = Record::new(alloc, 0, 1, Rules::One)?;
    let mut telling = Telling::new();
    assert!(rt; telling.go_on(&rt, &record) == Ok(false));
    record.push(Entry::Opening(Die::Three, Die::One))?;
    assert!(rt; telling.go_on(&rt, &record) == Ok(true));
    // A party that begins again may hold less for a while: nothing is printed twice.
    let less = Record::new(alloc, 0, 1, Rules::One)?;
    assert!(rt; telling.go_on(&rt, &less) == Ok(false));
    assert!(rt; telling.go_on(&rt, &record) == Ok(false));
    // A folder that can't be used is reported on standard error, and the command ends so.
    let refused = check_folder(&rt, "no such folder", " is no folder");
    assert!(rt; refused == Err(Ending::WrongArguments));
    // end
    Ok(())
}

#[test]
fn no_saved_files_are_shown(rt: HostRuntime) {
    // bg_file_commands
    let saved = ShowOptions {
        path0: "no such folder",
        path1: None,
        wants_transcript: false,
    };
    assert!(rt; show::run(&rt, saved) == Err(Ending::WrongArguments));
    // end
}

#[test]
fn a_party_stops(rt: HostRuntime) {
    let folder = "x";
    // bg_command_parts
    // A party that can't save any more is down: a message says why, and what to do.
    let saves = OwnSaves {
        folder,
        party: REFEREE,
        asked: Asked::Options(7, 3, Rules::One),
    };
    assert!(rt; stopped(&rt, saves, &Outcome::SavesSpent) == Ending::Failed);
    // Where nothing has failed, a reporter has nothing to say.
    let failures = Failures::new();
    FailureReporter::new(&rt, &failures, folder).say_failures();
    // end
}

#[test]
fn no_match_is_played(rt: HostRuntime) {
    // bg_seat_commands
    let seat = SeatOptions {
        player: Some(Player::X),
        match_path: "no such file",
        folder: "x",
    };
    assert!(rt; auto::run(&rt, seat, false) == Err(Ending::Failed));
    // end
}

#[test]
fn no_match_is_simulated(rt: HostRuntime) {
    // bg_match_commands
    // A match of no length is none.
    let no_match = SimOptions {
        seed: 7,
        terms: Terms {
            length: 0,
            rules: Rules::One,
        },
        watchers: 0,
        steps: 10,
    };
    let progress = Progress::start(&rt, false);
    assert!(rt; sim::run(&rt, no_match, progress) == Err(Ending::Failed));
    // end
}

#[test]
fn processes(rt: HostRuntime) -> Result<(), Fail> {
    let alloc = rt.alloc();
    let made = new_folder(&rt, "uses")?;
    let folder = made.as_str();
    // bg_processes
    // What all processes of a match agree on is a line; this is one of a match to 3 points.
    let file = MatchFile::parse("match 7 length 3 rules 1 port 4000\n").expect(&rt, "a good text");
    assert!(rt; file.terms.length == 3);
    // The referee's process, over its own socket and a folder, with the keys of all parties and a
    // secret that its dice go by. Why a call of the socket or of the files failed is noted.
    let failures = Failures::new();
    let keys = Keyring::of_referee(&MasterSecret::new(&[8; 32]), file.id);
    let link = PartySocket::bind(&rt, &rt, file.port, REFEREE, keys, &failures)?;
    let keeper = FileKeeper::new(&rt, folder, REFEREE, &failures)?;
    let begun = RefereeProcess::begin(alloc, file.id, file.terms, [7; 32], link, keeper)?;
    let (mut referee, outcome) = begun;
    // A round opens the game, and saves that. Between two of them a process waits (`Waiting`,
    // `Ticking`). Another process may go on from what was saved.
    let going = referee.round(true, &mut NoObserver);
    drop(referee);
    assert!(rt; outcome == Outcome::Restarted && going == Ok(Going::On));
    assert!(rt; !read_saved(&rt, format!(in alloc; "{folder}/party-0.1")?.as_str())?.is_empty());
    assert!(rt; failures.drain().next().is_none());
    // end
    fs::remove_dir_all(&rt, folder)?;
    Ok(())
}

//! The lines of use that stand in the libraries' documentation, run (`tools/checks/check_uses`
//! compares them).
use crate::keepers::{Shelf, ShelfKeeper, lasting_shelf};
use bg_board::{Die, Player};
use bg_dice::{Ruling, digest_of, drawn_behind, ruling_of, told_text};
use bg_hosted::{Acted, HostedMatch};
use bg_journal::{Change, Error, FileText, Journal};
use bg_match::{Action, Entry, Record, Rules, Terms};
use bg_pages::{Page, answer_page};
use bg_requests::{Message, Part, Target, is_key_of_order, parse_message, target_of};
use bg_site::{Found, Made, Site, Store};
use bg_states::state_text;
use bg_stores::{Known, parts_of};
use bg_system::Names;
use bg_world::WorldFault;
use http_server::{Config, Connection, Response};
use std::alloc::AllocError;
use std::hash::RandomState;
use std::io;
use std::process::Abort;
use std::test::Fail;

#[test]
fn hosted_matches(rt: HostRuntime) -> Result<(), WorldFault> {
    let alloc = rt.alloc();
    let keepers = lasting_shelf(&rt).keepers();
    // bg_hosted
    let terms = Terms {
        length: 1,
        rules: Rules::One,
    };
    let mut hosted = HostedMatch::begin(alloc, 7, terms, [3; 32], keepers)?;
    // The opening is there, saved and told, and one of the players is to move.
    assert!(rt; hosted.told() == 1);
    // An action has the number of the entry that it is to become, so a repeat acts once.
    let acted = hosted.act(Player::X, 1, Action::Roll);
    assert!(rt; acted == Acted::OtherEntry);
    // end
    drop(hosted);
    Ok(())
}

fn check_states(rt: &(impl AllocGlobal + Abort)) -> Result<(), Fail> {
    let alloc = rt.alloc();
    // bg_states
    let mut log = Record::new(alloc, 7, 1, Rules::One)?;
    log.push(Entry::Opening(Die::One, Die::Three))?;
    let text = state_text(alloc, &log, Some(Player::O))?;
    assert!(rt; text.starts_with(b"{\"number\":1,\"length\":1,\"rules\":1,\"game\":1,"));
    // end
    Ok(())
}

#[test]
fn states(rt: HostRuntime) -> Result<(), Fail> {
    check_states(&rt)
}

#[test]
fn paths_and_messages(rt: HostRuntime) {
    // bg_requests
    assert!(rt; target_of("/matches/7f3a/state") == Target::Of("7f3a", Part::State));
    assert!(rt; parse_message("act 12 roll") == Message::Act(12, "roll"));
    assert!(rt; is_key_of_order("x") && !is_key_of_order("name_x"));
    // end
}

#[test]
fn dice(rt: HostRuntime) -> Result<(), AllocError> {
    let alloc = rt.alloc();
    // bg_dice
    // The first entry opens a game, so the equal dice of an attempt before would have been passed
    // over.
    let drawn = drawn_behind(&[3; 32], 0, true).expect(&rt, "one of 65,536 attempts");
    assert!(rt; drawn.attempt == 0 && !drawn.dice.is_double());
    let entry = Entry::Opening(drawn.dice.first, drawn.dice.second);
    assert!(rt; ruling_of(&[3; 32], 0, &entry) == Ruling::Own(0));
    // What is told of the dice before a match and after it.
    let before = told_text(alloc, Some(&digest_of(&[3; 32])), None)?;
    assert!(rt; before.starts_with(b"sha256 ") && before.len() == 72);
    // end
    Ok(())
}

#[test]
fn pages(rt: HostRuntime) -> Result<(), AllocError> {
    let alloc = rt.alloc();
    // bg_pages
    let mut response = Response::new(alloc);
    answer_page(&mut response, Page::Home)?;
    assert!(rt; response.status.as_u16() == 200);
    // end
    Ok(())
}

/// A store that makes no match and has none.
#[derive(Drop)]
struct NoStore {}

impl<'a> Store<ShelfKeeper<'a>> for NoStore {
    fn make(&mut self, _terms: Terms, _names: Names) -> Option<Made<ShelfKeeper<'a>>> {
        None
    }

    fn load(&self, _name: &str) -> Option<Record> {
        None
    }
}

/// A match that is found over a shelf.
fn found<'a>(rt: &(impl AllocGlobal + Abort), shelf: &'a Shelf) -> Found<ShelfKeeper<'a>> {
    let name = format!(in rt.alloc(); "table");
    Found {
        name: name.expect(rt, "memory for a name"),
        names: Names::none(),
        id: 7,
        terms: Terms {
            length: 1,
            rules: Rules::One,
        },
        seats: None,
        key: [3; 32],
        digest: None,
        keepers: shelf.keepers(),
        is_hidden: false,
        quiet_minutes: 0,
    }
}

#[test]
fn sites(rt: HostRuntime) -> io::Result<()> {
    let alloc = rt.alloc();
    let keys = RandomState::new(&rt)?;
    let store = NoStore {};
    let found = found(&rt, lasting_shelf(&rt));
    // bg_site
    let mut site = Site::new(alloc, store);
    let is_open = site.open(found);
    assert!(rt; is_open && site.len() == 1);
    // A connection of http_server calls the site for each request, and a Channel for each message
    // of a socket.
    let mut connection = Connection::new(alloc, keys, Config::default());
    connection.advance(&mut site);
    // end
    drop(connection);
    drop(site);
    Ok(())
}

#[test]
fn journals(rt: HostRuntime) -> Result<(), Error> {
    let alloc = rt.alloc();
    // bg_journal
    let mut journal = Journal::open(&rt, "journal.db")?;
    let name = String::from_str(alloc, "a/1")?;
    let text = b"one".to_vec(alloc)?;
    journal.write(&[Change::Put(FileText { name, text })])?;
    assert!(rt; journal.find("a/1")?.is_some() && journal.find("a")?.is_none());
    // end
    Ok(())
}

#[test]
fn stores(rt: HostRuntime) -> Result<(), AllocError> {
    let alloc = rt.alloc();
    // bg_stores
    // A folder counts as known up to the greatest revision that was noted of it.
    let mut known = Known::nothing(alloc);
    known.note("anna", 7)?;
    known.note("anna", 5)?;
    assert!(rt; known.of("anna") == 7 && known.of("otto") == 0);
    // The parts of a file's name: its folder, and its name there.
    assert!(rt; parts_of("anna/party-0.1") == Some(("anna", "party-0.1")));
    // end
    Ok(())
}

//! How players are called where others look on.
use crate::checks::check;
use crate::lasting::lasting_text;
use bg_console::{Called, Pairing, title_of};
use bg_system::{Name, Names};
use std::process::Abort;

/// The names of players, of which an empty one is none.
fn names_of(rt: &impl Abort, x: &str, o: &str) -> Names {
    Names {
        x: named(rt, x),
        o: named(rt, o),
    }
}

fn named(rt: &impl Abort, name: &str) -> Option<Name> {
    if name.is_empty() {
        return None;
    }
    Some(Name::new(name).expect(rt, "a name"))
}

/// What the players are called.
fn called_of<'a>(rt: &(impl AllocGlobal + Abort), names: &Names) -> &'a str {
    let called = format!(in rt.alloc(); "{}, {}", Called::x(names), Called::o(names));
    lasting_text(called.expect(rt, "memory"))
}

/// What both are called together; nothing where neither has a name.
fn pairing_of<'a>(rt: &(impl AllocGlobal + Abort), names: &Names) -> &'a str {
    match Pairing::of(names) {
        Some(found) => {
            let pairing = format!(in rt.alloc(); "{found}");
            lasting_text(pairing.expect(rt, "memory"))
        }
        None => "",
    }
}

/// What a player is called, and both, with and without names.
#[test]
fn players_are_called(rt: HostRuntime) {
    check_called(&rt);
}

/// The names of X and of O, what they are called, and both together.
const CALLED: &[(&str, &str, &str, &str)] = &[
    ("", "", "X, O", ""),
    ("Anna", "", "Anna (X), O", "Anna against O"),
    ("", "Otto", "X, Otto (O)", "X against Otto"),
    ("Anna", "Otto", "Anna (X), Otto (O)", "Anna against Otto"),
];

fn check_called(rt: &(impl AllocGlobal + Abort)) {
    for &(x, o, called, pairing) in CALLED {
        let names = names_of(rt, x, o);
        let found = called_of(rt, &names);
        check(rt, found == called, found);
        let found = pairing_of(rt, &names);
        check(rt, found == pairing, found);
    }
}

/// The title of a page of a match between these players.
fn title<'a>(
    rt: &impl Abort,
    host: &HostRuntime,
    given: Option<&str>,
    x: &str,
    o: &str,
) -> &'a str {
    lasting_text(title_of(host, given, &names_of(rt, x, o)).expect(rt, "memory"))
}

/// The title that is given counts, and then the names of both players.
#[test]
fn titles_of_pages(rt: HostRuntime) {
    check_titles(&rt, &rt);
}

/// The title that is given, the names of X and of O, and the title.
const TITLES: &[(Option<&str>, &str, &str, &str)] = &[
    (Some("T"), "Anna", "Otto", "T"),
    (Some(""), "Anna", "Otto", ""),
    (None, "Anna", "Otto", "Anna against Otto"),
    (None, "Anna", "", "Backgammon match"),
    (None, "", "Otto", "Backgammon match"),
    (None, "", "", "Backgammon match"),
];

fn check_titles(rt: &impl Abort, host: &HostRuntime) {
    for &(given, x, o, wanted) in TITLES {
        let title = title(rt, host, given, x, o);
        check(rt, title == wanted, title);
    }
}

//! What the rows of words ask of matches.
use super::{are, are_named, is};
use bg_board::Player;
use bg_match::{Rules, Terms};
use bg_options::{
    ActOptions, LoopOptions, NewOptions, PlayOptions, RefereeOptions, Request, ScriptOptions,
    SeatOptions, SimOptions, WatchOptions,
};

/// Whether the words of this row ask for this.
pub(crate) fn is_asked(row: usize, request: &Request<'_, '_>) -> bool {
    match request {
        Request::Script(script) => row == 11 && is_script(script),
        Request::Sim(sim) => row == 12 && is_sim(sim),
        Request::Loop(played) => row == 13 && is_loop(played),
        Request::New(new) => is_new(row, new),
        Request::Referee(referee) => is_referee(row, referee),
        Request::Play(play) => is_play(row, play),
        Request::Act(act) => row == 17 && is_act(act),
        Request::Auto(seat) => row == 18 && is_seat(seat, Player::O),
        Request::Watch(watch) => is_watch(row, watch),
        _ => false,
    }
}

fn is_script(script: &ScriptOptions) -> bool {
    let terms = Terms {
        length: 99,
        rules: Rules::Two,
    };
    script.terms == terms && script.watchers == 253
}

fn is_sim(sim: &SimOptions) -> bool {
    let terms = Terms {
        length: 3,
        rules: Rules::One,
    };
    sim.seed == u64::MAX && sim.terms == terms && sim.watchers == 2 && sim.steps == 9
}

fn is_loop(played: &LoopOptions<'_>) -> bool {
    let terms = Terms {
        length: 1,
        rules: Rules::Two,
    };
    played.seed == 0 && played.terms == terms && played.rounds == 1_000_000 && played.folder == "d"
}

fn is_new(row: usize, new: &NewOptions<'_>) -> bool {
    let terms = Terms {
        length: 5,
        rules: Rules::One,
    };
    match row {
        14 => {
            new.terms == terms
                && new.port == 65280
                && new.folder == "d"
                && new.name_x.is_none()
                && new.name_o.is_none()
        }
        27 => {
            new.port == 1024
                && new.folder == "d"
                && is(new.name_x, "Anna \u{d6}")
                && is(new.name_o, "Otto")
                && are_named(new.names(), "Anna \u{d6}", "Otto")
        }
        _ => false,
    }
}

fn is_referee(row: usize, referee: &RefereeOptions<'_>) -> bool {
    match row {
        15 => referee.folder == "d" && !referee.is_quiet,
        24 => referee.folder == "d" && referee.is_quiet,
        _ => false,
    }
}

fn is_seat(seat: &SeatOptions<'_>, player: Player) -> bool {
    seat.player == Some(player) && seat.match_path == "m" && seat.folder == "d"
}

fn is_play(row: usize, play: &PlayOptions<'_>) -> bool {
    match row {
        16 => is_seat(&play.seat, Player::X) && play.columns.is_none() && !play.plays_forced,
        26 => is_seat(&play.seat, Player::O) && play.columns == Some(60) && play.plays_forced,
        _ => false,
    }
}

fn is_act(act: &ActOptions<'_, '_>) -> bool {
    is_seat(&act.seat, Player::O)
        && are(act.words, "move|8-5")
        && act.entry == Some(3)
        && act.seconds == 7
}

fn is_watch(row: usize, watch: &WatchOptions<'_>) -> bool {
    match row {
        19 => {
            watch.match_path == "m"
                && is(watch.board, "b")
                && is(watch.transcript, "t")
                && is(watch.page, "p")
                && watch.goes_on
                && !watch.is_plain
                && !watch.is_quiet
        }
        25 => !watch.goes_on && watch.is_plain && watch.is_quiet,
        _ => false,
    }
}

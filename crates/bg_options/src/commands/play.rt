//! The options and help of the command of a person who plays at a terminal.

use crate::arguments::{Argument, Description, Kind, Need};
use crate::requests::Request;
use crate::shared::{FOLDER, PLAYER, SEAT_KEY, THREE_TERMINALS, number_in, player_in};
use bg_board::Player;
use clap::ArgMatches;

/// The help on `play`.
pub(crate) const ABOUT_PLAY: &str = "Play a match at this terminal, until it is over or you quit.

Draws the board when it is your turn, and reads the lines that you type; type `help` for a list.
Your actions are saved in DIR, a folder for this player alone, which is made if it is missing.
After a restart the same command continues where you were. Colours are used at a terminal, unless
NO_COLOR is set or TERM is dumb.

Exit status: 0 for success; 1 if the port is taken, another process uses DIR, its files are
damaged or of another match, or reading, writing or memory failed; 2 if the match file is invalid,
or DIR is not a folder, belongs to the other player or can't be written to.";

/// The least and the greatest number of columns that a screen may be given.
const FEWEST_COLUMNS: u32 = 20;

const MOST_COLUMNS: u32 = 400;

/// A seat: its player, its key file, and the folder of its claims.
#[derive(Clone, Copy)]
pub struct SeatOptions<'a> {
    /// The player, if one is named; else the key file tells who it is.
    pub player: Option<Player>,
    /// The path of the player's key file.
    pub match_path: &'a str,
    pub folder: &'a str,
}

impl<'a> SeatOptions<'a> {
    pub(crate) fn read(options: &ArgMatches<'a>) -> Option<SeatOptions<'a>> {
        Some(SeatOptions {
            player: player_in(options, "player"),
            match_path: options.get_str("match")?,
            folder: options.get_str("dir")?,
        })
    }
}

/// A person's seat, and their wishes for the screen.
#[derive(Clone, Copy)]
pub struct PlayOptions<'a> {
    pub seat: SeatOptions<'a>,
    /// Number of columns of the screen, from 20 to 400, if it is given.
    pub columns: Option<u32>,
    /// Whether a turn that is the only legal one is played at once.
    pub plays_forced: bool,
}

/// Returns the request that these options make, if none that it needs is missing.
pub(crate) fn request<'m, 'a>(options: &'m ArgMatches<'a>) -> Option<Request<'m, 'a>> {
    Some(Request::Play(PlayOptions {
        seat: SeatOptions::read(options)?,
        columns: number_in(options, "columns"),
        plays_forced: options.get_flag("forced"),
    }))
}

const COLUMNS: Argument = Argument {
    name: "columns",
    kind: Kind::Number("N", FEWEST_COLUMNS, MOST_COLUMNS),
    need: Need::Optional,
    about: "The width of the screen, 20 to 400; without it the variable COLUMNS, or else 80",
};

const FORCED: Argument = Argument {
    name: "forced",
    kind: Kind::Flag,
    need: Need::Optional,
    about: "Play a turn at once if it is the only legal one",
};

/// The command with its options and help.
pub(crate) static COMMAND: Description = Description {
    name: "play",
    about: "Play a match at this terminal",
    after_help: Some(THREE_TERMINALS),
    arguments: &[PLAYER, SEAT_KEY, FOLDER, COLUMNS, FORCED],
};

//! The options and help of the command that draws the standing of a match.

use crate::arguments::Description;
use crate::headers::{DATE, EVENT, HeaderOptions, PLACE};
use crate::requests::Request;
use crate::shared::{MISPLACED_FILE, NAME_O, NAME_X, NUMBERING, numbering_in};
use bg_picture::Numbering;
use clap::ArgMatches;

/// The help on `picture`, with an example.
pub(crate) const ABOUT_PICTURE: &str =
    "Draw the last position of the transcript on standard input, as an SVG file.

    $ bg_relay picture < transcript.txt > board.svg
    $ head -n 10 transcript.txt | bg_relay picture > after-9-entries.svg

The picture shows the points and their numbers, the checkers, the cube, the dice, the score and
what comes next. Below are the names of the players, the event, the place and the date, as far as
--name-x, --name-o, --event, --place and --date give them. A refused transcript is reported on
standard error as by `check`, and nothing is printed.

Exit status: 0 for success, 2 if the transcript is refused, 1 if reading, writing or memory
failed.";

/// The options of `picture`.
#[derive(Clone, Copy)]
pub struct PictureOptions<'a> {
    /// What stands below the picture.
    pub headers: HeaderOptions<'a>,
    /// The numbering of the points.
    pub numbering: Numbering,
}

/// Returns the request that these options make.
pub(crate) fn request<'m, 'a>(options: &'m ArgMatches<'a>) -> Request<'m, 'a> {
    Request::Picture(PictureOptions {
        headers: HeaderOptions::read(options, "name-x", "name-o"),
        numbering: numbering_in(options),
    })
}

/// The command with its options and help.
pub(crate) static COMMAND: Description = Description {
    name: "picture",
    about: "Draw the last position of a transcript",
    after_help: None,
    arguments: &[
        NAME_X,
        NAME_O,
        DATE,
        EVENT,
        PLACE,
        NUMBERING,
        MISPLACED_FILE,
    ],
};

//! The command of a person who plays at a terminal.

mod answers;
mod choosing;
mod help;
mod joining;
mod kept_choices;
mod moves;
mod opponents;
mod players;
mod screens;
mod showing;
mod single_dice;
mod slips;
mod turn_lists;
mod turn_words;
mod unanswered;
mod undoing;
mod wishes;

use crate::play::joining::Joining;
use crate::play::screens::Screen;
use crate::play::unanswered::Unanswered;
use crate::play::wishes::{Wish, wish_of};
use crate::seats::Seat;
use crate::typed_lines::TypedLines;
use bg_board::Player;
use bg_command_parts::Audience;
use bg_console::{Terminal, allocated, unread};
use bg_match::{Action, Level, Number, Standing};
use bg_options::PlayOptions;
use bg_processes::{Failures, Going, Opponent};
use bg_reports::Ending;
use bg_typed::typed_steps;
use std::io::Read;

/// Number of typed lines that are obeyed between two rounds, at most.
const MOST_LINES: u32 = 64;

/// The message to a player who leaves.
const GOES_ON: &[u8] = b"you left the table: the match goes on by the same command";

/// The question to a player who resigns.
const WHICH_LEVEL: &[u8] =
    b"at which level do you resign? Type `normal`, `gammon` or `backgammon`, or Enter alone to play on";

/// Lets a person play for the player that the options name, at this terminal if there is one.
pub fn run(
    rt: &HostRuntime,
    options: PlayOptions<'_>,
    terminal: Option<Terminal>,
) -> Result<Ending, Ending> {
    let failures = Failures::new();
    let seat = Seat::open(rt, &failures, options.seat, true, Audience::Nobody)?;
    let mut table = Table {
        rt,
        player: seat.player,
        screen: Screen::new(rt, options.columns, terminal),
        seat,
        lines: TypedLines::new(rt.alloc()),
        plays_forced: options.plays_forced,
        joining: Joining::Waiting(0),
        caught_up: 0,
        still: 0,
        foreign: None,
        shown: 0,
        stood: None,
        typed: Vec::new(rt.alloc()),
        listed: 0,
        asks_level: false,
        is_silent: false,
        unanswered: Unanswered::default(),
        opponent: Opponent::new(),
    };
    table.play(&mut rt.reader())
}

/// A person's seat, what they have typed, and what they have been shown.
#[derive(Drop)]
struct Table<'a> {
    rt: &'a HostRuntime,
    player: Player,
    screen: Screen<'a>,
    seat: Seat<'a>,
    /// What was typed and is not obeyed yet.
    lines: TypedLines,
    /// Whether a turn that is the only one is played at once.
    plays_forced: bool,
    /// How far the player has come to the table.
    joining: Joining,
    /// Number of entries that the seat held at the last tick.
    caught_up: Number,
    /// Number of ticks without an entry since the referee was heard.
    still: u32,
    /// The first entry in the player's name that this seat never claimed, where it came before the
    /// player had joined.
    foreign: Option<Number>,
    /// Number of entries that were printed.
    shown: Number,
    /// The standing of the match when they were.
    stood: Option<Standing>,
    /// The part of a turn that was typed so far.
    typed: Vec<u8>,
    /// Number of lines of the legal turns that were printed.
    listed: usize,
    /// Whether the player was asked at which level they resign.
    asks_level: bool,
    /// Whether nothing is heard of the referee.
    is_silent: bool,
    /// The report on a choice that the referee doesn't answer.
    unanswered: Unanswered,
    /// The reports on the other player's coming and going.
    opponent: Opponent,
}

impl<'a> Table<'a> {
    /// Plays until the match is over, or the player leaves. What they type comes from this reader.
    fn play(&mut self, reader: &mut impl Read) -> Result<Ending, Ending> {
        for _ in 0..u64::MAX {
            let round = self.seat.next_round()?;
            self.join(round)?;
            self.show_round(round)?;
            if round.going == Going::Over {
                return Ok(Ending::Served);
            }
            let is_open = !round.input || self.hear(reader)?;
            if is_open && !self.is_seated() {
                continue;
            }
            self.sit_down()?;
            if self.obey_all()? || !is_open {
                self.seat.save_now()?;
                self.screen.say(GOES_ON)?;
                return Ok(Ending::Served);
            }
        }
        Ok(Ending::Failed)
    }

    /// Reads what was typed. Returns whether more may come.
    fn hear(&mut self, reader: &mut impl Read) -> Result<bool, Ending> {
        let mut buffer = [0; 256];
        match reader.read(&mut buffer) {
            Ok(0) => Ok(false),
            Ok(count) => {
                allocated(self.rt, self.lines.push(&buffer[..count]))?;
                Ok(true)
            }
            Err(error) => Err(unread(self.rt, &error)),
        }
    }

    /// Obeys the lines that were typed. Returns whether one of them ends the game.
    fn obey_all(&mut self) -> Result<bool, Ending> {
        for _ in 0..MOST_LINES {
            let Some(line) = allocated(self.rt, self.lines.next(self.rt.alloc()))? else {
                return Ok(false);
            };
            if self.obey(&line)? {
                return Ok(true);
            }
        }
        Ok(false)
    }

    /// Obeys a typed line. Returns whether it ends the game.
    fn obey(&mut self, line: &[u8]) -> Result<bool, Ending> {
        let wish = allocated(self.rt, wish_of(self.rt.alloc(), line, self.asks_level))?;
        let is_asked = self.asks_level;
        self.asks_level = false;
        let obeyed = match wish {
            Wish::Quit => return Ok(true),
            Wish::Nothing | Wish::Board => self.look_at_table(),
            Wish::Help => self.help(),
            Wish::Legal => self.list_turns(0),
            Wish::More => self.list_turns(self.listed),
            Wish::Undo => self.undo(),
            Wish::Resign => self.resign(),
            Wish::Act(choice) => self.choose(choice.action()),
            Wish::Move if is_asked && typed_steps(self.rt.alloc(), line).is_err() => {
                self.ask_level()
            }
            Wish::Move => self.move_by(line),
        };
        obeyed?;
        Ok(false)
    }

    /// Asks at which level the player resigns, or refuses at once where they may not.
    fn resign(&mut self) -> Result<(), Ending> {
        if self.may_resign() {
            self.ask_level()
        } else {
            // At any level, as it is refused at each.
            self.choose(Action::Resign(Level::Normal))
        }
    }

    /// Asks at which level the player resigns.
    fn ask_level(&mut self) -> Result<(), Ending> {
        self.asks_level = true;
        self.screen.say(WHICH_LEVEL)
    }
}

//! The board of a match that is watched at a terminal.

use crate::watch::screens::{put_in_place, put_screen};
use bg_auto::{Observer, party_at};
use bg_command_parts::{GameResult, Results, Silence, is_out_of_step};
use bg_console::{Called, Pairing, Terminal, broken, say, write_out, written};
use bg_match::{Number, Phase, Record};
use bg_processes::{Failures, LivenessChange, NamedMatch};
use bg_reports::Ending;
use bg_world::{Event, Outcome, outcome_text};
use std::alloc::{AllocError, Global};
use std::fmt::{Display, Formatter, Write};
use std::{fmt, io};

/// The message where parties can't go on together.
const APART: &str = "the folders of the parties are from different points in time";

/// The message where a file that is kept for others can't be written.
const UNWRITTEN: &str = "a file that is kept can't be written: `--plain` says which, and why";

/// Whether the referee is heard.
#[derive(Clone, Copy, PartialEq, Eq)]
enum Referee {
    /// Nothing has been heard yet, for less than three seconds.
    Awaited,
    Heard,
    Silent(Silence),
}

impl Display for Referee {
    fn fmt<W: Write>(&self, f: &mut Formatter<W>) -> fmt::Result {
        match self {
            Referee::Awaited => f.write_str("waiting for the referee"),
            Referee::Heard => f.write_str("the referee is heard"),
            Referee::Silent(why) => write!(f, "{}: {why}", LivenessChange::Silent),
        }
    }
}

/// The board of a match on a terminal, with the newest entries below it, which is redrawn when
/// something changes. Errors are shown in a line of it, so that nothing tears the screen.
#[derive(Drop)]
pub(super) struct LiveBoard<'a> {
    rt: &'a HostRuntime,
    terminal: Terminal,
    failures: &'a Failures,
    /// Whether the standard error is another place than the terminal, so that errors are printed
    /// there too.
    says_too: bool,
    /// The match and its players, as the key file has them.
    file: NamedMatch,
    referee: Referee,
    results: Results,
    /// The result of the game before, and the number of the entry that ended it.
    result: Option<(GameResult, Number)>,
    /// The error since the last news, if there was one.
    trouble: Option<String>,
    /// Whether a file that is kept for others can't be written.
    is_unwritten: bool,
    /// Number of entries that were drawn.
    shown: Number,
    /// Whether there is something that was not drawn.
    is_old: bool,
}

impl<'a> LiveBoard<'a> {
    /// Creates the board of this record on a terminal, where nothing is drawn yet. Devices note
    /// their failures in `failures`, and `file` is the contents of the key file.
    pub(super) fn new(
        rt: &'a HostRuntime,
        terminal: Terminal,
        failures: &'a Failures,
        says_too: bool,
        file: NamedMatch,
        record: &Record,
    ) -> LiveBoard<'a> {
        LiveBoard {
            rt,
            terminal,
            failures,
            says_too,
            file,
            referee: Referee::Awaited,
            results: Results::of(record),
            result: None,
            trouble: None,
            is_unwritten: false,
            shown: 0,
            is_old: true,
        }
    }

    /// Redraws the board where something has changed. It is called after each round, with the
    /// change in the referee's liveness, and whether anything was ever heard of it. Returns whether
    /// there were new entries.
    pub(super) fn go_on(
        &mut self,
        record: &Record,
        word: Option<LivenessChange>,
        is_heard: bool,
    ) -> Result<bool, Ending> {
        self.note_referee(word, is_heard);
        self.note_results(record);
        let is_news = record.len() > self.shown;
        if is_news {
            self.trouble = None;
        }
        if is_news || self.is_old {
            written(self.rt, self.draw(record))?;
            self.shown = self.shown.max(record.len());
            self.is_old = false;
        }
        Ok(is_news)
    }

    /// Keeps the result of the last game that has ended.
    fn note_results(&mut self, record: &Record) {
        for _ in 0..record.len() {
            match self.results.next(record, &self.file.names) {
                Some(result) => self.result = Some((result, self.results.followed())),
                None => return,
            }
        }
    }

    fn note_referee(&mut self, word: Option<LivenessChange>, is_heard: bool) {
        let referee = match (word, self.referee) {
            (Some(LivenessChange::Silent), _) => Referee::Silent(Silence::of(
                self.rt,
                &self.file.table,
            )),
            (Some(LivenessChange::HeardAgain), _) => Referee::Heard,
            (None, Referee::Awaited) if is_heard => Referee::Heard,
            (None, referee) => referee,
        };
        self.is_old = self.is_old || referee != self.referee;
        self.referee = referee;
    }

    fn draw(&self, record: &Record) -> io::Result<()> {
        let alloc = self.rt.alloc();
        let mut foot = String::new(alloc);
        self.put_foot(&mut foot, record)?;
        let foot = broken(alloc, foot.as_bytes(), self.terminal.columns)?;
        let heading = self.heading(alloc)?;
        let mut text = Vec::new(alloc);
        put_screen(&mut text, record, &heading, &foot, self.terminal)?;
        let mut out = Vec::new(alloc);
        put_in_place(&mut out, &text, self.terminal)?;
        write_out(self.rt, &out)
    }

    /// Returns the line above the board: who plays, where a player has a name.
    fn heading(&self, alloc: Global) -> io::Result<Vec<u8>> {
        let names = &self.file.names;
        if Pairing::of(names).is_none() {
            return Ok(Vec::new(alloc));
        }
        let (x, o) = (Called::x(names), Called::o(names));
        let line = format!(in alloc; "{x} against {o}")?;
        Ok(broken(alloc, line.as_bytes(), self.terminal.columns)?)
    }

    /// Appends the lines below the entries to a text: the result of the game before until a player
    /// acts in the next one, and whether the referee is heard. At the end of the match they give its
    /// result.
    fn put_foot(&self, foot: &mut String, record: &Record) -> Result<(), AllocError> {
        let opened = record.len().saturating_sub(1);
        if let Some((result, end)) = &self.result {
            if opened <= *end {
                add_line(foot, *result)?;
                if let Some(result) = result.of_match() {
                    add_line(foot, result)?;
                }
            }
        }
        if let Some(trouble) = &self.trouble {
            add_line(foot, trouble.as_str())?;
        }
        if self.is_unwritten {
            add_line(foot, UNWRITTEN)?;
        }
        if let Phase::Over(_) = record.standing().phase() {
            return Ok(());
        }
        add_line(foot, self.referee)
    }

    /// Keeps an error for the screen, and prints it where the standard error is another place.
    fn note_trouble(&mut self, words: Result<String, AllocError>) {
        let Ok(words) = words else {
            return;
        };
        if self.trouble.as_ref() == Some(&words) {
            return;
        }
        if self.says_too {
            say(self.rt, words.as_str());
        }
        self.trouble = Some(words);
        self.is_old = true;
    }

    /// Notes whether a file that is kept for others can't be written. Its name was reported on the
    /// standard error.
    pub(super) fn note_files(&mut self, is_unwritten: bool) {
        self.is_old = self.is_old || is_unwritten != self.is_unwritten;
        self.is_unwritten = is_unwritten;
    }
}

/// Appends a line to a text.
fn add_line<D: Display + Drop>(text: &mut String, line: D) -> Result<(), AllocError> {
    *text = format!(in *text.allocator(); "{text}{line}\n")?;
    Ok(())
}

impl<'a> Observer for LiveBoard<'a> {
    fn happened(&mut self, event: &Event, outcome: &Outcome, _held: Option<Number>) {
        let alloc = self.rt.alloc();
        for failure in self.failures.drain() {
            self.note_trouble(format!(in alloc; "{}", failure.in_folder("")));
        }
        if is_out_of_step(outcome) {
            let (party, line) = (party_at(event), outcome_text(outcome));
            let words = format!(in alloc; "{APART}: at party {party}: {}", line.as_str());
            self.note_trouble(words);
        }
    }

    fn played(&mut self, _done: u32) {}
}

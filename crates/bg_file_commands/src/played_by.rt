//! The commands by which a new match is played, as a shell reads them.

use crate::texts::put_texts;
use bg_console::{allocated, print_text, without_slashes};
use bg_reports::Ending;
use bg_system::name_of_key_file;
use bg_text::put_text;
use bg_wire::{FIRST_WATCHER, SEAT_OF_O, SEAT_OF_X};
use std::alloc::{AllocError, Global};
use std::fmt;
use std::fmt::{Display, Formatter, Write};
use unicode_width::UnicodeWidthStr;

/// Number of columns of a line, at most, where a command has room for it.
const COLUMNS: usize = 80;

/// What is put before a command, and between its parts where they are on lines of their own.
const INDENT: &str = "    ";

const BROKEN: &str = " \\\n        ";

/// What is between the parts of a command that is not laid out yet. No name that a shell reads has
/// it, since it can't be printed.
const BETWEEN: char = '\t';

/// Prints the commands by which the match in a folder is played by a program that is called by this
/// name. Each seat has a folder beside it.
pub(crate) fn tell_commands(rt: &HostRuntime, called: &str, folder: &str) -> Result<(), Ending> {
    let text = allocated(rt, commands_text(rt.alloc(), called, folder))?;
    print_text(rt, &text)
}

/// Returns the text of the commands.
fn commands_text(alloc: Global, called: &str, folder: &str) -> Result<Vec<u8>, AllocError> {
    let commands = plain_commands(alloc, called, folder)?;
    let mut text = Vec::new(alloc);
    put_commands(&mut text, commands.as_str())?;
    Ok(text)
}

/// Returns the commands of the referee, of both seats and of a watcher, a line for each.
fn plain_commands(alloc: Global, called: &str, folder: &str) -> Result<String, AllocError> {
    let (x, o) = (name_of_key_file(SEAT_OF_X), name_of_key_file(SEAT_OF_O));
    let watchers = name_of_key_file(FIRST_WATCHER);
    let joint = joint_of(folder);
    let (called, folder) = (ShellWord(called), ShellWord(without_slashes(folder)));
    format!(in alloc;
        "{called} referee\t--dir {folder}\n\
        {called} play --match {folder}/{x}\t--dir {folder}{joint}x\n\
        {called} play --match {folder}/{o}\t--dir {folder}{joint}o\n\
        {called} watch\t--match {folder}/{watchers}\n"
    )
}

/// Appends these commands, laid out, below their heading.
fn put_commands(text: &mut Vec<u8>, commands: &str) -> Result<(), AllocError> {
    put_text(text, "then run, each in a terminal of its own:\n")?;
    for command in commands.lines() {
        if let Some((front, back)) = command.split_once(BETWEEN) {
            put_command(text, front, back)?;
        }
    }
    Ok(())
}

/// Returns what stands between the name of a match's folder and the letter of a seat in the name of
/// the seat's folder. This is beside the match's folder, or in it where that is named by dots.
fn joint_of(folder: &str) -> &'static str {
    if without_slashes(folder).ends_with('.') {
        "/"
    } else {
        "-"
    }
}

/// Appends a command of two parts, on two lines where it has no room on one.
fn put_command(text: &mut Vec<u8>, front: &str, back: &str) -> Result<(), AllocError> {
    let columns = INDENT
        .len()
        .saturating_add(1)
        .saturating_add(front.width())
        .saturating_add(back.width());
    let between = if columns <= COLUMNS { " " } else { BROKEN };
    put_texts(text, &[INDENT, front, between, back, "\n"])
}

/// A name as a shell reads it, between quotes where it needs some. A character that can't be
/// printed is escaped, and then no shell reads it.
#[derive(Clone, Copy)]
struct ShellWord<'a>(&'a str);

impl<'a> Display for ShellWord<'a> {
    fn fmt<W: Write>(&self, f: &mut Formatter<W>) -> fmt::Result {
        if self.0.chars().all(is_plain) {
            return f.write_str(self.0);
        }
        f.write_str("'")?;
        for letter in self.0.chars() {
            match letter {
                '\'' => f.write_str("'\\''"),
                '"' | '\\' => f.write_char(letter),
                _ => write!(f, "{}", letter.escape_debug()),
            }?;
        }
        f.write_str("'")
    }
}

/// Returns whether a character means itself to a shell.
fn is_plain(letter: char) -> bool {
    letter.is_ascii_alphanumeric() || matches!(letter, '/' | '.' | '-' | '_' | '+' | ':' | ',')
}

//! The tasks of the program.

use crate::arguments::Description;
use crate::commands::{
    act, auto, board, check, dice, export, id, import, judge, keys, list, manage, new_match, page,
    picture, play, play_loop, recover, referee, script, serve, show, sim, watch,
};
use clap::{Command, Error};
use std::alloc::{AllocError, Global};

/// The version that `--version` prints.
const VERSION: &str = "0.1.0";

/// The task of a command of the program.
#[derive(Clone, Copy)]
pub enum Task {
    Judge,
    Check,
    Import,
    Export,
    Show,
    List,
    Board,
    Page,
    Picture,
    Id,
    Dice,
    Script,
    Sim,
    Loop,
    New,
    Keys,
    Recover,
    Referee,
    Play,
    Act,
    Auto,
    Watch,
    Serve,
    Manage,
}

/// The commands by their names, in the order in which help lists them.
pub const TASKS: [(&str, Task); 24] = [
    ("judge", Task::Judge),
    ("check", Task::Check),
    ("import", Task::Import),
    ("export", Task::Export),
    ("show", Task::Show),
    ("list", Task::List),
    ("board", Task::Board),
    ("page", Task::Page),
    ("picture", Task::Picture),
    ("id", Task::Id),
    ("dice", Task::Dice),
    ("script", Task::Script),
    ("sim", Task::Sim),
    ("loop", Task::Loop),
    ("new", Task::New),
    ("keys", Task::Keys),
    ("recover", Task::Recover),
    ("referee", Task::Referee),
    ("play", Task::Play),
    ("act", Task::Act),
    ("auto", Task::Auto),
    ("watch", Task::Watch),
    ("serve", Task::Serve),
    ("manage", Task::Manage),
];

impl Task {
    /// Returns the task of the command with this name, if there is one.
    pub fn named(name: &str) -> Option<Task> {
        for (other, task) in &TASKS {
            if *other == name {
                return Some(*task);
            }
        }
        None
    }

    /// Returns the options of the command whose text is the name of a player, or stands above a
    /// match and is as clean as a name.
    pub(crate) fn names(self) -> &'static [&'static str] {
        match self {
            Task::New => &["name-x", "name-o"],
            Task::Page | Task::Picture => &["name-x", "name-o", "date", "event", "place"],
            Task::Export => &["x", "o", "date", "event", "place"],
            _ => &[],
        }
    }

    /// Returns the command with the options that it needs, if it reads the standard input alone.
    pub(crate) fn reading(self) -> Option<&'static str> {
        match self {
            Task::Judge => Some("judge"),
            Task::Import => Some("import"),
            Task::Export => Some("export"),
            Task::Page => Some("page"),
            Task::Picture => Some("picture"),
            Task::Id => Some("id"),
            Task::Dice => Some("dice --secret FILE"),
            Task::Script => Some("script --length N --watchers N"),
            _ => None,
        }
    }

    /// Returns the command with its options, and the help on it.
    fn description(self) -> (&'static Description, &'static str) {
        match self {
            Task::Judge => (&judge::COMMAND, judge::ABOUT_JUDGE),
            Task::Check => (&check::COMMAND, check::ABOUT_CHECK),
            Task::Import => (&import::COMMAND, import::ABOUT_IMPORT),
            Task::Export => (&export::COMMAND, export::ABOUT_EXPORT),
            Task::Show => (&show::COMMAND, show::ABOUT_SHOW),
            Task::List => (&list::COMMAND, list::ABOUT_LIST),
            Task::Board => (&board::COMMAND, board::ABOUT_BOARD),
            Task::Page => (&page::COMMAND, page::ABOUT_PAGE),
            Task::Picture => (&picture::COMMAND, picture::ABOUT_PICTURE),
            Task::Id => (&id::COMMAND, id::ABOUT_ID),
            Task::Dice => (&dice::COMMAND, dice::ABOUT_DICE),
            Task::Script => (&script::COMMAND, script::ABOUT_SCRIPT),
            Task::Sim => (&sim::COMMAND, sim::ABOUT_SIM),
            Task::Loop => (&play_loop::COMMAND, play_loop::ABOUT_LOOP),
            Task::New => (&new_match::COMMAND, new_match::ABOUT_NEW),
            Task::Keys => (&keys::COMMAND, keys::ABOUT_KEYS),
            Task::Recover => (&recover::COMMAND, recover::ABOUT_RECOVER),
            Task::Referee => (&referee::COMMAND, referee::ABOUT_REFEREE),
            Task::Play => (&play::COMMAND, play::ABOUT_PLAY),
            Task::Act => (&act::COMMAND, act::ABOUT_ACT),
            Task::Auto => (&auto::COMMAND, auto::ABOUT_AUTO),
            Task::Watch => (&watch::COMMAND, watch::ABOUT_WATCH),
            Task::Serve => (&serve::COMMAND, serve::ABOUT_SERVE),
            Task::Manage => (&manage::COMMAND, manage::ABOUT_MANAGE),
        }
    }
}

/// Returns the command line of the program, with its help. Where the first argument names a
/// command, it has that command alone. The others don't matter then, and building all of them takes
/// longer than most commands run.
///
/// # Errors
/// An error where there is no memory.
pub fn command_line<'a>(alloc: Global, first: Option<&str>) -> Result<Command<'a>, Error> {
    let mut program = without_commands(alloc);
    if let Some(task) = first.and_then(Task::named) {
        return Ok(with_task(alloc, program, task)?);
    }
    for (_, task) in &TASKS {
        program = with_task(alloc, program, *task)?;
    }
    Ok(program)
}

/// Returns the command line with its help, and no commands yet.
fn without_commands<'a>(alloc: Global) -> Command<'a> {
    Command::new(alloc, "bg_relay")
        .about("A backgammon match relay, proved")
        .version(VERSION)
        .subcommand_required(true)
        .arg_required_else_help(true)
}

/// Returns the command line with one more command.
fn with_task<'a>(
    alloc: Global,
    program: Command<'a>,
    task: Task,
) -> Result<Command<'a>, AllocError> {
    let (description, help) = task.description();
    program.subcommand(description.command(alloc, help)?)
}

//! The request that arguments make.

use crate::commands::act::ActOptions;
use crate::commands::board::BoardOptions;
use crate::commands::check::CheckOptions;
use crate::commands::export::ExportOptions;
use crate::commands::import::ImportOptions;
use crate::commands::list::ListOptions;
use crate::commands::manage::ManageOptions;
use crate::commands::new_match::NewOptions;
use crate::commands::page::PageOptions;
use crate::commands::picture::PictureOptions;
use crate::commands::play::{PlayOptions, SeatOptions};
use crate::commands::play_loop::LoopOptions;
use crate::commands::recover::RecoverOptions;
use crate::commands::referee::RefereeOptions;
use crate::commands::script::ScriptOptions;
use crate::commands::serve::ServeOptions;
use crate::commands::show::ShowOptions;
use crate::commands::sim::SimOptions;
use crate::commands::watch::WatchOptions;
use crate::commands::{
    act, board, check, export, import, list, manage, new_match, page, picture, play, play_loop,
    recover, referee, script, serve, show, sim, watch,
};
use crate::shared::check_names;
use crate::tasks::Task;
use bg_system::NameFault;
use clap::ArgMatches;
use std::fmt;
use std::fmt::{Display, Formatter, Write};

/// A command with its options, which borrow from the arguments and from the result of parsing them.
#[derive(Clone, Copy)]
pub enum Request<'m, 'a> {
    Judge,
    Check(CheckOptions<'m, 'a>),
    Import(ImportOptions<'m, 'a>),
    Export(ExportOptions<'m, 'a>),
    Show(ShowOptions<'a>),
    List(ListOptions<'m, 'a>),
    Board(BoardOptions<'m, 'a>),
    Page(PageOptions<'a>),
    Picture(PictureOptions<'a>),
    Id,
    Dice { secret: &'a str },
    Script(ScriptOptions),
    Sim(SimOptions),
    Loop(LoopOptions<'a>),
    New(NewOptions<'a>),
    Keys { folder: &'a str },
    Recover(RecoverOptions<'m, 'a>),
    Referee(RefereeOptions<'a>),
    Play(PlayOptions<'a>),
    Act(ActOptions<'m, 'a>),
    Auto(SeatOptions<'a>),
    Watch(WatchOptions<'a>),
    Serve(ServeOptions<'a>),
    Manage(ManageOptions<'a>),
}

/// The reason why options make no request.
#[derive(Clone, Copy, Debug, PartialEq, Eq)]
pub enum RequestFault {
    /// A file is named to a command that reads the standard input. Holds the command with the
    /// options that it needs.
    MisplacedFile(&'static str),
    /// A folder is named for files, and none of these.
    NoFiles,
    /// A file for the headers of one match is named with files that are converted into a folder.
    HeadersOfMany,
    /// A player's name is not valid. Holds the option and the reason.
    Name(&'static str, NameFault),
    /// An option is missing. The parser of the command line lets no needed option be missing.
    Missing,
}

impl Display for RequestFault {
    fn fmt<W: Write>(&self, f: &mut Formatter<W>) -> fmt::Result {
        match self {
            RequestFault::MisplacedFile(command) => {
                write!(
                    f,
                    "this command reads the standard input: bg_relay {command} < FILE"
                )
            }
            RequestFault::NoFiles => f.write_str(
                "--out needs the files to convert: --out DIR FILE..",
            ),
            RequestFault::HeadersOfMany => {
                f.write_str("--headers is for one match file: with --out use --with-headers")
            }
            RequestFault::Name(option, why) => write!(f, "--{option} is refused: {why}"),
            RequestFault::Missing => f.write_str("an option is missing"),
        }
    }
}

impl<'m, 'a> Request<'m, 'a> {
    /// Reads the request from parsed arguments.
    ///
    /// # Errors
    /// `MisplacedFile` where a file is named to a command that reads the standard input. `NoFiles`
    /// and `HeadersOfMany` where the options for files and a folder don't fit. `Name` where a
    /// player's name, or another text above a match, is not valid. `Missing` where there is no
    /// command, or it lacks an option.
    pub fn read(matches: &'m ArgMatches<'a>) -> Result<Request<'m, 'a>, RequestFault> {
        let Some((name, options)) = matches.subcommand() else {
            return Err(RequestFault::Missing);
        };
        let Some(task) = Task::named(name) else {
            return Err(RequestFault::Missing);
        };
        check_options(task, options)?;
        of_task(task, options).ok_or(RequestFault::Missing)
    }
}

/// Refuses a file that is named to a command that reads the standard input, options for files and a
/// folder that don't fit, and texts that are not valid names.
fn check_options(task: Task, options: &ArgMatches<'_>) -> Result<(), RequestFault> {
    if let Some(command) = task.reading() {
        if options.contains_id("out") {
            check_batch(options)?;
        } else if options.contains_id("FILE") {
            return Err(RequestFault::MisplacedFile(command));
        }
    }
    check_names(options, task.names())
}

/// Refuses a folder for files where none is named, and headers of many files.
fn check_batch(options: &ArgMatches<'_>) -> Result<(), RequestFault> {
    if !options.contains_id("FILE") {
        return Err(RequestFault::NoFiles);
    }
    if options.contains_id("headers") {
        return Err(RequestFault::HeadersOfMany);
    }
    Ok(())
}

/// Returns the request for a task with these options.
fn of_task<'m, 'a>(task: Task, options: &'m ArgMatches<'a>) -> Option<Request<'m, 'a>> {
    match task {
        Task::Judge => Some(Request::Judge),
        Task::Check => Some(check::request(options)),
        Task::Import => import::request(options),
        Task::Export => Some(export::request(options)),
        Task::Show => Some(show::request(options)),
        Task::List => Some(list::request(options)),
        Task::Board => board::request(options),
        Task::Page => Some(page::request(options)),
        Task::Picture => Some(picture::request(options)),
        Task::Id => Some(Request::Id),
        Task::Dice => {
            let secret = options.get_str("secret")?;
            Some(Request::Dice { secret })
        }
        Task::Script => script::request(options),
        Task::Sim => sim::request(options),
        Task::Loop => play_loop::request(options),
        Task::New => new_match::request(options),
        Task::Keys => {
            let folder = options.get_str("dir")?;
            Some(Request::Keys { folder })
        }
        Task::Recover => recover::request(options),
        Task::Referee => referee::request(options),
        Task::Play => play::request(options),
        Task::Act => act::request(options),
        Task::Auto => Some(Request::Auto(SeatOptions::read(options)?)),
        Task::Watch => watch::request(options),
        Task::Serve => serve::request(options),
        Task::Manage => manage::request(options),
    }
}

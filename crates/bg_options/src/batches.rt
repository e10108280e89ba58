//! The options of commands that convert many files into a folder.

use crate::arguments::{Argument, Kind, Need};
use clap::ArgMatches;

/// The files that are converted, and the folder that they are written into.
#[derive(Clone, Copy)]
pub struct BatchOptions<'m, 'a> {
    pub files: &'m [&'a str],
    pub folder: &'a str,
    /// Whether what stands above a match is kept in a file beside it.
    pub has_headers: bool,
    /// Whether files that exist may be overwritten.
    pub is_forced: bool,
}

impl<'m, 'a> BatchOptions<'m, 'a> {
    /// Returns the batch that the options ask for, if they name a folder.
    pub(crate) fn read(options: &'m ArgMatches<'a>) -> Option<BatchOptions<'m, 'a>> {
        Some(BatchOptions {
            folder: options.get_str("out")?,
            files: options.get_strs("FILE").unwrap_or_default(),
            has_headers: options.get_flag("with-headers"),
            is_forced: options.get_flag("force"),
        })
    }
}

/// The files to convert.
pub(crate) const FILES: Argument = Argument {
    name: "FILE",
    kind: Kind::Words,
    need: Need::Optional,
    about: "The files to convert, with --out; without it standard input is read",
};

pub(crate) const OUT: Argument = Argument {
    name: "out",
    kind: Kind::Text("DIR"),
    need: Need::Optional,
    about: "Write a file for each FILE into this folder",
};

pub(crate) const FORCE: Argument = Argument {
    name: "force",
    kind: Kind::Flag,
    need: Need::Optional,
    about: "Overwrite files that exist",
};

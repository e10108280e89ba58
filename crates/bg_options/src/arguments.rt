//! The arguments of commands as data, and the command line built from them.

use clap::{Arg, ArgAction, Command, value_parser};
use std::alloc::{AllocError, Global};

/// The kind of an argument, and its value.
#[derive(Clone, Copy)]
pub(crate) enum Kind {
    /// An option without a value.
    Flag,
    /// An option whose value is any text. Help shows the value under this name.
    Text(&'static str),
    /// An option whose value is a number between two limits, both included. Help shows the value
    /// under this name.
    Number(&'static str, u32, u32),
    /// An option whose value is a number of 64 bits.
    LongNumber(&'static str),
    /// An option whose value is one of these texts. Help shows the value under this name.
    OneOf(&'static str, &'static [&'static str]),
    /// A file that is named without an option.
    File,
    /// The same, which help leaves out.
    HiddenFile,
    /// All remaining words, which may be none.
    Words,
    /// All remaining words, one or more where there are any.
    SomeWords,
}

/// Whether an argument may be left out.
#[derive(Clone, Copy)]
pub(crate) enum Need {
    Required,
    Optional,
    /// It may, and then counts as this text.
    Usually(&'static str),
    /// It may where the argument with this name is there.
    Unless(&'static str),
    /// It may. Where it is there, the argument with this name is too.
    With(&'static str),
}

/// An argument of a command.
#[derive(Clone, Copy)]
pub(crate) struct Argument {
    /// The argument's name, which an option has behind `--`.
    pub(crate) name: &'static str,
    pub(crate) kind: Kind,
    pub(crate) need: Need,
    /// The help on the argument.
    pub(crate) about: &'static str,
}

/// Returns an option whose value is a text. All others are built from it, and numbers are read as
/// one type. The check takes long for each type and each call of the library that it meets for the
/// first time.
fn text_option<'a>(alloc: Global, name: &'a str, value_name: &'a str) -> Arg<'a> {
    Arg::new(alloc, name).long(name).value_name(value_name)
}

impl Argument {
    /// Returns the argument as the parser of the command line takes it, without its help.
    fn unsaid<'a>(&self, alloc: Global) -> Arg<'a> {
        match self.kind {
            Kind::Flag => Arg::new(alloc, self.name)
                .long(self.name)
                .action(ArgAction::SetTrue),
            Kind::Text(value) => text_option(alloc, self.name, value),
            Kind::Number(value, least, most) => {
                let limits = i64::from(least)..=i64::from(most);
                let parser = value_parser!(u64).range(limits);
                text_option(alloc, self.name, value).value_parser(parser)
            }
            Kind::LongNumber(value) => {
                text_option(alloc, self.name, value).value_parser(value_parser!(u64))
            }
            Kind::OneOf(value, texts) => text_option(alloc, self.name, value).value_parser(texts),
            Kind::File => Arg::new(alloc, self.name),
            Kind::HiddenFile => Arg::new(alloc, self.name).hide(true),
            Kind::Words => Arg::new(alloc, self.name).num_args(0..),
            Kind::SomeWords => Arg::new(alloc, self.name).num_args(1..),
        }
    }

    /// Returns the argument as the parser of the command line takes it.
    fn described<'a>(&self, alloc: Global) -> Result<Arg<'a>, AllocError> {
        let argument = self.unsaid(alloc).help(self.about);
        match self.need {
            Need::Required => Ok(argument.required(true)),
            Need::Optional => Ok(argument),
            Need::Usually(text) => Ok(argument.default_value(text)),
            Need::Unless(other) => argument.required_unless_present(other),
            Need::With(other) => argument.requires_arg(other),
        }
    }
}

/// A command.
pub(crate) struct Description {
    pub(crate) name: &'static str,
    /// The line on the command in the list of all.
    pub(crate) about: &'static str,
    /// The end of its help, if there is one.
    pub(crate) after_help: Option<&'static str>,
    pub(crate) arguments: &'static [Argument],
}

impl Description {
    /// Returns the command as the parser of the command line takes it, with this help.
    pub(crate) fn command<'a>(
        &self,
        alloc: Global,
        help: &'static str,
    ) -> Result<Command<'a>, AllocError> {
        let mut arguments = Vec::new(alloc);
        for argument in self.arguments {
            arguments.push(argument.described(alloc)?)?;
        }
        self.without_arguments(alloc, help).args(arguments)
    }

    /// Returns the command with its help, and no arguments yet.
    fn without_arguments<'a>(&self, alloc: Global, help: &'static str) -> Command<'a> {
        let command = Command::new(alloc, self.name)
            .about(self.about)
            .long_about(help);
        match self.after_help {
            Some(text) => command.after_help(text),
            None => command,
        }
    }
}

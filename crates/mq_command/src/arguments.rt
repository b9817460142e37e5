//! The commands and their arguments as tables, and the loops that turn these into commands of `clap`.

use clap::builder::ValueParser;
use clap::{Arg, ArgAction, Command, value_parser};
use std::alloc::{AllocError, Global};

/// A command.
pub(crate) struct Form {
    pub(crate) name: &'static str,
    pub(crate) about: &'static str,
    /// The text that ends its help.
    pub(crate) after_help: &'static str,
    /// Its arguments in the order of its help, in tables that commands share.
    pub(crate) arguments: &'static [&'static [Argument]],
}

/// An argument: its name, its kind and its help. The name of an option follows `--`.
pub(crate) type Argument = (&'static str, Kind, &'static str);

/// The kind of an argument. An option that has a value has the name of the value in the help.
#[derive(Clone, Copy)]
pub(crate) enum Kind {
    /// The protocol, which has to be given.
    Family,
    /// A word that may be missing.
    Word,
    /// A word that has to be given.
    NeededWord,
    /// An option without a value.
    Flag,
    /// An option with a text.
    Text(&'static str),
    /// An option with a text that has to be given.
    NeededText(&'static str),
    /// An option with a number of 32 bits.
    Number(&'static str),
    /// An option with a number of 64 bits.
    Long(&'static str),
}

/// The file of a capture.
pub(crate) const FILE: Argument = ("FILE", Kind::Word, FILE_HELP);

const FILE_HELP: &str = "The capture; - or none is standard input";

/// The form of the lines.
pub(crate) const JSON: Argument = ("json", Kind::Flag, JSON_HELP);

const JSON_HELP: &str = "Print an object of JSON in place of each line";

/// Returns the command with its arguments.
pub(crate) fn command_of<'a>(
    alloc: Global,
    form: &'static Form,
) -> Result<Command<'a>, AllocError> {
    let mut arguments = Vec::new(alloc);
    for table in form.arguments {
        for argument in *table {
            arguments.push(argument_of(alloc, *argument))?;
        }
    }
    Command::new(alloc, form.name)
        .about(form.about)
        .after_help(form.after_help)
        .args(arguments)
}

fn argument_of<'a>(alloc: Global, (name, kind, help): Argument) -> Arg<'a> {
    let arg = Arg::new(alloc, name).help(help);
    let (value, is_needed, parser) = match kind {
        Kind::Flag => return arg.long(name).action(ArgAction::SetTrue),
        Kind::Family => (None, true, ValueParser::Names(FAMILIES.as_slice())),
        Kind::Word => (None, false, ValueParser::String),
        Kind::NeededWord => (None, true, ValueParser::String),
        Kind::Text(value) => (Some(value), false, ValueParser::String),
        Kind::NeededText(value) => (Some(value), true, ValueParser::String),
        Kind::Number(value) => (Some(value), false, value_parser!(u32)),
        Kind::Long(value) => (Some(value), false, value_parser!(u64)),
    };
    let arg = arg.required(is_needed).value_parser(parser);
    match value {
        Some(value) => arg.long(name).value_name(value),
        None => arg,
    }
}

static FAMILIES: [&str; 2] = ["igmp", "mld"];

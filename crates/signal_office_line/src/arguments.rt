//! The arguments that commands take, and what they are in `clap`.

ghost use Rattle.std.specs.Prelude.{◌≡◌, IfOk, [], false};
ghost use Rattle.clap.specs.Walk.{rule_of};
ghost use Rattle.signal_office_line.specs.CommandLine.{ParsesAs, app, app_for, in_form, in_range, given_as, rule_for};

use crate::help::{about_of, ending_of, help_of};
use clap::builder::ValueParser;
use clap::{Arg, ArgAction, Command};
use std::alloc::{AllocError, Global};

/// The least and the most of a number.
#[derive(Clone, Copy)]
pub(crate) struct Range(pub u32, pub u32);

/// How an argument is written.
#[derive(Clone, Copy)]
pub(crate) enum Form {
    /// A word.
    Word,
    /// `--NAME`, without a value.
    Flag,
    /// `--NAME VALUE`, with what the help calls its value.
    Choice(&'static str),
}

/// Whether an argument has to be given.
#[derive(Clone, Copy)]
pub(crate) enum Given {
    Always,
    Maybe,
    /// Only with the argument of this name.
    With(&'static str),
    /// Not with the argument of this name.
    Without(&'static str),
    /// Always, unless the argument of this name is given: then it may be left out.
    Unless(&'static str),
    /// Either this or the argument of this name, not both.
    InsteadOf(&'static str),
}

/// An argument of a command: its name, how it is written, the range of its number, if it has one,
/// and whether it has to be given.
#[derive(Clone, Copy)]
pub(crate) struct Argument(pub &'static str, pub Form, pub Option<Range>, pub Given);

/// A command: its name, and its arguments in their order.
#[derive(Clone, Copy)]
pub(crate) struct Usage(pub &'static str, pub &'static [Argument]);

/// The argument, written in a form under its name.
fn in_form<'a>(arg: Arg<'a>, name: &'a str, form: Form) -> Arg<'a>
    ensures rule { rule_of result ≡ in_form form name.entry.now (rule_of arg.entry) }
    ensures local { result.global ≡ arg.entry.global }
{
    match form {
        Form::Word => arg,
        Form::Flag => arg.long(name).action(ArgAction::SetTrue),
        Form::Choice(value) => arg.long(name).value_name(value),
    }
}

/// The argument; if a range is given, its word must be a number of that range.
fn in_range<'a>(arg: Arg<'a>, range: Option<Range>) -> Arg<'a>
    ensures rule { rule_of result ≡ in_range range (rule_of arg.entry) }
    ensures local { result.global ≡ arg.entry.global }
{
    let Some(Range(least, most)) = range else {
        return arg;
    };
    arg.value_parser(ValueParser::unsigned(u64::from(least), u64::from(most)))
}

/// The argument, with the condition under which it has to be given.
fn given_as<'a>(arg: Arg<'a>, given: Given) -> Result<Arg<'a>, AllocError>
    ensures { IfOk result (λ tied. (rule_of tied ≡ given_as given (rule_of arg.entry))
        × (tied.global ≡ arg.entry.global)) }
{
    match given {
        Given::Always => Ok(arg.required(true)),
        Given::Maybe => Ok(arg),
        Given::With(other) => arg.requires_arg(other),
        Given::Without(other) => arg.conflicts_with(other),
        Given::Unless(other) => arg.required_unless_present(other),
        Given::InsteadOf(other) => arg.required_unless_present(other)?.conflicts_with(other),
    }
}

/// An argument of a command as `clap` takes it, with its help if `helped`.
fn arg_of<'a>(
    alloc: Global,
    command: &str,
    argument: &Argument,
    helped: bool,
) -> Result<Arg<'a>, AllocError>
    ensures { IfOk result (λ arg. (rule_of arg ≡ rule_for argument.now) × (arg.global ≡ false)) }
{
    let Argument(name, form, range, given) = *argument;
    let help = if helped { help_of(command, name) } else { "" };
    let arg = Arg::new(alloc, name).help(help);
    given_as(in_range(in_form(arg, name, form), range), given)
}

/// A command without arguments as `clap` takes it, with its help if `helped`.
fn bare_command<'a>(
    alloc: Global,
    name: &'static str,
    helped: bool,
) -> Result<Command<'a>, AllocError>
    ensures { IfOk result (λ command. ParsesAs command (app (name.now, []))) }
{
    let (about, ending) = if helped {
        (about_of(name), ending_of(name))
    } else {
        ("", "")
    };
    let shown = format!(in alloc; "signal_office {name}")?;
    let command = Command::new(alloc, name).about(about).after_help(ending);
    command.bin_name(shown.as_str())
}

/// A command with its arguments as `clap` takes it, with its help if `helped`.
pub(crate) fn command_of<'a>(
    alloc: Global,
    usage: &Usage,
    helped: bool,
) -> Result<Command<'a>, AllocError>
    ensures { IfOk result (λ command. ParsesAs command (app_for usage.now)) }
{
    let Usage(name, arguments) = *usage;
    let bare = bare_command(alloc, name, helped)?;
    let mut command = bare;
    for argument in arguments {
        let arg = arg_of(alloc, name, argument, helped)?;
        command = command.arg(arg)?;
    }
    Ok(command)
}

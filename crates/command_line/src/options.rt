ghost use Rattle.std.specs.Prelude.{◌≡◌, IfOk, false, map};
ghost use Rattle.clap.specs.declared.builder.command.Command.TheViews.{out-Command as fields_of};
ghost use Rattle.clap.specs.Simple.{shape_of};
ghost use Rattle.clap.specs.Walk.{rule_of};
ghost use Rattle.command_line.specs.CommandLine.{option_rule, subcommand_shape};

use clap::{Arg, ArgAction, Command};
use std::alloc::{AllocError, Global};

/// How an option is given.
#[derive(Clone, Copy)]
pub(crate) enum Given {
    /// `--NAME`, or not at all.
    Flag,
    /// `--NAME VALUE`, or not at all.
    Once,
    /// `--NAME VALUE`, as often as is wanted.
    Often,
    /// `--NAME VALUE`, which must stand there.
    Always,
    /// `VALUE` alone, or not at all.
    Alone,
    /// `VALUE` alone, as often as is wanted.
    Rest,
}

/// An option of a subcommand.
#[derive(Clone, Copy)]
pub(crate) struct CommandOption<'a> {
    pub(crate) name: &'a str,
    /// What stands for its value on the page of help.
    pub(crate) value: &'a str,
    pub(crate) help: &'a str,
    pub(crate) given: Given,
}

/// A subcommand with its options, and with the text below them on its page of help.
pub(crate) fn subcommand<'a>(
    alloc: Global,
    name: &'a str,
    about: &'a str,
    after_help: &'a str,
    options: &[CommandOption<'a>],
) -> Result<Command<'a>, AllocError>
    ensures shape { IfOk result (λ c. shape_of c ≡ subcommand_shape name.entry.now (map option_rule options.now)) }
    ensures local { IfOk result (λ c. (fields_of c).has_globals ≡ false) }
{
    let mut command = Command::new(alloc, name)
        .about(about)
        .after_help(after_help);
    for option in options {
        command = command.arg(arg_of(alloc, option))?;
    }
    Ok(command)
}

/// What `clap` is to know of an option.
fn arg_of<'a>(alloc: Global, option: &CommandOption<'a>) -> Arg<'a>
    ensures rule { rule_of result ≡ option_rule option.now }
    ensures local { result.global ≡ false }
{
    let arg = Arg::new(alloc, option.name).help(option.help);
    match option.given {
        Given::Flag => arg.long(option.name).action(ArgAction::SetTrue),
        Given::Once => arg
            .long(option.name)
            .value_name(option.value)
            .action(ArgAction::Set),
        Given::Often => arg
            .long(option.name)
            .value_name(option.value)
            .action(ArgAction::Append),
        Given::Always => arg
            .long(option.name)
            .value_name(option.value)
            .required(true)
            .action(ArgAction::Set),
        Given::Alone => arg.value_name(option.value).action(ArgAction::Set),
        Given::Rest => arg.value_name(option.value).action(ArgAction::Append),
    }
}

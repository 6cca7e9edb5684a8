// The commands of `clap`, which assign words that passed the check.
ghost use Rattle.std.specs.{Prelude.{◌≡◌, false, IfOk, IfErr, IfSome, map}, String.{string_bytes}};
ghost use Rattle.clap.specs.{Simple.{app_of, new_rule, with_rule}, Walk.{rule_of}, Values.{kind_of}, Matches.{found_of}};
ghost use Rattle.dpmi_words.specs.{Reading.{given_by}, Command.{command_app, quiet_app, option_rule, Assigns, TakesItsWords}};
ghost use Rattle.dpmi_words.specs.Seen.{names_of, texts};

use crate::options::CommandOption;
use clap::error::ErrorKind;
use clap::{Arg, ArgMatches, Command, Error};
use std::alloc::{AllocError, Global};

// An option with a value, under its own name.
fn option<'a>(alloc: Global, name: &'a str) -> Arg<'a>
    ensures rule { rule_of result ≡ option_rule name.now }
    ensures local { result.global ≡ false }
{
    Arg::new(alloc, name).long(name)
}

// An operand, under a name.
fn positional<'a>(alloc: Global, name: &'a str) -> Arg<'a>
    ensures rule { rule_of result ≡ new_rule name.now }
    ensures local { result.global ≡ false }
{
    Arg::new(alloc, name)
}

// A command without help, over words without the program's name.
fn quiet<'a>(alloc: Global, name: &'a str) -> Command<'a>
    ensures { app_of result ≡ quiet_app name.now }
{
    Command::new(alloc, name)
        .no_binary_name(true)
        .disable_help_flag(true)
}

// The command with one argument more.
fn with<'a>(command: Command<'a>, arg: Arg<'a>) -> Result<Command<'a>, AllocError>
    requires { arg.global ≡ false }
    ensures { IfOk result (λ more. app_of more ≡ with_rule (app_of command.entry) (rule_of arg.entry)) }
{
    command.arg(arg)
}

// The command of a first word with these options and operands.
fn command_of<'a>(
    alloc: Global,
    name: &'a str,
    options: &[CommandOption],
    operands: &[&'a str],
) -> Result<Command<'a>, AllocError>
    ensures { IfOk result (λ command. app_of command ≡ command_app name.now (names_of options.now) (texts operands.now)) }
{
    let mut command = quiet(alloc, name);
    for row in options {
        command = with(command, option(alloc, row.name))?;
    }
    for operand_name in operands {
        command = with(command, positional(alloc, *operand_name))?;
    }
    Ok(command)
}

/// Assigns the words after the first one, which is the name, where these are its options and the names of its operands. Of words that break
/// no rule it fails only where memory is out. Source: own.
pub fn assign<'a>(
    alloc: Global,
    name: &'a str,
    options: &[CommandOption],
    operands: &[&'a str],
    words: &'a [String],
) -> Result<ArgMatches<'a>, Error>
    requires { TakesItsWords (command_app name.now (names_of options.now) (texts operands.now)) (names_of options.now)
        (texts operands.now) }
    ensures values { IfSome (given_by (names_of options.now) (texts operands.now) (map string_bytes words.now)) (λ given.
        IfOk result (λ matches. Assigns given (found_of matches))) }
    ensures memory { IfSome (given_by (names_of options.now) (texts operands.now) (map string_bytes words.now)) (λ given.
        IfErr result (λ e. kind_of e ≡ ErrorKind.OutOfMemory)) }
{
    let command = command_of(alloc, name, options, operands)?;
    command.try_get_matches_from(words)
}

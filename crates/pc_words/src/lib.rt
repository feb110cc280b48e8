//! The words of the command line: one simple command of `clap`, with one positional and one option.
#![tactic(auto)]

ghost use Rattle.std.specs.Prelude.{◌≡◌, IfOk, codes, map, string_bytes};
ghost use Rattle.clap.specs.Words.{app_of, first_value, found_of};
ghost use Rattle.pc_words.specs.Forms.{FormsAreThese, command, mode_in, mode_named};

use clap::error::ErrorKind;
use clap::{Arg, ArgAction, ArgMatches, Command};
use pc_base::NoMemory;
use std::alloc::Global;

/// What the program is asked for.
#[derive(Clone, Copy, Debug, PartialEq, Eq)]
pub enum Mode {
    Run,
    Check,
}

/// The mode that the words behind the program's name ask for; nothing where they are no form.
pub fn mode_of(alloc: Global, words: &[String]) -> Result<Option<Mode>, NoMemory>
    ensures { IfOk result (λ mode. mode ≡ mode_in (map string_bytes words.now)) }
{
    let command = command(alloc)?;
    match command.try_get_matches_from(words) {
        Ok(matches) => Ok(matched_mode(&matches)),
        Err(error) => match error.kind() {
            ErrorKind::OutOfMemory => Err(NoMemory),
            _ => Ok(None),
        },
    }
}

/// The mode first, and then or before it the number.
fn command<'a>(alloc: Global) -> Result<Command<'a>, NoMemory>
    ensures { IfOk result (λ made. app_of made ≡ command) }
{
    let mode = Arg::new(alloc, "mode")
        .required(true)
        .action(ArgAction::Set);
    let number = Arg::new(alloc, "number")
        .long("number")
        .action(ArgAction::Set);
    let command = Command::new(alloc, "pcommit")
        .no_binary_name(true)
        .arg(mode)?
        .arg(number)?;
    Ok(command)
}

/// The mode that was matched, which takes no number.
fn matched_mode(matches: &ArgMatches<'_>) -> Option<Mode>
    ensures { result ≡ mode_named (first_value (found_of matches.now) (codes "mode")) (first_value (found_of matches.now) (codes "number")) }
{
    match (matches.get_str("mode"), matches.get_str("number")) {
        (Some("run"), None) => Some(Mode::Run),
        (Some("check"), None) => Some(Mode::Check),
        _ => None,
    }
}

/// A law: the forms that are named first are what a reader expects.
pub fn forms_are_these()
    ensures { FormsAreThese }
{}

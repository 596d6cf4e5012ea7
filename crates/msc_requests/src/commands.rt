//! What may stand behind each command, as clap is told: for `requests`.

ghost use Rattle.std.specs.Prelude.{◌≡◌, IfOk};
ghost use Rattle.clap.specs.Words.{app_of, with_rule};
ghost use Rattle.msc_requests.specs.Requests.{bare, check_app, choices_app, flag, judge_app, list_app, next_app, optional, print_app, sample_app, sessions_app, valued, wanted};

use clap::{Arg, ArgAction, Command};
use std::alloc::{AllocError, Global};

/// Adds a word that has to be there.
fn with_wanted<'a>(
    alloc: Global,
    command: Command<'a>,
    name: &'a str,
) -> Result<Command<'a>, AllocError>
    ensures { IfOk result (λ c. app_of c ≡ with_rule (app_of command.entry) (wanted name.entry.now)) }
{
    let argument = Arg::new(alloc, name).required(true).action(ArgAction::Set);
    command.arg(argument)
}

/// Adds a word that may be there.
fn with_optional<'a>(
    alloc: Global,
    command: Command<'a>,
    name: &'a str,
) -> Result<Command<'a>, AllocError>
    ensures { IfOk result (λ c. app_of c ≡ with_rule (app_of command.entry) (optional name.entry.now)) }
{
    let argument = Arg::new(alloc, name).action(ArgAction::Set);
    command.arg(argument)
}

/// Adds an option without a value.
fn with_flag<'a>(
    alloc: Global,
    command: Command<'a>,
    name: &'a str,
) -> Result<Command<'a>, AllocError>
    ensures { IfOk result (λ c. app_of c ≡ with_rule (app_of command.entry) (flag name.entry.now)) }
{
    let argument = Arg::new(alloc, name).long(name).action(ArgAction::SetTrue);
    command.arg(argument)
}

/// Adds an option with a value.
fn with_valued<'a>(
    alloc: Global,
    command: Command<'a>,
    name: &'a str,
) -> Result<Command<'a>, AllocError>
    ensures { IfOk result (λ c. app_of c ≡ with_rule (app_of command.entry) (valued name.entry.now)) }
{
    let argument = Arg::new(alloc, name).long(name).action(ArgAction::Set);
    command.arg(argument)
}

/// A command without arguments yet, to which each word is one, `--help` too.
fn bare_command<'a>(alloc: Global, name: &'a str) -> Command<'a>
    ensures { app_of result ≡ bare name.entry.now }
{
    Command::new(alloc, name)
        .no_binary_name(true)
        .disable_help_flag(true)
}

/// What may stand behind `judge`.
pub fn judge_command<'a>(alloc: Global) -> Result<Command<'a>, AllocError>
    ensures { IfOk result (λ c. app_of c ≡ judge_app) }
{
    let command = bare_command(alloc, "judge");
    let command = with_wanted(alloc, command, "document")?;
    let command = with_wanted(alloc, command, "chart")?;
    let command = with_wanted(alloc, command, "log")?;
    let command = with_valued(alloc, command, "budget")?;
    let command = with_flag(alloc, command, "json")?;
    with_flag(alloc, command, "log-json")
}

/// What may stand behind `next`.
pub fn next_command<'a>(alloc: Global) -> Result<Command<'a>, AllocError>
    ensures { IfOk result (λ c. app_of c ≡ next_app) }
{
    let command = bare_command(alloc, "next");
    let command = with_wanted(alloc, command, "document")?;
    let command = with_wanted(alloc, command, "chart")?;
    let command = with_wanted(alloc, command, "log")?;
    with_valued(alloc, command, "budget")
}

/// What may stand behind `sessions`.
pub fn sessions_command<'a>(alloc: Global) -> Result<Command<'a>, AllocError>
    ensures { IfOk result (λ c. app_of c ≡ sessions_app) }
{
    let command = bare_command(alloc, "sessions");
    let command = with_wanted(alloc, command, "document")?;
    let command = with_wanted(alloc, command, "chart")?;
    let command = with_wanted(alloc, command, "log")?;
    let command = with_valued(alloc, command, "budget")?;
    with_flag(alloc, command, "log-json")
}

/// What may stand behind `choices`.
pub fn choices_command<'a>(alloc: Global) -> Result<Command<'a>, AllocError>
    ensures { IfOk result (λ c. app_of c ≡ choices_app) }
{
    let command = bare_command(alloc, "choices");
    let command = with_wanted(alloc, command, "document")?;
    with_wanted(alloc, command, "chart")
}

/// What may stand behind `check`.
pub fn check_command<'a>(alloc: Global) -> Result<Command<'a>, AllocError>
    ensures { IfOk result (λ c. app_of c ≡ check_app) }
{
    let command = bare_command(alloc, "check");
    let command = with_wanted(alloc, command, "document")?;
    with_flag(alloc, command, "json")
}

/// What may stand behind `list`.
pub fn list_command<'a>(alloc: Global) -> Result<Command<'a>, AllocError>
    ensures { IfOk result (λ c. app_of c ≡ list_app) }
{
    let command = bare_command(alloc, "list");
    let command = with_wanted(alloc, command, "document")?;
    let command = with_optional(alloc, command, "chart")?;
    with_flag(alloc, command, "json")
}

/// What may stand behind `print`.
pub fn print_command<'a>(alloc: Global) -> Result<Command<'a>, AllocError>
    ensures { IfOk result (λ c. app_of c ≡ print_app) }
{
    let command = bare_command(alloc, "print");
    with_wanted(alloc, command, "document")
}

/// What may stand behind `sample`.
pub fn sample_command<'a>(alloc: Global) -> Result<Command<'a>, AllocError>
    ensures { IfOk result (λ c. app_of c ≡ sample_app) }
{
    let command = bare_command(alloc, "sample");
    let command = with_wanted(alloc, command, "turns")?;
    with_wanted(alloc, command, "seed")
}

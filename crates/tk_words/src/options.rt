ghost use Rattle.std.specs.Prelude.{◌≡◌, false, IfOk};
ghost use Rattle.clap.specs.Words.{app_of, rule_of};
ghost use Rattle.tk_words.specs.Clap.{command_rule, file_rule, logs_rule, option_rule, sources_rule, with_carriage_rules, with_order_rule, with_source_rules};

use clap::{Arg, ArgAction, Command};
use std::alloc::{AllocError, Global};

/// An option that takes one value.
pub fn option<'a>(alloc: Global, name: &'a str, required: bool) -> Arg<'a>
    ensures rule { rule_of result ≡ option_rule name.entry.now required }
    ensures local { result.global ≡ false }
{
    Arg::new(alloc, name)
        .long(name)
        .required(required)
        .action(ArgAction::Set)
}

/// The further words, at least one.
pub fn log_words<'a>(alloc: Global) -> Arg<'a>
    ensures rule { rule_of result ≡ logs_rule }
    ensures local { result.global ≡ false }
{
    Arg::new(alloc, "log")
        .required(true)
        .action(ArgAction::Append)
}

/// The sources of a monitor, at least one.
pub fn source_words<'a>(alloc: Global) -> Arg<'a>
    ensures rule { rule_of result ≡ sources_rule }
    ensures local { result.global ≡ false }
{
    Arg::new(alloc, "source")
        .required(true)
        .action(ArgAction::Append)
}

/// The word of a command, where there is one.
pub fn command_word<'a>(alloc: Global) -> Arg<'a>
    ensures rule { rule_of result ≡ command_rule }
    ensures local { result.global ≡ false }
{
    Arg::new(alloc, "command").action(ArgAction::Set)
}

/// The word of a file.
pub fn file_word<'a>(alloc: Global) -> Arg<'a>
    ensures rule { rule_of result ≡ file_rule }
    ensures local { result.global ≡ false }
{
    Arg::new(alloc, "file")
        .required(true)
        .action(ArgAction::Set)
}

/// The command with the options of the sources that every run of logs from files has.
pub fn with_sources<'a>(alloc: Global, command: Command<'a>) -> Result<Command<'a>, AllocError>
    ensures { IfOk result (λ c. app_of c ≡ with_source_rules (app_of command.entry)) }
{
    command
        .arg(option(alloc, "k", true))?
        .arg(option(alloc, "epsilon", true))?
        .arg(option(alloc, "objects", true))?
        .arg(option(alloc, "own-weight", false))
}

/// The command with the option of an order.
pub fn with_order<'a>(alloc: Global, command: Command<'a>) -> Result<Command<'a>, AllocError>
    ensures { IfOk result (λ c. app_of c ≡ with_order_rule (app_of command.entry)) }
{
    command.arg(option(alloc, "order", false))
}

/// The command with the options of how frames go.
pub fn with_carriage<'a>(alloc: Global, command: Command<'a>) -> Result<Command<'a>, AllocError>
    ensures { IfOk result (λ c. app_of c ≡ with_carriage_rules (app_of command.entry)) }
{
    command
        .arg(option(alloc, "piece", false))?
        .arg(option(alloc, "frames", false))
}

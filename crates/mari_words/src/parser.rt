//! The program's command line: one command with subcommands, one level, without help or version.

ghost use Rattle.std.specs.Prelude.{◌≡◌, IfOk, false, true};
ghost use Rattle.clap.specs.Words.{App, Rule, app_of, rule_of, with_rule, with_subcommand as with_more};
ghost use Rattle.mari_words.specs.Line.{bare_line, line, one_word, option_rule, required_word, three_words, two_words, with_options as with_both};

use clap::{Arg, ArgAction, Command as Parser};
use mari_units::Memory;
use std::alloc::Global;

/// A word that has to be there, which belongs to no option.
fn word<'a>(alloc: Global, id: &'a str) -> Arg<'a>
    ensures rule { rule_of result ≡ required_word id.entry.now }
    ensures local { result.global ≡ false }
{
    Arg::new(alloc, id).required(true).action(ArgAction::Set)
}

/// An option with a value.
fn option<'a>(alloc: Global, name: &'a str) -> Arg<'a>
    ensures rule { rule_of result ≡ option_rule name.entry.now }
    ensures local { result.global ≡ false }
{
    Arg::new(alloc, name).long(name).action(ArgAction::Set)
}

/// A subcommand with one more argument, where it could be made.
fn with_argument<'a>(
    command: Result<Parser<'a>, Memory>,
    argument: Arg<'a>,
) -> Result<Parser<'a>, Memory>
    requires { argument.global ≡ false }
    ensures { (old : App) (rule : Rule) → rule_of argument.entry ≡ rule → IfOk command.entry (λ command. app_of command ≡ old)
        → IfOk result (λ new. app_of new ≡ with_rule old rule) }
{
    match command {
        Ok(command) => Ok(command.arg(argument)?),
        Err(Memory) => {
            drop(argument);
            Err(Memory)
        }
    }
}

/// A subcommand with one word after it.
fn with_word<'a>(alloc: Global, name: &'a str) -> Result<Parser<'a>, Memory>
    ensures { IfOk result (λ command. app_of command ≡ one_word name.entry.now) }
{
    with_argument(Ok(Parser::new(alloc, name)), word(alloc, "first"))
}

/// A subcommand with two words after it.
fn with_two_words<'a>(alloc: Global, name: &'a str) -> Result<Parser<'a>, Memory>
    ensures { IfOk result (λ command. app_of command ≡ two_words name.entry.now) }
{
    with_argument(with_word(alloc, name), word(alloc, "second"))
}

/// A subcommand with three words after it.
fn with_three_words<'a>(alloc: Global, name: &'a str) -> Result<Parser<'a>, Memory>
    ensures { IfOk result (λ command. app_of command ≡ three_words name.entry.now) }
{
    with_argument(with_two_words(alloc, name), word(alloc, "third"))
}

/// A subcommand with the options.
fn with_options<'a>(
    alloc: Global,
    command: Result<Parser<'a>, Memory>,
) -> Result<Parser<'a>, Memory>
    ensures { (old : App) → IfOk command.entry (λ command. app_of command ≡ old) → IfOk result (λ new. app_of new ≡ with_both old) }
{
    let command = with_argument(command, option(alloc, "nodes"));
    with_argument(command, option(alloc, "workers"))
}

/// The program's command line before its subcommands.
fn bare<'a>(alloc: Global) -> Parser<'a>
    ensures { app_of result ≡ bare_line }
{
    Parser::new(alloc, "mari")
        .no_binary_name(true)
        .disable_help_flag(true)
        .disable_help_subcommand(true)
        .disable_version_flag(true)
        .subcommand_required(true)
}

/// The line with one more subcommand, where both could be made.
fn with_subcommand<'a>(
    line: Result<Parser<'a>, Memory>,
    command: Result<Parser<'a>, Memory>,
) -> Result<Parser<'a>, Memory>
    ensures { (old sub : App) → sub.top.is_plain ≡ true → IfOk line.entry (λ line. app_of line ≡ old)
        → IfOk command.entry (λ command. app_of command ≡ sub) → IfOk result (λ new. app_of new ≡ with_more old sub.top) }
{
    match line {
        Ok(line) => match command {
            Ok(command) => Ok(line.subcommand(command)?),
            Err(Memory) => {
                drop(line);
                Err(Memory)
            }
        },
        Err(Memory) => {
            drop(command);
            Err(Memory)
        }
    }
}

/// The program's command line. What failed is handed on, so that nothing is let go here.
pub fn parser<'a>(alloc: Global) -> Result<Parser<'a>, Memory>
    ensures { IfOk result (λ parser. app_of parser ≡ line) }
{
    let mari = Ok(bare(alloc));
    let mari = with_subcommand(mari, with_options(alloc, with_word(alloc, "clear")));
    let mari = with_subcommand(mari, with_word(alloc, "check"));
    let mari = with_subcommand(mari, with_word(alloc, "generate"));
    let mari = with_subcommand(mari, with_two_words(alloc, "migrate"));
    let mari = with_subcommand(mari, with_word(alloc, "feed"));
    let mari = with_subcommand(mari, with_options(alloc, with_word(alloc, "split")));
    let mari = with_subcommand(mari, with_options(alloc, with_three_words(alloc, "blocks")));
    with_subcommand(mari, with_two_words(alloc, "value"))
}

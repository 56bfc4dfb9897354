//! The commands, as clap is told of them.

ghost use Rattle.std.specs.Prelude.{◌≡◌, IfOk, false};
ghost use Rattle.clap.specs.Words.{app_of, rule_of};
ghost use Rattle.clap.specs.declared.builder.command.Command.TheViews.{out-Command as fields_of};
ghost use Rattle.vic_words.specs.inner.Commands as declared;

use clap::{Arg, ArgAction, Command};
use std::alloc::{AllocError, Global};

/// The program with its commands.
pub(crate) fn commands<'a>(alloc: Global) -> Result<Command<'a>, AllocError>
    ensures { IfOk result (λ c. app_of c ≡ declared.commands) }
{
    up_to_collection(alloc)?
        .subcommand(words_command(alloc, "json-collection")?)?
        .subcommand(words_command(alloc, "spell")?)
}

/// The program with its commands up to `collection`.
fn up_to_collection<'a>(alloc: Global) -> Result<Command<'a>, AllocError>
    ensures { IfOk result (λ c. app_of c ≡ declared.up_to_collection) }
{
    up_to_reconcile(alloc)?
        .subcommand(words_command(alloc, "survey")?)?
        .subcommand(words_command(alloc, "collection")?)
}

/// The program with its commands up to `reconcile`.
fn up_to_reconcile<'a>(alloc: Global) -> Result<Command<'a>, AllocError>
    ensures { IfOk result (λ c. app_of c ≡ declared.up_to_reconcile) }
{
    up_to_json(alloc)?
        .subcommand(operand_command(alloc, "frame", "hex", true)?)?
        .subcommand(words_command(alloc, "reconcile")?)
}

/// The program with its commands over a file or standard input.
fn up_to_json<'a>(alloc: Global) -> Result<Command<'a>, AllocError>
    ensures { IfOk result (λ c. app_of c ≡ declared.up_to_json) }
{
    let program = Command::new(alloc, "vicinity")
        .disable_help_flag(true)
        .disable_help_subcommand(true);
    let program = with_file_command(alloc, program, "check")?;
    let program = with_file_command(alloc, program, "simulate")?;
    let program = with_file_command(alloc, program, "explain")?;
    let program = with_file_command(alloc, program, "report")?;
    let program = with_file_command(alloc, program, "margin")?;
    with_file_command(alloc, program, "json")
}

/// The program with one more command, over a file or standard input.
fn with_file_command<'a>(
    alloc: Global,
    program: Command<'a>,
    name: &'a str,
) -> Result<Command<'a>, AllocError>
    ensures shape { IfOk result (λ c.
        app_of c ≡ declared.with_file_command (app_of program.entry) name.now) }
{
    program.subcommand(operand_command(alloc, name, "file", false)?)
}

/// A command with one operand.
fn operand_command<'a>(
    alloc: Global,
    name: &'a str,
    operand: &'a str,
    required: bool,
) -> Result<Command<'a>, AllocError>
    ensures shape { IfOk result (λ c.
        app_of c ≡ declared.operand_command name.now operand.now required) }
    ensures local { IfOk result (λ c. (fields_of c).has_globals ≡ false) }
{
    let operand = Arg::new(alloc, operand)
        .required(required)
        .action(ArgAction::Set);
    Command::new(alloc, name).arg(operand)
}

/// A command with one or more words.
fn words_command<'a>(alloc: Global, name: &'a str) -> Result<Command<'a>, AllocError>
    ensures shape { IfOk result (λ c. app_of c ≡ declared.words_command name.now) }
    ensures local { IfOk result (λ c. (fields_of c).has_globals ≡ false) }
{
    Command::new(alloc, name).arg(operands(alloc))
}

/// One operand or more.
fn operands<'a>(alloc: Global) -> Arg<'a>
    ensures rule { rule_of result ≡ declared.operands }
    ensures local { result.global ≡ false }
{
    Arg::new(alloc, "words")
        .required(true)
        .num_args(1..)
        .action(ArgAction::Append)
}

//! The command of `clap`.

ghost use Rattle.std.specs.Prelude.{◌≡◌, false, true, map, IfOk, IfSome, IfNone};
ghost use Rattle.clap.specs.Walk.{rule_of};
ghost use Rattle.clap.specs.Simple.{subcommand_of, subcommand_rows_of};
ghost use Rattle.command_line.specs.App.{option_rule, word_rule, words_rule, IsApp};
ghost use Rattle.command_line.specs.App.{init_app, run_app, replay_app, verify_app, restore_app};
ghost use Rattle.command_line.specs.App.{combine_app, merge_app, walsummary_app, follow_app, drill_app};
ghost use Rattle.command_line.specs.App.{restart_app};
ghost use Rattle.command_line.specs.App.{top_app, app, is_taken};

use clap::error::ErrorKind;
use clap::{Arg, ArgMatches, Command};
use lsn_core::NoMemory;
use std::alloc::{AllocError, Global};

/// An option of this name, with a value.
fn option<'a>(alloc: Global, name: &'a str) -> Arg<'a>
    ensures rule { rule_of result ≡ option_rule name.entry.now }
    ensures local { result.global ≡ false }
{
    Arg::new(alloc, name).long(name)
}

/// A word that has to be there.
fn word<'a>(alloc: Global, name: &'a str) -> Arg<'a>
    ensures rule { rule_of result ≡ word_rule name.entry.now }
    ensures local { result.global ≡ false }
{
    Arg::new(alloc, name).required(true)
}

/// One word or more.
fn words<'a>(alloc: Global, name: &'a str) -> Arg<'a>
    ensures rule { rule_of result ≡ words_rule name.entry.now }
    ensures local { result.global ≡ false }
{
    Arg::new(alloc, name).required(true).num_args(1..)
}

fn init_command<'a>(alloc: Global) -> Result<Command<'a>, AllocError>
    ensures { IfOk result (IsApp init_app) }
{
    Command::new(alloc, "init")
        .arg(option(alloc, "segment-mib"))?
        .arg(option(alloc, "relseg"))?
        .arg(option(alloc, "system-id"))
}

fn run_command<'a>(alloc: Global) -> Result<Command<'a>, AllocError>
    ensures { IfOk result (IsApp run_app) }
{
    Command::new(alloc, "run")
        .arg(option(alloc, "frames"))?
        .arg(option(alloc, "keep-days"))
}

fn replay_command<'a>(alloc: Global) -> Result<Command<'a>, AllocError>
    ensures { IfOk result (IsApp replay_app) }
{
    Command::new(alloc, "replay")
        .arg(option(alloc, "target"))?
        .arg(word(alloc, "OUT"))
}

fn verify_command<'a>(alloc: Global) -> Result<Command<'a>, AllocError>
    ensures { IfOk result (IsApp verify_app) }
{
    Command::new(alloc, "verify").arg(word(alloc, "NAME"))
}

fn restore_command<'a>(alloc: Global) -> Result<Command<'a>, AllocError>
    ensures { IfOk result (IsApp restore_app) }
{
    Command::new(alloc, "restore")
        .arg(option(alloc, "target"))?
        .arg(word(alloc, "OUT"))?
        .arg(words(alloc, "MEMBER"))
}

fn combine_command<'a>(alloc: Global) -> Result<Command<'a>, AllocError>
    ensures { IfOk result (IsApp combine_app) }
{
    Command::new(alloc, "combine")
        .arg(word(alloc, "OUT"))?
        .arg(words(alloc, "MEMBER"))
}

fn merge_command<'a>(alloc: Global) -> Result<Command<'a>, AllocError>
    ensures { IfOk result (IsApp merge_app) }
{
    Command::new(alloc, "merge-incr")
        .arg(word(alloc, "OUT"))?
        .arg(words(alloc, "MEMBER"))
}

fn walsummary_command<'a>(alloc: Global) -> Result<Command<'a>, AllocError>
    ensures { IfOk result (IsApp walsummary_app) }
{
    Command::new(alloc, "walsummary")
        .arg(word(alloc, "FROM"))?
        .arg(word(alloc, "TO"))
}

fn follow_command<'a>(alloc: Global) -> Result<Command<'a>, AllocError>
    ensures { IfOk result (IsApp follow_app) }
{
    Command::new(alloc, "follow")
        .arg(option(alloc, "segment-mib"))?
        .arg(option(alloc, "relseg"))?
        .arg(word(alloc, "OUT"))
}

fn drill_command<'a>(alloc: Global) -> Result<Command<'a>, AllocError>
    ensures { IfOk result (IsApp drill_app) }
{
    Command::new(alloc, "drill").arg(word(alloc, "N"))
}

fn restart_command<'a>(alloc: Global) -> Command<'a>
    ensures { IsApp restart_app result }
{
    Command::new(alloc, "restart")
}

/// A subcommand has to be named, and no request for help is taken.
fn top_command<'a>(alloc: Global) -> Command<'a>
    ensures { IsApp top_app result }
{
    Command::new(alloc, "pgbackup")
        .no_binary_name(true)
        .disable_help_flag(true)
        .disable_help_subcommand(true)
        .subcommand_required(true)
}

/// The command with its subcommands.
fn whole_command<'a>(alloc: Global) -> Result<Command<'a>, AllocError>
    ensures { IfOk result (IsApp app) }
{
    top_command(alloc)
        .subcommand(init_command(alloc)?)?
        .subcommand(run_command(alloc)?)?
        .subcommand(replay_command(alloc)?)?
        .subcommand(verify_command(alloc)?)?
        .subcommand(restore_command(alloc)?)?
        .subcommand(combine_command(alloc)?)?
        .subcommand(merge_command(alloc)?)?
        .subcommand(walsummary_command(alloc)?)?
        .subcommand(follow_command(alloc)?)?
        .subcommand(drill_command(alloc)?)?
        .subcommand(restart_command(alloc))
}

/// What the command finds in the words. None exactly where it doesn't take them.
pub(crate) fn taken<'a>(
    alloc: Global,
    words: &'a [&'a str],
) -> Result<Option<ArgMatches<'a>>, NoMemory>
    ensures some { IfOk result (λ found. IfSome found (λ m.
        is_taken (map (λ w. w.now) words.now) ≡ true
        × (subcommand_rows_of m ≡ subcommand_of app (map (λ w. w.now) words.now)))) }
    ensures none { IfOk result (λ found. IfNone found
        (is_taken (map (λ w. w.now) words.now) ≡ false)) }
{
    let command = whole_command(alloc)?;
    match command.try_get_matches_from(words) {
        Ok(matches) => Ok(Some(matches)),
        Err(error) => {
            if error.kind() == ErrorKind::OutOfMemory {
                return Err(NoMemory);
            }
            Ok(None)
        }
    }
}

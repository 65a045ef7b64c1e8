//! The words of the command line.

ghost use Rattle.std.specs.Prelude.{◌≡◌, ◌≤◌, true, false, map, length, IfOk, IfSome, IfNone};
ghost use Rattle.std.specs.List.{list_all};
ghost use Rattle.std.specs.Option.{option_map};
ghost use Rattle.std.specs.Str.{is_utf8};
ghost use Rattle.clap.specs.Walk.{rows_of};
ghost use Rattle.clap.specs.Matches.{found_of};
ghost use Rattle.lsn_core.specs.Segment.{IsSegmentMib, IsRelseg};
ghost use Rattle.command_line.specs.Words.{init_asked, run_asked, replay_to, replay_asked, verify_name, verify_asked};
ghost use Rattle.command_line.specs.Words.{restore_to, restore_asked, combine_to, combine_asked};
ghost use Rattle.command_line.specs.Words.{merge_asked, walsummary_asked, follow_to, follow_asked};
ghost use Rattle.command_line.specs.Words.{drill_asked};
ghost use Rattle.command_line.specs.Words.{asked_by, texts_ask, asked, asks, HasRange};

use crate::app::taken;
use crate::found::{option_in, word_in, words_in};
use crate::members::{are_members, are_series};
use crate::options::{
    FollowSizes, InitOptions, RunOptions, days_given, drill_number_in, frames_given, lsn_given,
    lsn_in, number_given, relseg_given, segment_given,
};
use clap::ArgMatches;
use lsn_core::{Lsn, MOST_RELSEG, NoMemory, SegSize, Text};
use scripts::is_name;
use std::alloc::Global;
use std::str;

/// The frames of a partition where none are asked for (profile).
const USUAL_FRAMES: u32 = 4096;

/// The days for which summaries are kept where none are asked for (profile).
const USUAL_DAYS: u32 = 10;

/// What the words ask for.
#[derive(Drop)]
pub enum Command {
    /// A new store with these settings.
    Init(InitOptions),
    /// The script of the input, run on the store by these options.
    Run(RunOptions),
    /// The WAL replayed from its beginning up to the target, where one is given, to an output of
    /// this name.
    Replay(Option<Lsn>, Text),
    /// The directory of the backup of this name checked.
    Verify(Text),
    /// Restored up to the target, where one is given, to an output of this name: the chain of the
    /// backups of these names, and the WAL from the last one's start on.
    Restore(Option<Lsn>, Text, Vec<Text>),
    /// The chain of the backups of these names combined to a backup of this name.
    Combine(Text, Vec<Text>),
    /// The series of the incremental backups of these names, two or more, merged to a backup of
    /// this name.
    Merge(Text, Vec<Text>),
    /// What the kept summaries tell of the range from the first place to below the second, which is
    /// past it.
    Walsummary(Lsn, Lsn),
    /// The WAL whose stream the input is, replayed by these sizes to an output of this name.
    Follow(FollowSizes, Text),
    /// The drill of this number: a new store with a script made from it, a chain of backups, and
    /// their restore.
    Drill(u32),
    /// The WAL and the data areas brought back after a stop.
    Restart,
}

fn init_of(found: &ArgMatches<'_>) -> Option<Command>
    ensures asked { option_map asks result ≡ init_asked (rows_of (found_of found.now)) }
    ensures range { IfSome result HasRange }
{
    let segment = segment_given(option_in(found, "segment-mib"))?;
    let relseg = relseg_given(option_in(found, "relseg"))?;
    let system = number_given(option_in(found, "system-id"))?;
    Some(Command::Init(InitOptions {
        segment,
        relseg,
        system,
    }))
}

fn run_of(found: &ArgMatches<'_>) -> Option<Command>
    ensures asked { option_map asks result ≡ run_asked (rows_of (found_of found.now)) }
    ensures range { IfSome result HasRange }
{
    let frames = frames_given(option_in(found, "frames"))?;
    let days = days_given(option_in(found, "keep-days"))?;
    Some(Command::Run(RunOptions {
        frames: frames.unwrap_or(USUAL_FRAMES),
        days: days.unwrap_or(USUAL_DAYS),
    }))
}

fn replay_to(alloc: Global, target: Option<Lsn>, out: &str) -> Result<Option<Command>, NoMemory>
    ensures asked { IfOk result (λ command. option_map asks command ≡ replay_to target out.now) }
    ensures range { IfOk result (λ command. IfSome command HasRange) }
{
    if is_name(out.as_bytes()) {
        let out = Text::copied(alloc, out.as_bytes())?;
        return Ok(Some(Command::Replay(target, out)));
    }
    Ok(None)
}

fn replay_of(alloc: Global, found: &ArgMatches<'_>) -> Result<Option<Command>, NoMemory>
    ensures asked { IfOk result (λ command.
        option_map asks command ≡ replay_asked (rows_of (found_of found.now))) }
    ensures range { IfOk result (λ command. IfSome command HasRange) }
{
    let out = word_in(found, "OUT");
    match lsn_given(option_in(found, "target")) {
        None => Ok(None),
        Some(target) => replay_to(alloc, target, out),
    }
}

fn verify_of(alloc: Global, found: &ArgMatches<'_>) -> Result<Option<Command>, NoMemory>
    ensures asked { IfOk result (λ command.
        option_map asks command ≡ verify_asked (rows_of (found_of found.now))) }
    ensures range { IfOk result (λ command. IfSome command HasRange) }
{
    let name = word_in(found, "NAME");
    if is_name(name.as_bytes()) {
        let name = Text::copied(alloc, name.as_bytes())?;
        return Ok(Some(Command::Verify(name)));
    }
    Ok(None)
}

/// A member's name is one, and there is one at least.
fn restore_to(
    alloc: Global,
    target: Option<Lsn>,
    out: &str,
    members: Vec<Text>,
) -> Result<Option<Command>, NoMemory>
    ensures asked { IfOk result (λ command.
        option_map asks command ≡ restore_to target out.now members.items) }
    ensures range { IfOk result (λ command. IfSome command HasRange) }
{
    if is_name(out.as_bytes()) && are_members(&members) {
        let out = Text::copied(alloc, out.as_bytes())?;
        return Ok(Some(Command::Restore(target, out, members)));
    }
    Ok(None)
}

fn restore_of(alloc: Global, found: &ArgMatches<'_>) -> Result<Option<Command>, NoMemory>
    ensures asked { IfOk result (λ command.
        option_map asks command ≡ restore_asked (rows_of (found_of found.now))) }
    ensures range { IfOk result (λ command. IfSome command HasRange) }
{
    let out = word_in(found, "OUT");
    let members = words_in(alloc, found, "MEMBER")?;
    match lsn_given(option_in(found, "target")) {
        None => Ok(None),
        Some(target) => restore_to(alloc, target, out, members),
    }
}

fn combine_of(alloc: Global, found: &ArgMatches<'_>) -> Result<Option<Command>, NoMemory>
    ensures asked { IfOk result (λ command.
        option_map asks command ≡ combine_asked (rows_of (found_of found.now))) }
    ensures range { IfOk result (λ command. IfSome command HasRange) }
{
    let out = word_in(found, "OUT");
    let members = words_in(alloc, found, "MEMBER")?;
    if is_name(out.as_bytes()) && are_members(&members) {
        let out = Text::copied(alloc, out.as_bytes())?;
        return Ok(Some(Command::Combine(out, members)));
    }
    Ok(None)
}

/// A member's name is one, and there are two at least.
fn merge_of(alloc: Global, found: &ArgMatches<'_>) -> Result<Option<Command>, NoMemory>
    ensures asked { IfOk result (λ command.
        option_map asks command ≡ merge_asked (rows_of (found_of found.now))) }
    ensures range { IfOk result (λ command. IfSome command HasRange) }
{
    let out = word_in(found, "OUT");
    let members = words_in(alloc, found, "MEMBER")?;
    if is_name(out.as_bytes()) && are_series(&members) {
        let out = Text::copied(alloc, out.as_bytes())?;
        return Ok(Some(Command::Merge(out, members)));
    }
    Ok(None)
}

/// A range has a place at least.
fn walsummary_of(found: &ArgMatches<'_>) -> Option<Command>
    ensures asked { option_map asks result ≡ walsummary_asked (rows_of (found_of found.now)) }
    ensures range { IfSome result HasRange }
{
    let from = lsn_in(word_in(found, "FROM").as_bytes())?;
    let to = lsn_in(word_in(found, "TO").as_bytes())?;
    if from.0 < to.0 {
        return Some(Command::Walsummary(from, to));
    }
    None
}

fn follow_to(
    alloc: Global,
    segment: Option<SegSize>,
    relseg: Option<u32>,
    out: &str,
) -> Result<Option<Command>, NoMemory>
    requires segment { IfSome segment IsSegmentMib }
    requires relseg { IfSome relseg IsRelseg }
    ensures asked { IfOk result (λ command.
        option_map asks command ≡ follow_to segment relseg out.now) }
    ensures range { IfOk result (λ command. IfSome command HasRange) }
{
    if is_name(out.as_bytes()) {
        let segment = segment.unwrap_or(SegSize::standard());
        let relseg = relseg.unwrap_or(MOST_RELSEG);
        let out = Text::copied(alloc, out.as_bytes())?;
        return Ok(Some(Command::Follow(FollowSizes { segment, relseg }, out)));
    }
    Ok(None)
}

fn follow_of(alloc: Global, found: &ArgMatches<'_>) -> Result<Option<Command>, NoMemory>
    ensures asked { IfOk result (λ command.
        option_map asks command ≡ follow_asked (rows_of (found_of found.now))) }
    ensures range { IfOk result (λ command. IfSome command HasRange) }
{
    let out = word_in(found, "OUT");
    let Some(segment) = segment_given(option_in(found, "segment-mib")) else {
        return Ok(None);
    };
    match relseg_given(option_in(found, "relseg")) {
        None => Ok(None),
        Some(relseg) => follow_to(alloc, segment, relseg, out),
    }
}

fn drill_of(found: &ArgMatches<'_>) -> Option<Command>
    ensures asked { option_map asks result ≡ drill_asked (rows_of (found_of found.now)) }
    ensures range { IfSome result HasRange }
{
    let n = drill_number_in(word_in(found, "N").as_bytes())?;
    Some(Command::Drill(n))
}

/// What the subcommand of this name asks.
fn asked_by(alloc: Global, name: &str, found: &ArgMatches<'_>) -> Result<Option<Command>, NoMemory>
    ensures asked { IfOk result (λ command.
        option_map asks command ≡ asked_by name.now (rows_of (found_of found.now))) }
    ensures range { IfOk result (λ command. IfSome command HasRange) }
{
    if name == "init" {
        return Ok(init_of(found));
    }
    if name == "run" {
        return Ok(run_of(found));
    }
    if name == "replay" {
        return replay_of(alloc, found);
    }
    if name == "verify" {
        return verify_of(alloc, found);
    }
    if name == "restore" {
        return restore_of(alloc, found);
    }
    if name == "combine" {
        return combine_of(alloc, found);
    }
    if name == "merge-incr" {
        return merge_of(alloc, found);
    }
    if name == "walsummary" {
        return Ok(walsummary_of(found));
    }
    if name == "follow" {
        return follow_of(alloc, found);
    }
    if name == "drill" {
        return Ok(drill_of(found));
    }
    if name == "restart" {
        return Ok(Some(Command::Restart));
    }
    Ok(None)
}

/// What words that are text ask.
fn texts_ask<'a>(alloc: Global, words: &'a [&'a str]) -> Result<Option<Command>, NoMemory>
    ensures asked { IfOk result (λ command.
        option_map asks command ≡ texts_ask (map (λ w. w.now) words.now)) }
    ensures range { IfOk result (λ command. IfSome command HasRange) }
{
    let Some(matches) = taken(alloc, words)? else {
        return Ok(None);
    };
    match matches.subcommand() {
        None => Ok(None),
        Some((name, found)) => asked_by(alloc, name, found),
    }
}

/// A word as text. None exactly where it isn't UTF-8.
fn text_in(word: &[u8]) -> Option<&str>
    ensures some { IfSome result (λ text.
        (text.now ≡ word.now) × (is_utf8 word.now ≡ true)) }
    ensures none { IfNone result (is_utf8 word.now ≡ false) }
{
    match str::from_utf8(word) {
        Ok(text) => Some(text),
        Err(_) => None,
    }
}

/// Words as text. None exactly where one isn't UTF-8.
fn texts_in(alloc: Global, words: &[Text]) -> Result<Option<Vec<&str>>, NoMemory>
    ensures some { IfOk result (λ found. IfSome found (λ texts.
        (list_all is_utf8 words.now ≡ true) × (map (λ t. t.now) texts.items ≡ words.now))) }
    ensures none { IfOk result (λ found. IfNone found (list_all is_utf8 words.now ≡ false)) }
{
    let mut texts = Vec::new(alloc);
    for word in words {
        match text_in(word.as_bytes()) {
            Some(text) => texts.push(text)?,
            None => return Ok(None),
        }
    }
    Ok(Some(texts))
}

/// The command that the words ask for. None exactly where they aren't taken.
pub fn command_of(alloc: Global, words: &[Text]) -> Result<Option<Command>, NoMemory>
    ensures asked { IfOk result (λ command. option_map asks command ≡ asked words.now) }
    ensures range { IfOk result (λ command. IfSome command HasRange) }
{
    match texts_in(alloc, words)? {
        None => Ok(None),
        Some(texts) => texts_ask(alloc, &texts),
    }
}

//! The top call: all that the program does.

ghost use Rattle.std.specs.Prelude.{◌≡◌, ◌⊎◌, IfSome, Some};
ghost use Rattle.std.specs.Option.{option_map};
ghost use Rattle.vault.specs.Site.{AllHome};
ghost use Rattle.command_line.specs.Words.{asked, asks, HasRange};
ghost use Rattle.command_base.specs.Outside.{outside, of_all};
ghost use Rattle.pgbackup_cli.specs.command_answers.Telling.{text_of};
ghost use Rattle.pgbackup_cli.specs.Top.{DoesAsked, ReadsInput, ReadsClock, ComesTo, Ran};
ghost use Rattle.pgbackup_cli.specs.Inner.{TellsIn};

use crate::command_answers::{Answer, exit_status, text_of};
use crate::drill_command::drill;
use chain_commands::{combine, merge, restore, verify};
use command_base::Status;
use command_line::{Command, MemberNames, RunOptions, command_of};
use lsn_core::{AreaFault, Text};
use restart_command::restart;
use run_command::run;
use std::alloc::Global;
use std::sync::Wait;
use std::thread::Threads;
use store_commands::{follow, init, replay, walsummary};
use vault::{Clock, Sink, Site, Source, print};

/// Does what a command asks.
fn done<S: Site, I: Source, C: Clock>(
    rt: &(impl Threads + Wait + Sync),
    alloc: Global,
    command: &Command,
    site: &mut S,
    input: &mut I,
    clock: &mut C,
) -> Answer
    requires range { HasRange command.now }
    requires home { AllHome (S.areas site.old) }
    ensures does { DoesAsked (Some (asks command.now))
        (of_all S.Site I.Source C.Clock site.old input.old clock.old)
        (of_all S.Site I.Source C.Clock site.new input.new clock.new)
        result }
    ensures home { AllHome (S.areas site.new) }
    ensures input { ReadsInput (Some (asks command.now)) ⊎ (input.new ≡ input.old) }
    ensures clock { ReadsClock (Some (asks command.now)) ⊎ (clock.new ≡ clock.old) }
{
    match command {
        Command::Init(options) => Answer::Init(init(alloc, *options, site, clock)),
        Command::Run(options) => {
            let RunOptions { frames, days } = *options;
            Answer::Run(run(rt, alloc, frames, days, site, input, clock))
        }
        Command::Replay(upto, name) => Answer::Replay(replay(alloc, *upto, name.as_bytes(), site)),
        Command::Verify(name) => Answer::Verify(verify(alloc, name.as_bytes(), site)),
        Command::Restore(upto, out, names) => {
            let members = MemberNames { names };
            Answer::Restore(restore(alloc, *upto, out.as_bytes(), &members, site))
        }
        Command::Combine(out, names) => {
            let members = MemberNames { names };
            Answer::Combine(combine(alloc, out.as_bytes(), &members, site, clock))
        }
        Command::Merge(out, names) => {
            let members = MemberNames { names };
            Answer::Merge(merge(alloc, out.as_bytes(), &members, site, clock))
        }
        Command::Walsummary(from, to) => Answer::Walsummary(walsummary(alloc, *from, *to, site)),
        Command::Follow(sizes, name) => {
            Answer::Follow(follow(alloc, *sizes, name.as_bytes(), site, input))
        }
        Command::Drill(n) => Answer::Drill(drill(rt, alloc, *n, site, clock)),
        Command::Restart => Answer::Restart(restart(alloc, site)),
    }
}

/// Does what a command asks. Where there is none, the words aren't taken.
fn work<S: Site, I: Source, C: Clock>(
    rt: &(impl Threads + Wait + Sync),
    alloc: Global,
    command: &Option<Command>,
    site: &mut S,
    input: &mut I,
    clock: &mut C,
) -> Answer
    requires range { IfSome command.now HasRange }
    requires home { AllHome (S.areas site.old) }
    ensures does { DoesAsked (option_map asks command.now)
        (of_all S.Site I.Source C.Clock site.old input.old clock.old)
        (of_all S.Site I.Source C.Clock site.new input.new clock.new)
        result }
    ensures home { AllHome (S.areas site.new) }
    ensures input { ReadsInput (option_map asks command.now) ⊎ (input.new ≡ input.old) }
    ensures clock { ReadsClock (option_map asks command.now) ⊎ (clock.new ≡ clock.old) }
{
    match command {
        None => Answer::Usage,
        Some(command) => done(rt, alloc, command, site, input, clock),
    }
}

/// Prints the lines of an answer to what a command asks.
fn tell<O: Sink>(
    alloc: Global,
    command: &Option<Command>,
    answer: &Answer,
    out: &mut O,
) -> Result<(), AreaFault>
    ensures told { TellsIn O.Sink (text_of (option_map asks command.now) answer.now)
        out.old out.new result }
{
    let text = text_of(alloc, command, answer)?;
    print(out, text.as_bytes())
}

/// Does what a command asks, prints its lines, and answers what it came to, and the exit status.
fn carried_out<S: Site, I: Source, O: Sink, C: Clock>(
    rt: &(impl Threads + Wait + Sync),
    alloc: Global,
    command: &Option<Command>,
    site: &mut S,
    input: &mut I,
    out: &mut O,
    clock: &mut C,
) -> (Answer, Status)
    requires range { IfSome command.now HasRange }
    requires home { AllHome (S.areas site.old) }
    ensures comes { ComesTo (option_map asks command.now)
        (outside S.Site I.Source O.Sink C.Clock site.old input.old out.old clock.old)
        (outside S.Site I.Source O.Sink C.Clock site.new input.new out.new clock.new)
        result.0 result.1 }
    ensures home { AllHome (S.areas site.new) }
    ensures input { ReadsInput (option_map asks command.now) ⊎ (input.new ≡ input.old) }
    ensures clock { ReadsClock (option_map asks command.now) ⊎ (clock.new ≡ clock.old) }
{
    let answer = work(rt, alloc, command, site, input, clock);
    let telling = tell(alloc, command, &answer, out);
    let status = exit_status(&answer, telling);
    (answer, status)
}

/// Does what the words ask, prints its lines, and answers what it came to, and the exit status: for
/// who has more to tell of it than these lines. All else is as `pgbackup` has it.
pub fn answered<S: Site, I: Source, O: Sink, C: Clock>(
    rt: &(impl Threads + Wait + Sync),
    alloc: Global,
    words: &[Text],
    site: &mut S,
    input: &mut I,
    out: &mut O,
    clock: &mut C,
) -> (Answer, Status)
    requires { AllHome (S.areas site.old) }
    ensures comes { ComesTo (asked words.now)
        (outside S.Site I.Source O.Sink C.Clock site.old input.old out.old clock.old)
        (outside S.Site I.Source O.Sink C.Clock site.new input.new out.new clock.new)
        result.0 result.1 }
    ensures home { AllHome (S.areas site.new) }
    ensures input { ReadsInput (asked words.now) ⊎ (input.new ≡ input.old) }
    ensures clock { ReadsClock (asked words.now) ⊎ (clock.new ≡ clock.old) }
{
    match command_of(alloc, words) {
        Ok(command) => carried_out(rt, alloc, &command, site, input, out, clock),
        Err(_) => {
            let answer = Answer::NoMemory;
            let telling = tell(alloc, &None, &answer, out);
            let status = exit_status(&answer, telling);
            (answer, status)
        }
    }
}

/// All that the program does: it takes the words of the command line, does what they ask over the
/// areas of the site, prints its lines and answers the exit status. Every area is given back. Only
/// `run` and `follow` read the input, and only `run`, `combine`, `merge-incr`, `drill` and `init`
/// the clock, the last where no system identifier is given.
pub fn pgbackup<S: Site, I: Source, O: Sink, C: Clock>(
    rt: &(impl Threads + Wait + Sync),
    alloc: Global,
    words: &[Text],
    site: &mut S,
    input: &mut I,
    out: &mut O,
    clock: &mut C,
) -> Status
    requires { AllHome (S.areas site.old) }
    ensures ran { Ran words.now
        (outside S.Site I.Source O.Sink C.Clock site.old input.old out.old clock.old)
        (outside S.Site I.Source O.Sink C.Clock site.new input.new out.new clock.new)
        result }
    ensures home { AllHome (S.areas site.new) }
    ensures input { ReadsInput (asked words.now) ⊎ (input.new ≡ input.old) }
    ensures clock { ReadsClock (asked words.now) ⊎ (clock.new ≡ clock.old) }
{
    let (_, status) = answered(rt, alloc, words, site, input, out, clock);
    status
}

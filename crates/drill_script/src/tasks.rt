//! The tasks of the script.

ghost use Rattle.std.specs.Prelude.{◌≡◌, ◌≤◌, ◌<◌, ◌++◌, ◌∷◌, [], map, IfOk, OnOk};
ghost use Rattle.scripts.specs.declared.script.Command.TheVariants as does;
ghost use Rattle.drill_script.specs.Drill.{copier_lines, copier_task, drilled, flusher_task, line_of};
ghost use Rattle.drill_script.specs.Drill.{lines_from, writer_lines, writer_task, writers};

use crate::commands::{block_of, command_of, page_of};
use crate::writer::Writer;
use lsn_core::{NoMemory, Text};
use scripts::{Command, Line, Lines, Order, Script, Task};
use std::alloc::Global;

/// How many writers there are (profile).
const WRITERS: u32 = 4;

/// How many steps a writer goes (profile).
const STEPS: u32 = 500;

/// One line more.
fn push(lines: &mut Lines, number: u32, command: Command) -> Result<(), NoMemory>
    ensures { OnOk result (lines.new ≡ lines.old ++ (line_of number command ∷ [])) }
{
    lines.push(Line { number, command })
}

/// Puts a writer's steps behind its lines, the first of this number.
fn push_steps(
    alloc: Global,
    w: u32,
    number: u32,
    from: Writer,
    lines: &mut Lines,
) -> Result<(), NoMemory>
    requires writer { w < 4 }
    requires number { number ≤ 2014 }
    requires len { (1 ≤ from.len) × (from.len ≤ 200) }
    ensures { OnOk result (lines.new ≡ lines.old ++ lines_from w 500 number from) }
{
    let mut writer = from;
    for done in 0..STEPS {
        let command = command_of(alloc, w, writer.next())?;
        push(lines, number + done, command)?;
    }
    Ok(())
}

/// The lines of a writer.
fn writer_lines(alloc: Global, n: u32, w: u32) -> Result<Lines, NoMemory>
    requires { w < 4 }
    ensures { IfOk result (λ lines. lines ≡ writer_lines n w) }
{
    let number = 503 * w + 2;
    let from = Writer {
        at: 4 * u64::from(n) + u64::from(w),
        len: 20,
    };
    let mut lines = Lines::new(alloc);
    let create = Command::Insert(Order::Create(block_of(w, 0).fork));
    push(&mut lines, number, create)?;
    let grow = Command::Grow(block_of(w, 0), 20, page_of(0));
    push(&mut lines, number + 1, grow)?;
    push_steps(alloc, w, number + 2, from, &mut lines)?;
    Ok(lines)
}

/// The writer of a number from 0 to 3.
fn writer_task(alloc: Global, n: u32, w: u32) -> Result<Task, NoMemory>
    requires { w < 4 }
    ensures { IfOk result (λ task. task ≡ writer_task n w) }
{
    Ok(Task {
        name: Text::copied(alloc, &[b'w', b'0' + w as u8])?,
        lines: writer_lines(alloc, n, w)?,
    })
}

/// The worker that flushes.
fn flusher_task(alloc: Global) -> Result<Task, NoMemory>
    ensures { IfOk result (λ task. task ≡ flusher_task) }
{
    let mut lines = Lines::new(alloc);
    push(&mut lines, 2014, Command::Flush(400))?;
    Ok(Task {
        name: Text::copied(alloc, b"flusher")?,
        lines,
    })
}

/// A full backup of a name.
fn full(alloc: Global, name: &[u8]) -> Result<Command, NoMemory>
    ensures { IfOk result (λ command. command ≡ does.Full name.now) }
{
    Ok(Command::Full(Text::copied(alloc, name)?))
}

/// An incremental one of a name, on a prior one.
fn incr(alloc: Global, name: &[u8], prior: &[u8]) -> Result<Command, NoMemory>
    ensures { IfOk result (λ command. command ≡ does.Incr name.now prior.now) }
{
    let name = Text::copied(alloc, name)?;
    let prior = Text::copied(alloc, prior)?;
    Ok(Command::Incr(name, prior))
}

/// The lines of the worker that takes the backups.
fn copier_lines(alloc: Global) -> Result<Lines, NoMemory>
    ensures { IfOk result (λ lines. lines ≡ copier_lines) }
{
    let mut lines = Lines::new(alloc);
    push(&mut lines, 2016, full(alloc, b"drill_0")?)?;
    push(&mut lines, 2017, Command::Summarise)?;
    push(&mut lines, 2018, incr(alloc, b"drill_1", b"drill_0")?)?;
    push(&mut lines, 2019, Command::Checkpoint)?;
    push(&mut lines, 2020, incr(alloc, b"drill_2", b"drill_1")?)?;
    Ok(lines)
}

/// The worker that takes the backups.
fn copier_task(alloc: Global) -> Result<Task, NoMemory>
    ensures { IfOk result (λ task. task ≡ copier_task) }
{
    Ok(Task {
        name: Text::copied(alloc, b"copier")?,
        lines: copier_lines(alloc)?,
    })
}

/// Puts the tasks of all writers behind those that are there.
fn push_writers(alloc: Global, n: u32, tasks: &mut Vec<Task>) -> Result<(), NoMemory>
    ensures { OnOk result
        (tasks.new.items ≡ tasks.old.items ++ map (writer_task n) writers) }
{
    for w in 0..WRITERS {
        tasks.push(writer_task(alloc, n, w)?)?;
    }
    Ok(())
}

/// The script that is drawn from a number.
pub fn make_script(alloc: Global, n: u32) -> Result<Script, NoMemory>
    ensures { IfOk result (λ script. script ≡ drilled n) }
{
    let mut tasks = Vec::new(alloc);
    push_writers(alloc, n, &mut tasks)?;
    tasks.push(flusher_task(alloc)?)?;
    tasks.push(copier_task(alloc)?)?;
    Ok(Script::from_vec(tasks))
}

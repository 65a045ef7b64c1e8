//! The script of a drill: lines of it, what its writers come to, and how many commands they insert.

use crate::script_tests::command_text;
use drill_script::make_script;
use lsn_core::NoMemory;
use scripts::{Command, Line, Order, OrderEdit, OrderItem, Script, Task};
use std::alloc::Global;

/// The command of the line of a number.
fn line_text(alloc: Global, script: &Script, number: u32) -> Result<String, NoMemory> {
    for task in script.workers() {
        for line in task.lines.as_slice() {
            if line.number == number {
                return command_text(alloc, &line.command);
            }
        }
    }
    Ok(String::new(alloc))
}

/// Lines of the scripts of some numbers, as an independent program made them.
static LINES: [(u32, u32, &str); 29] = [
    (
        0,
        4,
        "change main 5 16384 4 patch 320 [116, 116, 116, 116, 116, 116, 116, 116];",
    ),
    (0, 503, "change main 5 16384 27 put 424 8192 12;"),
    (
        0,
        1010,
        "change main 5 16386 2 patch 72 [88, 88, 88, 88, 88, 88, 88, 88];",
    ),
    (0, 1513, "change main 5 16387 20 put 424 8192 251;"),
    (1, 2, "create main 5 16384"),
    (1, 3, "grow main 5 16384 0 20 424 8192 0"),
    (
        1,
        4,
        "change main 5 16384 12 patch 216 [59, 59, 59, 59, 59, 59, 59, 59];",
    ),
    (1, 5, "change main 5 16384 20 put 424 8192 251;"),
    (
        1,
        503,
        "change main 5 16384 13 patch 80 [102, 102, 102, 102, 102, 102, 102, 102];",
    ),
    (1, 505, "create main 5 16385"),
    (1, 507, "truncate 5 16385 15"),
    (1, 1006, "change main 5 16385 28 put 424 8192 59;"),
    (1, 1511, "create main 5 16387"),
    (
        1,
        2012,
        "change main 5 16387 0 patch 264 [201, 201, 201, 201, 201, 201, 201, 201];",
    ),
    (1, 2014, "flush 400"),
    (1, 2016, "full drill_0"),
    (1, 2017, "summarise"),
    (1, 2018, "incr drill_1 drill_0"),
    (1, 2019, "checkpoint"),
    (1, 2020, "incr drill_2 drill_1"),
    (
        7,
        5,
        "change main 5 16384 0 patch 72 [252, 252, 252, 252, 252, 252, 252, 252];",
    ),
    (7, 507, "truncate 5 16385 15"),
    (
        7,
        1509,
        "change main 5 16386 8 patch 208 [237, 237, 237, 237, 237, 237, 237, 237];",
    ),
    (
        7,
        2012,
        "change main 5 16387 5 patch 112 [135, 135, 135, 135, 135, 135, 135, 135];",
    ),
    (
        4_294_967_295,
        4,
        "change main 5 16384 14 patch 304 [207, 207, 207, 207, 207, 207, 207, 207];",
    ),
    (
        4_294_967_295,
        503,
        "change main 5 16384 20 patch 112 [162, 162, 162, 162, 162, 162, 162, 162];",
    ),
    (
        4_294_967_295,
        1006,
        "change main 5 16385 18 patch 280 [105, 105, 105, 105, 105, 105, 105, 105];",
    ),
    (
        4_294_967_295,
        1513,
        "change main 5 16387 20 put 424 8192 137;",
    ),
    (
        4_294_967_295,
        2012,
        "change main 5 16387 35 patch 320 [212, 212, 212, 212, 212, 212, 212, 212];",
    ),
];

#[test]
fn lines_are_drawn(rt: HostRuntime) -> Result<(), NoMemory> {
    for (n, number, says) in &LINES {
        let script = make_script(rt.alloc(), *n)?;
        let text = line_text(rt.alloc(), &script, *number)?;
        assert!(rt; text.as_bytes() == says.as_bytes(), "{n} {number}");
    }
    Ok(())
}

/// How many commands a line inserts.
fn count_of(line: &Line) -> u32 {
    match &line.command {
        Command::Insert(_) => 1,
        Command::Grow(_, count, _) => *count,
        Command::Checkpoint
        | Command::Flush(_)
        | Command::Summarise
        | Command::Full(_)
        | Command::Incr(_, _) => 0,
    }
}

/// How many commands a task inserts.
fn counts_of(task: &Task) -> u32 {
    let lines = task.lines.as_slice().iter();
    lines.fold(0, |count: u32, line| count.saturating_add(count_of(line)))
}

/// How many commands a script inserts.
fn commands_in(script: &Script) -> u32 {
    let tasks = script.workers().iter();
    tasks.fold(0, |count: u32, task| count.saturating_add(counts_of(task)))
}

/// How many blocks a fork has behind an order for it that found so many.
fn len_behind(len: u32, order: &Order) -> u32 {
    match order {
        Order::Truncate(_, count) => *count,
        Order::Change(items) => match items.as_slice() {
            [
                OrderItem {
                    at,
                    edit: OrderEdit::Put(_),
                },
            ] => len.max(at.block.saturating_add(1)),
            _ => len,
        },
        Order::Create(_) | Order::Drop(_) => 0,
    }
}

/// How many blocks a task's one fork has behind its lines.
fn final_len(task: &Task) -> u32 {
    let lines = task.lines.as_slice().iter();
    lines.fold(0, |len: u32, line| match &line.command {
        Command::Insert(order) => len_behind(len, order),
        Command::Grow(at, count, _) => at.block.saturating_add(*count),
        _ => len,
    })
}

/// The same of all tasks.
fn final_lens(alloc: Global, script: &Script) -> Result<Vec<u32>, NoMemory> {
    let mut lens = Vec::new(alloc);
    for task in script.workers() {
        lens.push(final_len(task))?;
    }
    Ok(lens)
}

/// How many blocks the forks of the workers have in the end, of the scripts of some numbers. The
/// last two have none.
static LENGTHS: [(u32, [u32; 6]); 4] = [
    (0, [28, 47, 27, 34, 0, 0]),
    (1, [27, 29, 17, 30, 0, 0]),
    (7, [20, 34, 17, 30, 0, 0]),
    (4_294_967_295, [49, 38, 13, 36, 0, 0]),
];

#[test]
fn forks_come_to_their_lengths(rt: HostRuntime) -> Result<(), NoMemory> {
    for (n, lens) in &LENGTHS {
        let script = make_script(rt.alloc(), *n)?;
        let came = final_lens(rt.alloc(), &script)?;
        assert!(rt; came.as_slice() == lens.as_slice(), "{n}");
        assert!(rt; commands_in(&script) == 2084, "{n}");
    }
    Ok(())
}

//! Scripts as they are read: each line that is taken, and where and why others are refused.

use lsn_core::{BlockId, ForkId, ForkKind, NoMemory, Text};
use scripts::{
    Command, MOST_WORKERS, Order, OrderEdit, OrderItem, PageShape, Script, ScriptFault,
    read_script, why_text,
};
use std::alloc::Global;

/// The script of a text, which is shorter than memory is, with so many workers at most.
fn script_of(alloc: Global, workers: usize, text: &[u8]) -> Result<Script, ScriptFault> {
    if text.len() > 1_000_000_000 {
        return Err(ScriptFault::NoMemory);
    }
    read_script(alloc, workers, text)
}

/// Where and why a text is refused, which may have so many workers.
fn refusal(alloc: Global, workers: usize, text: &[u8]) -> Option<(u32, &'static [u8])> {
    match script_of(alloc, workers, text) {
        Ok(_) => None,
        Err(ScriptFault::Line(line, why)) => Some((line, why_text(why))),
        Err(ScriptFault::NoMemory) => None,
    }
}

fn kind_word(kind: ForkKind) -> &'static str {
    match kind {
        ForkKind::Main => "main",
        ForkKind::Init => "init",
    }
}

fn fork_text(alloc: Global, fork: &ForkId) -> Result<String, NoMemory> {
    let (kind, db, rel) = (kind_word(fork.kind), fork.rel.db(), fork.rel.rel());
    Ok(format!(in alloc; "{kind} {db} {rel}")?)
}

fn shape_text(alloc: Global, shape: PageShape) -> Result<String, NoMemory> {
    let (lower, upper, fill) = (shape.lower(), shape.upper(), shape.fill());
    Ok(format!(in alloc; "{lower} {upper} {fill}")?)
}

/// What an edit does: a page by its three numbers, or fragments by their places and bytes.
fn edit_text(alloc: Global, edit: &OrderEdit) -> Result<String, NoMemory> {
    let frags = match edit {
        OrderEdit::Put(shape) => {
            let shape = shape_text(alloc, *shape)?;
            return Ok(format!(in alloc; "put {shape}")?);
        }
        OrderEdit::Patch(frags) => frags,
    };
    let mut text = format!(in alloc; "patch")?;
    for frag in frags.as_slice() {
        let (at, bytes) = (frag.at(), frag.bytes());
        text.push_str(&format!(in alloc; " {at} {bytes:?}")?)?;
    }
    Ok(text)
}

fn item_text(alloc: Global, item: &OrderItem) -> Result<String, NoMemory> {
    let fork = fork_text(alloc, &item.at.fork)?;
    let edit = edit_text(alloc, &item.edit)?;
    let block = item.at.block;
    Ok(format!(in alloc; " {fork} {block} {edit};")?)
}

fn items_text(alloc: Global, items: &[OrderItem]) -> Result<String, NoMemory> {
    let mut text = format!(in alloc; "change")?;
    for item in items {
        text.push_str(&item_text(alloc, item)?)?;
    }
    Ok(text)
}

fn order_text(alloc: Global, order: &Order) -> Result<String, NoMemory> {
    match order {
        Order::Create(fork) => {
            let fork = fork_text(alloc, fork)?;
            Ok(format!(in alloc; "create {fork}")?)
        }
        Order::Truncate(rel, count) => {
            let (db, rel) = (rel.db(), rel.rel());
            Ok(format!(in alloc; "truncate {db} {rel} {count}")?)
        }
        Order::Drop(rel) => {
            let (db, rel) = (rel.db(), rel.rel());
            Ok(format!(in alloc; "drop {db} {rel}")?)
        }
        Order::Change(items) => items_text(alloc, items.as_slice()),
    }
}

fn grow_text(
    alloc: Global,
    at: &BlockId,
    count: u32,
    shape: PageShape,
) -> Result<String, NoMemory> {
    let (fork, block) = (fork_text(alloc, &at.fork)?, at.block);
    let shape = shape_text(alloc, shape)?;
    Ok(format!(in alloc; "grow {fork} {block} {count} {shape}")?)
}

fn push_name(text: &mut String, name: &Text) -> Result<(), NoMemory> {
    for byte in name.as_bytes() {
        text.push(char::from(*byte))?;
    }
    Ok(())
}

pub fn command_text(alloc: Global, command: &Command) -> Result<String, NoMemory> {
    match command {
        Command::Insert(order) => order_text(alloc, order),
        Command::Grow(at, count, shape) => grow_text(alloc, at, *count, *shape),
        Command::Checkpoint => Ok(format!(in alloc; "checkpoint")?),
        Command::Flush(count) => Ok(format!(in alloc; "flush {count}")?),
        Command::Summarise => Ok(format!(in alloc; "summarise")?),
        Command::Full(name) => {
            let mut text = String::from_str(alloc, "full ")?;
            push_name(&mut text, name)?;
            Ok(text)
        }
        Command::Incr(name, prior) => {
            let mut text = String::from_str(alloc, "incr ")?;
            push_name(&mut text, name)?;
            text.push(' ')?;
            push_name(&mut text, prior)?;
            Ok(text)
        }
    }
}

/// The one line of a script's one worker `a_1`, the fourth.
fn only_command(script: &Script) -> Option<&Command> {
    let [task] = script.workers() else {
        return None;
    };
    let [line] = task.lines.as_slice() else {
        return None;
    };
    let is_it = task.name.as_bytes() == b"a_1".as_slice() && line.number == 4;
    if is_it { Some(&line.command) } else { None }
}

/// A line is taken as one of the worker `a_1`, and says this in words of its own.
fn is_taken(alloc: Global, line: &str, says: &str) -> Result<bool, NoMemory> {
    let text = format!(in alloc; "# head\n  worker \t a_1\t \n\n{line}\n#{line}")?;
    let Ok(script) = script_of(alloc, MOST_WORKERS, text.as_bytes()) else {
        return Ok(false);
    };
    match only_command(&script) {
        Some(command) => Ok(command_text(alloc, command)?.as_bytes() == says.as_bytes()),
        None => Ok(false),
    }
}

/// Lines, and what each says.
static TAKEN: [(&str, &str); 29] = [
    ("create 1/2", "create main 1 2"),
    ("\tcreate \t 1/2 ", "create main 1 2"),
    ("create 0000000001/0000000002", "create main 1 2"),
    ("create 1/2_init", "create init 1 2"),
    (
        "create 4294967295/4294967295",
        "create main 4294967295 4294967295",
    ),
    ("change 1/2@0=24,8192,7", "change main 1 2 0 put 24 8192 7;"),
    (
        "change 1/2_init@4294967295=24,24,255",
        "change init 1 2 4294967295 put 24 24 255;",
    ),
    (
        "change 1/2@00=0000000024,0008192,00",
        "change main 1 2 0 put 24 8192 0;",
    ),
    ("change 1/2@0+24:61", "change main 1 2 0 patch 24 [97];"),
    (
        "change 1/2_init@7+0:0aFf,0000065535:Bc,0:00",
        "change init 1 2 7 patch 0 [10, 255] 65535 [188] 0 [0];",
    ),
    (
        "change 1/2@1=24,24,0\t3/4_init@0+1:02 1/2@1+5:06,7:08",
        "change main 1 2 1 put 24 24 0; init 3 4 0 patch 1 [2]; main 1 2 1 patch 5 [6] 7 [8];",
    ),
    (
        "change 1/2@0+24:61,24:62",
        "change main 1 2 0 patch 24 [97] 24 [98];",
    ),
    ("change 1/2@0+8192:61", "change main 1 2 0 patch 8192 [97];"),
    (
        "change 1/2@0=24,24,0 1/2@0=24,24,1",
        "change main 1 2 0 put 24 24 0; main 1 2 0 put 24 24 1;",
    ),
    ("truncate 1/2 0", "truncate 1 2 0"),
    (" truncate\t01/2 4294967295", "truncate 1 2 4294967295"),
    ("drop 1/2", "drop 1 2"),
    ("\tdrop \t 4294967295/02", "drop 4294967295 2"),
    ("grow 1/2@0 1 24,8192,7", "grow main 1 2 0 1 24 8192 7"),
    (
        "grow\t1/2_init@4294967295 65536 24,24,255 ",
        "grow init 1 2 4294967295 65536 24 24 255",
    ),
    ("checkpoint", "checkpoint"),
    (" checkpoint\t", "checkpoint"),
    ("flush 0000000001", "flush 1"),
    ("flush 1000000", "flush 1000000"),
    ("summarise", "summarise"),
    (" summarise\t", "summarise"),
    ("full f_1", "full f_1"),
    ("incr i_1 f_1", "incr i_1 f_1"),
    (
        " full\tabcdefghijklmnopqrstuvwxyz012345 ",
        "full abcdefghijklmnopqrstuvwxyz012345",
    ),
];

#[test]
fn lines_are_taken(rt: HostRuntime) -> Result<(), NoMemory> {
    for (line, says) in &TAKEN {
        assert!(rt; is_taken(rt.alloc(), line, says)?, "{line}");
    }
    Ok(())
}

/// Scripts, and where and why each is refused.
static REFUSED: [(&str, u32, &str); 97] = [
    ("\n#\u{7f}\n", 2, "Bytes"),
    ("worker a\r\n", 1, "Bytes"),
    ("x\0", 1, "Bytes"),
    ("worker a\nworker a\u{1}", 2, "Bytes"),
    (" # a", 1, "Word"),
    ("  ", 1, "Word"),
    ("\t\n", 1, "Word"),
    ("worker", 1, "Word"),
    ("worker a b", 1, "Word"),
    ("worker A", 1, "Word"),
    ("worker abcdefghijklmnopqrstuvwxyz0123456", 1, "Word"),
    ("create 0/1", 1, "Word"),
    ("worker a\ncreate 1/0", 2, "Word"),
    ("worker a\ncreate 1/2_vm", 2, "Word"),
    ("worker a\ncreate 1/2_init_init", 2, "Word"),
    ("worker a\ncreate 4294967296/1", 2, "Word"),
    ("worker a\ncreate 00000000001/2", 2, "Word"),
    ("worker a\ncreate 1/2 1/3", 2, "Word"),
    ("worker a\nchange 1/2@4294967296=24,24,255", 2, "Word"),
    ("worker a\nchange 1/2@0=24,8192,256", 2, "Word"),
    ("worker a\nchange 1/2@0=23,8192,0", 2, "Word"),
    ("worker a\nchange 1/2@0=24,8193,0", 2, "Word"),
    ("worker a\nchange 1/2@0=25,24,0", 2, "Word"),
    ("worker a\nchange 1/2@0=24,65560,0", 2, "Word"),
    ("worker a\nchange 1/2@0=24,8192,0,0", 2, "Word"),
    ("worker a\nchange", 2, "Word"),
    ("worker a\nchange 1/2@0", 2, "Word"),
    ("worker a\nchange 1/2@0+", 2, "Word"),
    ("worker a\nchange 1/2@0+24", 2, "Word"),
    ("worker a\nchange 1/2@0+24:", 2, "Word"),
    ("worker a\nchange 1/2@0+:61", 2, "Word"),
    ("worker a\nchange 1/2@0+24:6", 2, "Word"),
    ("worker a\nchange 1/2@0+24:616", 2, "Word"),
    ("worker a\nchange 1/2@0+24:6g", 2, "Word"),
    ("worker a\nchange 1/2@0+65536:61", 2, "Word"),
    ("worker a\nchange 1/2@0+24:61,", 2, "Word"),
    ("worker a\nchange 1/2@0+,24:61", 2, "Word"),
    ("worker a\nchange 1/2@0+24:61,24", 2, "Word"),
    ("worker a\nchange 1/2@0+24:61:62", 2, "Word"),
    ("worker a\nchange 1/2@0+24,8192,7", 2, "Word"),
    ("worker a\nchange 1/2@0=24:61", 2, "Word"),
    ("worker a\nchange 1/2@0+24:61 1/2@1", 2, "Word"),
    ("worker a\nchange 1/2@0+24:61 1/2@1=24,8192,256", 2, "Word"),
    ("worker a\ntruncate 1/2", 2, "Word"),
    ("worker a\ntruncate 1/2 1 1", 2, "Word"),
    ("worker a\ntruncate 1/0 1", 2, "Word"),
    ("worker a\ntruncate 1/2_init 1", 2, "Word"),
    ("worker a\ntruncate 1/2 4294967296", 2, "Word"),
    ("worker a\ntruncate 1 1/2", 2, "Word"),
    ("worker a\ndrop", 2, "Word"),
    ("worker a\ndrop 1", 2, "Word"),
    ("worker a\ndrop 0/2", 2, "Word"),
    ("worker a\ndrop 1/2_init", 2, "Word"),
    ("worker a\ndrop 1/2 1/3", 2, "Word"),
    ("worker a\nDrop 1/2", 2, "Word"),
    ("worker a\ndrops 1/2", 2, "Word"),
    ("drop 1/2\nworker a", 1, "NoWorker"),
    ("worker a\ngrow 1/2@0 1", 2, "Word"),
    ("worker a\ngrow 1/2@0 1 24,8192,7 1", 2, "Word"),
    ("worker a\ngrow 1/2 1 24,8192,7", 2, "Word"),
    ("worker a\ngrow 1/2@0 0 24,8192,7", 2, "Word"),
    ("worker a\ngrow 1/2@0 65537 24,8192,7", 2, "Word"),
    ("worker a\ngrow 1/2@0 1 24,8193,7", 2, "Word"),
    ("worker a\ncheckpoint 1", 2, "Word"),
    ("worker a\ncheckpoints", 2, "Word"),
    ("worker a\nflush", 2, "Word"),
    ("worker a\nflush 0", 2, "Word"),
    ("worker a\nflush 1000001", 2, "Word"),
    ("worker a\nflush 1 1", 2, "Word"),
    ("worker a\nsummarise 1", 2, "Word"),
    ("worker a\nsummarises", 2, "Word"),
    ("worker a\nfull", 2, "Word"),
    ("worker a\nfull f1 f2", 2, "Word"),
    ("worker a\nfull F1", 2, "Word"),
    ("worker a\nincr i1", 2, "Word"),
    ("worker a\nincr i1 F1", 2, "Word"),
    ("worker a\nincr f1 f1", 2, "Word"),
    ("worker a\nincr i1 f1 f2", 2, "Word"),
    (
        "worker a\nfull abcdefghijklmnopqrstuvwxyz0123456",
        2,
        "Word",
    ),
    ("full f1\nworker a", 1, "NoWorker"),
    ("checkpoint\nworker a", 1, "NoWorker"),
    ("summarise\nworker a", 1, "NoWorker"),
    ("worker a\nerase 1/2", 2, "Word"),
    ("worker a\nworker B", 2, "Word"),
    ("create 1/2\nworker a", 1, "NoWorker"),
    ("worker a\n\nworker a\nworker a", 3, "Twice"),
    ("worker a\nworker b\nworker b", 3, "Twice"),
    ("worker a\nworker b\nworker a", 3, "Twice"),
    ("worker a\nfull f\nworker b\nfull f", 4, "Twice"),
    ("worker a\nfull f\nworker b\nincr i f", 4, "Twice"),
    ("worker a\nfull f\nworker b\nincr f i", 4, "Twice"),
    ("worker a\nincr i f\nworker b\nfull f", 4, "Twice"),
    ("worker a\nincr i f\nworker b\nfull i", 4, "Twice"),
    ("worker a\nfull f\nworker b\nworker c\nfull f", 5, "Twice"),
    (
        "worker a\nworker b\nfull f\nfull g\nworker c\ncheckpoint\nincr h g",
        7,
        "Twice",
    ),
    (
        "worker a\nworker b\nworker c\nworker d\nworker e\nworker f\nworker g\nworker h\nworker i",
        9,
        "Many",
    ),
    (
        "worker a\nworker b\nworker c\nworker d\nworker e\nworker f\nworker g\nworker h\nworker c",
        9,
        "Twice",
    ),
];

#[test]
fn lines_are_refused(rt: HostRuntime) {
    for (text, number, why) in &REFUSED {
        let refused = refusal(rt.alloc(), MOST_WORKERS, text.as_bytes());
        assert!(rt; refused == Some((*number, why.as_bytes())), "{text}");
    }
}

/// The tasks of a script: names, numbers of lines and commands.
fn tasks_text(alloc: Global, script: &Script) -> Result<String, NoMemory> {
    let mut text = String::new(alloc);
    for task in script.workers() {
        push_name(&mut text, &task.name)?;
        text.push(':')?;
        for line in task.lines.as_slice() {
            let (number, says) = (line.number, command_text(alloc, &line.command)?);
            text.push_str(&format!(in alloc; " {number} {says};")?)?;
        }
        text.push('\n')?;
    }
    Ok(text)
}

/// Scripts of several workers, and their tasks.
static SHARED: [(&str, &str); 5] = [
    ("worker a\nworker b", "a:\nb:\n"),
    (
        "worker a\nfull f\n\nincr i f\nfull f\nworker b\nflush 1\nincr g h\nincr h g\n",
        "a: 2 full f; 4 incr i f; 5 full f;\nb: 7 flush 1; 8 incr g h; 9 incr h g;\n",
    ),
    (
        "worker a\ncheckpoint\nworker b\nworker c\ncheckpoint\nsummarise",
        "a: 2 checkpoint;\nb:\nc: 5 checkpoint; 6 summarise;\n",
    ),
    (
        "worker f\nfull g\nworker g\nfull f",
        "f: 2 full g;\ng: 4 full f;\n",
    ),
    (
        "worker a\nworker b\nworker c\nworker d\nworker e\nworker f\nworker g\nworker h\nfull i",
        "a:\nb:\nc:\nd:\ne:\nf:\ng:\nh: 9 full i;\n",
    ),
];

#[test]
fn workers_have_their_lines(rt: HostRuntime) -> Result<(), NoMemory> {
    for (text, says) in &SHARED {
        let tasks = match script_of(rt.alloc(), MOST_WORKERS, text.as_bytes()) {
            Ok(script) => tasks_text(rt.alloc(), &script)?,
            Err(_) => String::new(rt.alloc()),
        };
        assert!(rt; tasks.as_bytes() == says.as_bytes(), "{text}");
    }
    let one = refusal(rt.alloc(), 1, b"worker a\n# b\nworker b");
    assert!(rt; one == Some((3, b"Many".as_slice())));
    Ok(())
}

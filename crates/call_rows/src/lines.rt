//! What a line does, unless it stops a command.

use crate::script::{BAD, Printed, Step, cut, place_in, steps_in};
use crate::stage::Stage;
use lsn_core::AreaFault;
use std::alloc::Global;
use std::sync::Wait;
use std::thread::Threads;
use test_areas::Change;
use wal_crc::Crc;

/// Runs the program, on a file or on lines of input, and prints as `>`, `quiet` or `again` do.
fn run(rt: &(impl Threads + Wait + Sync), stage: &mut Stage, word: &str, step: &Step) -> Printed {
    let (_, line) = cut(step.line);
    let (words, path) = line.split_once(" < ").unwrap_or((line, ""));
    let input = match place_in(path) {
        Some((area, file)) => stage.read(area, file.as_bytes())?,
        None => step.input.as_bytes().to_vec(stage.alloc)?,
    };
    let (status, printed) = stage.run(rt, words, &input)?;
    let again = word == "again" && stage.printed.as_slice() == printed.as_slice();
    stage.printed = printed;
    if again {
        return Ok(b"again\n".to_vec(stage.alloc)?);
    }
    let mut out = Vec::new(stage.alloc);
    if word != "quiet" {
        out.extend_from_slice(&stage.printed)?;
    }
    let status = status.code();
    out.extend_from_slice(format!(in stage.alloc; "= {status}\n")?.as_bytes())?;
    Ok(out)
}

/// A place and the bytes of hexadecimal digits behind it.
fn put_in(alloc: Global, words: &str) -> Option<(u64, Vec<u8>)> {
    let (at, digits) = words.split_once(' ')?;
    let bytes = hex::decode(alloc, digits.as_bytes()).ok()?;
    Some((at.parse::<u64>().ok()?, bytes))
}

/// Changes a file.
fn changes(stage: &mut Stage, word: &str, rest: &str, input: &str) -> Printed {
    let (path, rest) = cut(rest);
    let (name, file) = place_in(path).ok_or(BAD)?;
    let (area, file) = (name.as_bytes(), file.as_bytes());
    if word == "cut" {
        let size = stage.read(name, file)?.len() as u64;
        let count = rest.parse::<u64>().ok().ok_or(BAD)?;
        stage.change(area, Change::Cut(file, size.saturating_sub(count)))?;
    } else if word == "put" {
        let (at, bytes) = put_in(stage.alloc, rest).ok_or(BAD)?;
        stage.change(area, Change::Write(file, at, &bytes))?;
    } else {
        stage.change(area, Change::Remove(file))?;
    }
    if word == "write" {
        stage.change(area, Change::Write(file, 0, input.as_bytes()))?;
    }
    Ok(Vec::new(stage.alloc))
}

/// So many bytes from a place on, both in words.
fn some_of<'a>(bytes: &'a [u8], words: &str) -> Option<&'a [u8]> {
    let (at, count) = words.split_once(' ')?;
    let from = bytes.get(at.parse::<usize>().ok()?..)?;
    from.get(..count.parse::<usize>().ok()?)
}

/// Shows a file or some of its bytes.
fn shows(stage: &mut Stage, word: &str, rest: &str) -> Printed {
    let (path, rest) = cut(rest);
    let (area, file) = place_in(path).ok_or(BAD)?;
    let bytes = stage.read(area, file.as_bytes())?;
    if word == "text" {
        return Ok(bytes);
    }
    let digits = hex::encode(stage.alloc, some_of(&bytes, rest).ok_or(BAD)?)?;
    Ok(format!(in stage.alloc; "{digits}\n")?.into_bytes())
}

/// Name, length and CRC-32C of each file of an area.
fn lists(stage: &mut Stage, area: &str) -> Printed {
    let mut lines = Vec::new(stage.alloc);
    for (name, bytes) in &stage.files(area)? {
        let mut crc = Crc::new();
        crc.add(bytes);
        let (length, sum) = (bytes.len(), crc.value());
        lines.extend_from_slice(name)?;
        lines.extend_from_slice(format!(in stage.alloc; " {length} {sum:08x}\n")?.as_bytes())?;
    }
    Ok(lines)
}

/// Says whether two areas have the same files.
fn compares(stage: &mut Stage, rest: &str) -> Printed {
    let (one, other) = cut(rest);
    let (one, other) = (stage.files(one)?, stage.files(other)?);
    let same = one.len() == other.len() && one.iter().all(|file| other.contains(file));
    let line = if same { "same\n" } else { "differ\n" };
    Ok(line.as_bytes().to_vec(stage.alloc)?)
}

/// Sets the site: anew, as it was kept, or to another moment.
fn sets(stage: &mut Stage, word: &str, rest: &str) -> Printed {
    match word.as_bytes() {
        b"begin" => *stage = Stage::new(stage.alloc, rest)?,
        b"keep" => stage.keep()?,
        b"back" => stage.back()?,
        b"clock" => stage.moment = rest.parse::<u32>().ok().ok_or(BAD)?,
        _ => return Err(BAD),
    }
    Ok(Vec::new(stage.alloc))
}

/// Does a line.
fn does(rt: &(impl Threads + Wait + Sync), stage: &mut Stage, step: &Step) -> Printed {
    let (line, (word, rest)) = (step.line, cut(step.line));
    match word.as_bytes() {
        b"" | b"#" => Ok(format!(in stage.alloc; "{line}\n")?.into_bytes()),
        b">" | b"quiet" | b"again" => run(rt, stage, word, step),
        b"cut" | b"put" | b"remove" | b"write" => changes(stage, word, rest, step.input.as_str()),
        b"text" | b"bytes" => shows(stage, word, rest),
        b"files" => lists(stage, rest),
        b"same" => compares(stage, rest),
        _ => sets(stage, word, rest),
    }
}

/// Does a line that stops no command.
pub fn take(rt: &(impl Threads + Wait + Sync), stage: &mut Stage, step: &Step) -> Printed {
    match does(rt, stage, step) {
        Err(AreaFault::Failed) => {
            let number = step.number;
            Ok(format!(in stage.alloc; "bad line {number}\n")?.into_bytes())
        }
        printed => printed,
    }
}

/// Does lines that stop no command.
pub fn take_all(rt: &(impl Threads + Wait + Sync), stage: &mut Stage, text: &str) -> Printed {
    let mut out = Vec::new(stage.alloc);
    for step in &steps_in(stage.alloc, text)? {
        out.extend_from_slice(&take(rt, stage, step)?)?;
    }
    Ok(out)
}

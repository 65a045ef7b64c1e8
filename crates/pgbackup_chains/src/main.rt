//! The program `pgbackup-chains`: `main` hands the function `show_chains` the words of the command
//! line and the system's areas and standard output, and ends with its status.
#![tactic(auto)]

use chain_view::{Outcome, show_chains};
use lsn_core::{NoMemory, Text};
use std::env;
use std::io::ErrorKind;
use std::process::ExitCode;
use vault_os::{OsSink, OsSite};

const USAGE: &str = "usage: pgbackup-chains [--json] [--for LSN] FOLDER
  lists the backups in FOLDER/NAME.. in their chains: kind, START, END, prior, files and their bytes
  FOLDER: the folder of the backups, below the working directory, as b
  --for LSN: prints the members of the newest chain that ends at or before LSN, as 0/1000108, in
  the order in which pgbackup restore takes them
  --json: prints JSON
";

/// The words of the command line. A word that isn't UTF-8 leaves none, which aren't taken.
fn words_of(rt: &HostRuntime) -> Result<Vec<Text>, NoMemory> {
    let mut words = Vec::new(rt.alloc());
    let args = match env::args(rt) {
        Ok(args) => args,
        Err(error) if error.kind() == ErrorKind::OutOfMemory => return Err(NoMemory),
        Err(_) => return Ok(words),
    };
    for arg in args.skip(1) {
        words.push(Text::from_vec(arg.into_bytes()))?;
    }
    Ok(words)
}

/// Prints on standard error what there is to say of an outcome, and what the system said of a
/// device that failed.
fn say(rt: &HostRuntime, outcome: Outcome, said: Option<&str>) {
    let _ = match outcome {
        Outcome::Usage => eprint!(rt; "{USAGE}"),
        Outcome::NoChain => eprintln!(rt;
            "pgbackup-chains: error: no chain ends there or before it"
        ),
        Outcome::Told | Outcome::Device | Outcome::Memory => match said {
            Some(said) => eprintln!(rt; "pgbackup-chains: {said}"),
            None => Ok(()),
        },
    };
}

fn run_words(rt: &HostRuntime) -> Result<Outcome, NoMemory> {
    let words = words_of(rt)?;
    let mut site = OsSite::new(rt.clone()?, None);
    let mut out = OsSink::new(rt.clone()?);
    let outcome = show_chains(rt.alloc(), &words, &mut site, &mut out);
    say(rt, outcome, site.said().or(out.said()));
    Ok(outcome)
}

fn main(rt: HostRuntime) -> ExitCode {
    let Ok(outcome) = run_words(&rt) else {
        return ExitCode::from(Outcome::Memory.code());
    };
    ExitCode::from(outcome.code())
}

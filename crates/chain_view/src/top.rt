//! The top call: all that the program does.

ghost use Rattle.std.specs.Prelude.{◌≡◌};
ghost use Rattle.vault.specs.Site.{AllHome};
ghost use Rattle.vault.specs.Lending.{SiteReads};
ghost use Rattle.chain_view.specs.Asked.{asks};
ghost use Rattle.chain_view.specs.Top.{code_of, outcome_of, Tells, Answers, Ran};

use crate::answer::answer_in;
use crate::words::{Asked, asked_of};
use lsn_core::{AreaFault, Text};
use std::alloc::Global;
use vault::{Sink, Site, print};

/// What the program comes to.
#[derive(Clone, Copy, Debug, PartialEq, Eq)]
pub enum Outcome {
    /// The answer is printed.
    Told,
    /// No chain ends at or before the place that is asked for.
    NoChain,
    /// The words aren't taken.
    Usage,
    /// A device failed.
    Device,
    /// Memory ran out.
    Memory,
}

impl Outcome {
    /// The number that the process ends with, as `pgbackup` has them.
    pub fn code(self) -> u8
        ensures { result ≡ code_of self }
    {
        match self {
            Outcome::Told => 0,
            Outcome::NoChain => 1,
            Outcome::Usage => 2,
            Outcome::Device => 3,
            Outcome::Memory => 4,
        }
    }
}

/// What the program comes to where a call fails.
fn outcome_of(why: AreaFault) -> Outcome
    ensures { result ≡ outcome_of why }
{
    match why {
        AreaFault::Failed => Outcome::Device,
        AreaFault::NoMemory => Outcome::Memory,
    }
}

/// Prints an answer, where there is one.
fn tell<O: Sink>(answer: Option<Text>, out: &mut O) -> Outcome
    ensures { Tells O.Sink answer out.old out.new result }
{
    let Some(text) = answer else {
        return Outcome::NoChain;
    };
    match print(out, text.as_bytes()) {
        Ok(()) => Outcome::Told,
        Err(why) => outcome_of(why),
    }
}

/// Prints what is asked for.
fn answered<S: Site, O: Sink>(
    alloc: Global,
    asked: &Asked<'_>,
    site: &mut S,
    out: &mut O,
) -> Outcome
    requires { AllHome (S.areas site.old) }
    ensures told { Answers S.Site O.Sink (asks asked.now) site.old site.new out.old out.new result }
    ensures site { SiteReads (S.areas site.old) (S.areas site.new) }
    ensures home { AllHome (S.areas site.new) }
{
    match answer_in(alloc, asked, site) {
        Ok(answer) => tell(answer, out),
        Err(why) => outcome_of(why),
    }
}

/// All that the program does: it takes the words of the command line, reads the manifests and
/// labels of the backups in the folder that they name, prints the listing or the members of the
/// chain that they ask for, and answers what it came to. No file changes.
pub fn show_chains<S: Site, O: Sink>(
    alloc: Global,
    words: &[Text],
    site: &mut S,
    out: &mut O,
) -> Outcome
    requires { AllHome (S.areas site.old) }
    ensures ran { Ran S.Site O.Sink words.now site.old site.new out.old out.new result }
    ensures site { SiteReads (S.areas site.old) (S.areas site.new) }
    ensures home { AllHome (S.areas site.new) }
{
    match asked_of(words) {
        Some(asked) => answered(alloc, &asked, site, out),
        None => Outcome::Usage,
    }
}

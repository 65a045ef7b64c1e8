//! The forks of a store in segment files.

ghost use Rattle.std.specs.Prelude.{◌≡◌, IfOk, OnOk};
ghost use Rattle.lsn_core.specs.Causes.{HasCause};
ghost use Rattle.lsn_core.specs.Shown.{Turns};
ghost use Rattle.vault.specs.Frame.{OnlyReads};
ghost use Rattle.rel_files.specs.Shown.{HoldsStore, KeepsOthers, ListsForks};
ghost use Rattle.rel_files.specs.Inside.{is_first, FindsFirst, KeepsKnown, LearnsNamed};

use crate::forks::Forks;
use crate::known::lengths;
use crate::raw_calls::RawCalls;
use lsn_core::{AreaFault, ForkId, ForkLen, path_fork};
use vault::Vault;

impl<V: Vault> Forks<V> {
    /// The forks that are there, in order, with the numbers of their whole pages.
    pub fn list(&mut self) -> Result<Vec<ForkLen>, AreaFault>
        ensures list { IfOk result (λ list. ListsForks (HoldsStore V.Vault self.old) list.items) }
        ensures held { Turns (HoldsStore V.Vault) self.old self.new (λ s. s) }
        ensures kept { KeepsOthers V.Vault self.old self.new }
        ensures reads { OnlyReads V.Vault self.old.area self.new.area }
        ensures cause { HasCause (V.faults self.old.area) (V.faults self.new.area) result }
    {
        // known: a file has some blocks
        let _some = self.relseg.blocks();
        let names = self.area.names(self.alloc)?;
        for name in &names {
            self.learn(name.as_bytes())?;
        }
        Ok(lengths(self.alloc, &self.known)?)
    }

    /// Looks up how many pages a fork has whose first file has this name.
    fn learn(&mut self, name: &[u8]) -> Result<(), AreaFault>
        ensures learned { OnOk result
            (LearnsNamed (HoldsStore V.Vault self.old) name.now self.new.known) }
        ensures known { OnOk result (KeepsKnown self.old.known self.new.known) }
        ensures held { Turns (HoldsStore V.Vault) self.old self.new (λ s. s) }
        ensures kept { KeepsOthers V.Vault self.old self.new }
        ensures reads { OnlyReads V.Vault self.old.area self.new.area }
        ensures cause { HasCause (V.faults self.old.area) (V.faults self.new.area) result }
    {
        if let Some(fork) = first_fork(name) {
            self.count(&fork)?;
        }
        Ok(())
    }
}

/// The fork whose first file has this name.
fn first_fork(name: &[u8]) -> Option<ForkId>
    ensures { FindsFirst name.now result }
{
    let (fork, seg, incr) = path_fork(name)?;
    if is_first(seg, incr) {
        return Some(fork);
    }
    None
}

/// Whether this is a fork's first segment, in its plain form.
fn is_first(seg: u32, incr: bool) -> bool
    ensures { result ≡ is_first seg incr }
{
    seg == 0 && !incr
}

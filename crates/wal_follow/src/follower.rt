//! A follower of a stream.

ghost use Rattle.std.specs.Prelude.{◌≡◌, ◌≤◌, List, ℕ, [], Some, Err, ◌++◌, length, take, IfOk, IfErr, OnOk, OnErr};
ghost use Rattle.lsn_core.specs.Shown.{BlockAnswer};
ghost use Rattle.lsn_core.specs.Segment.{IsRelseg};
ghost use Rattle.wal_reader.specs.Settings.{system_in};
ghost use Rattle.wal_follow.specs.declared.fault.FollowFault.{FollowFault};
ghost use Rattle.wal_follow.specs.Following.{front_size, new_following, settings_of, StandsBehind, FollowsOn, FollowsTo, RefusesStream, FinishGives, len_of, fork_lens};
ghost use Rattle.wal_follow.specs.Inside.{TakesIn, ReadsEntries, RefusedIn, AsksFound, ForgetsRead};

use crate::fault::FollowFault;
use crate::reading::read_on;
use crate::step::{Step, step_behind};
use crate::window::{Window, nonzero_end};
use history::PageMap;
use lsn_core::byte_words::u64_in;
use lsn_core::{BlockId, ForkId, ForkLen, Lsn, NoMemory, SegSize, Settings, WalTip};
use std::alloc::Global;
use std::marker::Model;
use wal_archive::{Broken, Damage};
use wal_record::first_tip;

/// How many bytes of a stream tell the system identifier.
const FRONT: usize = 32;

/// A follower of a stream: the pages that its entries so far make, and the bytes that stand behind
/// them. Contracts see a `Following`.
#[derive(Drop)]
pub struct Follower {
    relseg: u32,
    front: Vec<u8>,
    tip: WalTip,
    store: PageMap,
    window: Window,
    ended: bool,
    fault: Option<FollowFault>,
    alloc: Global,
}

impl Model for Follower {
    ghost use Rattle.wal_follow.specs.Following.{Following, CanGoOn};
    ghost use Rattle.wal_follow.specs.FollowingCode.{following_code};

    ghost Value = { Following };

    ghost coded = { following_code };

    ghost view = { λ f. record {
      relseg = f.relseg;
      front = f.front.items;
      tip = f.tip;
      store = f.store;
      span = f.window;
      ended = f.ended;
      fault = f.fault;
    } };

    ghost invariant = { λ f. CanGoOn f.relseg f.front.items f.tip f.window };
}

/// The system identifier that stands in a page's first bytes; 0 where its first 32 bytes aren't
/// there.
fn system_of(front: &[u8]) -> u64
    ensures { result ≡ system_in front.now }
{
    if front.len() < FRONT {
        return 0;
    }
    u64_in(front, 24)
}

/// Takes the bytes of a piece that are still missing at a stream's front.
fn fill_front(front: &mut Vec<u8>, piece: &[u8]) -> Result<(), NoMemory>
    requires { length front.old.items ≤ front_size }
    ensures few { length front.new.items ≤ front_size }
    ensures filled { OnOk result
        (front.new.items ≡ take front_size (front.old.items ++ piece.now)) }
{
    let count = piece.len().min(FRONT - front.len());
    front.extend_from_slice(&piece[..count])?;
    Ok(())
}

impl Follower {
    /// A follower of a stream that gave no byte yet.
    pub fn new(alloc: Global, segment: SegSize, relseg: u32) -> Result<Follower, NoMemory>
        requires { IsRelseg relseg }
        ensures new { IfOk result (λ f. f ≡ new_following segment relseg) }
        ensures follows { IfOk result (λ f. StandsBehind f []) }
    {
        // known: a segment has a MiB at least
        let _mib = segment.mib();
        Ok(Follower {
            relseg,
            front: Vec::new(alloc),
            tip: first_tip(segment),
            store: PageMap::new(alloc),
            window: Window::new(alloc, segment),
            ended: true,
            fault: None,
            alloc,
        })
    }

    /// The settings by which it reads.
    fn settings(&self) -> Settings
        ensures { result ≡ settings_of self.now }
    {
        Settings::new(self.window.size(), self.relseg, system_of(&self.front)).unwrap()
    }

    /// Takes a piece in, and says whether nothing else stands behind the entries for it: it is all
    /// zeros, and the archive ended there.
    fn take_in(&mut self, piece: &[u8]) -> Result<bool, NoMemory>
        ensures taken { IfOk result (TakesIn self.old piece.now self.new) }
        ensures fault { OnErr result (self.new.fault ≡ self.old.fault) }
    {
        let before = system_of(&self.front);
        fill_front(&mut self.front, piece)?;
        self.window.add(piece)?;
        let same = system_of(&self.front) == before;
        Ok(same && self.ended && nonzero_end(piece) == 0)
    }

    /// Reads and applies the entries that are whole.
    fn read_whole(&mut self) -> Result<(), FollowFault>
        ensures read { OnOk result (ReadsEntries self.old self.new) }
        ensures refused { IfErr result (RefusedIn self.old) }
        ensures fault { self.new.fault ≡ self.old.fault }
    {
        let settings = self.settings();
        let mut tip = self.tip;
        let mut ended = false;
        let mut area = self.window.area();
        read_on(
            self.alloc,
            &mut area,
            &settings,
            &mut tip,
            &mut self.store,
            &mut ended,
        )?;
        self.tip = tip;
        self.ended = ended;
        Ok(())
    }

    /// Forgets the bytes before the tip.
    fn forget(&mut self)
        ensures { ForgetsRead self.old self.new }
    {
        let place = self.tip.end.0.min(self.window.top());
        self.window.drop_before(place);
    }

    /// Takes a piece of the stream, and reads what became whole.
    fn take_piece(&mut self, piece: &[u8]) -> Result<(), FollowFault>
        ensures follows { OnOk result ((fed : List ℕ) → StandsBehind self.old fed
            → FollowsTo self.old self.new fed piece.now) }
        ensures refused { IfErr result (λ why. (fed : List ℕ) → StandsBehind self.old fed
            → RefusesStream self.old.span.mib self.old.relseg (fed ++ piece.now) why) }
    {
        if self.take_in(piece)? {
            return Ok(());
        }
        self.read_whole()?;
        self.forget();
        Ok(())
    }

    /// Takes the next bytes of the stream, and says how many entries became whole. `Damaged` and
    /// `BadDelta` exactly where the archive of all bytes so far is damaged other than that it ends
    /// within an entry or a head, or has an entry that can't be applied, as replay gives them.
    /// After a fault every later call answers the same.
    pub fn feed(&mut self, piece: &[u8]) -> Result<u64, FollowFault>
        ensures fed { IfOk result (λ count. (fed : List ℕ) → StandsBehind self.old fed
            → FollowsOn self.old self.new fed piece.now count) }
        ensures refused { IfErr result (λ why. (fed : List ℕ) → StandsBehind self.old fed
            → RefusesStream self.old.span.mib self.old.relseg (fed ++ piece.now) why) }
        ensures kept { IfErr result (λ why. self.new.fault ≡ Some why) }
        ensures again { (why : FollowFault) → self.old.fault ≡ Some why
            → (result ≡ Err why) × (self.new ≡ self.old) }
    {
        if let Some(fault) = self.fault {
            return Err(fault);
        }
        let before = self.tip.count;
        match self.take_piece(piece) {
            Ok(()) => Ok(self.tip.count.saturating_sub(before)),
            Err(fault) => {
                self.fault = Some(fault);
                Err(fault)
            }
        }
    }

    /// The end of the archive behind the tip, or its damage.
    fn asked(&self) -> Result<Lsn, FollowFault>
        ensures { AsksFound self.now result }
    {
        let settings = self.settings();
        let mut area = self.window.area();
        match step_behind(self.alloc, &mut area, &settings, self.tip)? {
            Step::Torn(at) => Err(FollowFault::Damaged(Damage::Broken(at, Broken::Torn))),
            Step::Entry(_, _) | Step::Ended => Ok(self.tip.end),
        }
    }

    /// Where the archive of all bytes so far ends, or how it is damaged there, also where it ends
    /// within an entry or a head, as replay gives it. It changes nothing but that a fault is kept.
    pub fn finish(&mut self) -> Result<Lsn, FollowFault>
        ensures end { (fed : List ℕ) → StandsBehind self.old fed
            → FinishGives self.old fed result }
        ensures same { OnOk result (self.new ≡ self.old) }
        ensures kept { IfErr result (λ why. self.new ≡ record self.old { fault = Some why }) }
        ensures again { (why : FollowFault) → self.old.fault ≡ Some why
            → (result ≡ Err why) × (self.new ≡ self.old) }
    {
        if let Some(fault) = self.fault {
            return Err(fault);
        }
        if self.ended {
            return Ok(self.tip.end);
        }
        match self.asked() {
            Ok(end) => Ok(end),
            Err(fault) => {
                self.fault = Some(fault);
                Err(fault)
            }
        }
    }

    /// Where the entries so far end.
    pub fn end(&self) -> Lsn
        ensures { result.0 ≡ self.now.tip.end }
    {
        self.tip.end
    }

    /// The forks that the entries so far make, in order.
    pub fn forks(&self) -> Result<Vec<ForkLen>, NoMemory>
        ensures { IfOk result (λ forks. forks.items ≡ fork_lens self.now.store) }
    {
        let mut list = Vec::new(self.alloc);
        let names = self.store.forks(self.alloc)?;
        for fork in &names {
            list.push(self.fork_len(*fork)?)?;
        }
        Ok(list)
    }

    /// A fork with its length. It fails where a u32 doesn't count its blocks, which no memory
    /// holds.
    fn fork_len(&self, fork: ForkId) -> Result<ForkLen, NoMemory>
        ensures { IfOk result (λ len. len ≡ len_of self.now.store fork) }
    {
        let blocks = self.store.blocks(&fork).unwrap_or(0);
        Ok(ForkLen {
            fork,
            blocks: u32::try_from(blocks).map_err(|_| NoMemory)?,
        })
    }

    /// Reads a page that the entries so far make. False exactly where there is no such block, and
    /// then the buffer stays.
    pub fn read_page(&self, at: BlockId, into: &mut [u8; 8192]) -> bool
        ensures { BlockAnswer self.now.store at into.old into.new result }
    {
        match self.store.block(&at) {
            Some(page) => {
                *into = *page;
                true
            }
            None => false,
        }
    }
}

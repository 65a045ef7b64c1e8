//! The site that a script works on.

ghost use Rattle.std.specs.Prelude.{IfOk};
ghost use Rattle.vault.specs.Site.{AllHome};
ghost use Rattle.memory_vault.specs.MemorySite.{areas_of};

use lsn_core::{AreaFault, NoMemory, Text};
use memory_vault::{MemSink, MemSite, MemSource, MemVault, SetClock};
use pgbackup_cli::{Status, pgbackup};
use std::alloc::Global;
use std::sync::Wait;
use std::thread::Threads;
use test_areas::{Change, make};
use vault::{Site, Vault, read_in};

/// The moment of a new site, in 2023.
const MOMENT: u32 = 1_700_000_000;

/// The data areas of a store.
const DATA: &str = "data0 data1 data2 data3";

/// The pick of a stop that leaves all that was written.
pub const ALL: u64 = 1;

/// Files, each with its bytes behind its name.
pub type Files = Vec<(Vec<u8>, Vec<u8>)>;

/// A site with all its areas at home, the names of the areas that are copied, which stand between
/// spaces, what was kept of these areas, and the moment.
#[derive(Drop)]
pub struct Stage {
    pub alloc: Global,
    pub moment: u32,
    /// What the last command printed.
    pub printed: Vec<u8>,
    names: String,
    kept: Vec<MemVault>,
    site: MemSite,
    ghost home: { AllHome (areas_of site) },
}

/// A site with copies of these areas. It has a fuse, where so many calls are to pass and no more.
fn site_with(
    alloc: Global,
    names: &str,
    areas: &[MemVault],
    calls: Option<u64>,
) -> Result<MemSite, NoMemory>
    ensures { IfOk result (λ site. AllHome (areas_of site)) }
{
    let mut site = match calls {
        Some(calls) => MemSite::fused(alloc, calls)?,
        None => MemSite::new(alloc, &[])?,
    };
    for (name, area) in names.split_whitespace().zip(areas) {
        site.set(name.as_bytes(), area.stopped(ALL)?)?;
    }
    Ok(site)
}

impl Stage {
    /// An empty site, of which the areas of a store are copied, and these more.
    pub fn new(alloc: Global, more: &str) -> Result<Stage, AreaFault> {
        Ok(Stage {
            alloc,
            moment: MOMENT,
            printed: Vec::new(alloc),
            names: format!(in alloc; "wal sums {DATA} {more}")?,
            kept: Vec::new(alloc),
            site: MemSite::new(alloc, &[])?,
        })
    }

    /// The same with copies of these areas, and a fuse, where so many calls are to pass.
    pub fn over(&self, areas: &[MemVault], calls: Option<u64>) -> Result<Stage, AreaFault> {
        let mut stage = Stage::new(self.alloc, "")?;
        stage.moment = self.moment;
        stage.names = self.names.clone()?;
        stage.site = site_with(self.alloc, self.names.as_str(), areas, calls)?;
        Ok(stage)
    }

    /// What a stop leaves of an area by a pick.
    fn left_of(&mut self, name: &[u8], pick: u64) -> Result<MemVault, AreaFault> {
        let area = self.site.take(name)?;
        let left = area.stopped(pick);
        self.site.give(name, area);
        Ok(left?)
    }

    /// What a stop leaves of the areas by a pick.
    pub fn left(&mut self, pick: u64) -> Result<Vec<MemVault>, AreaFault> {
        let mut areas = Vec::new(self.alloc);
        let names = self.names.clone()?;
        for name in names.split_whitespace() {
            areas.push(self.left_of(name.as_bytes(), pick)?)?;
        }
        Ok(areas)
    }

    /// Remembers the areas.
    pub fn keep(&mut self) -> Result<(), AreaFault> {
        self.kept = self.left(ALL)?;
        Ok(())
    }

    /// Brings back the areas that were remembered, and empties all others.
    pub fn back(&mut self) -> Result<(), AreaFault> {
        self.site = site_with(self.alloc, self.names.as_str(), &self.kept, None)?;
        Ok(())
    }

    /// Runs the program with the words of a line. Its status, and all that it prints.
    pub fn run(
        &mut self,
        rt: &(impl Threads + Wait + Sync),
        line: &str,
        input: &[u8],
    ) -> Result<(Status, Vec<u8>), AreaFault> {
        let alloc = self.alloc;
        let mut words = Vec::new(alloc);
        for word in line.split_whitespace() {
            words.push(Text::copied(alloc, word.as_bytes())?)?;
        }
        let mut input = MemSource::new(alloc, input, &[])?;
        let mut out = MemSink::new(alloc, &[])?;
        let mut clock = SetClock::new(u64::from(self.moment));
        let site = &mut self.site;
        let status = pgbackup(rt, alloc, &words, site, &mut input, &mut out, &mut clock);
        Ok((status, out.bytes().to_vec(alloc)?))
    }

    /// The bytes of a file, none where it is missing.
    pub fn read(&mut self, area: &str, file: &[u8]) -> Result<Vec<u8>, AreaFault> {
        read_in(self.alloc, &mut self.site, area.as_bytes(), file)
    }

    /// The names of the files of an area.
    fn names_of(&mut self, name: &[u8]) -> Result<Vec<Text>, AreaFault> {
        let mut area = self.site.take(name)?;
        let names = area.names(self.alloc);
        self.site.give(name, area);
        names
    }

    /// The files of an area, behind others.
    fn add_files(&mut self, name: &str, files: &mut Files) -> Result<(), AreaFault> {
        for file in self.names_of(name.as_bytes())? {
            let bytes = self.read(name, file.as_bytes())?;
            files.push((file.into_vec(), bytes))?;
        }
        Ok(())
    }

    /// The files of an area. Those of the four data areas are the files of `data`.
    pub fn files(&mut self, name: &str) -> Result<Files, AreaFault> {
        let mut files = Vec::new(self.alloc);
        let areas = if name == "data" { DATA } else { name };
        for area in areas.split_whitespace() {
            self.add_files(area, &mut files)?;
        }
        Ok(files)
    }

    /// Changes an area.
    pub fn change(&mut self, name: &[u8], change: Change) -> Result<(), AreaFault> {
        let mut area = self.site.take(name)?;
        let made = make(&mut area, change);
        self.site.give(name, area);
        made
    }
}

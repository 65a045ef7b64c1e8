//! What a writer does, step by step.

ghost use Rattle.std.specs.Prelude.{◌≡◌, ◌≤◌, ◌<◌};
ghost use Rattle.drill_script.specs.Draw.{stepped, drawn};
ghost use Rattle.drill_script.specs.Writer.{writer_at, cut_next, put_next, patch_next, next};

/// How many blocks a writer's fork has at most.
const MOST_BLOCKS: u32 = 200;

/// A step of a writer (profile).
#[derive(Clone, Copy, Debug)]
pub enum Step {
    /// The fork is cut to its first blocks, so many.
    Cut(u32),
    /// A page is put at this block, the bytes around its hole of this value.
    Put(u32, u8),
    /// Eight bytes of a value are written over this block, from this place of the page on.
    Patch(u32, u16, u8),
}

/// A writer before a step: the number that it draws from, and how many blocks its fork has.
#[derive(Clone, Copy, Debug)]
pub struct Writer {
    pub at: u64,
    pub len: u32,
}

impl Writer {
    /// The next number below this, of the linear congruential generator of Knuth's MMIX.
    fn draw(&mut self, most: u32) -> u32
        requires { 1 ≤ most }
        ensures writer { self.new ≡ writer_at (stepped self.old.at) self.old.len }
        ensures number { result ≡ drawn self.old.at most }
        ensures below { result < most }
    {
        self.at = self
            .at
            .wrapping_mul(6_364_136_223_846_793_005)
            .wrapping_add(1_442_695_040_888_963_407);
        ((self.at >> 33) % u64::from(most)) as u32
    }

    /// Cuts the fork, by at most a quarter.
    fn cut(&mut self) -> Step
        requires { self.old.len ≤ 200 }
        ensures { (result, self.new) ≡ cut_next self.old }
    {
        let most = self.len / 4 + 1;
        self.len -= self.draw(most);
        Step::Cut(self.len)
    }

    /// Puts a page behind the fork's last block.
    fn put(&mut self) -> Step
        requires { self.old.len ≤ 200 }
        ensures { (result, self.new) ≡ put_next self.old }
    {
        let fill = self.draw(256) as u8;
        let block = self.len;
        self.len += 1;
        Step::Put(block, fill)
    }

    /// Writes over a block.
    fn patch(&mut self) -> Step
        requires { (1 ≤ self.old.len) × (self.old.len ≤ 200) }
        ensures { (result, self.new) ≡ patch_next self.old }
    {
        let block = self.draw(self.len);
        let place = 24 + 8 * self.draw(50) as u16;
        let fill = self.draw(256) as u8;
        Step::Patch(block, place, fill)
    }

    /// The next step (profile). The fork keeps a block, and has at most 200.
    pub fn next(&mut self) -> Step
        requires { (1 ≤ self.old.len) × (self.old.len ≤ 200) }
        ensures step { (result, self.new) ≡ next self.old }
        ensures within { (1 ≤ self.new.len) × (self.new.len ≤ 200) }
    {
        let kind = self.draw(16);
        if kind == 0 {
            return self.cut();
        }
        if kind <= 3 && self.len < MOST_BLOCKS {
            return self.put();
        }
        self.patch()
    }
}

// A burst's blocks: what is kept of each, whether a list of them is in range, and the list by value (`Gathered`), which the fit and the
// tracker read. Definitions in specs/.
#![tactic(auto)]

ghost use Rattle.std.specs.Prelude.{◌≡◌, ◌≤◌, ◌<◌, ℕ, List, length, get_or, leb, ltb, ◌&&◌};
ghost use Rattle.util.specs.Refusal.{number_of};
ghost use Rattle.blocks.specs.Doubles.{as_f64, within};
ghost use Rattle.blocks.specs.Blocks.{nowhere, half};
ghost use Rattle.blocks.specs.Lists.{blocks_of};
ghost use Rattle.blocks.specs.Inside.{nothing, point_of, push_of, Gathers};
ghost use Rattle.util.specs.Choose.{choose};
ghost use Rattle.blocks.specs.declared.Block.{Block};

use util::refusal::Refusal;

// Twice a block's place, and its timing.
#[derive(Clone, Copy, Debug, PartialEq)]
pub struct Block {
    pub place2: u32,
    pub timing: f64,
}

// A block's place and its timing, as the fit reads them.
#[derive(Clone, Copy, Debug, PartialEq)]
pub struct Point {
    pub place: f64,
    pub timing: f64,
}

// Blocks as points, with the last place, the greatest, and whether all are in range.
#[derive(Clone, Copy, Debug, PartialEq)]
pub struct Gathered {
    pub points: [Point; 64],
    pub last: u32,
    pub top: u32,
    pub good: bool,
}

// Where blocks come from: a lent list of them, or their fields in two lists.
pub trait Blocks {
    ghost listed: { Self → List Block };

    fn count(&self) -> usize
        ensures { result ≡ length (listed self.now) };

    fn at(&self, i: usize) -> Block
        requires { i < length (listed self.now) }
        ensures { result ≡ get_or (listed self.now) i nowhere };
}

impl Blocks for &[Block] {
    ghost listed = { λ s. s.now };

    fn count(&self) -> usize {
        self.len()
    }

    fn at(&self, i: usize) -> Block {
        self[i]
    }
}

// Blocks whose fields lie in two lists, as C lends them. Where one list is longer its rest is not read.
#[derive(Clone, Copy, Debug, PartialEq)]
pub struct Fields<'a> {
    pub places: &'a [u32],
    pub timings: &'a [f64],
}

impl Blocks for Fields<'_> {
    ghost listed = { λ s. blocks_of s.places.now s.timings.now };

    fn count(&self) -> usize {
        self.places.len().min(self.timings.len())
    }

    fn at(&self, i: usize) -> Block {
        Block {
            place2: self.places[i],
            timing: self.timings[i],
        }
    }
}

// Inside: whether x lies within ±most; a NaN does not.
pub fn within(most: f64, x: f64) -> bool
    ensures { result ≡ within most x }
{
    -most <= x && x <= most
}

// Inside: a block's place.
pub fn half(place2: u32) -> f64
    ensures { result ≡ half place2 }
{
    f64::from(place2) / 2.0
}

impl Block {
    // Inside: the block as a point.
    pub fn point(self) -> Point
        ensures { result ≡ point_of self }
    {
        Point {
            place: half(self.place2),
            timing: self.timing,
        }
    }
}

impl Gathered {
    // No block yet.
    fn none() -> Self
        ensures { result ≡ nothing }
    {
        Self {
            points: [Point {
                place: 0.0,
                timing: 0.0,
            }; 64],
            last: 0,
            top: 0,
            good: true,
        }
    }

    // Whether the blocks so far are good and b, which follows them, is in range and does not fall.
    fn still_good(&self, b: Block) -> bool
        ensures { result ≡ self.now.good && (leb self.now.last b.place2 && (leb b.place2 4096 && within (as_f64 4096) b.timing)) }
    {
        self.good && self.last <= b.place2 && b.place2 <= 4096 && within(4096.0, b.timing)
    }

    // Block i more.
    fn push(&mut self, i: usize, b: Block)
        requires { i < 64 }
        ensures { self.new ≡ push_of self.old i b }
    {
        self.good = self.still_good(b);
        self.points[i] = b.point();
        self.top = self.top.max(b.place2);
        self.last = b.place2;
    }
}

// Inside: the first k blocks, one by one. They are gathered in place: a gathered list handed on by value would be copied at each block.
pub fn gather<B: Blocks>(blocks: &B, k: usize) -> Gathered
    requires { (k ≤ length (B.listed blocks.now)) × (k ≤ 64) }
    ensures { Gathers (B.listed blocks.now) k result }
{
    let mut g = Gathered::none();
    // By places: the blocks of two lists lie nowhere that an iterator could lend them.
    for i in 0..k {
        g.push(i, blocks.at(i));
    }
    g
}

// Inside: the refusal of two lists of two lengths, whatever number the mode is.
pub fn two_lengths(mode: u8) -> Refusal
    ensures { number_of result ≡ choose (ltb 1 mode) 1 4 }
{
    if mode > 1 {
        Refusal::Unnamed
    } else {
        Refusal::Length
    }
}

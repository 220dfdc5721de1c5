// The start state of every survivor of a pass, followed forward through the decisions, eight states at a time: each state has the one that
// its predecessor had. A traceback from every state would find the same, one by one.
#![tactic(auto)]

ghost use Rattle.std.specs.Prelude.{◌≡◌, ℕ, ◌+◌, ◌*◌, ◌%◌, ◌<◌, ◌≤◌, eqb, length, get_or};
ghost use Rattle.std.specs.Int.Bits.{bit_and};
ghost use Rattle.util.specs.Choose.{choose};
ghost use Rattle.util.specs.Table.{Stored};
ghost use Rattle.forward.specs.Follow.{Masks, Eight, Part, Followed, Starts};

use std::array;

// A mask for each of eight decisions.
fn masks() -> [u16; 8]
    ensures { Masks result }
{
    [0x1, 0x2, 0x4, 0x8, 0x10, 0x20, 0x40, 0x80]
}

// The start state that a survivor has from its predecessor: a from the lower one, b where the decision is for the upper one.
fn taken(piece: u16, mask: u16, a: u16, b: u16) -> u16
    ensures { result ≡ choose (eqb (bit_and piece mask) 0) a b }
{
    if piece & mask == 0 { a } else { b }
}

// What eight states have from their predecessors, two of which each pair has: from x on, and 8,192 above.
fn eight(from: &[u16], x: usize, masks: &[u16; 8], piece: u16) -> [u16; 8]
    requires { (length from.now ≡ 16384) × (x + 4 ≤ 8192) }
    ensures { Eight from.now x masks.now piece result }
{
    array::from_fn(|k| taken(piece, masks[k], from[x + k / 2], from[x + 8192 + k / 2]))
}

// Lays them from z on. All is read before this stores, so that both go in vector code.
fn lay(to: &mut [u16], z: usize, eight: &[u16; 8])
    requires { (length to.old ≡ 16384) × (z + 8 ≤ 16384) }
    ensures { Stored 0 8 z (λ k. get_or eight.now k 0) to.old to.new }
{
    to[z..z + 8].copy_from_slice(eight);
}

// The eight states of part i, by their eight decisions.
fn part(from: &[u16], to: &mut [u16], masks: &[u16; 8], piece: u16, i: usize)
    requires from_len { (length from.now ≡ 16384) × (length to.old ≡ 16384) × (i < 2048) }
    requires masks { Masks masks.now }
    ensures { Part from.now piece (i * 8) 8 to.old to.new }
{
    let r = eight(from, i * 4, masks, piece);
    lay(to, i * 8, &r);
}

// The 32 states of half i of a word, by their 32 decisions.
fn half(from: &[u16], to: &mut [u16], masks: &[u16; 8], bits: u32, i: usize)
    requires from_len { (length from.now ≡ 16384) × (length to.old ≡ 16384) × (i < 512) }
    requires masks { Masks masks.now }
    ensures { Part from.now bits (i * 32) 32 to.old to.new }
{
    part(from, to, masks, (bits % 0x100) as u16, 4 * i);
    part(from, to, masks, (bits / 0x100 % 0x100) as u16, 4 * i + 1);
    part(from, to, masks, (bits / 0x10000 % 0x100) as u16, 4 * i + 2);
    part(from, to, masks, (bits / 0x1000000) as u16, 4 * i + 3);
}

// The 64 states of word w, by their 64 decisions.
fn word(from: &[u16], to: &mut [u16], masks: &[u16; 8], bits: u64, w: usize)
    requires from_len { (length from.now ≡ 16384) × (length to.old ≡ 16384) × (w < 256) }
    requires masks { Masks masks.now }
    ensures { Part from.now bits (w * 64) 64 to.old to.new }
{
    half(from, to, masks, (bits % 0x1_0000_0000) as u32, 2 * w);
    half(from, to, masks, (bits / 0x1_0000_0000) as u32, 2 * w + 1);
}

// Step j: each state has the start state that its predecessor had.
fn follow(decisions: &[u64], j: usize, from: &[u16], to: &mut [u16])
    requires { (length from.now ≡ 16384) × (length to.old ≡ 16384) × (j < 64) × (j * 256 + 256 ≤ length decisions.now) }
    ensures { Followed decisions.now j from.now to.new }
{
    let masks = masks();
    for w in 0..256usize {
        word(from, to, &masks, decisions[j * 256 + w], w);
    }
}

// Before the first step each state is its own start.
fn itself(starts: &mut [u16])
    requires { length starts.old ≡ 16384 }
    ensures { (length starts.new ≡ 16384) × ((s : ℕ) → s < 16384 → get_or starts.new s 0 ≡ s) }
{
    for s in 0..16384usize {
        starts[s] = s as u16;
    }
}

// Inside: the start state of every state's survivor over an even number of steps, in `starts`: the two lists take turns.
pub fn trace_all(decisions: &[u64], steps: usize, starts: &mut [u16], other: &mut [u16])
    requires { (length starts.old ≡ 16384) × (length other.old ≡ 16384) × (steps ≤ 64) × (steps % 2 ≡ 0)
        × (length decisions.now ≡ steps * 256) }
    ensures { Starts decisions.now steps starts.new }
{
    itself(starts);
    for j in (0..steps).step_by(2) {
        follow(decisions, j, starts, other);
        follow(decisions, j + 1, other, starts);
    }
}

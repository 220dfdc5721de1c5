// Both interleavers (phy_mfsk/frame.rs): the two scramblers; the receiving halves, which put what was heard slot by
// slot back in the order of data bits, or of code symbols; and the sending halves, two public entries. Definitions in
// specs/.
#![tactic(auto)]

ghost use Rattle.std.specs.Prelude.{ℕ, ◌≡◌, ◌+◌, ◌*◌, ◌%◌, ◌≤◌, ◌<◌, eqb, length, get_or, replicate};
ghost use Rattle.std.specs.Float.{nan};
ghost use Rattle.std.specs.Float.Ieee.{neg};
ghost use Rattle.std.specs.Int.Bits.{bit_xor};
ghost use Rattle.util.specs.Choose.{choose};
ghost use Rattle.util.specs.Table.{tabled, rows, Stored};
ghost use Rattle.util.specs.Refusal.{meaning};
ghost use Rattle.frame.specs.Air.{placed};
ghost use Rattle.interleave.specs.Interleave.{symbols_of, scramble_of, sym_scramble_of, bit_back, sym_back};
ghost use Rattle.interleave.specs.Sending.{bits_answer, slots_after, symbols_answer, values_after};

use util::refusal::Refusal;

// Inside: how many symbols a burst has: five bits to each, the last one perhaps with fewer.
pub fn symbols_of(bits: u32) -> u64
    ensures { result ≡ symbols_of bits }
{
    ((bits as u64) + 4) / 5
}

// Inside: scrambling bit of data bit p.
pub fn scramble(p: u64) -> u64
    ensures { result ≡ scramble_of p }
{
    util::mix64(p ^ 0x5343_5241_4D42_4C45) % 2
}

// Inside: scrambling value of code symbol p of a symbol-mapped burst.
pub fn sym_scramble(p: u64) -> u64
    ensures { result ≡ sym_scramble_of p }
{
    util::mix64(p ^ 0x5359_4D42_5343_524D) % 32
}

// The soft bit of data bit p, from what its slot holds.
fn unscrambled(l: f32, p: u64) -> f32
    ensures { result ≡ choose (eqb (scramble_of p) 1) (neg l) l }
{
    if scramble(p) == 1 {
        return -l;
    }
    l
}

// Inside: slot soft bits back in data-bit order, with the scrambling removed.
pub fn deinterleave(n: u64, slots: &[f32], out: &mut [f32])
    requires { (n ≤ 10240) × (n ≤ length slots.now) × (length out.old ≤ n) }
    ensures { out.new ≡ tabled (length out.old) (bit_back n (λ s. get_or slots.now s nan)) }
{
    let a = util::mult(n);
    for (p, x) in out.iter_mut().enumerate() {
        let s = (a * (p as u64) % n) as usize;
        *x = unscrambled(slots[s], p as u64);
    }
}

// The metric of value c, from slot s, whose symbol's scrambling value is r.
fn metric(slots: &[f32], s: usize, r: u64, c: usize) -> f32
    requires { (r < 32) × (c < 32) × (32 * s + 32 ≤ length slots.now) }
    ensures { result ≡ get_or slots.now (32 * s + bit_xor c r) nan }
{
    slots[32 * s + (((c as u64) ^ r) as usize)]
}

// The 32 metrics of code symbol p, whose scrambling value is r, from slot s.
fn take_symbol(slots: &[f32], s: usize, r: u64, out: &mut [f32], p: usize)
    requires { (r < 32) × (32 * s + 32 ≤ length slots.now) × (32 * p + 32 ≤ length out.old) }
    ensures { Stored nan 32 (32 * p) (λ c. get_or slots.now (32 * s + bit_xor c r) nan) out.old out.new }
{
    for (c, x) in out[32 * p..32 * p + 32].iter_mut().enumerate() {
        *x = metric(slots, s, r, c);
    }
}

// Inside: the metrics of n slots back in code-symbol order and code-symbol values.
pub fn deinterleave_sym(n: u64, slots: &[f32], out: &mut [f32])
    requires { (n ≤ 10240) × (length slots.now ≡ 32 * n) × (length out.old ≡ 32 * n) }
    ensures { out.new ≡ tabled (32 * n) (rows 32 (sym_back n (λ s v. get_or slots.now (32 * s + v) nan))) }
{
    let a = util::mult(n);
    for p in 0..n {
        let s = (a * p % n) as usize;
        take_symbol(slots, s, sym_scramble(p), out, p as usize);
    }
}

// Data bit p as it is sent.
fn scrambled_bit(x: u8, p: u64) -> u8
    ensures { result ≡ (x + scramble_of p) % 2 }
{
    (((x as u64) + scramble(p)) % 2) as u8
}

// Code symbol p as it is sent.
fn scrambled_symbol(x: u8, p: u64) -> u8
    ensures { result ≡ bit_xor x (sym_scramble_of p) }
{
    ((x as u64) ^ sym_scramble(p)) as u8
}

// The slot after slot s: (s + a) mod n, without a division.
fn next_slot(n: u64, a: u64, s: u64) -> u64
    requires { (n ≤ 10240) × (a ≤ n) × (s < n) }
    ensures { result ≡ (s + a) % n }
{
    let next = s + a;
    if next < n { next } else { next - n }
}

// Each bit, or each symbol, as it is sent, to its slot among n.
fn place<F: Fn(u8, u64) -> u8>(n: u64, message: &[u8], slots: &mut [u8], sent: F)
    requires lengths { (n ≤ 10240) × (length message.now ≤ n) × (length slots.old ≡ n) }
    requires callable { F.IsAlwaysCallable sent }
    ensures { (value : ℕ → ℕ) → ((p r : ℕ) → F.post sent (get_or message.now p 0) p r → r ≡ value p)
        → slots.new ≡ placed n value (length message.now) slots.old }
{
    let a = util::mult(n);
    let mut s = 0u64;
    for p in 0..message.len() {
        slots[s as usize] = sent(message[p], p as u64);
        s = next_slot(n, a, s);
    }
}

// Public entry: data bits, slot by slot (document 02, #101). The lent slots are five for each symbol of the bits.
pub fn interleave(bits: &[u8], slots: &mut [u8]) -> Result<(), Refusal>
    ensures answer { meaning result ≡ bits_answer bits.now (length slots.old) }
    ensures lent { slots.new ≡ slots_after bits.now slots.old }
{
    if bits.len() > 10240 {
        return Err(Refusal::TooMany);
    }
    let n = 5 * symbols_of(bits.len() as u32);
    if slots.len() != n as usize {
        return Err(Refusal::Length);
    }
    if frame::some_above_one(bits) {
        return Err(Refusal::NotBits);
    }
    // a slot that no bit reaches carries 0
    slots.fill(0);
    place(n, bits, slots, scrambled_bit);
    Ok(())
}

// Public entry: code symbols, slot by slot (document 02, #101). As many values are lent as there are symbols.
pub fn interleave_sym(symbols: &[u8], values: &mut [u8]) -> Result<(), Refusal>
    ensures answer { meaning result ≡ symbols_answer symbols.now (length values.old) }
    ensures lent { values.new ≡ values_after symbols.now values.old }
{
    if symbols.len() > 2048 {
        return Err(Refusal::TooMany);
    }
    if values.len() != symbols.len() {
        return Err(Refusal::Length);
    }
    if frame::some_above(31, symbols) {
        return Err(Refusal::NotSymbols);
    }
    place(symbols.len() as u64, symbols, values, scrambled_symbol);
    Ok(())
}

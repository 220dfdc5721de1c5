// The header's code (fec/conv.rs, phy_mfsk/conv.rs): labels by parity, the tail-biting encoder, and
// the header sent, which is a public entry. Definitions in specs/.
#![tactic(auto)]

ghost use Rattle.std.specs.Prelude.{◌≡◌, false, ◌≤◌, ◌<◌, length};
ghost use Rattle.frame.specs.Format.{header_bits};
ghost use Rattle.frame.specs.Crc.{some_above_one};
ghost use Rattle.conv.specs.Label.{parity_of, label_of};
ghost use Rattle.conv.specs.Encoder.{made};
ghost use Rattle.conv.specs.Sent.{bits_of, labels, sent_answer, sent_values};
ghost use Rattle.util.specs.Refusal.{meaning};

use util::refusal::Refusal;

// The generators: the register's newest bit is the lowest.
pub const GEN: [u32; 5] = [0o42101, 0o77127, 0o60225, 0o42073, 0o64667];

// The parity of the ones in a generator AND a register.
fn parity(g: u32, r: u32) -> u32
    ensures { (result ≡ parity_of g r) × (result < 2) }
{
    u32::count_ones(g & r) % 2
}

// Inside: the label of a register of 15 bits. Every label in this project comes from here, or from one that does, by linearity
// (crates labels and pass).
pub fn label(r: u32) -> u32
    ensures { result ≡ label_of r }
{
    parity(GEN[0], r)
        + 2 * parity(GEN[1], r)
        + 4 * parity(GEN[2], r)
        + 8 * parity(GEN[3], r)
        + 16 * parity(GEN[4], r)
}

// The start state, made of the last 14 bits, the last one lowest.
fn start(bits: &[u8]) -> u32
    requires { (14 ≤ length bits.now) × (some_above_one bits.now ≡ false) }
    ensures { result ≡ made (bits_of bits.now) (length bits.now) 14 }
{
    let mut state = 0u32;
    for bit in &bits[bits.len() - 14..] {
        state = 2 * state + (*bit as u32);
    }
    state
}

// The encoder. Each step's label goes to the step's slot. (The kind is its number, as `frame::header_slot` takes it for any.)
fn encode(kind: u8, bits: &[u8], values: &mut [u8])
    requires { (length bits.now ≡ header_bits kind) × (length values.old ≡ header_bits kind) × (some_above_one bits.now ≡ false) }
    ensures { values.new ≡ labels (header_bits kind) (bits_of bits.now) }
{
    let mut state = start(bits);
    for j in 0..bits.len() {
        let register = 2 * state + (bits[j] as u32);
        let slot = frame::header_slot(kind, j as u64) as usize;
        values[slot] = label(register) as u8;
        state = register % 16384;
    }
}

// Public entry: the header's symbol values, slot by slot (document 01, 'A header sent').
pub fn header_values(mode: u8, kind: u8, bits: &[u8], values: &mut [u8]) -> Result<(), Refusal>
    ensures answer { meaning result ≡ sent_answer mode kind bits.now (length values.old) }
    ensures lent { values.new ≡ sent_values mode kind bits.now values.old }
{
    frame::format::named(mode, kind)?;
    let n = frame::header_symbols(kind) as usize;
    if bits.len() != n {
        return Err(Refusal::Length);
    }
    if values.len() != n {
        return Err(Refusal::Length);
    }
    if frame::some_above_one(bits) {
        return Err(Refusal::NotBits);
    }
    encode(kind, bits, values);
    Ok(())
}

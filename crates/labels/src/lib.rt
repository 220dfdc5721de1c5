// The labels of all registers in a lent table (document 02, #111): filled once, which is a public entry, tested in every read that is lent
// it, and read in the search. Labels are linear: a bit more in a register makes its label another by that bit's own, so a table goes on from
// each power of two as it began. Definitions in specs/.
#![tactic(auto)]

ghost use Rattle.std.specs.Prelude.{◌≡◌, ◌+◌, ◌*◌, ◌≤◌, ◌<◌, length};
ghost use Rattle.util.specs.Every.{every};
ghost use Rattle.util.specs.Refusal.{meaning};
ghost use Rattle.conv.specs.Label.{label_of};
ghost use Rattle.labels.specs.Labels.{keeps_at, labelled, Labels, Lawful, Row, Spaced, Adds, fill_answer, table_after};

use std::array;
use util::refusal::Refusal;

// The label of register r by parity.
fn by_parity(r: usize) -> u16
    requires { r < 32768 }
    ensures { result ≡ label_of r }
{
    conv::label(r as u32) as u16
}

// Inside: the 64 labels from register `first` on, from the table where one is lent, else by parity. Every label that the search uses
// comes from here or is one of these xor 31 (crate pass).
pub fn row(table: &[u16], first: usize) -> [u16; 64]
    requires { Lawful table.now × (first + 64 ≤ 32768) }
    ensures { Row first result }
{
    if table.len() == 32768 {
        return array::from_fn(|k| table[first + k]);
    }
    array::from_fn(|k| by_parity(first + k))
}

// The label of register r: from the table where one is lent, else by parity. Of two such crate butterfly makes others, by exclusive or.
fn label(table: &[u16], r: usize) -> u16
    requires { Lawful table.now × (r < 32768) }
    ensures { result ≡ label_of r }
{
    if r < table.len() {
        return table[r];
    }
    by_parity(r)
}

// The labels of N registers from register 0 on, `gap` apart.
fn spaced<const N: usize>(table: &[u16], gap: usize) -> [u16; N]
    requires { Lawful table.now × (N * gap ≤ 32768) }
    ensures { Spaced gap N result }
{
    array::from_fn(|k| label(table, k * gap))
}

// Inside: the labels of the even registers of a block of 32 from register 0.
pub fn evens(table: &[u16]) -> [u16; 16]
    requires { Lawful table.now }
    ensures { Spaced 2 16 result }
{
    spaced(table, 2)
}

// Inside: the label of the first register of each block of 32, for all states.
pub fn firsts(table: &[u16]) -> [u16; 512]
    requires { Lawful table.now }
    ensures { Spaced 32 512 result }
{
    spaced(table, 32)
}

// Whether the entries from `half` to twice that keep to the parity rule as well as those below, of which `below` says it: each is
// the entry that lies `half` below, another by `by`. All are looked at, with no way out between, so that many go at once.
fn upper_kept(table: &[u16], half: usize, by: u16, below: bool) -> bool
    requires { (length table.now ≡ 32768) × (half ≤ 16384) × Adds half by × (below ≡ every half (keeps_at table.now)) }
    ensures { result ≡ every (half + half) (keeps_at table.now) }
{
    let mut kept = below;
    for i in 0..half {
        kept = util::both(kept, table[half + i] == table[i] ^ by);
    }
    kept
}

// Inside: whether every entry keeps to the parity rule. Fifteen labels are worked out by parity, the others follow from them.
pub fn all_kept(table: &[u16]) -> bool
    requires { length table.now ≡ 32768 }
    ensures { result ≡ labelled table.now }
{
    let mut kept = table[0] == 0;
    // a `while`: no range doubles
    let mut half = 1usize;
    while half < 32768 {
        kept = upper_kept(table, half, by_parity(half), kept);
        half *= 2;
    }
    kept
}

// The entries from `half` to twice that, from those below.
fn fill_upper(table: &mut [u16], half: usize, by: u16)
    requires { (length table.old ≡ 32768) × (half ≤ 16384) × Adds half by × Labels half table.old }
    ensures { (length table.new ≡ 32768) × Labels (half + half) table.new }
{
    for r in 0..half {
        table[half + r] = table[r] ^ by;
    }
}

// All entries, whatever was there.
fn fill(table: &mut [u16])
    requires { length table.old ≡ 32768 }
    ensures { (length table.new ≡ 32768) × Labels 32768 table.new }
{
    table[0] = 0;
    // a `while`, as in `all_kept`
    let mut half = 1usize;
    while half < 32768 {
        fill_upper(table, half, by_parity(half));
        half *= 2;
    }
}

// Public entry: the table that `read_header_with` is lent (document 02, #111).
pub fn fill_labels(table: &mut [u16]) -> Result<(), Refusal>
    ensures answer { meaning result ≡ fill_answer (length table.old) }
    ensures lent { table.new ≡ table_after table.old }
{
    if table.len() != 32768 {
        return Err(Refusal::Length);
    }
    fill(table);
    Ok(())
}

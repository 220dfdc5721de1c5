// Doors to parts that serve inside: the program `vectors` replays recorded answers through them, and crate `probe_c` exports them to C, where
// oracle/ holds them against the Rust. Where there is no answer a door gives 2^32. The entries have the face, crate `ion`.
#![tactic(auto)]

ghost use Rattle.std.specs.Prelude.{◌≡◌, ◌/◌, ltb, length, get_or};
ghost use Rattle.std.specs.Float.{nan};
ghost use Rattle.util.specs.Choose.{choose};
ghost use Rattle.util.specs.SplitMix.{first_output};
ghost use Rattle.util.specs.Gray.{gray_of};
ghost use Rattle.frame.specs.Format.{format_of, header_bits, listed};
ghost use Rattle.frame.specs.Air.{hop_of, bin_of, slot_of};
ghost use Rattle.interleave.specs.Interleave.{scramble_of, sym_scramble_of};
ghost use Rattle.interleave.specs.RoundTrip.{bits_back, metrics_back};
ghost use Rattle.lse.specs.Lse.{exp_of, ln1p_of};
ghost use Rattle.root.specs.Root.{root_of};
ghost use Rattle.root_table.specs.Table.{roots_of};
ghost use Rattle.probe.specs.Doors.{bits_fit, symbols_fit, no_answer};

pub fn probe_mix64(seed: u64) -> u64
    ensures { result ≡ first_output seed }
{
    util::mix64(seed)
}

pub fn probe_gray(v: u64) -> u64
    ensures { result ≡ gray_of v }
{
    util::gray(v)
}

pub fn probe_hop(mode: u8, i: u64) -> u64
    ensures { result ≡ hop_of (format_of mode).bins i }
{
    frame::hop(mode, i)
}

// The bin of a value below 32 in header or data symbol i.
pub fn probe_bin(mode: u8, i: u64, v: u8) -> u64
    ensures { result ≡ choose (ltb v 32) (bin_of (format_of mode).bins (hop_of (format_of mode).bins i) v) 0x1_0000_0000 }
{
    if v > 31 {
        return 0x1_0000_0000;
    }
    let bins = frame::bins(mode);
    frame::tone_bin(bins, frame::hop(mode, i), v as u64)
}

pub fn probe_scramble(p: u64) -> u64
    ensures { result ≡ scramble_of p }
{
    interleave::scramble(p)
}

pub fn probe_sym_scramble(p: u64) -> u64
    ensures { result ≡ sym_scramble_of p }
{
    interleave::sym_scramble(p)
}

// Soft bits of the slots of up to 10,240 bits, back in data-bit order. 0 where it is done.
pub fn probe_deinterleave(slots: &[f32], out: &mut [f32]) -> u64
    ensures answer { result ≡ choose (bits_fit (length slots.now) (length out.old)) 0 0x1_0000_0000 }
    ensures lent { out.new ≡ choose (bits_fit (length slots.now) (length out.old))
        (bits_back (length out.old) slots.now) out.old }
{
    if out.len() > 10240 {
        return 0x1_0000_0000;
    }
    let n = 5 * interleave::symbols_of(out.len() as u32);
    if slots.len() != n as usize {
        return 0x1_0000_0000;
    }
    interleave::deinterleave(n, slots, out);
    0
}

// Metrics of up to 2,048 slots, 32 to each, back in the order and the values of code symbols. 0 where it is done.
pub fn probe_deinterleave_sym(slots: &[f32], out: &mut [f32]) -> u64
    ensures answer { result ≡ choose (symbols_fit (length slots.now) (length out.old)) 0 0x1_0000_0000 }
    ensures lent { out.new ≡ choose (symbols_fit (length slots.now) (length out.old))
        (metrics_back (length out.old / 32) slots.now) out.old }
{
    let n = out.len() / 32;
    if n > 2048 {
        return 0x1_0000_0000;
    }
    if out.len() != 32 * n {
        return 0x1_0000_0000;
    }
    if slots.len() != 32 * n {
        return 0x1_0000_0000;
    }
    interleave::deinterleave_sym(n as u64, slots, out);
    0
}

// The header slot of step j.
pub fn probe_header_slot(kind: u8, j: u64) -> u64
    ensures { result ≡ choose (ltb j (header_bits kind)) (slot_of (header_bits kind) j) 0x1_0000_0000 }
{
    if j < frame::header_symbols(kind) {
        frame::header_slot(kind, j)
    } else {
        0x1_0000_0000
    }
}

pub fn probe_bins(mode: u8) -> u64
    ensures { result ≡ (format_of mode).bins }
{
    frame::bins(mode)
}

pub fn probe_symbol(mode: u8) -> u64
    ensures { result ≡ (format_of mode).symbol }
{
    frame::symbol(mode) as u64
}

// 1 where the window is one of the mode's, else 0.
pub fn probe_has_window(mode: u8, window: u32) -> u64
    ensures { result ≡ choose (listed window (format_of mode).windows) 1 0 }
{
    frame::has_window(mode, window) as u64
}

pub fn probe_exp(t: f32) -> f32
    ensures { result ≡ exp_of t }
{
    lse::exp(t)
}

pub fn probe_ln_1p(u: f32) -> f32
    ensures { result ≡ ln1p_of u }
{
    lse::ln_1p(u)
}

// The root of n worked out anew, for n to 52.
pub fn probe_root(n: u32) -> f32
    ensures { result ≡ choose (ltb n 53) (root_of n) no_answer }
{
    if n > 52 {
        return 4294967296.0;
    }
    root::root(n)
}

// Entry k of the table of roots, that of k + 1, for k below 52.
pub fn probe_root_entry(k: usize) -> f32
    ensures { result ≡ choose (ltb k 52) (get_or roots_of k nan) no_answer }
{
    if k > 51 {
        return 4294967296.0;
    }
    let roots = root_table::roots();
    roots[k]
}

// The doors of crate `probe`, exported to C under their own names with the same promises: oracle/ links this static library.
#![tactic(auto)]

ghost use Rattle.std.specs.Prelude.{◌≡◌, ◌/◌, ltb, length, get_or};
ghost use Rattle.std.specs.Float.{nan};
ghost use Rattle.util.specs.Choose.{choose};
ghost use Rattle.util.specs.SplitMix.{first_output};
ghost use Rattle.util.specs.Gray.{gray_of};
ghost use Rattle.frame.specs.Format.{format_of, header_bits, listed};
ghost use Rattle.frame.specs.Air.{hop_of, bin_of, slot_of};
ghost use Rattle.interleave.specs.Interleave.{scramble_of, sym_scramble_of};
ghost use Rattle.interleave.specs.RoundTrip.{bits_back, metrics_back};
ghost use Rattle.lse.specs.Lse.{exp_of, ln1p_of};
ghost use Rattle.root.specs.Root.{root_of};
ghost use Rattle.root_table.specs.Table.{roots_of};
ghost use Rattle.probe.specs.Doors.{bits_fit, symbols_fit, no_answer};

#[unsafe(no_mangle)]
pub extern "C" fn probe_mix64(seed: u64) -> u64
    ensures { result ≡ first_output seed }
{
    probe::probe_mix64(seed)
}

#[unsafe(no_mangle)]
pub extern "C" fn probe_gray(v: u64) -> u64
    ensures { result ≡ gray_of v }
{
    probe::probe_gray(v)
}

#[unsafe(no_mangle)]
pub extern "C" fn probe_hop(mode: u8, i: u64) -> u64
    ensures { result ≡ hop_of (format_of mode).bins i }
{
    probe::probe_hop(mode, i)
}

// The bin of a value below 32 in header or data symbol i.
#[unsafe(no_mangle)]
pub extern "C" fn probe_bin(mode: u8, i: u64, v: u8) -> u64
    ensures { result ≡ choose (ltb v 32) (bin_of (format_of mode).bins (hop_of (format_of mode).bins i) v) 0x1_0000_0000 }
{
    probe::probe_bin(mode, i, v)
}

#[unsafe(no_mangle)]
pub extern "C" fn probe_scramble(p: u64) -> u64
    ensures { result ≡ scramble_of p }
{
    probe::probe_scramble(p)
}

#[unsafe(no_mangle)]
pub extern "C" fn probe_sym_scramble(p: u64) -> u64
    ensures { result ≡ sym_scramble_of p }
{
    probe::probe_sym_scramble(p)
}

// Soft bits of the slots of up to 10,240 bits, back in data-bit order. 0 where it is done.
#[unsafe(no_mangle)]
pub extern "C" fn probe_deinterleave(slots: &[f32], out: &mut [f32]) -> u64
    ensures answer { result ≡ choose (bits_fit (length slots.now) (length out.old)) 0 0x1_0000_0000 }
    ensures lent { out.new ≡ choose (bits_fit (length slots.now) (length out.old))
        (bits_back (length out.old) slots.now) out.old }
{
    probe::probe_deinterleave(slots, out)
}

// Metrics of up to 2,048 slots, 32 to each, back in the order and the values of code symbols. 0 where it is done.
#[unsafe(no_mangle)]
pub extern "C" fn probe_deinterleave_sym(slots: &[f32], out: &mut [f32]) -> u64
    ensures answer { result ≡ choose (symbols_fit (length slots.now) (length out.old)) 0 0x1_0000_0000 }
    ensures lent { out.new ≡ choose (symbols_fit (length slots.now) (length out.old))
        (metrics_back (length out.old / 32) slots.now) out.old }
{
    probe::probe_deinterleave_sym(slots, out)
}

// The header slot of step j.
#[unsafe(no_mangle)]
pub extern "C" fn probe_header_slot(kind: u8, j: u64) -> u64
    ensures { result ≡ choose (ltb j (header_bits kind)) (slot_of (header_bits kind) j) 0x1_0000_0000 }
{
    probe::probe_header_slot(kind, j)
}

#[unsafe(no_mangle)]
pub extern "C" fn probe_bins(mode: u8) -> u64
    ensures { result ≡ (format_of mode).bins }
{
    probe::probe_bins(mode)
}

#[unsafe(no_mangle)]
pub extern "C" fn probe_symbol(mode: u8) -> u64
    ensures { result ≡ (format_of mode).symbol }
{
    probe::probe_symbol(mode)
}

// 1 where the window is one of the mode's, else 0.
#[unsafe(no_mangle)]
pub extern "C" fn probe_has_window(mode: u8, window: u32) -> u64
    ensures { result ≡ choose (listed window (format_of mode).windows) 1 0 }
{
    probe::probe_has_window(mode, window)
}

#[unsafe(no_mangle)]
pub extern "C" fn probe_exp(t: f32) -> f32
    ensures { result ≡ exp_of t }
{
    probe::probe_exp(t)
}

#[unsafe(no_mangle)]
pub extern "C" fn probe_ln_1p(u: f32) -> f32
    ensures { result ≡ ln1p_of u }
{
    probe::probe_ln_1p(u)
}

// The root of n worked out anew, for n to 52.
#[unsafe(no_mangle)]
pub extern "C" fn probe_root(n: u32) -> f32
    ensures { result ≡ choose (ltb n 53) (root_of n) no_answer }
{
    probe::probe_root(n)
}

// Entry k of the table of roots, that of k + 1, for k below 52.
#[unsafe(no_mangle)]
pub extern "C" fn probe_root_entry(k: usize) -> f32
    ensures { result ≡ choose (ltb k 52) (get_or roots_of k nan) no_answer }
{
    probe::probe_root_entry(k)
}

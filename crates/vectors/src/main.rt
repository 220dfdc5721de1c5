// Replays the answers that oracle/record.rs has recorded, against the proved parts; the records' shape is crate `records`.
// Modes and kinds are numbers here: a record asks for any, also for one that an entry refuses.
#![tactic(auto)]

ghost use Rattle.std.specs.Prelude.{◌+◌, ◌≤◌, length};

mod bursts;
mod read;
mod sending;
mod slips;
mod tables;

fn mult(n: u64) -> u64 {
    let mut factor = 0u64;
    let k = ion::air::ion_interleave_mult(n, &mut factor);
    if k == 0 { factor } else { records::refusal(k) }
}

// The CRC of up to 32 bits in a layout. From its lowest byte on the argument has mode, kind, length and a byte that is the
// layout or 0 (`answer`), then the bits.
fn crc(layout: u8, asked: u64) -> u64 {
    let bits = burst_file::verdict::bits_of(asked >> 32);
    let n = ((asked >> 16) % 256) as usize;
    if n > 32 {
        return records::NONE;
    }
    let mut value = 0u16;
    let k = ion::air::ion_crc(
        (asked % 256) as u8,
        ((asked >> 8) % 256) as u8,
        layout,
        &bits[..n],
        &mut value,
    );
    if k == 0 {
        value as u64
    } else {
        records::refusal(k)
    }
}

// A header's values in the eight slots from `at`.
fn sent(mode: u8, kind: u8, bits: &[u8], values: &mut [u8], at: usize) -> u64
    requires { at + 8 ≤ length values.old }
{
    let k = ion::air::ion_header_values(mode, kind, bits, values);
    if k != 0 {
        return records::refusal(k);
    }
    records::word(values, at)
}

// The same by a record: what is 16 + part + 8·(kind + 3·mode), with eight slots a part.
fn header(what: u8, asked: u64) -> u64 {
    if what < 16 {
        return records::NONE;
    }
    let rest = what - 16;
    let kind = rest / 8 % 3;
    let at = ((rest % 8) as usize) * 8;
    let bits = burst_file::verdict::bits_of(asked);
    let mut values = [0u8; 64];
    if kind == 1 {
        return sent(rest / 24, kind, &bits, &mut values, at);
    }
    if at < 48 {
        sent(rest / 24, kind, &bits[..48], &mut values[..48], at)
    } else {
        records::NONE
    }
}

fn long(what: u8, asked: u64) -> u64 {
    if what < 64 {
        return header(what, asked);
    }
    if what < 128 {
        return read::header(what, asked);
    }
    bursts::answer(what, asked)
}

// What was recorded before there were layouts is asked in layout 1.
fn answer(what: u8, asked: u64) -> u64 {
    match what {
        0 => mult(asked),
        1 => crc(1, asked),
        2 => probe::probe_hop(0, asked),
        3 => probe::probe_hop(1, asked),
        4 => probe::probe_scramble(asked),
        5 => probe::probe_sym_scramble(asked),
        6 => probe::probe_gray(asked),
        7 => probe::probe_mix64(asked),
        8 => probe::probe_header_slot((asked % 256) as u8, asked >> 8),
        9 => probe::probe_symbol((asked % 256) as u8),
        10 => probe::probe_bins((asked % 256) as u8),
        11 => probe::probe_has_window((asked % 256) as u8, ((asked >> 8) % 65536) as u32),
        12 | 13 => sending::answer(what, asked),
        15 | 152 => slips::answer(what, asked),
        153 => tables::answer(asked),
        14 => crc(((asked >> 24) % 256) as u8, asked),
        _ => long(what, asked),
    }
}

fn main(rt: HostRuntime) {
    records::replay(&mut rt.stdin(), rt.stdout(), answer);
}

// A header read with a table of labels that may be off, by a record (document 02, #111): what is 153. The argument has a seed in its lowest 20 bits, by
// which the terms are drawn as in read.rt, then in three bits what is otherwise, in one the mode and in two the kind; from bit 32 on a place p of the
// table in 15 bits, and in 16 what is xored there. Otherwise: 0 nothing; 1 entry p; 2 entry p, and a term is 1e7; 3 a term is 1e7; 4 entry p, and a word of
// decisions is missing; 5 entry p, and the last entry is missing; 6 entry p, and the mode is 2; 7 every entry r for which r / p is odd. The answer is the
// refusal, or a digest of the five places.
fn otherwise(asked: u64) -> u64 {
    (asked >> 20) % 8
}

fn is_off(asked: u64, r: u64) -> bool {
    let p = (asked >> 32) % 32768;
    match otherwise(asked) {
        0 | 3 => false,
        7 => p != 0 && r / p % 2 == 1,
        _ => r == p,
    }
}

// What entry r is xored with.
fn off_by(asked: u64, r: u64) -> u16 {
    if is_off(asked, r) {
        return ((asked >> 47) % 65536) as u16;
    }
    0
}

fn turn(asked: u64, labels: &mut [u16]) {
    for (r, label) in labels.iter_mut().enumerate() {
        *label ^= off_by(asked, r as u64);
    }
}

fn is_out(asked: u64) -> bool {
    matches!(otherwise(asked), 2 | 3)
}

fn raise_first(asked: u64, terms: &mut [f32]) {
    if is_out(asked) && !terms.is_empty() {
        terms[0] = 10000000.0;
    }
}

// With what is missing left out.
fn heard(
    asked: u64,
    mode: u8,
    kind: u8,
    terms: &[f32],
    labels: &[u16],
    decisions: &mut [u64],
) -> u64 {
    let seed = asked % 0x10_0000;
    match otherwise(asked) {
        4 => {
            let n = decisions.len();
            if n == 0 {
                return records::NONE;
            }
            crate::read::digest(
                seed,
                crate::read::heard(mode, kind, terms, labels, &mut decisions[..n - 1]),
            )
        }
        5 => {
            let n = labels.len();
            if n == 0 {
                return records::NONE;
            }
            crate::read::digest(
                seed,
                crate::read::heard(mode, kind, terms, &labels[..n - 1], decisions),
            )
        }
        6 => crate::read::digest(seed, crate::read::heard(2, kind, terms, labels, decisions)),
        _ => crate::read::digest(
            seed,
            crate::read::heard(mode, kind, terms, labels, decisions),
        ),
    }
}

// With lists of its kind's lengths.
fn replayed(
    asked: u64,
    mode: u8,
    kind: u8,
    bits: &[u8],
    values: &mut [u8],
    terms: &mut [f32],
    decisions: &mut [u64],
) -> u64 {
    let mut labels = [0u16; 32768];
    if ion::read::ion_fill_labels(&mut labels) != 0 {
        return records::NONE;
    }
    if !crate::read::drawn(mode, kind, asked % 0x10_0000, bits, values, terms) {
        return records::NONE;
    }
    turn(asked, &mut labels);
    raise_first(asked, terms);
    heard(asked, mode, kind, terms, &labels, decisions)
}

pub fn answer(asked: u64) -> u64 {
    let mode = ((asked >> 23) % 2) as u8;
    let kind = ((asked >> 24) % 4) as u8;
    let bits = burst_file::verdict::bits_of(probe::probe_mix64(asked % 0x10_0000));
    let mut values = [0u8; 64];
    let mut terms = [0.0f32; 16640];
    let mut decisions = [0u64; 16384];
    if kind == 1 {
        return replayed(
            asked,
            mode,
            kind,
            &bits,
            &mut values,
            &mut terms,
            &mut decisions,
        );
    }
    replayed(
        asked,
        mode,
        kind,
        &bits[..48],
        &mut values[..48],
        &mut terms[..12480],
        &mut decisions[..12288],
    )
}

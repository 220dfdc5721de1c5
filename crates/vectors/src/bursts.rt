// Soft values by a record: what is 128 + form + 2·(kind + 3·mode) in layout 1, as was recorded before there were others, and
// 140 + the same in the layout that the argument's highest byte has. The argument has a seed in its lowest 32 bits, then the
// bit count in 16 bits and the window's number in 8. Terms and counts are worked out from the seed; the answer is a digest of
// the bits of all metrics and soft bits, each mixed into what came before.
use records::{digest, mixed};

// A term from -12.5 to 12.5, by sixteenths.
fn term(x: u64) -> f32 {
    (((x % 401) as u16) as f32 - 200.0) / 16.0
}

// 0 to 6k+1 in layout k: so many windows blanked erase about half of the symbols.
fn times(layout: u8, x: u64) -> u32 {
    (x % (6 * (layout as u64) + 2)) as u32
}

fn blanked(times: u32, window: u32) -> u32 {
    if times > 49 || window > 224 {
        return 0;
    }
    times * window
}

fn burst(
    what: u8,
    layout: u8,
    asked: u64,
    terms: &mut [f32],
    counts: &mut [u32],
    work: &mut [f32],
    metrics: &mut [f32],
    soft: &mut [f32],
) -> u64 {
    let window = window_of(what / 6, (asked >> 48) % 256);
    let seed = asked % 0x1_0000_0000;
    records::fill(terms, |i| term(mixed(seed, (i as u64) << 32)));
    records::fill(counts, |i| {
        blanked(times(layout, mixed(seed, (i as u64) << 48)), window)
    });
    let bits = ((asked >> 32) % 65536) as u32;
    let k = ion::data::ion_soft_values(
        what / 6,
        what / 2 % 3,
        layout,
        what % 2,
        window,
        bits,
        terms,
        counts,
        work,
        metrics,
        soft,
    );
    if k != 0 {
        return records::refusal(k);
    }
    digest(digest(seed, metrics), soft)
}

fn window_of(mode: u8, number: u64) -> u32 {
    if mode == 0 {
        return match number {
            0 => 160,
            1 => 192,
            _ => 224,
        };
    }
    match number {
        0 => 80,
        1 => 96,
        _ => 112,
    }
}

fn in_layout(layout: u8, what: u8, asked: u64) -> u64 {
    let bits = ((asked >> 32) % 65536) as usize;
    if bits > 320 {
        return records::NONE;
    }
    let n = (bits + 4) / 5;
    let mut terms = [0.0f32; 16640];
    let mut counts = [0u32; 64];
    let mut work = [0.0f32; 2048];
    let mut metrics = [0.0f32; 2048];
    let mut soft = [0.0f32; 320];
    burst(
        what,
        layout,
        asked,
        &mut terms[..260 * n],
        &mut counts[..n],
        &mut work[..32 * n],
        &mut metrics[..32 * n],
        &mut soft[..bits],
    )
}

pub fn answer(what: u8, asked: u64) -> u64 {
    if what < 128 {
        return records::NONE;
    }
    if what < 140 {
        return in_layout(1, what - 128, asked);
    }
    in_layout((asked >> 56) as u8, what - 140, asked)
}

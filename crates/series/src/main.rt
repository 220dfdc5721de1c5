// Replays fits and series of the tracker, recorded by oracle/record.rs. What is 192 + mode for a fit through the entry itself
// (crate `by_value`) and 194 + mode through the C function; 196 + mode and 198 + mode for a series of calls of the tracker,
// likewise. The argument has a seed in its lowest 32 bits, then the count of blocks or calls in 16; one more bit puts a timing
// out of range. Modes are numbers here, as the entries and C have them.
#![tactic(auto)]

mod draws;
mod fits;
mod tracks;

fn answer(what: u8, asked: u64) -> u64 {
    if what < 192 {
        return records::NONE;
    }
    let rest = what - 192;
    let mode = rest % 2;
    let seed = asked % 0x1_0000_0000;
    let n = ((asked >> 32) % 65536) as usize;
    let bad = (asked >> 48) % 2 == 1;
    let face = rest / 2 % 2 == 1;
    if rest > 3 {
        return tracks::track(face, mode, n, seed);
    }
    fits::fit(face, mode, n, seed, bad)
}

fn main(rt: HostRuntime) {
    records::replay(&mut rt.stdin(), rt.stdout(), answer);
}

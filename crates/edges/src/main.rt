// The program of the edge list: SplitMix64's published outputs, compared and printed, and symbols by bits. The ★ entries
// of document 01's edge list are stated in specs/Stars.antt and proved in proofs/Stars.antt.
#![tactic(auto)]

use say::Tally;
use std::io::Stdout;

// The first outputs from two seeds, as published with SplitMix64.
const FROM_1234567: [u64; 5] = [
    6457827717110365317,
    3203168211198807973,
    9817491932198370423,
    4593380528125082431,
    16408922859458223821,
];

const FROM_0: [u64; 3] = [
    16294208416658607535,
    7960286522194355700,
    487617019471545679,
];

// What SplitMix64's state grows by.
const STEP: u64 = 0x9E37_79B9_7F4A_7C15;

// One line: the output from a state, and whether it is the published one.
fn compare(to: Stdout, state: u64, published: u64) -> bool {
    let out = util::mix64(state);
    if out == published {
        say::line(to, format_args!("  {out} as published"));
    } else {
        say::line(to, format_args!("  {out} DIFFERS from {published}"));
    }
    out == published
}

// How many of the outputs from a seed agree.
fn series(to: Stdout, seed: u64, published: &[u64]) {
    say::line(to, format_args!("SplitMix64 from seed {seed}"));
    let mut state = seed;
    let mut same = 0;
    for output in published {
        if compare(to, state, *output) {
            same += 1;
        }
        state = state.wrapping_add(STEP);
    }
    let all = published.len();
    say::line(to, Tally { same, all });
}

// The symbols of a burst of so many bits.
fn symbols(to: Stdout, bits: u32) {
    let symbols = interleave::symbols_of(bits);
    say::line(to, format_args!("{bits} bits: {symbols} symbols"));
}

fn main(rt: HostRuntime) {
    let to = rt.stdout();
    series(to, 1234567, &FROM_1234567);
    series(to, 0, &FROM_0);
    for bits in [1, 5, 6, 10240] {
        symbols(to, bits);
    }
}

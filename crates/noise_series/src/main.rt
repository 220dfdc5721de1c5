// Replays local noise factors, recorded by oracle/record.rs, which has the recipe: what is 210. The argument has a seed in its lowest
// 32 bits, then how many rows there are in 12 bits, up to 2,049, the mode and the kind in two bits each, a style in four, and twice four
// bits by which something is damaged (damage.rt). The answer is a digest: the number that is returned, then the bits of every factor
// lent, which on a refusal are those from before.
#![tactic(auto)]

mod damage;
mod draws;

use draws::{Asked, List};
use records::mixed;

fn told(a: Asked, energies: &[f32], noise: &[f32], factors: &mut [f32]) -> u32 {
    ion::local::ion_local_noise(
        damage::mode(a),
        damage::kind(a),
        damage::rows(a),
        energies,
        noise,
        damage::eps(a),
        damage::r(a),
        factors,
    )
}

// Over what is lent of each list.
fn replayed(a: Asked, energies: &mut [f32], noise: &mut [f32], factors: &mut [f32]) -> u64 {
    records::fill(energies, |i| draws::value(a, List::Energies, i));
    records::fill(noise, |i| draws::value(a, List::Noise, i));
    records::fill(factors, |i| draws::value(a, List::Factors, i));
    damage::lists(a, energies, noise);
    let number = told(a, energies, noise, factors);
    records::digest(mixed(a.seed, u64::from(number)), factors)
}

fn answer(what: u8, asked: u64) -> u64 {
    if what != 210 {
        return records::NONE;
    }
    let a = draws::asked_of(asked);
    let rows = a.rows;
    if rows > 2049 {
        return records::NONE;
    }
    let n = damage::lent(a, 7, 52 * rows as usize);
    let places = damage::lent(a, 8, 52);
    let room = damage::lent(a, 9, 52 * rows as usize);
    // 2,049 rows and a value too many
    let mut energies = [0.0f32; 106549];
    let mut noise = [0.0f32; 53];
    let mut factors = [0.0f32; 106549];
    replayed(
        a,
        &mut energies[..n],
        &mut noise[..places],
        &mut factors[..room],
    )
}

fn main(rt: HostRuntime) {
    records::replay(&mut rt.stdin(), rt.stdout(), answer);
}

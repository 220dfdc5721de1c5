// Square roots of the counts 1 to 52, to the nearest f32 as IEEE 754 has it, worked out in whole numbers
// (phy_mfsk/rx/model.rs takes the machine's). Definitions in specs/.
#![tactic(auto)]

ghost use Rattle.std.specs.Prelude.{◌≡◌, ◌^◌, ◌≤◌};
ghost use Rattle.root.specs.Root.{whole_root, root_of};

// The whole number nearest √t, for t up to 2^48 - 2^24, digit by digit from 2^23 down. The second clause is for the cast.
fn whole_root(t: u64) -> u64
    requires { t ≤ 2 ^ 62 }
    ensures answer { result ≡ whole_root t }
    ensures small { result ≤ 2 ^ 24 }
{
    let mut m = 0;
    let mut w = 0x80_0000;
    for _ in 0..24u32 {
        let next = m + w;
        if next * next < t + next {
            m = next;
        }
        w = w / 2;
    }
    m
}

// Inside: √n. Below 4, below 16 and from there on it lies in another binade, and its digits end at another power of 2.
#[tactic(auto, using(crate::proofs::Ways::low_way, crate::proofs::Ways::middle_way, crate::proofs::Ways::high_way))]
pub fn root(n: u32) -> f32
    requires { n ≤ 52 }
    ensures { result ≡ root_of n }
{
    let count = n as u64;
    if n < 4 {
        return (whole_root(count * 0x4000_0000_0000) as f32) / 8388608.0;
    }
    if n < 16 {
        return (whole_root(count * 0x1000_0000_0000) as f32) / 4194304.0;
    }
    (whole_root(count * 0x400_0000_0000) as f32) / 2097152.0
}

// The log-sum of two, ln(e^a + e^b), by document 01's stand-ins for exp and ln_1p (phy_mfsk/util.rs, `lse`). Definitions
// in specs/.
#![tactic(auto)]

ghost use Rattle.std.specs.Prelude.{◌≡◌};
ghost use Rattle.lse.specs.Lse.{exp_of, ln1p_of, lse_of};

// Inside: e^t for t ≤ 0, document 01's stand-in.
pub fn exp(t: f32) -> f32
    ensures { result ≡ exp_of t }
{
    if t < -16.0 {
        return 0.0;
    }
    let y = t / 16.0;
    let p10 = 1.0 + (y * 1.0) / 10.0;
    let p9 = 1.0 + (y * p10) / 9.0;
    let p8 = 1.0 + (y * p9) / 8.0;
    let p7 = 1.0 + (y * p8) / 7.0;
    let p6 = 1.0 + (y * p7) / 6.0;
    let p5 = 1.0 + (y * p6) / 5.0;
    let p4 = 1.0 + (y * p5) / 4.0;
    let p3 = 1.0 + (y * p4) / 3.0;
    let p2 = 1.0 + (y * p3) / 2.0;
    let p1 = 1.0 + (y * p2) / 1.0;
    let once = p1 * p1;
    let twice = once * once;
    let thrice = twice * twice;
    thrice * thrice
}

// Inside: ln(1 + u) for u in 0..1, document 01's stand-in.
pub fn ln_1p(u: f32) -> f32
    ensures { result ≡ ln1p_of u }
{
    let s = u / (2.0 + u);
    let q = s * s;
    let r8 = 1.0 / 17.0;
    let r7 = 1.0 / 15.0 + q * r8;
    let r6 = 1.0 / 13.0 + q * r7;
    let r5 = 1.0 / 11.0 + q * r6;
    let r4 = 1.0 / 9.0 + q * r5;
    let r3 = 1.0 / 7.0 + q * r4;
    let r2 = 1.0 / 5.0 + q * r3;
    let r1 = 1.0 / 3.0 + q * r2;
    let r0 = 1.0 / 1.0 + q * r1;
    (2.0 * s) * r0
}

// Inside: ln(e^a + e^b). Minus infinity, the log-sum of nothing, adds nothing.
pub fn lse(a: f32, b: f32) -> f32
    ensures { result ≡ lse_of a b }
{
    let none = -1.0 / 0.0;
    if a == none {
        return b;
    }
    if b == none {
        return a;
    }
    if a > b {
        return a + ln_1p(exp(b - a));
    }
    b + ln_1p(exp(a - b))
}

// Laws of f32 and f64 arithmetic for the other crates' proofs: specs/ and proofs/, listed in proofs/Lib.antt. The code is one function, which
// several crates need.
#![tactic(auto)]

ghost use Rattle.std.specs.Prelude.{◌≡◌};
ghost use Rattle.ieee.specs.Within.{larger};

// Inside: the larger of two, the first where neither is above the other. (std's `max` leaves open which zero it answers.)
pub fn larger(x: f32, y: f32) -> f32
    ensures { result ≡ larger x y }
{
    if x < y { y } else { x }
}

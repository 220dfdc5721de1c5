// The face: the entries as C calls them, a module for each idea; crate `ion_c` exports each under its own name in one static library
// (include/ion.h). Each function answers 0 or the refusal's number, and writes results only where it answers 0; its promise is an
// equation with the entry's definition.
#![tactic(auto)]

pub mod air;
pub mod boards;
pub mod data;
pub mod local;
pub mod read;
pub mod slips;
pub mod timing;

ghost use Rattle.std.specs.Prelude.{◌≡◌};

// The number of the last change request that is in, 0 for the base, in the symbol's name too: a header of another version
// asks for another symbol and does not link.
pub fn ion_version_111() -> u32
    ensures { result ≡ 111 }
{
    111
}

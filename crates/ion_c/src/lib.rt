// The static library for C (include/ion.h): each function of the face (crate `ion`), exported under its own name with the same promise. A
// crate is a library or a static library, so the programs in Rattle stand on `ion`, and C on this.
#![tactic(auto)]

pub mod air;
pub mod boards;
pub mod data;
pub mod local;
pub mod read;
pub mod slips;
pub mod timing;

ghost use Rattle.std.specs.Prelude.{◌≡◌};

// The number of the last change request that is in, 0 for the base, in the symbol's name too: a header of another version
// asks for another symbol and does not link.
#[unsafe(no_mangle)]
pub extern "C" fn ion_version_111() -> u32
    ensures { result ≡ 111 }
{
    ion::ion_version_111()
}

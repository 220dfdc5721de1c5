// The line of a refused slip, on standard error.
ghost use Rattle.std.specs.Prelude.{◌<◌, ◌^◌};

use std::io::{Print, Stderr};

// Document 02, #105. No other number comes: the board has its length, and is a good one from the start.
fn reason(k: u8) -> &'static str {
    match k {
        13 => ", no slip",
        14 => ", 512 other segments are listed",
        _ => "",
    }
}

// Inside: tells that the slip behind so many others is refused with k, whatever number that is. Slips are counted from 1, bytes from 0.
pub fn report(to: Stderr, before: u64, k: u8, is_cut: bool)
    requires { before < 2 ^ 58 }
{
    let slip = before + 1;
    let byte = 44 * before;
    let reason = reason(k);
    let ending = if is_cut { ", the input ends in it" } else { "" };
    let _ = to.println(format_args!(
        "segments: slip {slip}, from byte {byte}, refused: {k}{reason}{ending}"
    ));
}

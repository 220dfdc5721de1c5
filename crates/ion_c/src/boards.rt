// The segment board: one slip a segment, segments rising, over 512 lent places with a count. What it shows after any series of slips is
// said in crate `board`, specs/Series.antt.
ghost use Rattle.std.specs.Prelude.{◌≡◌};
ghost use Rattle.util.specs.Refusal.{number};
ghost use Rattle.board.specs.Rules.{reading_first};
ghost use Rattle.board.specs.Putting.{putting, board_after, count_after};

#[unsafe(no_mangle)]
pub extern "C" fn ion_put_slip(board: &mut [u8], count: &mut u32, slip: &[u8]) -> u32
    ensures answer { result ≡ number (putting board.old count.old slip.now) }
    ensures lent { board.new ≡ board_after reading_first board.old count.old slip.now }
    ensures counted { count.new ≡ count_after board.old count.old slip.now }
{
    ion::boards::ion_put_slip(board, count, slip)
}

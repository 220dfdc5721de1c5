// The board's face to C. The entry itself is in crate `board`.
#![tactic(auto)]

ghost use Rattle.std.specs.Prelude.{◌≡◌};
ghost use Rattle.util.specs.Refusal.{number};
ghost use Rattle.board.specs.Rules.{reading_first};
ghost use Rattle.board.specs.Putting.{putting, board_after, count_after};

use util::refusal::number_told;

// Inside: the put as C calls it.
pub fn put(board: &mut [u8], count: &mut u32, slip: &[u8]) -> u32
    ensures answer { result ≡ number (putting board.old count.old slip.now) }
    ensures lent { board.new ≡ board_after reading_first board.old count.old slip.now }
    ensures counted { count.new ≡ count_after board.old count.old slip.now }
{
    number_told(board::put_slip(board, count, slip))
}

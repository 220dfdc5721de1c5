// The segment board (document 02, #105, #107, #110): one slip a segment, segments rising, over 512 lent places of 44 bytes with a count.
// What a put leaves and refuses is in specs/Putting.antt, what a board shows after any series of slips in specs/Series.antt (`After`, proved
// in proofs/Series.antt under any rule, in proofs/Yard.antt under the one that is in force).
#![tactic(auto)]

ghost use Rattle.std.specs.Prelude.{Some, None, suc, ◌-◌, ◌*◌, ◌^◌, ◌≤◌, ◌<◌, true, ◌&&◌, ◌++◌, ◌≡◌, leb, length, take};
ghost use Rattle.util.specs.Choose.{choose};
ghost use Rattle.util.specs.Refusal.{meaning};
ghost use Rattle.outcome.specs.Outcome.{outcome_is};
ghost use Rattle.slip.specs.Slips.{is_slip, taken};
ghost use Rattle.board.specs.Places.{places, place_at, segment_of, rising, good_board, is_listed, before};
ghost use Rattle.board.specs.Rules as Rules;
ghost use Rattle.board.specs.Rules.{reading_first, rank_of};
ghost use Rattle.board.specs.Putting.{putting, replaced, inserted, board_after, count_after};

use outcome::Outcome;
use slip::Fields;
use util::refusal::Refusal;

// ---- the yard's rules

// The best reading first. This is no outcome byte.
fn rank(outcome: Outcome) -> u8
    ensures { result ≡ Rules.rank (outcome_is outcome) }
{
    match outcome {
        Outcome::Sure(_, _) => 0,
        Outcome::Likely(_, _) => 1,
        Outcome::Kept(_) => 2,
        Outcome::Open(_) => 3,
    }
}

fn rank_of(f: Fields) -> u8
    ensures { result ≡ rank_of f }
{
    rank(outcome::from_numbers(f.outcome, f.pass, f.score))
}

// Whether the new slip replaces the listed one: the reading is tried first, the start only between equal readings.
fn replaces(listed: Fields, new: Fields) -> bool
    ensures { result ≡ reading_first listed new }
{
    let listed_rank = rank_of(listed);
    let new_rank = rank_of(new);
    if new_rank == listed_rank {
        listed.start < new.start
    } else {
        new_rank < listed_rank
    }
}

// ---- what is lent: a board and its count are two parameters, as the entry and C have them

fn is_slip(bytes: &[u8]) -> bool
    ensures { result ≡ is_slip bytes.now }
{
    slip::read_fields(bytes).is_ok()
}

fn segment_of(place: &[u8]) -> u64
    requires { length place.now ≡ 44 }
    ensures number { result ≡ segment_of place.now }
    ensures most { result < 2 ^ 16 }
{
    wire::number_at(place, 42, 2)
}

// The least segment that may come after a place's; none where the place holds no slip, or one of a segment below `least`.
fn least_after(place: &[u8], least: u64) -> Option<u64>
    requires { length place.now ≡ 44 }
    ensures { result ≡ choose (is_slip place.now && leb least (segment_of place.now))
        (Some (suc (segment_of place.now))) None }
{
    let segment = segment_of(place);
    if is_slip(place) && least <= segment {
        Some(segment + 1)
    } else {
        None
    }
}

// Whether so many places hold slips, segments rising.
fn is_rising(board: &[u8], count: usize) -> bool
    requires { 44 * count ≤ length board.now }
    ensures { result ≡ rising 0 (places count board.now) }
{
    let mut least = 0;
    for place in board[..44 * count].chunks_exact(44) {
        match least_after(place, least) {
            Some(next) => least = next,
            None => return false,
        }
    }
    true
}

// A segment's place: so many listed segments come before it.
fn place_for(board: &[u8], count: usize, segment: u64) -> usize
    requires { 44 * count ≤ length board.now }
    ensures { result ≡ before segment (places count board.now) }
{
    for (i, place) in board[..44 * count].chunks_exact(44).enumerate() {
        if segment_of(place) >= segment {
            return i;
        }
    }
    count
}

// Whether a segment is listed, at the place where it belongs.
fn is_at(board: &[u8], count: usize, place: usize, segment: u64) -> bool
    requires { (44 * count ≤ length board.now)
        × ((rising 0 (places count board.now) ≡ true) × (place ≡ before segment (places count board.now))) }
    ensures { result ≡ is_listed segment (places count board.now) }
{
    place < count && segment_of(&board[44 * place..44 * place + 44]) == segment
}

// ---- what is written

// A place takes a slip's bytes.
fn fill(place: &mut [u8], slip: &[u8])
    requires { (length place.old ≡ 44) × (length slip.now ≡ 44) }
    ensures { place.new ≡ slip.now }
{
    place.copy_from_slice(slip);
}

// The places of a part each take what stood in the one before; the first stays.
fn move_up(part: &mut [u8])
    requires { 44 ≤ length part.old }
    ensures { part.new ≡ take 44 part.old ++ take (length part.old - 44) part.old }
{
    part.copy_within(..part.len() - 44, 44);
}

// A slip comes before the places of a part; the last of them is lost.
fn insert(part: &mut [u8], slip: &[u8])
    requires { (44 ≤ length part.old) × (length slip.now ≡ 44) }
    ensures { part.new ≡ slip.now ++ take (length part.old - 44) part.old }
{
    move_up(part);
    fill(&mut part[0..44], slip);
}

// The new slip is judged against the listed one of a place.
fn judge(board: &mut [u8], place: usize, slip: &[u8])
    requires { (44 * suc place ≤ length board.old) × (length slip.now ≡ 44) }
    ensures { board.new ≡ choose (reading_first (taken (place_at board.old place)) (taken slip.now))
        (replaced board.old place slip.now) board.old }
{
    let at = 44 * place;
    let end = at + 44;
    let listed = slip::take_fields(&board[at..end]);
    if replaces(listed, slip::take_fields(slip)) {
        fill(&mut board[at..end], slip);
    }
}

// A slip of an unlisted segment, on a board with room.
fn insert_at(board: &mut [u8], count: usize, place: usize, slip: &[u8])
    requires { (44 * suc count ≤ length board.old) × ((place ≤ count) × (length slip.now ≡ 44)) }
    ensures { board.new ≡ inserted board.old count place slip.now }
{
    let at = 44 * place;
    let end = 44 * count + 44;
    insert(&mut board[at..end], slip);
}

// ---- the entry

// A slip put on a board, where neither is broken.
fn put_in(board: &mut [u8], count: &mut u32, slip: &[u8]) -> Result<(), Refusal>
    requires { (length board.old ≡ 44 * 512) × ((good_board board.old count.old ≡ true) × (is_slip slip.now ≡ true)) }
    ensures answer { meaning result ≡ putting board.old count.old slip.now }
    ensures lent { board.new ≡ board_after reading_first board.old count.old slip.now }
    ensures counted { count.new ≡ count_after board.old count.old slip.now }
{
    let listed = *count as usize;
    let segment = segment_of(slip);
    let place = place_for(board, listed, segment);
    if is_at(board, listed, place, segment) {
        judge(board, place, slip);
        return Ok(());
    }
    if listed == 512 {
        return Err(Refusal::FullBoard);
    }
    insert_at(board, listed, place, slip);
    *count += 1;
    Ok(())
}

// Public entry: puts a slip on a board (document 02, #105). Places past the count are neither read nor, but for the one that a new
// segment fills, written.
pub fn put_slip(board: &mut [u8], count: &mut u32, slip: &[u8]) -> Result<(), Refusal>
    ensures answer { meaning result ≡ putting board.old count.old slip.now }
    ensures lent { board.new ≡ board_after reading_first board.old count.old slip.now }
    ensures counted { count.new ≡ count_after board.old count.old slip.now }
{
    if board.len() != 22528 {
        return Err(Refusal::Length);
    }
    if *count > 512 {
        return Err(Refusal::Slip);
    }
    if !is_rising(board, *count as usize) {
        return Err(Refusal::Slip);
    }
    if !is_slip(slip) {
        return Err(Refusal::Slip);
    }
    put_in(board, count, slip)
}

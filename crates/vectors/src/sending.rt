// Data sent by a record: what is 12 for bits, 13 for symbols. The argument has a seed in its lowest 32 bits, then how
// many there are in 16 bits, in 8 how many places too many are lent, and in the highest 8 what the first one is
// instead, if not 0. The answer is a digest of the lent list.
ghost use Rattle.std.specs.Prelude.{◌≤◌};

fn drawn(what: u8, x: u64) -> u8 {
    if what == 12 {
        return (x % 2) as u8;
    }
    (x % 32) as u8
}

// Number i, the first one instead where it is given.
fn nth(what: u8, seed: u64, first: u8, i: usize) -> u8 {
    if i == 0 && first != 0 {
        return first;
    }
    drawn(what, records::mixed(seed, (i as u64) << 32))
}

fn send(what: u8, list: &[u8], lent: &mut [u8]) -> u32 {
    if what == 12 {
        return ion::air::ion_interleave(list, lent);
    }
    ion::air::ion_interleave_sym(list, lent)
}

fn sent(what: u8, asked: u64, list: &mut [u8], lent: &mut [u8]) -> u64 {
    let seed = asked % 0x1_0000_0000;
    let first = (asked >> 56) as u8;
    records::fill(list, |i| nth(what, seed, first, i));
    let k = send(what, list, lent);
    if k != 0 {
        return records::refusal(k);
    }
    records::digest(seed, lent)
}

// The places that n of them take: five a symbol for bits.
fn room(what: u8, n: usize) -> usize
    requires { n ≤ 10241 }
    ensures { result ≤ 10245 }
{
    if what == 12 {
        return (n + 4) / 5 * 5;
    }
    n
}

// What is lent holds other bytes before.
pub fn answer(what: u8, asked: u64) -> u64 {
    let n = ((asked >> 32) % 65536) as usize;
    if n > 10241 {
        return records::NONE;
    }
    let places = room(what, n) + ((asked >> 48) % 256) as usize;
    let mut list = [0u8; 10241];
    let mut lent = [0xA5u8; 10500];
    sent(what, asked, &mut list[..n], &mut lent[..places])
}

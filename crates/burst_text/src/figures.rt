// A float as figures, and a header's word.
use std::fmt;
use std::fmt::{Display, Formatter};

// A number of 0 and above, rounded to three places where its thousandths are below 2^64: a slip's score may be any finite f32.
#[derive(Clone, Copy, Debug, PartialEq)]
struct Places(f64);

impl Display for Places {
    fn fmt<W: fmt::Write>(&self, f: &mut Formatter<W>) -> fmt::Result {
        // a half away from zero, where `{:.3}` has the even one
        let rounded = self.0 * 1000.0 + 0.5;
        if -1.0 < rounded && rounded < 18446744073709551616.0 {
            let n = std::num::saturating_f64_to_u64(rounded);
            return write!(f, "{}.{:03}", n / 1000, n % 1000);
        }
        f.write_str("1.8e16 or beyond")
    }
}

// Three places after the point, then the pattern, by which nothing is lost. A minus stands before a negative zero too. No NaN comes
// here: the score of an answer or a slip, metrics and soft bits are finite.
#[derive(Clone, Copy, Debug, PartialEq)]
pub struct Figures(pub f32);

impl Display for Figures {
    fn fmt<W: fmt::Write>(&self, f: &mut Formatter<W>) -> fmt::Result {
        let x = self.0;
        if x.is_nan() {
            return f.write_str("NaN");
        }
        let sign = if x.is_sign_negative() { "-" } else { "" };
        let places = Places(f64::from(x.abs()));
        let pattern = x.to_bits();
        write!(f, "{sign}{places} ({pattern:08x})")
    }
}

// A header's word: 12 digits for the 48 bits of a HeaderOnly or Cue header, 16 for the 64 of a Data header. The kind is the burst's number.
#[derive(Clone, Copy, Debug, PartialEq, Eq)]
pub struct Word {
    pub kind: u8,
    pub word: u64,
}

impl Display for Word {
    fn fmt<W: fmt::Write>(&self, f: &mut Formatter<W>) -> fmt::Result {
        let word = self.word;
        if self.kind == 1 {
            write!(f, "{word:016x}")
        } else {
            write!(f, "{word:012x}")
        }
    }
}

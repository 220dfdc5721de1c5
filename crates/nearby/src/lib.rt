// The 25 rows around a row (phy_mfsk/rx/model.rs, the last step of `local_noise`): the rows heard last, each in its place
// of 25, and the sum and the count of every bin over them. Definitions in specs/.
#![tactic(auto)]

ghost use Rattle.std.specs.Prelude.{◌≡◌, List, ℕ, ◌+◌, ◌*◌, ◌≤◌, ◌<◌, eqb, length, get_or, Float};
ghost use Rattle.std.proofs.Math.Option.{none};
ghost use Rattle.std.specs.Float.{nan, binary32};
ghost use Rattle.std.specs.Float.Ieee.{add};
ghost use Rattle.util.specs.Choose.{choose};
ghost use Rattle.level.specs.Row.{ratio_of, strongest_of, held_of};
ghost use Rattle.level.specs.Rank.{once};
ghost use Rattle.level.specs.Inside.{held_at};
ghost use Rattle.nearby.specs.Sum.{with_next};
ghost use Rattle.nearby.specs.Inside.{no_rows, Put, Each, Onward, Moved, Summed, Counted};

// A sum with the next value, where that is there.
fn with_next(sum: f32, mark: u32, x: f32) -> f32
    ensures { result ≡ choose (eqb mark 1) (add binary32 sum x) sum }
{
    if mark == 1 { sum + x } else { sum }
}

// A count with the next.
fn count_next(count: u32, mark: u32) -> u32
    requires { count ≤ 25 }
    ensures { result ≡ count + once (eqb mark 1) }
{
    if mark == 1 { count + 1 } else { count }
}

// The bins from `from` to before `to` through a function of their place, those before them having gone through it already.
fn onward<T: Copy, F: Fn(usize, T) -> T>(list: &mut [T], from: usize, to: usize, f: &F)
    requires inside { (from ≤ to) × (to ≤ 52) × (length list.old ≡ 52) }
    requires callable { (d : T) (b : ℕ) → from ≤ b → b < to → F.pre f.now b (get_or list.old b d) }
    ensures same { length list.new ≡ 52 }
    ensures rest { (d : T) (b : ℕ) → to ≤ b → get_or list.new b d ≡ get_or list.old b d }
    ensures more { (d : T) (next : ℕ → T → T) → ((b : ℕ) (t r : T) → F.post f.now b t r → r ≡ next b t)
        → Onward d from to next list.old list.new }
{
    for b in from..to {
        list[b] = f(b, list[b]);
    }
}

// Every bin through a function of its place: 48 and 4, so that a compiler can take eight at a time, and four.
fn each_bin<T: Copy, F: Fn(usize, T) -> T>(list: &mut [T], f: F)
    requires size { length list.old ≡ 52 }
    requires callable { (d : T) (b : ℕ) → b < 52 → F.pre f b (get_or list.old b d) }
    ensures { (d : T) (next : ℕ → T → T) → ((b : ℕ) (t r : T) → F.post f b t r → r ≡ next b t)
        → Each d 52 next list.old list.new }
{
    onward(list, 0, 48, &f);
    onward(list, 48, 52, &f);
}

// Inside: 52 values, or 52 marks, into a list, from base on.
pub fn put_row<T: Copy>(row: &[T], list: &mut [T], base: usize)
    requires { (length row.now ≡ 52) × (base + 52 ≤ length list.old) }
    ensures { (d : T) → Put d 52 base (λ b. get_or row.now b d) list.old list.new }
{
    list[base..base + 52].copy_from_slice(row);
}

// The 25 rows heard last, 52 bins each: a mark for each bin, 1 where it is there and 0 where it is missing, and its value.
#[derive(Clone, Copy, Debug, PartialEq)]
pub struct LastRows {
    pub marks: [u32; 1300],
    pub values: [f32; 1300],
}

impl LastRows {
    // Inside: none is heard yet: all of them are missing.
    pub fn none() -> LastRows
        ensures { result ≡ no_rows }
    {
        LastRows {
            marks: [0; 1300],
            values: [0.0; 1300],
        }
    }

    // Inside: the sums of every bin over the 25 rows, the one in place `first` (modulo 25) first.
    pub fn sums(&self, first: usize) -> [f32; 52]
        requires { first ≤ 4096 }
        ensures { Summed self.now.marks self.now.values first 25 result }
    {
        let mut out = [0.0f32; 52];
        for k in 0..25usize {
            let base = 52 * ((first + k) % 25);
            each_bin(
                &mut out,
                |b, sum| with_next(sum, self.marks[base + b], self.values[base + b]),
            );
        }
        out
    }

    // Inside: how many of the 25 rows have each bin.
    pub fn counts(&self, first: usize) -> [u32; 52]
        requires { first ≤ 4096 }
        ensures { (values : List Float) → Counted self.now.marks values first 25 result }
    {
        let mut out = [0u32; 52];
        for n in 0..25usize {
            let base = 52 * ((first + n) % 25);
            each_bin(&mut out, |b, count| count_next(count, self.marks[base + b]));
        }
        out
    }

    // Inside: row i heard, with hop h: into its place among the 25, that of the row 25 before it.
    pub fn hear(&mut self, bins: u64, h: u64, energies: &[f32], noise: &[f32], i: usize)
        requires { (32 ≤ bins) × (bins ≤ 48) × (h < bins) × (52 * i + 52 ≤ length energies.now) × (length noise.now ≡ 52) }
        ensures { Moved i (held_of (ratio_of energies.now noise.now i)
            (strongest_of bins h (ratio_of energies.now noise.now i)))
            self.old.marks self.old.values self.new.marks self.new.values }
    {
        let base = 52 * (i % 25);
        let row = level::ratios(energies, i, noise);
        let held = level::marks(level::strongest(bins, h, &row));
        put_row(&held, &mut self.marks, base);
        put_row(&row, &mut self.values, base);
    }

    // Inside: there is no row i: all of it is missing.
    pub fn pass_over(&mut self, i: usize)
        ensures moved { (values : List Float) → Moved i (λ b. none) self.old.marks values self.new.marks values }
        ensures kept { self.new.values ≡ self.old.values }
    {
        let missing = [0u32; 52];
        put_row(&missing, &mut self.marks, 52 * (i % 25));
    }
}

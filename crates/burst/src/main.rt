// Reads one burst from a file or from standard input and prints what it says: the header's word (bit j at place j), its
// outcome, score, ceiling and CRC, how many data symbols there are, and with the words `slip START SEGMENT`, `soft` and `metrics` as
// arguments the header's slip, the soft bits and the metrics. docs/BURST-FORMAT.md has the file's table and the lines; `burst
// --help` prints the usage.
// Everything is worked out before anything is printed. Bad input gets one line on standard error and an empty standard
// output. It ends with status 0 whatever it finds: `burst FILE | grep .` ends with 1 where nothing was printed.
// It needs 3 MB of stack, most of it the lists of the longest burst (it runs under `ulimit -s 2800` and not under 2775).
#![tactic(auto)]

ghost use Rattle.std.specs.Prelude.{◌≤◌, ◌≡◌, length};

use burst_file::format::Head;
use burst_file::verdict;
use burst_input::arguments::{Asked, Options, Place};
use burst_input::problem::Failure;
use burst_input::{arguments, file};
use burst_text::output::Blocks;
use header::HeaderAnswer;
use slip::Slip;
use std::io;
use std::io::{Print, Read, Stderr, Stdout, Write};
use util::refusal::Refusal;

// How many words of decisions a header's passes fill. (Mode and kind are the file's numbers here and below: the entries test them.)
fn decision_words(kind: u8) -> usize
    ensures { result ≤ 16384 }
{
    if kind == 1 { 16384 } else { 12288 }
}

// The header read, over areas of its own.
fn header_read(mode: u8, kind: u8, terms: &[f32]) -> Result<HeaderAnswer, Refusal> {
    let mut scores = [0.0f32; 16384];
    let mut next = [0.0f32; 16384];
    let mut start = [0.0f32; 16384];
    let mut decisions = [0u64; 16384];
    let n = decision_words(kind);
    header::read_header(
        mode,
        kind,
        terms,
        &mut scores,
        &mut next,
        &mut start,
        &mut decisions[..n],
    )
}

// The soft values, over a work area of its own.
fn soft_values(
    head: Head,
    data: &[f32],
    counts: &[u32],
    metrics: &mut [f32],
    soft: &mut [f32],
) -> Result<(), Refusal> {
    let mut work = metric_zeros();
    let n = metrics.len();
    if n > 65536 {
        return Err(Refusal::Length);
    }
    soft::soft_values(
        head.mode,
        head.kind,
        head.layout,
        head.symbols,
        head.window,
        head.bits,
        data,
        counts,
        &mut work[..n],
        metrics,
        soft,
    )
}

// The header's slip. None is refused: every answer of the header read makes a lawful one (crate slip, proofs/Answers.antt).
fn show_slip<W: Write>(
    out: &mut W,
    head: Head,
    answer: HeaderAnswer,
    place: Place,
) -> io::Result<()> {
    let mut bytes = [0u8; 44];
    let told = Slip {
        mode: head.mode,
        kind: head.kind,
        word: answer.word,
        outcome: answer.outcome,
        start: place.start,
        segment: place.segment,
    };
    match slip::write_slip(told, &mut bytes) {
        Ok(()) => burst_lines::slip(out, &bytes),
        Err(_) => Ok(()),
    }
}

// The six lines of every burst, and what is asked for beside them.
fn show<W: Write>(
    out: &mut W,
    head: Head,
    options: Options,
    answer: HeaderAnswer,
    counts: &[u32],
    metrics: &[f32],
    soft: &[f32],
) -> io::Result<()> {
    burst_lines::header(out, head.kind, answer.word)?;
    burst_lines::outcome(out, answer.outcome)?;
    burst_lines::ceiling(out, answer.ceiling)?;
    let is_good = verdict::crc_is_good(head.mode, head.kind, head.layout, answer.word);
    burst_lines::crc(out, is_good)?;
    let erased = verdict::erased_count(head.layout, head.window, counts);
    burst_lines::symbols(out, counts.len(), erased)?;
    if let Some(place) = options.slip {
        show_slip(out, head, answer, place)?;
    }
    if options.soft {
        burst_lines::soft_bits(out, soft)?;
    }
    if options.metrics {
        burst_lines::metrics(out, metrics)?;
    }
    Ok(())
}

// The same by way of a block.
fn print(
    to: Stdout,
    head: Head,
    options: Options,
    answer: HeaderAnswer,
    counts: &[u32],
    metrics: &[f32],
    soft: &[f32],
) -> io::Result<()> {
    let mut block = [0u8; 65536];
    let mut out = Blocks::new(&mut block, to);
    show(&mut out, head, options, answer, counts, metrics, soft)?;
    out.flush()
}

// A burst whose head is good, over lists of its lengths.
fn shown<R: Read>(
    input: &mut R,
    to: Stdout,
    head: Head,
    options: Options,
    first: &mut [f32],
    data: &mut [f32],
    counts: &mut [u32],
    metrics: &mut [f32],
    soft: &mut [f32],
) -> Result<(), Failure> {
    file::fill(input, first, data, counts)?;
    let answer = header_read(head.mode, head.kind, first)?;
    soft_values(head, data, counts, metrics, soft)?;
    print(to, head, options, answer, counts, metrics, soft).map_err(Failure::Output)
}

// Zeros for the terms of 2,048 data symbols. The promise is the length, which the check would otherwise count out.
fn data_zeros() -> [f32; 532480]
    ensures { 532480 ≡ length result }
{
    [0.0f32; 532480]
}

fn metric_zeros() -> [f32; 65536]
    ensures { 65536 ≡ length result }
{
    [0.0f32; 65536]
}

// How many terms a header has.
fn header_terms(kind: u8) -> usize
    ensures { result ≤ 16640 }
{
    if kind == 1 { 16640 } else { 12480 }
}

// The lists, at their greatest lengths.
fn burst<R: Read>(input: &mut R, to: Stdout, head: Head, options: Options) -> Result<(), Failure>
    requires { head.bits ≤ 10240 }
{
    let mut first = [0.0f32; 16640];
    let mut data = data_zeros();
    let mut counts = [0u32; 2048];
    let mut metrics = metric_zeros();
    let mut soft = [0.0f32; 10240];
    let bits = head.bits as usize;
    let n = header_terms(head.kind);
    let m = (bits + 4) / 5;
    shown(
        input,
        to,
        head,
        options,
        &mut first[..n],
        &mut data[..260 * m],
        &mut counts[..m],
        &mut metrics[..32 * m],
        &mut soft[..bits],
    )
}

// The burst that a reader has.
fn read_burst<R: Read>(mut input: R, to: Stdout, options: Options) -> Result<(), Failure>
where
    R: Drop,
{
    let head = file::read_head(&mut input)?;
    // a good head has no more; `burst` requires it
    if head.bits > 10240 {
        return Err(Failure::from(Refusal::TooMany));
    }
    burst(&mut input, to, head, options)
}

fn told(to: Stderr, shown: Result<(), Failure>) {
    if let Err(failure) = shown {
        let _ = to.println(format_args!("burst: {failure}"));
    }
}

fn main(rt: HostRuntime) {
    match arguments::given(&rt) {
        Err(misuse) => arguments::refuse(&rt, rt.stderr(), misuse),
        Ok(Asked::Help) => arguments::help(rt.stdout(), rt.stderr()),
        Ok(Asked::Burst(options)) => match options.file {
            Some(i) => {
                if let Some(from) = file::opened(&rt, rt.stderr(), i) {
                    told(rt.stderr(), read_burst(from, rt.stdout(), options));
                }
            }
            None => told(rt.stderr(), read_burst(rt.stdin(), rt.stdout(), options)),
        },
    }
}

// What the programs that replay vectors share: the words of a record, the records of a file, and the line that tells how many agree.
// Words are big-endian. An expected NaN is 7FC00000, and as an f64 7FF80000 00000000.
#![tactic(auto)]

ghost use Rattle.std.specs.Prelude.{◌≡◌, ◌+◌, ◌-◌, ◌*◌, ◌≤◌, length, take, drop, min, ◌==◌, from_bits, to_bits, Some};
ghost use Rattle.std.specs.List.{list_all, enumerate_from};
ghost use Rattle.std.specs.Float.{binary32, binary64};
ghost use Rattle.std.specs.Fn.{FnReturnsAt};
ghost use Rattle.wire.specs.Words.{word_at};
ghost use Rattle.vectors.specs.Words.{double_bits_at};
ghost use Rattle.vectors.specs.Records.{started, counted, next_of, Replays, line_of};

use std::io::Read;
use std::rt::Files;
use std::{fmt, fs, io};

// ---- words of a record

// Whether a float is the one at a place, bit for bit.
pub fn is_at(x: f32, s: &[u8], at: usize) -> bool
    ensures { result ≡ (to_bits binary32 x == word_at s.now at) }
{
    float::to_word(x) == wire::read_word(s, at)
}

// Whether a float is the word that stands k words after a place, bit for bit.
fn is_word(x: f32, s: &[u8], at: usize, k: usize) -> bool
    ensures { result ≡ (to_bits binary32 x == word_at s.now (at + k * 4)) }
{
    is_at(x, s, at.saturating_add(k.saturating_mul(4)))
}

// Whether floats are those from a place on, word after word, bit for bit.
pub fn are_at(values: &[f32], s: &[u8], at: usize) -> bool
    ensures { result ≡ list_all (λ p. to_bits binary32 p.1 == word_at s.now (at + p.0 * 4)) (enumerate_from 0 values.now) }
{
    values
        .iter()
        .enumerate()
        .all(|(k, x)| is_word(*x, s, at, k))
}

// The bits of the f64 at a place, the high word first; a byte past the end counts as 0.
#[tactic(auto, using(wire::proofs::Read::word_at_saturated), unfolding(crate::specs::Words::double_bits_at))]
fn double_bits_at(s: &[u8], at: usize) -> u64
    ensures { result ≡ double_bits_at s.now at }
{
    let high = wire::read_word(s, at) as u64;
    let low = wire::read_word(s, at.saturating_add(4)) as u64;
    high * 0x1_0000_0000 + low
}

// The f64 at a place.
pub fn double_at(s: &[u8], at: usize) -> f64
    ensures { result ≡ from_bits binary64 (double_bits_at s.now at) }
{
    std::num::f64_from_bits_with_nan(double_bits_at(s, at))
}

// Whether an f64 is the one at a place, bit for bit.
pub fn double_is_at(x: f64, s: &[u8], at: usize) -> bool
    ensures { result ≡ (to_bits binary64 x == double_bits_at s.now at) }
{
    std::num::f64_to_bits_with_nan(x) == double_bits_at(s, at)
}

// The count at a place, no more than the most that its reader has room for.
pub fn count_at(s: &[u8], at: usize, most: u32) -> usize
    ensures { result ≡ min (word_at s.now at) most }
{
    wire::read_word(s, at).min(most) as usize
}

// ---- answers

// Whether two floats are the same, bit for bit; a NaN is the same as a NaN.
pub fn same(a: f32, b: f32) -> bool
    ensures { result ≡ (to_bits binary32 a == to_bits binary32 b) }
{
    float::to_word(a) == float::to_word(b)
}

// ---- the records of a file

// So many bytes of a file are read. A file that has as many is not whole.
const LIMIT: usize = 786_432;

// How many records are replayed, and how many of them agree, modulo 2^64.
#[derive(Drop)]
struct Counts {
    records: u64,
    agree: u64,
}

// A file as it is replayed: how many of its bytes are left, and the counts of the records before them. A file that is not whole
// has no counts: one with no records, one that reaches the limit, or one whose last record does not have all of its bytes.
#[derive(Drop)]
pub struct Records {
    pub left: usize,
    counts: Option<Counts>,
}

impl Counts {
    fn with(self, agreed: bool) -> Self
        ensures { result ≡ counted agreed self }
    {
        Counts {
            records: self.records.wrapping_add(1),
            agree: self.agree.wrapping_add(u64::from(agreed)),
        }
    }
}

impl Records {
    // A file of some bytes, before its first record is replayed.
    #[tactic(auto, unfolding(crate::specs::Records::started))]
    pub fn new(bytes: &[u8]) -> Self
        ensures { result ≡ started (length bytes.now) }
    {
        let left = bytes.len();
        let counts = if 0 < left && left < LIMIT {
            Some(Counts {
                records: 0,
                agree: 0,
            })
        } else {
            None
        };
        Records { left, counts }
    }

    // With the next record replayed, of `size` bytes. One that has no bytes, or more than are left, is torn: the file is not whole,
    // and the replay ends.
    #[tactic(auto, unfolding(crate::specs::Records::next_of))]
    pub fn with(self, size: usize, agreed: bool) -> Self
        ensures next { result ≡ next_of self size agreed }
        ensures less { result.left ≤ self.left - 1 }
    {
        if size == 0 || self.left < size {
            return Records {
                left: 0,
                counts: None,
            };
        }
        Records {
            left: self.left - size,
            counts: self.counts.map(|counts| counts.with(agreed)),
        }
    }
}

// The last n bytes, from the next record on; all where there are fewer.
pub fn rest(s: &[u8], n: usize) -> &[u8]
    ensures { result.now ≡ drop (length s.now - n) s.now }
{
    &s[s.len().saturating_sub(n)..]
}

// Every record of a file's bytes is replayed, from the first on. `size` says how many bytes the record has that some bytes
// begin with, and `agrees` whether its answer is the expected one.
fn replayed<S: Fn(&[u8]) -> usize, A: Fn(&[u8]) -> bool>(
    size: S,
    agrees: A,
    bytes: &[u8],
) -> Records
    requires sized { S.IsAlwaysCallable size }
    requires answered { A.IsAlwaysCallable agrees }
    ensures { Replays (FnReturnsAt S.Fn size) (FnReturnsAt A.Fn agrees) bytes.now (started (length bytes.now)) result }
{
    let mut records = Records::new(bytes);
    // A `while`: how long a record is shows only once it is reached.
    while 0 < records.left {
        let record = rest(bytes, records.left);
        records = records.with(size(record), agrees(record));
    }
    records
}

// ---- the line of a file

// A file's line: `NAME: A of N agree`, or what is wrong with the file. A missing file has no records.
#[derive(Drop)]
struct Line<'a> {
    name: &'a str,
    path: &'a str,
    file: Option<Records>,
}

impl fmt::Display for Line<'_> {
    ghost output = { λ l. Some (line_of l.name.now l.path.now l.file) };

    fn fmt<W: fmt::Write>(&self, f: &mut fmt::Formatter<W>) -> fmt::Result {
        let name = self.name;
        let path = self.path;
        match &self.file {
            None => write!(f, "{name}: {path} is missing"),
            Some(file) => match &file.counts {
                None => write!(f, "{name}: {path} is not whole"),
                Some(counts) => {
                    let agree = counts.agree;
                    let records = counts.records;
                    write!(f, "{name}: {agree} of {records} agree")
                }
            },
        }
    }
}

// The bytes of a file, no more than the limit; none where they cannot be read.
fn read<R: Files + Alloc>(rt: &R, file: R::File) -> io::Result<Vec<u8, R::A>> {
    let mut bytes = Vec::with_capacity(rt.alloc(), LIMIT)?;
    if file.take(LIMIT as u64).read_to_end(&mut bytes).is_err() {
        bytes.clear();
    }
    Ok(bytes)
}

// Replays a file, and prints its line; of what it prints it promises nothing. Public only for the programs that replay vectors, whose two
// functions it calls: that they may be called is all that it asks.
pub fn replay<R: Files + Print + Alloc, S: Fn(&[u8]) -> usize + Drop, A: Fn(&[u8]) -> bool + Drop>(
    rt: &R,
    name: &str,
    path: &str,
    size: S,
    agrees: A,
) -> io::Result<()>
    requires sized { S.IsAlwaysCallable size }
    requires answered { A.IsAlwaysCallable agrees }
{
    let file = match fs::open(rt, path) {
        Ok(file) => Some(replayed(size, agrees, read(rt, file)?.as_slice())),
        Err(_) => None,
    };
    let line = Line { name, path, file };
    println!(rt; "{line}")
}

// ---- parts of a record

// The n bytes at a place; fewer where the slice ends before.
pub fn part(s: &[u8], at: usize, n: usize) -> &[u8]
    ensures { result.now ≡ take n (drop at s.now) }
{
    let rest = &s[at.min(s.len())..];
    &rest[..n.min(rest.len())]
}

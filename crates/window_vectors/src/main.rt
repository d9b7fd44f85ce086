// Replays vector files for the window, and prints how many records each file has and how many of them agree to the last bit.
// The data are the reference's answers, written by the command in host/README.md with seed 1; window_patterns.bin has every
// pattern of good and bad readings up to length 14. Words are big-endian.
#![tactic(auto)]

use counting::Counts;
use std::io;
use vectors::{are_at, count_at, is_at, part, replay};
use window::{LentArrays, Window};
use wire::{read_byte, read_float, read_word};

// ---- recordings

// A window and the samples that it holds.
#[derive(Drop)]
struct Recording {
    window: Window,
    rates: [f32; 2048],
    moments: [f32; 2048],
    offsets: [f32; 2048],
    held: [bool; 2048],
}

impl Recording {
    fn new() -> Self {
        Recording {
            window: Window::new(),
            rates: [0.0; 2048],
            moments: [0.0; 2048],
            offsets: [0.0; 2048],
            held: [false; 2048],
        }
    }

    fn record(&mut self, dt: f32, rate: f32, moment: f32, offset: f32) {
        let mut arrays = LentArrays {
            rates: &mut self.rates,
            moments: &mut self.moments,
            offsets: &mut self.offsets,
            held: &mut self.held,
        };
        self.window = arrays.record_tick(self.window, dt, rate, moment, offset);
    }

    fn counts(&self) -> Counts {
        counting::count_ticks(self.window, &self.held)
    }

    // Whether the totals are the first five words: w stored, w held, w warm, w rows, f window duration.
    fn totals_agree(&self, s: &[u8]) -> bool {
        let c = self.counts();
        (self.window.stored() == (read_word(s, 0) as usize))
            & (c.held == (read_word(s, 4) as usize))
            & (c.warm == (read_word(s, 8) as usize))
            & (c.rows == (read_word(s, 12) as usize))
            & is_at(self.window.duration_s, s, 16)
    }

    // Whether the samples, from the first on, are those of some bytes: each f rate, f moment, f offset, w mark.
    fn samples_agree(&self, s: &[u8]) -> bool {
        let readings = self.rates.iter().zip(&self.moments).zip(&self.offsets);
        readings
            .map(|((rate, moment), offset)| [*rate, *moment, *offset])
            .zip(&self.held)
            .zip(s.chunks_exact(16))
            .all(|((reading, mark), sample)| {
                are_at(&reading, sample, 0) & (u32::from(*mark) == read_word(sample, 12))
            })
    }
}

// w ticks; each f dt, f rate, f moment, f offset; the totals; the stored samples.
fn recording_agrees(s: &[u8]) -> bool {
    let ticks = count_at(s, 0, 4096);
    let mut recording = Recording::new();
    for tick in part(s, 4, ticks * 16).chunks_exact(16) {
        recording.record(
            read_float(tick, 0),
            read_float(tick, 4),
            read_float(tick, 8),
            read_float(tick, 12),
        );
    }
    let end = 4 + ticks * 16;
    let samples = part(s, end + 20, count_at(s, end, 2048) * 16);
    recording.totals_agree(part(s, end, 20)) & recording.samples_agree(samples)
}

// The bytes of a recording: its ticks, five words, its stored samples.
fn recording_size(s: &[u8]) -> usize {
    let end = 4 + count_at(s, 0, 4096) * 16;
    end + 20 + count_at(s, end, 2048) * 16
}

// ---- patterns of bad readings

// Whether reading k is bad, where a pattern follows `before` good readings.
fn is_bad(pattern: u32, before: u32, k: u32) -> bool {
    k.checked_sub(before)
        .is_some_and(|n| n < 32 && (pattern >> n) % 2 == 1)
}

// NaN for a bad reading.
fn reading(bad: bool) -> f32 {
    if bad { f32::NAN } else { 1.0 }
}

// What a recording of n readings counts. A bad reading has a NaN rate at an even place, a NaN moment at an odd one.
fn counts(pattern: u32, before: u32, n: u32) -> Counts {
    let mut recording = Recording::new();
    for k in 0..n {
        let bad = is_bad(pattern, before, k);
        let even = k % 2 == 0;
        recording.record(0.01, reading(bad & even), reading(bad & !even), 0.0);
    }
    recording.counts()
}

// Whether counts are the first three bytes: held, warm, rows.
fn counts_agree(c: Counts, s: &[u8]) -> bool {
    (c.held == (read_byte(s, 0) as usize))
        & (c.warm == (read_byte(s, 1) as usize))
        & (c.rows == (read_byte(s, 2) as usize))
}

// 16 bits of the pattern; bytes: readings, held, warm, rows.
fn pattern_agrees(s: &[u8]) -> bool {
    let pattern = u16::from_be_bytes([read_byte(s, 0), read_byte(s, 1)]) as u32;
    counts_agree(counts(pattern, 0, read_byte(s, 2) as u32), part(s, 3, 3))
}

// Bytes: good readings before, length of the pattern, pattern, good readings after, held, warm, rows, 0.
fn around_agrees(s: &[u8]) -> bool {
    let before = read_byte(s, 0) as u32;
    let length = read_byte(s, 1) as u32;
    let pattern = read_byte(s, 2) as u32;
    let after = read_byte(s, 3) as u32;
    let counts = counts(pattern, before, before + length + after);
    counts_agree(counts, part(s, 4, 3))
}

fn main(rt: HostRuntime) -> io::Result<()> {
    replay(
        &rt,
        "patterns",
        "window_patterns.bin",
        |_| 6,
        pattern_agrees,
    )?;
    replay(
        &rt,
        "patterns among good readings",
        "window_around.bin",
        |_| 8,
        around_agrees,
    )?;
    replay(
        &rt,
        "recordings",
        "windows.bin",
        recording_size,
        recording_agrees,
    )
}

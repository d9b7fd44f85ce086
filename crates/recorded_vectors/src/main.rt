// Replays the reference's vectors for the tie rule, the least squares, the rows' sums and the recorded fit, and prints how many records of
// each file agree to the last bit. A file is a run of big-endian 32-bit words, as host/README.md lays them out; an expected NaN is 7FC00000.
#![tactic(auto)]

use delay::Entry;
use least_squares::Sums;
use recorded::{Classified, RecordedFit};
use std::io;
use vectors::{are_at, count_at, is_at, part, replay, same};
use window::{Readings, Window};
use wire::{read_float, read_word};

// ---- the tie rule

// Entry k, of which the mask says whether it is there: f effect, f residual.
fn entry(s: &[u8], mask: u32, k: u32) -> Option<Entry> {
    (mask.checked_shr(k)? % 2 == 1).then_some(Entry {
        effect: read_float(s, 0),
        residual: read_float(s, 4),
    })
}

// f share, w mask, 21 entries of f effect and f residual, of which the rule reads 20; w position, 0 for none.
fn tie_agrees(s: &[u8]) -> bool {
    let mask = read_word(s, 4);
    let mut entries = [None; 20];
    for (k, (place, bytes)) in (0..).zip(entries.iter_mut().zip(part(s, 8, 160).chunks_exact(8))) {
        *place = entry(bytes, mask, k);
    }
    let expected = read_word(s, 176) as usize;
    delay::delay_to_fit(entries, read_float(s, 0)).unwrap_or(0) == expected
}

// ---- sums and their solution

// The first six floats.
fn six(s: &[u8]) -> [f32; 6] {
    let mut floats = [0.0f32; 6];
    for (float, bytes) in floats.iter_mut().zip(s.chunks_exact(4)) {
        *float = read_float(bytes, 0);
    }
    floats
}

// 36 f normal, column after column, 6 f projected, f target squared.
fn sums(s: &[u8]) -> Sums {
    let mut normal = [[0.0f32; 6]; 6];
    for (column, bytes) in normal.iter_mut().zip(part(s, 0, 144).chunks_exact(24)) {
        *column = six(bytes);
    }
    Sums {
        normal,
        projected: six(part(s, 144, 24)),
        target_squared: read_float(s, 168),
    }
}

fn same_six(a: &[f32; 6], b: &[f32; 6]) -> bool {
    a.iter().zip(b).all(|(x, y)| same(*x, *y))
}

fn same_sums(a: Sums, b: Sums) -> bool {
    same(a.target_squared, b.target_squared)
        & a.normal.iter().zip(&b.normal).all(|(x, y)| same_six(x, y))
        & same_six(&a.projected, &b.projected)
}

// The sums; w 1 for a fit, else 0; six f coefficients, f residual.
fn solve_agrees(s: &[u8]) -> bool {
    match sums(s).solve() {
        None => read_word(s, 172) == 0,
        Some(f) => (read_word(s, 172) == 1) & are_at(&f.c, s, 176) & is_at(f.residual, s, 200),
    }
}

// ---- windows

// A window's readings.
#[derive(Drop)]
struct Recording {
    len: usize,
    rates: [f32; 2048],
    moments: [f32; 2048],
    held: [bool; 2048],
}

impl Recording {
    // w stored; each f rate, f moment, w mark.
    fn read(s: &[u8]) -> Self {
        let len = count_at(s, 0, 2048);
        let mut rates = [0.0f32; 2048];
        let mut moments = [0.0f32; 2048];
        let mut held = [false; 2048];
        let ticks = part(s, 4, len * 12).chunks_exact(12);
        let places = rates.iter_mut().zip(&mut moments).zip(&mut held);
        for (((rate, moment), mark), tick) in places.zip(ticks) {
            *rate = read_float(tick, 0);
            *moment = read_float(tick, 4);
            *mark = read_word(tick, 8) == 1;
        }
        Recording {
            len,
            rates,
            moments,
            held,
        }
    }

    fn readings(&self, duration_s: f32) -> Readings<'_> {
        Readings {
            window: Window {
                len: self.len,
                duration_s,
            },
            rates: &self.rates,
            moments: &self.moments,
            held: &self.held,
        }
    }
}

// A window, w rows; the sums of each of ten delays, which are held to those made for it alone and from the shared ones.
fn sums_agree(s: &[u8]) -> bool {
    let recording = Recording::read(s);
    let readings = recording.readings(0.0);
    let shared = shared_sums::sum_shared(readings);
    let answers = part(s, 8 + count_at(s, 0, 2048) * 12, 1720);
    (1..=10usize).zip(answers.chunks_exact(172)).all(|(delay, answer)| {
        let expected = sums(answer);
        let alone = rows::add_window(readings, delay, rows::no_sums());
        same_sums(alone, expected) & same_sums(delay_sums::delay_sums(shared, delay), expected)
    })
}

fn class_number(c: Classified) -> u32 {
    match c {
        Classified::Integrated => 0,
        Classified::Recorded(_) => 1,
        Classified::Unexcited => 2,
        Classified::Saturated => 3,
    }
}

// w 1 for a fit, else 0; w d; f two rate weights, three moment weights, dt_s, rms.
fn fit_agrees(fit: Option<RecordedFit>, s: &[u8]) -> bool {
    match fit {
        None => read_word(s, 0) == 0,
        Some(RecordedFit { model: m, rms }) => (read_word(s, 0) == 1)
            & (m.delay.whole_ticks() == read_word(s, 4))
            & (m.delay.half_tick() == 0)
            & are_at(&[m.r1, m.r2, m.m0, m.m1, m.m2, m.dt_s, rms], s, 8),
    }
}

// A window, f window duration; the fit; w class.
fn recorded_agrees(s: &[u8]) -> bool {
    let n = count_at(s, 0, 2048);
    let recording = Recording::read(s);
    let readings = recording.readings(read_float(s, 4 + n * 12));
    let fit = recorded::fit_recorded(readings);
    let class = recorded::classify(readings);
    let answers = part(s, 8 + n * 12, 40);
    fit_agrees(fit, answers) & (class_number(class) == read_word(answers, 36))
}

// ---- files

fn sums_size(s: &[u8]) -> usize {
    1728 + count_at(s, 0, 2048) * 12
}

fn recorded_size(s: &[u8]) -> usize {
    48 + count_at(s, 0, 2048) * 12
}

fn main(rt: HostRuntime) -> io::Result<()> {
    replay(&rt, "tie rule", "ties.bin", |_| 180, tie_agrees)?;
    replay(&rt, "least squares", "solve.bin", |_| 204, solve_agrees)?;
    replay(&rt, "sums of each delay", "sums.bin", sums_size, sums_agree)?;
    replay(
        &rt,
        "recorded fit and class",
        "recorded.bin",
        recorded_size,
        recorded_agrees,
    )
}

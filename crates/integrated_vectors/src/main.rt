// Replays vector files for the poles, the gain fits, the grid and the integrated fit, and prints how many records
// each file has and how many of them agree. Words are big-endian; an expected NaN is 7FC00000.
#![tactic(auto)]

ghost use Rattle.std.specs.Prelude.{◌≤◌};

use delay::RateModel;
use gain::FitInput;
use grid::LagFit;
use std::{array, io};
use vectors::{are_at, count_at, double_at, part, replay};
use wire::{read_float, read_word};

// A window's readings: the rates and the moments, which a gain fit takes lagged.
#[derive(Drop)]
struct Recording {
    len: usize,
    rates: [f32; 2048],
    moments: [f32; 2048],
    ghost within: { len ≤ 2048 },
}

impl Recording {
    // w stored; from a place on each f rate, f moment.
    fn read(s: &[u8], first: usize) -> Self {
        let len = count_at(s, 0, 2048);
        let mut rates = [0.0f32; 2048];
        let mut moments = [0.0f32; 2048];
        let pairs = part(s, first, len * 8).chunks_exact(8);
        for ((rate, moment), pair) in rates.iter_mut().zip(&mut moments).zip(pairs) {
            *rate = read_float(pair, 0);
            *moment = read_float(pair, 4);
        }
        Recording {
            len,
            rates,
            moments,
        }
    }
}

// f dt_s, 129 f poles, carry as f64 bits.
fn poles_agree(s: &[u8]) -> bool {
    let dt_s = read_float(s, 0);
    let poles: [f32; 129] = array::from_fn(|i| lags::pole(dt_s, i));
    are_at(&poles, s, 4) & (f64::from(lags::carry(dt_s)) == double_at(s, 520))
}

// w stored, w step, carry as f64 bits; each f rate, f lagged; w 1 for a fit, else 0; f gain, f residual.
// A finite moment goes through the lag of pole 0 as it is, but for a -0, which comes out as +0 where the lagged one has no minus sign.
fn gain_agrees(s: &[u8]) -> bool {
    let recording = Recording::read(s, 16);
    let fit = trial::fit_gain(
        &recording.rates,
        &recording.moments,
        recording.len,
        double_at(s, 8),
        read_word(s, 4) as usize,
        0.0,
    );
    let answer = part(s, 16 + recording.len * 8, 12);
    match fit {
        None => read_word(answer, 0) == 0,
        Some(fit) => (read_word(answer, 0) == 1) & are_at(&[fit.gain, fit.residual], answer, 4),
    }
}

// w 1 for a candidate, else 0; f pole, low end, high end, gain, residual.
fn is_kept(kept: Option<LagFit>, s: &[u8]) -> bool {
    match kept {
        None => read_word(s, 0) == 0,
        Some(LagFit { bracket: b, fit }) => (read_word(s, 0) == 1)
            & are_at(&[b.pole, b.low, b.high, fit.gain, fit.residual], s, 4),
    }
}

// w stored, f dt_s; each f rate, f moment; what each of 20 steps keeps.
fn grid_agrees(s: &[u8]) -> bool {
    let recording = Recording::read(s, 8);
    let len = recording.len;
    if len < 12 {
        return false;
    }
    let dt_s = read_float(s, 4);
    let carry = f64::from(lags::carry(dt_s));
    let mut constants = [0.0f64; 2048];
    let mut changes = [0.0f64; 2048];
    let shared = gain::prepare(&recording.rates, carry, len, &mut constants, &mut changes);
    let input = FitInput {
        moments: &recording.moments,
        constants: &constants,
        changes: &changes,
        shared,
    };
    let expected = part(s, 8 + len * 8, 480).chunks_exact(24);
    grid::keep_poles(input, dt_s)
        .iter()
        .zip(expected)
        .all(|(kept, bytes)| is_kept(*kept, bytes))
}

// w 1 for a model; w step; w d; f two rate weights, three moment weights, dt_s.
fn is_model(m: RateModel, s: &[u8]) -> bool {
    let d = m.delay;
    (read_word(s, 0) == 1)
        & ((d.half_ticks as u64) == (read_word(s, 4) as u64) + 2)
        & (d.whole_ticks() == read_word(s, 8))
        & are_at(&[m.r1, m.r2, m.m0, m.m1, m.m2, m.dt_s], s, 12)
}

// w stored, f window duration; each f rate, f moment; the model, or w 0 and eight words; w gain fits.
fn integrated_agrees(s: &[u8]) -> bool {
    let recording = Recording::read(s, 8);
    let fit = integrated::fit_integrated(
        &recording.rates,
        &recording.moments,
        recording.len,
        read_float(s, 4),
    );
    let answer = part(s, 8 + recording.len * 8, 40);
    if fit.gain_fits != read_word(answer, 36) {
        return false;
    }
    match fit.model {
        None => read_word(answer, 0) == 0,
        Some(m) => is_model(m, answer),
    }
}

// ---- files

fn gain_size(s: &[u8]) -> usize {
    28 + count_at(s, 0, 2048) * 8
}

fn grid_size(s: &[u8]) -> usize {
    488 + count_at(s, 0, 2048) * 8
}

fn integrated_size(s: &[u8]) -> usize {
    48 + count_at(s, 0, 2048) * 8
}

fn main(rt: HostRuntime) -> io::Result<()> {
    replay(&rt, "poles", "poles.bin", |_| 528, poles_agree)?;
    replay(&rt, "gain fits", "gain.bin", gain_size, gain_agrees)?;
    replay(&rt, "grids", "grid.bin", grid_size, grid_agrees)?;
    replay(
        &rt,
        "integrated fits",
        "integrated.bin",
        integrated_size,
        integrated_agrees,
    )
}

// The gain fits of three poles at all 20 steps, from a window's moments. Their regressors are made a block of ticks at a time. The lanes of a whole tick are summed in one loop:
// no sum waits for the one before it, and all of them stay in registers.
#![tactic(auto)]

ghost use Rattle.std.specs.Prelude.{◌≡◌, ℕ, ◌≤◌, ◌<◌, length, min};
ghost use Rattle.float.specs.Series.{at};
ghost use Rattle.gain.specs.Prepared.{ticks_of, fit_of};
ghost use Rattle.lanes.specs.Lanes.{lane_count};
ghost use Rattle.kernel.specs.Kernel.{lane, one_on, lanes_on, reached_of, block_on, HasSums, table_fits, step_fits};

use gain::{FitInput, GainFit, Shared, StepSums};
use std::array;

// The running values of the six lanes of a whole tick side by side: m, and the three sums that it is in.
// Four arrays: an array of six structs takes 1.35 times as long, since the compiler then packs no two lanes in a register.
#[derive(Clone, Copy)]
pub struct LaneSums {
    pub m: [f64; 6],
    pub mm: [f64; 6],
    pub mc: [f64; 6],
    pub mt: [f64; 6],
}

impl LaneSums {
    // The sums of lane h.
    fn lane(&self, h: usize) -> StepSums
        requires { h < lane_count }
        ensures { let s = lane self.now h in result ≡ record { mm = s.mm; mc = s.mc; mt = s.mt } }
    {
        StepSums {
            mm: self.mm[h],
            mc: self.mc[h],
            mt: self.mt[h],
        }
    }

    // With one tick more of six lanes, beside the values of the two leaky series.
    fn plus(self, carry: f64, tick: &[f64; 6], c: f64, t: f64) -> LaneSums
        ensures { (h : ℕ) → h < lane_count → lane result h ≡ one_on carry (at tick.now h) c t (lane self h) }
    {
        let m: [f64; 6] = array::from_fn(|h| carry * self.m[h] + tick[h]);
        LaneSums {
            m,
            mm: array::from_fn(|h| self.mm[h] + m[h] * m[h]),
            mc: array::from_fn(|h| self.mc[h] + m[h] * c),
            mt: array::from_fn(|h| self.mt[h] + m[h] * t),
        }
    }
}

// Six lanes with some ticks more, beside as many values of the two leaky series.
fn sum_lanes(
    sums: LaneSums,
    carry: f64,
    ticks: &[[f64; 6]],
    constants: &[f64],
    changes: &[f64],
) -> LaneSums
    requires constants { length constants.now ≡ length ticks.now }
    requires changes { length changes.now ≡ length ticks.now }
    ensures { (h : ℕ) → h < lane_count → lane result h ≡ lanes_on carry ticks.now constants.now changes.now h (lane sums h) (length ticks.now) }
{
    let mut on = sums;
    for ((tick, c), t) in ticks.iter().zip(constants).zip(changes) {
        let next = on.plus(carry, tick, *c, *t);
        on = next;
    }
    on
}

// How many of n ticks the lanes of whole tick d + 1 have once the moments before a tick are in: their first regressor is that of tick 11 - d.
fn reached(n: usize, d: usize, tick: usize) -> usize
    requires { d ≤ 9 }
    ensures { result ≡ reached_of n d tick }
{
    tick.saturating_sub(11 - d).min(n)
}

// The lanes of whole tick d + 1 with a block in them, whose first tick is given.
fn sum_block(
    ticks: &[[f64; 6]; 128],
    input: FitInput<'_>,
    sums: LaneSums,
    d: usize,
    tick: usize,
) -> LaneSums
    requires { (d ≤ 9) × (tick ≤ 1920) }
    ensures { (h : ℕ) → h < lane_count → lane result h ≡ block_on input.entry ticks.now d tick h (lane sums h) }
{
    let FitInput {
        moments: _,
        constants,
        changes,
        shared,
    } = input;
    let n = shared.fitted();
    let from = reached(n, d, tick);
    let to = reached(n, d, tick + 128);
    let first = (11 - d + from).saturating_sub(tick);
    let last = first + (to - from);
    sum_lanes(
        sums,
        shared.carry,
        &ticks[first..last],
        &constants[from..to],
        &changes[from..to],
    )
}

// The sums of all steps: six lanes for each of ten whole ticks, the shortest first. They go into an array before they are solved, so that the compiler packs
// two lanes in a register.
fn sum_places(input: FitInput<'_>, poles: [f32; 3]) -> [LaneSums; 10]
    ensures { HasSums input.entry poles result }
{
    let n = input.shared.fitted();
    let none = LaneSums {
        m: [0.0f64; 6],
        mm: [0.0f64; 6],
        mc: [0.0f64; 6],
        mt: [0.0f64; 6],
    };
    let mut sums = [none; 10];
    let mut ticks = [[0.0f64; 6]; 128];
    let mut lagged = [0.0f32; 3];
    // By the block: a lane reads its two series some ticks apart from the moments.
    for b in 0..(n + 11).div_ceil(128) {
        let tick = b * 128;
        let next = lanes::lag_block(input.moments, poles, lagged, b, n + 11 - tick, &mut ticks);
        for (d, sum) in sums.iter_mut().enumerate() {
            *sum = sum_block(&ticks, input, *sum, d, tick);
        }
        lagged = next;
    }
    sums
}

// The sums of three poles at all steps, with those that all fits of the window share.
#[derive(Clone, Copy)]
pub struct StepTable {
    pub sums: [LaneSums; 10],
    pub shared: Shared,
}

impl StepTable {
    // The table of three poles.
    pub fn new(input: FitInput<'_>, poles: [f32; 3]) -> StepTable
        ensures { (q : ℕ) → q < 3 → table_fits result q ≡ step_fits (fit_of input.entry) (at poles q) }
    {
        StepTable {
            sums: sum_places(input, poles),
            shared: input.shared,
        }
    }

    // The fits of pole q at all steps, each from the sums of a lane of its whole ticks. A pole above the last of three is read as the last.
    pub fn fits(&self, q: usize) -> [Option<GainFit>; 20]
        ensures { result ≡ table_fits self.now (min q 2) }
    {
        let pole = q.min(2);
        array::from_fn(|s| self.shared.solve(self.sums[s / 2].lane(pole * 2 + s % 2)))
    }
}

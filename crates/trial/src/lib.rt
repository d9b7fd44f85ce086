// One gain fit, of any step at any pole: least squares of the integrated rate on the integrated lagged moment and a constant.
// Lag, leaky sum and products go in one pass, with no series stored.
#![tactic(auto)]

ghost use Rattle.std.specs.Prelude.{◌≡◌, ◌-◌, ◌≤◌, min};
ghost use Rattle.float.specs.Series.{at};
ghost use Rattle.lags.specs.Lags.{lag_to};
ghost use Rattle.gain.specs.Gain.{first_tick, regressor, through, gain_fit};
ghost use Rattle.gain.specs.Prepared.{ticks_of, fit_of, Summed};
ghost use Rattle.trial.specs.Trial.{first_moment};

use gain::{FitInput, GainFit, StepSums};

// Where the moments of a step begin: at the one that tick 11 meets, 12 less the whole ticks. A step is its number, step / 2 + 1 whole ticks and half a tick more where
// it is odd: that is its place in arrays of twenty, and a struct would be made the number at each use.
fn first_moment(step: usize) -> usize
    ensures { result ≡ first_moment step }
{
    let whole = step / 2 + 1;
    12usize.saturating_sub(whole)
}

// The first n moments through a lag.
fn lag_before(moments: &[f32; 2048], n: usize, pole: f32) -> f32
    requires { n ≤ 2048 }
    ensures { result ≡ lag_to pole (at moments.now) n }
{
    moments[..n].iter().fold(0.0f32, |lagged, moment| gain::lag_on(pole, lagged, *moment))
}

// The sums of one step at one pole.
fn step_sums(input: FitInput<'_>, step: usize, pole: f32) -> StepSums
    ensures { Summed (through input.entry.shared.carry (regressor step pole (at input.entry.moments.now))) (at input.entry.constants.now) (at input.entry.changes.now) (ticks_of input.entry.shared) result }
{
    let FitInput {
        moments,
        constants,
        changes,
        shared,
    } = input;
    let first = first_moment(step);
    let half = step % 2 == 1;
    let mut lagged = lag_before(moments, first, pole);
    let mut last = f64::from(lagged);
    let mut m = 0.0f64;
    let mut sums = StepSums {
        mm: 0.0,
        mc: 0.0,
        mt: 0.0,
    };
    let n = shared.fitted();
    let series = moments[first..first + n]
        .iter()
        .zip(&constants[..n])
        .zip(&changes[..n]);
    for ((moment, c), t) in series {
        lagged = gain::lag_on(pole, lagged, *moment);
        let now = f64::from(lagged);
        m = shared.carry * m + gain::blend(half, now, last);
        sums = sums.plus(m, *c, *t);
        last = now;
    }
    sums
}

// The fit of a step at a pole, from what a window's fits read.
#[tactic(auto, using(gain::proofs::Window::solved_is))]
pub fn fit_at(input: FitInput<'_>, step: usize, pole: f32) -> Option<GainFit>
    ensures { result ≡ fit_of input.entry step pole }
{
    input.shared.solve(step_sums(input, step, pole))
}

// One gain fit of a window, whatever the step and the pole.
pub fn fit_gain(
    rates: &[f32; 2048],
    moments: &[f32; 2048],
    len: usize,
    carry: f64,
    step: usize,
    pole: f32,
) -> Option<GainFit>
    ensures { result ≡ gain_fit carry (at moments.now) (at rates.now) (min len 2048 - first_tick) step pole }
{
    // The two series are lent to what fills them, here and in `integrated`: handed back by value each would be copied, 16 KB.
    let mut constants = [0.0f64; 2048];
    let mut changes = [0.0f64; 2048];
    let shared = gain::prepare(rates, carry, len, &mut constants, &mut changes);
    let input = FitInput {
        moments,
        constants: &constants,
        changes: &changes,
        shared,
    };
    fit_at(input, step, pole)
}

// The rows of the recorded fit, and one delay's sums over them.
#![tactic(auto)]

ghost use Rattle.std.specs.Prelude.{◌≡◌, ◌≤◌, ◌<◌};
ghost use Rattle.std.specs.Float.{binary32};
ghost use Rattle.std.specs.Float.Ieee.{add, mul};
ghost use Rattle.float.specs.Series.{at};
ghost use Rattle.rows.specs.Rows.{delay_within, next_run, regressors as regressors_of, each, window_sums, no_sums};
ghost use Rattle.window.specs.Arrays.{stored_of};

use least_squares::Sums;
use window::Readings;

// Good ticks in a row from which a tick makes a row: the longest delay's last moment stands eleven ticks before it.
pub const HISTORY: usize = 12;

// A delay of the fit, in ticks.
#[derive(Clone, Copy)]
pub struct FitDelay {
    pub ticks: usize,
    pub ghost within: { (1 ≤ ticks) × (ticks ≤ 10) },
}

// The delay of the fit that is nearest.
pub fn delay_within(d: usize) -> FitDelay
    ensures { result.ticks ≡ delay_within d }
{
    FitDelay {
        ticks: d.clamp(1, 10),
    }
}

// How many good ticks stand in a row once a tick with this mark is counted: a held one empties the history. Counted to 12.
pub fn next_run(held: bool, run: usize) -> usize
    ensures { result ≡ next_run held run }
{
    if held {
        0
    } else {
        run.saturating_add(1).min(HISTORY)
    }
}

// The six terms of tick k's row at a delay.
#[tactic(auto, unfolding(crate::specs::Rows::regressors))]
fn regressors(rates: &[f32; 2048], moments: &[f32; 2048], delay: FitDelay, k: usize) -> [f32; 6]
    requires { (11 ≤ k) × (k < 2048) }
    ensures { result ≡ regressors_of rates.now moments.now delay.ticks k }
{
    let d = delay.ticks;
    let last = rates[k - 1];
    [
        last,
        last - rates[k - 2],
        moments[k + 1 - d],
        moments[k - d],
        moments[k - 1 - d],
        1.0,
    ]
}

// One factor times each entry, added to its sum. By the place, here and below: after a loop over `iter_mut().zip(..)` a proof does
// not know what the array holds.
#[tactic(auto, using(crate::proofs::Each::each_next), unfolding(crate::specs::Rows::each))]
fn add_scaled<const N: usize>(sums: &mut [f32; N], factor: f32, entries: &[f32; N])
    ensures { sums.new ≡ each N (λ b s. add binary32 s (mul binary32 factor (at entries.now b))) sums.old }
{
    for (b, sum) in sums.iter_mut().enumerate() {
        *sum += factor * entries[b];
    }
}

// Each entry of one times each of the other, added to their sums.
#[tactic(auto, using(crate::proofs::Each::each_next), unfolding(crate::specs::Rows::each))]
pub fn add_products<const M: usize, const N: usize>(
    sums: &mut [[f32; N]; M],
    left: &[f32; M],
    right: &[f32; N],
)
    ensures { sums.new ≡ each M (λ a r. each N (λ b s. add binary32 s (mul binary32 (at left.now a) (at right.now b))) r) sums.old }
{
    for (a, scaled) in sums.iter_mut().enumerate() {
        add_scaled(scaled, left[a], right);
    }
}

// No rows yet.
#[tactic(auto, unfolding(crate::specs::Rows::no_sums))]
pub fn no_sums() -> Sums
    ensures { result ≡ no_sums }
{
    Sums {
        normal: [[0.0; 6]; 6],
        projected: [0.0; 6],
        target_squared: 0.0,
    }
}

// The sums of delay d with the rows of a window added, in tick order.
#[tactic(auto, unfolding(window::specs::Arrays::stored_of))]
pub fn add_window(readings: Readings<'_>, d: usize, start: Sums) -> Sums
    ensures { result ≡ window_sums readings.entry.rates.now readings.entry.moments.now readings.entry.held.now (stored_of readings.entry.window) (delay_within d) start }
{
    let Readings {
        window,
        rates,
        moments,
        held,
    } = readings;
    let delay = delay_within(d);
    let mut sums = start;
    let mut run = 0;
    // By index: a row reads ticks before its own. `shared_sums` walks the same rows: the two loops share `next_run` and the test of its answer, and a walk
    // that is handed what to do at a row would be longer, since what it was handed changes from call to call.
    for k in 0..window.stored() {
        run = next_run(held[k], run);
        if run < HISTORY {
            continue;
        }
        let terms = regressors(rates, moments, delay, k);
        let target = rates[k] - rates[k - 1];
        add_products(&mut sums.normal, &terms, &terms);
        add_scaled(&mut sums.projected, target, &terms);
        sums.target_squared += target * target;
    }
    sums
}

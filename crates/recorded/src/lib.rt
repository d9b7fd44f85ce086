// The recorded fit: least squares of the rate's change on the last rates and the recorded moments, a fit for each whole delay.
#![tactic(auto)]

ghost use Rattle.std.specs.Prelude.{◌≡◌, ◌≤◌, ◌<◌, None, count_by, length, get_or, take};
ghost use Rattle.std.specs.Float.{binary32};
ghost use Rattle.float.specs.Values.{whole32};
ghost use Rattle.float.specs.Series.{sum_to};
ghost use Rattle.delay.specs.Tie.{entry_count};
ghost use Rattle.window.specs.Samples.{capacity};
ghost use Rattle.window.specs.Arrays.{stored_of};
ghost use Rattle.recorded.specs.Classify.{at_least_one, entry_of, entries as entries_of, model_of, fit_at, fit_recorded, at_rail, saturated as saturated_by, classify as class_of_window};
ghost use Rattle.recorded.specs.Stages.{Stored, solved_from, solved_list};

use delay::{Delay, Entry, RateModel};
use least_squares::Solution;
use shared_sums::SharedSums;
use window::{Readings, Window};

// The recorded fit of a window: its model, and what it leaves unexplained, as an RMS a tick in rad/s.
#[derive(Clone, Copy)]
pub struct RecordedFit {
    pub model: RateModel,
    pub rms: f32,
}

// The fit that a window takes, or why it takes none.
#[derive(Clone, Copy)]
pub enum Classified {
    Recorded(RateModel),
    Integrated,
    Unexcited,
    Saturated,
}

// A residual this share above the least one ties with it.
const TIE_SHARE: f32 = 0.01;
// The residual a tick, in rad/s, above which a window is noisy.
const NOISY_RESIDUAL_RADPS: f32 = 0.017;
// A moment's magnitude at the rate loop's limit.
const SATURATED_MOMENT: f32 = 0.999;
// The share of such moments above which a window is saturated.
const SATURATED_SHARE: f32 = 0.2;

// ---- what is stored

// How many samples of a window are stored: never more than the arrays hold.
// Array by array: a proof knows an array's length behind a reference that is a parameter, and not behind a field.
#[tactic(auto, unfolding(window::specs::Arrays::stored_of))]
fn stored(window: Window, rates: &[f32; 2048], moments: &[f32; 2048], held: &[bool; 2048]) -> usize
    ensures count { result ≡ stored_of window }
    ensures room { Stored rates.now moments.now held.now result }
{
    window.stored()
}

// A whole number as f32, which holds those of a window exactly. How many it may be is asked for, here and below: a type for a count would be made and taken apart
// at each use.
fn whole(n: usize) -> f32
    requires { n ≤ capacity }
    ensures { result ≡ whole32 n }
{
    n as f32
}

// max(n, 1)
fn at_least_one(n: usize) -> f32
    requires { n ≤ capacity }
    ensures { result ≡ at_least_one n }
{
    whole(n.max(1))
}

// The sum of the rows' dt_s, each of them `dt_s`.
fn sum_rows_dt(rows: usize, dt_s: f32) -> f32
    ensures { result ≡ sum_to binary32 (λ k. dt_s) rows }
{
    (0..rows).fold(0.0, |sum, _| sum + dt_s)
}

// ---- the fits of all delays

// The fit of delay k + 1.
#[tactic(auto, unfolding(crate::specs::Stages::solved_from))]
fn solve_delay(shared: SharedSums, k: usize) -> Option<Solution>
    requires { k < 10 }
    ensures { result ≡ solved_from shared k }
{
    delay_sums::delay_sums(shared, k + 1).solve()
}

fn solve_delays(shared: SharedSums) -> [Option<Solution>; 10]
    ensures { result ≡ solved_list (solved_from shared) }
{
    std::array::from_fn(|k| solve_delay(shared, k))
}

#[tactic(auto, unfolding(crate::specs::Classify::entry_of, crate::specs::Classify::effect_of, units::specs::Units::effect_of))]
fn entry(solved: Option<Solution>) -> Option<Entry>
    ensures { result ≡ entry_of solved }
{
    let Solution { c, residual } = solved?;
    let [_, _, m0, m1, m2, _] = c;
    Some(Entry {
        effect: units::moment_effect(m0, m1, m2),
        residual,
    })
}

// The entries of the tie rule, of which the last ten are missing. `integrated` has twenty fits of another type: what the two share is a map of one line.
fn entries(fits: [Option<Solution>; 10]) -> [Option<Entry>; 20]
    ensures { result ≡ entries_of (λ k. get_or fits k None) }
{
    std::array::from_fn(|k| entry(*fits.get(k)?))
}

// ---- the fit that wins

#[tactic(auto, unfolding(crate::specs::Classify::model_of))]
fn model(s: Solution, position: usize, dt_s: f32) -> RateModel
    requires { position ≤ entry_count }
    ensures { result ≡ model_of s position dt_s }
{
    let [c0, c1, m0, m1, m2, _] = s.c;
    RateModel {
        r1: 1.0 + c0 + c1,
        r2: -c1,
        m0,
        m1,
        m2,
        delay: Delay::from_recorded(position),
        dt_s,
    }
}

#[tactic(auto, unfolding(crate::specs::Classify::fit_at))]
fn fit(solved: Option<Solution>, position: usize, dt_s: f32, rows: usize) -> Option<RecordedFit>
    requires { (position ≤ entry_count) × (rows ≤ capacity) }
    ensures { result ≡ fit_at solved position dt_s rows }
{
    let s = solved?;
    Some(RecordedFit {
        model: model(s, position, dt_s),
        rms: float::root(s.residual / at_least_one(rows)),
    })
}

// The recorded fit of a window, at the delay that the tie rule picks.
pub fn fit_recorded(readings: Readings<'_>) -> Option<RecordedFit>
    ensures { let n = stored_of readings.entry.window in result ≡ fit_recorded (take n readings.entry.rates.now) (take n readings.entry.moments.now) (take n readings.entry.held.now) readings.entry.window.duration_s }
{
    let Readings {
        window,
        rates,
        moments,
        held,
    } = readings;
    let n = stored(window, rates, moments, held);
    let shared = shared_sums::sum_shared(readings);
    let rows = shared.rows;
    let dt_s = sum_rows_dt(rows, window.duration_s / at_least_one(n)) / at_least_one(rows);
    let fits = solve_delays(shared);
    let p = delay::delay_to_fit(entries(fits), TIE_SHARE)?;
    fit(fits[p - 1], p, dt_s, rows)
}

// ---- the class of a window

#[tactic(auto, using(crate::proofs::Rail::magnitude_is), unfolding(crate::specs::Classify::at_rail))]
fn is_at_rail(moment: f32) -> bool
    ensures { result ≡ at_rail moment }
{
    moment.abs() >= SATURATED_MOMENT
}

fn count_at_rail(moments: &[f32]) -> usize
    ensures { result ≡ count_by at_rail moments.now }
{
    moments.iter().filter(|m| is_at_rail(**m)).count()
}

#[tactic(auto, using(crate::proofs::Rail::count_is), unfolding(crate::specs::Classify::saturated))]
fn is_saturated(moments: &[f32]) -> bool
    requires { length moments.now ≤ capacity }
    ensures { result ≡ saturated_by moments.now }
{
    whole(count_at_rail(moments)) > SATURATED_SHARE * whole(moments.len())
}

// Which fit a window takes.
#[tactic(auto, unfolding(window::specs::Arrays::stored_of, crate::specs::Classify::classify, crate::specs::Classify::class_of))]
pub fn classify(readings: Readings<'_>) -> Classified
    ensures { let n = stored_of readings.entry.window in result ≡ class_of_window (take n readings.entry.rates.now) (take n readings.entry.moments.now) (take n readings.entry.held.now) readings.entry.window.duration_s }
{
    let Some(fit) = fit_recorded(readings) else {
        return Classified::Unexcited;
    };
    if fit.rms <= NOISY_RESIDUAL_RADPS {
        return Classified::Recorded(fit.model);
    }
    let moments = readings.moments;
    if is_saturated(&moments[..readings.window.stored()]) {
        return Classified::Saturated;
    }
    Classified::Integrated
}

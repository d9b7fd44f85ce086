// The integrated fit: for a noisy window, a gain at each lag and each delay in half ticks, and a search between the lags.
#![tactic(auto)]

ghost use Rattle.std.specs.Prelude.{◌≡◌, ◌-◌, ◌≤◌, min, map, take, slice_index_or, None};
ghost use Rattle.float.specs.Series.{fill};
ghost use Rattle.delay.specs.Tie.{entry_count};
ghost use Rattle.gain.specs.Gain.{first_tick, step_count, is_half};
ghost use Rattle.gain.specs.Prepared.{fit_of};
ghost use Rattle.golden.specs.Golden.{max_rounds};
ghost use Rattle.integrated.specs.Integrated.{entry_of, newer_share, older_share, model_of, modelled as modelled_of, no_model, chosen_from, searched, window_fit, fit_integrated};

mod position;

use delay::{Delay, Entry, RateModel};
use gain::FitInput;
use golden::Refined;
use grid::LagFit;
use position::Position;

// The gain fits of the grid: 20 at each of 129 poles.
const GRID_FITS: u32 = 2580;

// The integrated fit of a window, where it has one, and the gain fits made for it.
#[derive(Clone, Copy)]
pub struct IntegratedFit {
    pub model: Option<RateModel>,
    pub gain_fits: u32,
}

// ---- the model

// The shares of the gain on the newer moment and on the older one: all and none, or half and half at a half step.
fn shares(step: usize) -> (f32, f32)
    ensures { (result.0 ≡ newer_share (is_half step)) × (result.1 ≡ older_share (is_half step)) }
{
    if step % 2 == 0 {
        (1.0, 0.0)
    } else {
        (0.5, 0.5)
    }
}

// A candidate as a model.
#[tactic(auto, unfolding(crate::specs::Integrated::model_of))]
fn model(b: LagFit, position: Position, dt_s: f32) -> RateModel
    ensures { result ≡ model_of b position.place dt_s }
{
    let (newer, older) = shares(position.step());
    let rest = 1.0 - b.bracket.pole;
    RateModel {
        r1: 1.0 + b.bracket.pole,
        r2: -b.bracket.pole,
        m0: newer * b.fit.gain * rest,
        m1: older * b.fit.gain * rest,
        m2: 0.0,
        delay: Delay::from_integrated(position.place),
        dt_s,
    }
}

// The model of a refined candidate. The gain fits: those of the grid, and two a round.
#[tactic(auto, unfolding(crate::specs::Integrated::modelled))]
fn modelled(r: Refined, position: Position, dt_s: f32) -> IntegratedFit
    requires { r.rounds ≤ max_rounds }
    ensures { result ≡ modelled_of r position.place dt_s }
{
    IntegratedFit {
        model: Some(model(r.best, position, dt_s)),
        gain_fits: GRID_FITS + 2 * r.rounds,
    }
}

#[tactic(auto, unfolding(crate::specs::Integrated::no_model))]
fn no_model(gain_fits: u32) -> IntegratedFit
    ensures { result ≡ no_model gain_fits }
{
    IntegratedFit {
        model: None,
        gain_fits,
    }
}

// ---- the fit

// A kept candidate as an entry of the tie rule, with its gain as effect.
#[tactic(auto, unfolding(crate::specs::Integrated::entry_of))]
fn entry(kept: Option<LagFit>) -> Option<Entry>
    ensures { result ≡ entry_of kept }
{
    kept.map(|b| Entry {
        effect: b.fit.gain,
        residual: b.fit.residual,
    })
}

fn entries(kept: [Option<LagFit>; 20]) -> [Option<Entry>; 20]
    ensures { result ≡ map entry_of kept }
{
    kept.map(entry)
}

// The kept candidate of a position, refined.
#[tactic(auto, unfolding(crate::specs::Integrated::chosen_from))]
fn choose(
    input: FitInput<'_>,
    dt_s: f32,
    kept: [Option<LagFit>; 20],
    position: Position,
) -> IntegratedFit
    ensures { result ≡ chosen_from (slice_index_or kept (position.place - 1) None) (fit_of input.entry (position.place - 1)) position.place dt_s }
{
    let step = position.step();
    let Some(b) = kept[step] else {
        return no_model(GRID_FITS);
    };
    modelled(golden::refine(input, step, b), position, dt_s)
}

// The grid, the tie rule and the refinement.
fn search(input: FitInput<'_>, dt_s: f32) -> IntegratedFit
    ensures { result ≡ searched dt_s (fit_of input.entry) }
{
    let kept = grid::keep_poles(input, dt_s);
    let position = delay::delay_to_fit(entries(kept), 0.0);
    match position {
        None => no_model(GRID_FITS),
        Some(place) => choose(input, dt_s, kept, Position { place }),
    }
}

// The fit of a window of n ticks, eleven of which come before the first that is fitted.
fn fit_long(rates: &[f32; 2048], moments: &[f32; 2048], n: usize, dt_s: f32) -> IntegratedFit
    requires { (first_tick ≤ n) × (n ≤ 2048) }
    ensures { result ≡ searched dt_s (window_fit rates.now moments.now dt_s n) }
{
    let carry = f64::from(lags::carry(dt_s));
    // The two series are lent to what fills them, here and in `trial`: handed back by value each would be copied, 16 KB.
    let mut constants = [0.0f64; 2048];
    let mut changes = [0.0f64; 2048];
    let shared = gain::prepare(rates, carry, n, &mut constants, &mut changes);
    let input = FitInput {
        moments,
        constants: &constants,
        changes: &changes,
        shared,
    };
    search(input, dt_s)
}

// The integrated fit of the first len rates and moments. Array by array: a proof knows an array's length behind a reference that is a parameter, and not
// behind a field of `Readings`, and the length and duration beside them.
pub fn fit_integrated(
    rates: &[f32; 2048],
    moments: &[f32; 2048],
    len: usize,
    duration_s: f32,
) -> IntegratedFit
    ensures { result ≡ fit_integrated (take (min len 2048) rates.now) (take (min len 2048) moments.now) duration_s }
{
    let n = gain::stored(len);
    if n <= 12 {
        return no_model(0);
    }
    fit_long(rates, moments, n, duration_s / (n as f32))
}

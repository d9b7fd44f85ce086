// The grid: what each step keeps of the gain fits at all poles.
#![tactic(auto)]

ghost use Rattle.std.specs.Prelude.{◌≡◌};
ghost use Rattle.float.specs.Series.{fill};
ghost use Rattle.gain.specs.Gain.{step_count};
ghost use Rattle.gain.specs.Prepared.{fit_of};
ghost use Rattle.grid.specs.Grid.{lag_fit, candidate, better_of, keep_of};
ghost use Rattle.grid.specs.Steps.{against, KeptTable};

use gain::{FitInput, GainFit};
use kernel::StepTable;

// A pole and the ends of the bracket around it.
#[derive(Clone, Copy)]
pub struct Bracket {
    pub pole: f32,
    pub low: f32,
    pub high: f32,
}

// A candidate: a bracket, and the fit at its pole.
#[derive(Clone, Copy)]
pub struct LagFit {
    pub bracket: Bracket,
    pub fit: GainFit,
}

impl Bracket {
    // The candidate that a fit at the pole makes.
    pub fn candidate(self, fit: GainFit) -> LagFit
        ensures { result ≡ lag_fit self fit }
    {
        LagFit { bracket: self, fit }
    }
}

impl LagFit {
    // The first, until a strictly smaller residual replaces it.
    #[tactic(auto, unfolding(crate::specs::Grid::better_of))]
    pub fn better(self, next: LagFit) -> LagFit
        ensures { result ≡ better_of self next }
    {
        if next.fit.residual < self.fit.residual {
            next
        } else {
            self
        }
    }
}

// A candidate, where there is a fit.
fn candidate(bracket: Bracket, fit: Option<GainFit>) -> Option<LagFit>
    ensures { result ≡ candidate bracket fit }
{
    fit.map(|fit| bracket.candidate(fit))
}

// What is kept, and the next.
#[tactic(auto, unfolding(crate::specs::Grid::keep_of))]
fn keep(kept: Option<LagFit>, next: Option<LagFit>) -> Option<LagFit>
    ensures { result ≡ keep_of kept next }
{
    let Some(next) = next else {
        return kept;
    };
    let Some(best) = kept else {
        return Some(next);
    };
    Some(best.better(next))
}

// What each step keeps, against its fit at one more pole. In place: made anew by `from_fn` the table is copied at each pole, and a
// noisy run of 256 ticks takes 1.7 % more instructions. By the step: after a loop over `iter_mut().zip(..)` a proof does not know what the array holds.
#[tactic(auto, using(float::proofs::Fill::fill_more), unfolding(float::specs::Series::fill))]
fn keep_each(kept: &mut [Option<LagFit>; 20], bracket: Bracket, fits: [Option<GainFit>; 20])
    ensures { kept.new ≡ fill (against bracket fits) kept.old step_count }
{
    for (s, best) in kept.iter_mut().enumerate() {
        *best = keep(*best, candidate(bracket, fits[s]));
    }
}

// What each step keeps of all poles, three of them at a time. The pole above the last is the last. By their places: each pole is worked out from its own, and in
// an array to be walked by windows of five the first and the last would stand twice.
pub fn keep_poles(input: FitInput<'_>, dt_s: f32) -> [Option<LagFit>; 20]
    ensures { KeptTable dt_s (fit_of input.entry) result }
{
    let mut kept = [None; 20];
    let mut low = 0.0f32;
    let mut pole = 0.0f32;
    for i in 0..43usize {
        let second = lags::pole(dt_s, i * 3 + 1);
        let third = lags::pole(dt_s, i * 3 + 2);
        let high = lags::pole(dt_s, i * 3 + 3);
        let table = StepTable::new(input, [pole, second, third]);
        let brackets = [
            Bracket {
                pole,
                low,
                high: second,
            },
            Bracket {
                pole: second,
                low: pole,
                high: third,
            },
            Bracket {
                pole: third,
                low: second,
                high,
            },
        ];
        // By the pole: the fits of all three do not stand at once.
        for (q, bracket) in brackets.iter().enumerate() {
            keep_each(&mut kept, *bracket, table.fits(q));
        }
        low = third;
        pole = high;
    }
    kept
}

// The refinement: a golden-section search between the ends of a candidate's bracket.
#![tactic(auto)]

ghost use Rattle.std.specs.Prelude.{◌≡◌, ◌≤◌};
ghost use Rattle.gain.specs.Prepared.{fit_of};
ghost use Rattle.golden.specs.Golden.{max_rounds, refined};

use gain::FitInput;
use grid::{Bracket, LagFit};

// What the refinement yields: the best candidate and the rounds made.
#[derive(Clone, Copy)]
pub struct Refined {
    pub best: LagFit,
    pub rounds: u32,
}

// A golden-section search between the ends of a candidate, at one step.
pub fn refine(input: FitInput<'_>, step: usize, grid_fit: LagFit) -> Refined
    ensures { (result ≡ refined (fit_of input.entry step) grid_fit) × (result.rounds ≤ max_rounds) }
{
    let mut low = grid_fit.bracket.low;
    let mut high = grid_fit.bracket.high;
    let mut best = grid_fit;
    let mut rounds = 0u32;
    for made in 0..12u32 {
        let left = high - 0.618034 * (high - low);
        let right = low + 0.618034 * (high - low);
        rounds = made + 1;
        let Some(left_fit) = trial::fit_at(input, step, left) else {
            break;
        };
        let Some(right_fit) = trial::fit_at(input, step, right) else {
            break;
        };
        if left_fit.residual < right_fit.residual {
            let bracket = Bracket {
                pole: left,
                low,
                high,
            };
            best = best.better(bracket.candidate(left_fit));
            high = right;
        } else {
            let bracket = Bracket {
                pole: right,
                low,
                high,
            };
            best = best.better(bracket.candidate(right_fit));
            low = left;
        }
    }
    Refined { best, rounds }
}

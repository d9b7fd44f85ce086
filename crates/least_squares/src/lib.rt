// Least squares in six terms, from its sums: the normal equations solved, and the residual.
#![tactic(auto)]

ghost use Rattle.std.specs.Prelude.{◌≡◌, Float};
ghost use Rattle.std.specs.List.{fold, list_all, zip};
ghost use Rattle.std.specs.Float.{binary32};
ghost use Rattle.std.specs.Float.Ieee.{add, mul};
ghost use Rattle.float.specs.Values.{zero32, finite};
ghost use Rattle.least_squares.specs.Solve.{kept, IsSolved};

use cholesky::Columns;

// The sums of one delay's least squares over its rows.
#[derive(Clone, Copy)]
pub struct Sums {
    // The normal equations.
    pub normal: Columns,
    pub projected: [f32; 6],
    pub target_squared: f32,
}

// One delay's solution and its residual.
#[derive(Clone, Copy)]
pub struct Solution {
    pub c: [f32; 6],
    pub residual: f32,
}

// `gain::dot` is the same of f64, and says why it stands apart.
fn dot_product(x: &[f32; 6], y: &[f32; 6]) -> f32
    ensures { result ≡ fold (λ (s : Float) (p : Float × Float). add binary32 s (mul binary32 p.0 p.1)) zero32 (zip x.now y.now) }
{
    x.iter().zip(y).fold(0.0, |sum, (a, b)| sum + a * b)
}

fn all_finite(s: &[f32; 6]) -> bool
    ensures { result ≡ list_all finite s.now }
{
    s.iter().all(|x| float::is_finite(*x))
}

// The solution with its residual, the difference where that is above 0. No fit where one of them is not finite or the difference is NaN.
#[tactic(auto, using(crate::proofs::Six::six_finite), unfolding(crate::specs::Solve::kept))]
fn fit_if_finite(s: &[f32; 6], difference: f32) -> Option<Solution>
    ensures { result ≡ kept s.now difference }
{
    let residual = float::max_zero(difference);
    if all_finite(s) & float::is_finite(residual) & !difference.is_nan() {
        Some(Solution { c: *s, residual })
    } else {
        None
    }
}

impl Sums {
    // The least-squares solution and its residual. No fit where the normal equations do not factor, a value is not finite, or the difference that is left is NaN.
    pub fn solve(self) -> Option<Solution>
        ensures { IsSolved self result }
    {
        let l = cholesky::factored(&self.normal);
        if !cholesky::diagonals_above_zero(&self.normal, &l) {
            return None;
        }
        let z = cholesky::forward_solved(&l, &self.projected);
        let s = cholesky::backward_solved(&l, &z);
        fit_if_finite(&s, self.target_squared - dot_product(&s, &self.projected))
    }
}

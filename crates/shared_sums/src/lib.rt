// The sums over a window's rows that the delays share.
#![tactic(auto)]

ghost use Rattle.std.specs.Prelude.{◌≡◌, ◌+◌, ◌-◌, ◌≤◌, ◌<◌};
ghost use Rattle.std.specs.Float.{binary32};
ghost use Rattle.std.specs.Float.Ieee.{add, mul};
ghost use Rattle.float.specs.Series.{at};
ghost use Rattle.window.specs.Arrays.{stored_of};
ghost use Rattle.rows.specs.Rows.{each};
ghost use Rattle.shared_sums.specs.Shared.{common_terms, last_moments, shared_sums};

use window::Readings;

// The sums over a window's rows that its delays share. The four common terms of a row are its last rate, that rate's change, 1 and the target.
#[derive(Clone, Copy)]
pub struct SharedSums {
    // At a and b the a-th common term times the b-th.
    pub common: [[f32; 4]; 4],
    // At a and j the a-th common term times the moment j ticks back.
    pub lagged: [[f32; 12]; 4],
    // At o and j the moment j ticks back times the one o ticks before it.
    pub pairs: [[f32; 12]; 3],
    // How many rows there are.
    pub rows: usize,
}

// What a tick's row has whatever the delay.
#[derive(Clone, Copy)]
struct Row {
    // The common terms.
    terms: [f32; 4],
    // The twelve last moments, the newest first.
    moments: [f32; 12],
}

// ---- a row's products

impl Row {
    // The row of tick k, which has eleven ticks before it and stands in the arrays; a number, as the loop over a window's ticks has it.
    fn of_tick(rates: &[f32; 2048], moments: &[f32; 2048], k: usize) -> Self
        requires { (11 ≤ k) × (k < 2048) }
        ensures terms { result.terms ≡ common_terms rates.now k }
        ensures moments { result.moments ≡ last_moments moments.now k }
    {
        Row {
            terms: [
                rates[k - 1],
                rates[k - 1] - rates[k - 2],
                1.0,
                rates[k] - rates[k - 1],
            ],
            moments: std::array::from_fn(|j| moments[k - j]),
        }
    }
}

// Moments that stand o ticks apart. By the place: after a loop over `iter_mut().zip(..)` a proof does not know what the array holds.
#[tactic(auto, using(rows::proofs::Each::each_next, crate::proofs::Tail::tail_at), unfolding(rows::specs::Rows::each))]
fn add_pairs(sums: &mut [f32; 12], moments: &[f32; 12], o: usize)
    requires { o < 3 }
    ensures { sums.new ≡ each (12 - o) (λ j s. add binary32 s (mul binary32 (at moments.now j) (at moments.now (j + o)))) sums.old }
{
    for (j, earlier) in moments[o..].iter().enumerate() {
        sums[j] += moments[j] * earlier;
    }
}

#[tactic(auto, using(rows::proofs::Each::each_next), unfolding(rows::specs::Rows::each))]
fn add_all_pairs(sums: &mut [[f32; 12]; 3], moments: &[f32; 12])
    ensures { sums.new ≡ each 3 (λ o r. each (12 - o) (λ j s. add binary32 s (mul binary32 (at moments.now j) (at moments.now (j + o)))) r) sums.old }
{
    for (o, apart) in sums.iter_mut().enumerate() {
        add_pairs(apart, moments, o);
    }
}

// ---- all rows

// The rows of a window, in tick order, each added to all of the sums.
#[tactic(auto, unfolding(window::specs::Arrays::stored_of))]
pub fn sum_shared(readings: Readings<'_>) -> SharedSums
    ensures { result ≡ shared_sums readings.entry.rates.now readings.entry.moments.now readings.entry.held.now (stored_of readings.entry.window) }
{
    let Readings {
        window,
        rates,
        moments,
        held,
    } = readings;
    let mut sums = SharedSums {
        common: [[0.0; 4]; 4],
        lagged: [[0.0; 12]; 4],
        pairs: [[0.0; 12]; 3],
        rows: 0,
    };
    let mut run = 0;
    // By index: a row reads ticks before its own.
    for k in 0..window.stored() {
        run = rows::next_run(held[k], run);
        if run < rows::HISTORY {
            continue;
        }
        let row = Row::of_tick(rates, moments, k);
        rows::add_products(&mut sums.common, &row.terms, &row.terms);
        rows::add_products(&mut sums.lagged, &row.terms, &row.moments);
        add_all_pairs(&mut sums.pairs, &row.moments);
        sums.rows += 1;
    }
    sums
}

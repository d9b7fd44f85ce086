// Each delay's sums from those that the delays share.
#![tactic(auto)]

ghost use Rattle.std.specs.Prelude.{◌≡◌, ◌<◌};
ghost use Rattle.rows.specs.Rows.{delay_within};
ghost use Rattle.delay_sums.specs.Delays.{cross_sum, place_of, against, delay_sums};

use least_squares::Sums;
use rows::FitDelay;
use shared_sums::SharedSums;
use std::array;

// The place of the target.
const TARGET: usize = 3;

// The place of term i among a row's seven: four common ones, then the moments.
#[tactic(auto, unfolding(crate::specs::Delays::place_of))]
fn place(i: usize) -> usize
    requires { i < 6 }
    ensures { (result ≡ place_of i) × (result < 7) }
{
    match i {
        0 | 1 => i,
        2..=4 => i + 2,
        _ => 2,
    }
}

// The sum of the products at places a and b, at a delay.
#[tactic(auto, unfolding(crate::specs::Delays::cross_sum))]
fn cross(shared: &SharedSums, delay: FitDelay, a: usize, b: usize) -> f32
    requires { (a < 7) × (b < 7) }
    ensures { result ≡ cross_sum shared.now delay.ticks a b }
{
    let d = delay.ticks;
    match (a < 4, b < 4) {
        (true, true) => shared.common[a][b],
        (true, false) => shared.lagged[a][d - 1 + (b - 4)],
        (false, true) => shared.lagged[b][d - 1 + (a - 4)],
        (false, false) if a <= b => shared.pairs[b - a][d - 1 + (a - 4)],
        (false, false) => shared.pairs[a - b][d - 1 + (b - 4)],
    }
}

// The sums of the products of each of the six terms and what stands at place b.
fn against(shared: &SharedSums, delay: FitDelay, b: usize) -> [f32; 6]
    requires { b < 7 }
    ensures { result ≡ against shared.now delay.ticks b }
{
    array::from_fn(|i| cross(shared, delay, place(i), b))
}

// The sums of delay d, as `rows::add_window` makes them from none.
#[tactic(auto, unfolding(float::specs::Series::fill, crate::specs::Delays::delay_sums))]
pub fn delay_sums(shared: SharedSums, d: usize) -> Sums
    ensures { result ≡ delay_sums shared (delay_within d) }
{
    let delay = rows::delay_within(d);
    // A loop, and not `from_fn`: no proof is made of a closure that answers an array here.
    let mut normal = [[0.0f32; 6]; 6];
    for (j, column) in normal.iter_mut().enumerate() {
        *column = against(&shared, delay, place(j));
    }
    Sums {
        normal,
        projected: against(&shared, delay, TARGET),
        target_squared: cross(&shared, delay, TARGET, TARGET),
    }
}

// The regressors of three poles side by side, a block of ticks at a time, as the grid's loops read them.
#![tactic(auto)]

ghost use Rattle.std.specs.Prelude.{◌≡◌, ◌/◌, ◌%◌, min};
ghost use Rattle.std.specs.Float.{binary32};
ghost use Rattle.std.specs.Float.Ieee.{add, sub, mul};
ghost use Rattle.float.specs.Values.{one32};
ghost use Rattle.float.specs.Series.{at};
ghost use Rattle.gain.specs.Gain.{blend};
ghost use Rattle.lanes.specs.Lanes.{each_pole, each_lane, block_ticks, last_block, block_moments, Block};

use std::array;

// One moment through three lags. Side by side they do not wait for each other.
fn lags_on(poles: [f32; 3], lagged: [f32; 3], moment: f32) -> [f32; 3]
    ensures { result ≡ each_pole (λ q. add binary32 (mul binary32 (at poles q) (at lagged q)) (mul binary32 (sub binary32 one32 (at poles q)) moment)) }
{
    array::from_fn(|q| gain::lag_on(poles[q], lagged[q], moment))
}

fn widened(lagged: [f32; 3]) -> [f64; 3]
    ensures { result ≡ each_pole (at lagged) }
{
    lagged.map(f64::from)
}

// The six lanes of a tick, from three lags once they have its moment and as they were before.
fn tick_lanes(newer: [f64; 3], older: [f64; 3]) -> [f64; 6]
    ensures { result ≡ each_lane (λ h. blend (h % 2) (at newer (h / 2)) (at older (h / 2))) }
{
    array::from_fn(|h| gain::blend(h % 2 == 1, newer[h / 2], older[h / 2]))
}

// A block of moments through three lags at once, as the regressors of three poles: six lanes a tick, for each pole its whole ticks and then its half ticks.
// The lags go on from lagged, and what is answered is how they stand after the block.
// A block past the last of 16 is read as the last, a count above 128 as 128. By its number, and not as a part of the moments that is handed out:
// the sums need the tick at which it begins too.
pub fn lag_block(
    moments: &[f32; 2048],
    poles: [f32; 3],
    lagged: [f32; 3],
    block: usize,
    count: usize,
    ticks: &mut [[f64; 6]; 128],
) -> [f32; 3]
    ensures { Block poles lagged (block_moments (at moments.now) (min block last_block)) (min count block_ticks) ticks.old ticks.new result }
{
    let first = block.min(15) * 128;
    let n = count.min(128);
    let mut on = lagged;
    let mut older = widened(lagged);
    // The moments by place: tried, of what `iter_mut` writes beneath `zip` a proof knows nothing after the loop.
    for (k, tick) in ticks[..n].iter_mut().enumerate() {
        let next = lags_on(poles, on, moments[first + k]);
        let newer = widened(next);
        *tick = tick_lanes(newer, older);
        on = next;
        older = newer;
    }
    on
}

// Replays vector files for the half periods and the sweep's ticks, and prints how many records each file has and how many of them
// agree to the last bit. The data are the reference's answers, written by the command in host/README.md with seed 1, both files whole.
// A record is big-endian words; an expected NaN is 7FC00000.
#![tactic(auto)]

use std::io;
use sweep::SquareSweep;
use vectors::{are_at, is_at, replay};
use wire::{read_float, read_word};

// w index, f half period.
// By itself: one function for this file and those of `float_vectors` would be handed how each argument is read and each answer compared.
fn half_period_agrees(s: &[u8]) -> bool {
    is_at(sweep::half_period_s(read_word(s, 0)), s, 4)
}

// Before the tick: f amplitude, f time constant, w edge, f next edge, w high, f washout; the tick: f dt, f elapsed;
// after it: w edge, f next edge, w high, f washout, f offset. A tick leaves the amplitude and the time constant as they are.
fn tick_agrees(s: &[u8]) -> bool {
    let before = SquareSweep {
        amplitude: read_float(s, 0),
        washout_tc_s: read_float(s, 4),
        next_edge_s: read_float(s, 12),
        edge: read_word(s, 8),
        high: read_word(s, 16) == 1,
        washout: read_float(s, 20),
    };
    let swept = before.next(read_float(s, 24), read_float(s, 28));
    let after = swept.sweep;
    are_at(&[after.amplitude, after.washout_tc_s], s, 0)
        & (after.edge == read_word(s, 32))
        & is_at(after.next_edge_s, s, 36)
        & (u32::from(after.high) == read_word(s, 40))
        & are_at(&[after.washout, swept.offset], s, 44)
}

fn main(rt: HostRuntime) -> io::Result<()> {
    replay(&rt, "half periods", "half.bin", |_| 8, half_period_agrees)?;
    replay(&rt, "sweep ticks", "sweep.bin", |_| 52, tick_agrees)
}

// Replays vector files for each function of `float`, and prints how many records each file has and
// how many of them agree. A record is the input's words and then the expected answer's, big-endian;
// an expected NaN is 7FC00000.
#![tactic(auto)]

use std::io;
use vectors::{double_at, double_is_at, is_at, replay};
use wire::{read_float, read_word};

// Replays a file of a function from f32 to f32.
fn replay_f32<F: Fn(f32) -> f32 + Drop>(
    rt: &HostRuntime,
    name: &str,
    path: &str,
    f: F,
) -> io::Result<()>
    requires { F.IsAlwaysCallable f }
{
    replay(rt, name, path, |_| 8, |s| is_at(f(read_float(s, 0)), s, 4))
}

// Each of the others by itself, for they differ in how wide their arguments and answers are: one function for them would be handed how each
// argument is read and each answer compared.

fn finite_agrees(s: &[u8]) -> bool {
    u32::from(float::is_finite(read_float(s, 0))) == read_word(s, 4)
}

fn max_zero_f64_agrees(s: &[u8]) -> bool {
    double_is_at(float::max_zero(double_at(s, 0)), s, 8)
}

fn min_agrees(s: &[u8]) -> bool {
    is_at(float::min(read_float(s, 0), read_float(s, 4)), s, 8)
}

fn narrow_agrees(s: &[u8]) -> bool {
    is_at(float::narrow(double_at(s, 0)), s, 8)
}

fn main(rt: HostRuntime) -> io::Result<()> {
    replay(&rt, "is_finite", "finite.bin", |_| 8, finite_agrees)?;
    replay_f32(&rt, "max_zero", "max_zero.bin", |x| float::max_zero(x))?;
    replay(
        &rt,
        "max_zero_f64",
        "max_zero64.bin",
        |_| 16,
        max_zero_f64_agrees,
    )?;
    replay(&rt, "min", "min.bin", |_| 12, min_agrees)?;
    replay_f32(&rt, "from_word, to_word", "words.bin", |x| x)?;
    replay(&rt, "narrow", "narrow.bin", |_| 12, narrow_agrees)?;
    replay_f32(&rt, "root", "root.bin", float::root)?;
    replay_f32(&rt, "exp", "exp.bin", float::exp)?;
    replay_f32(&rt, "exp, any x", "exp_any.bin", float::exp)?;
    replay_f32(&rt, "log", "log.bin", float::log)
}

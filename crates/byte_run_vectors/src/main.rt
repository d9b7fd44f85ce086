// Replays whole runs, of one axis and of two, over bytes and flown call by call, plain and opened as steady, and prints how many of each
// file agree in result and in every byte of the output. examples.bin holds the worked examples of docs/01-scope.md, written by
// host/make_examples.py; the other files the reference's answers, written by the command in host/README.md with seed 1.
// host/README.md has the layout of all, "runs".
#![tactic(auto)]

mod flown;

use rules::Rule;
use std::io;
use std::rt::Files;
use vectors::{part, replay};
use wire::read_word;

// ---- the output

// Byte k of an output before a run: 31·k + 165 mod 256.
fn filled(k: usize) -> u8 {
    ((31 * (k % 256) + 165) % 256) as u8
}

// Whether an output begins with the expected bytes, and after them is as it was filled.
fn holds(output: &[u8], expected: &[u8]) -> bool {
    output.iter().enumerate().all(|(k, &b)| b == expected.get(k).copied().unwrap_or(filled(k)))
}

// ---- a run

// Whether a run answers the result and writes the expected bytes and no others. `run` makes it, of a configuration, calls and an output.
// w lengths of the configuration, the calls and the output; the configuration, the calls; w result; the output.
fn agrees<R: Fn(&[u8], &[u8], &mut [u8]) -> Result<(), Rule>>(run: &R, s: &[u8]) -> bool
    requires { R.IsAlwaysCallable run.now }
{
    let mut output: [u8; 65536] = std::array::from_fn(filled);
    let config = read_word(s, 0) as usize;
    let calls = read_word(s, 4) as usize;
    let end = 12 + config + calls;
    let expected = part(s, end + 4, read_word(s, 8) as usize);
    if output.len() < expected.len() {
        return false;
    }
    let answered = run(
        part(s, 12, config),
        part(s, 12 + config, calls),
        &mut output[..expected.len()],
    );
    (rules::number_or_0(answered) == read_word(s, end)) & holds(&output, expected)
}

// ---- files

fn record_size(s: &[u8]) -> usize {
    16 + (read_word(s, 0) as usize) + (read_word(s, 4) as usize) + (read_word(s, 8) as usize)
}

// Replays a file of runs that `run` makes.
fn replay_runs<P: Files + Print + Alloc, R: Fn(&[u8], &[u8], &mut [u8]) -> Result<(), Rule> + Drop>(
    rt: &P,
    name: &str,
    path: &str,
    run: R,
) -> io::Result<()>
    requires { R.IsAlwaysCallable run }
{
    replay(rt, name, path, record_size, |s| agrees(&run, s))
}

fn main(rt: HostRuntime) -> io::Result<()> {
    replay_runs(&rt, "byte runs", "runs.bin", byte_run::byte_run)?;
    replay_runs(&rt, "examples", "examples.bin", byte_run::byte_run)?;
    replay_runs(
        &rt,
        "two-axis runs",
        "two_axis_runs.bin",
        two_axis_run::two_axis_run,
    )?;
    replay_runs(&rt, "flown", "runs.bin", |config, calls, output| {
        flown::one_axis(0, config, calls, output)
    })?;
    replay_runs(
        &rt,
        "flown, two axes",
        "two_axis_runs.bin",
        |config, calls, output| flown::two_axes(0, config, calls, output),
    )?;
    replay_runs(&rt, "steady", "steady_runs.bin", |config, calls, output| {
        flown::one_axis(1, config, calls, output)
    })?;
    replay_runs(
        &rt,
        "steady, two axes",
        "steady_two_axis_runs.bin",
        |config, calls, output| flown::two_axes(1, config, calls, output),
    )
}

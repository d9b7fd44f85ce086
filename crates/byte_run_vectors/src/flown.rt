// A run flown as an autopilot flies it: the functions of a probe in its caller's memory, and of a pair, called once a tick. An option of 1
// opens as steady. The memory holds values of no meaning before it is opened.
#![tactic(auto)]

use byte_run::word_of;
use identify::{Call, IdentifyProbe};
use live_pair::LentPair;
use live_probe::LentProbe;
use probe_words::{LentScalars, Scalars};
use rules::Rule;
use two_axis_probe::{AxisReading, TwoAxisProbe, TwoCall};
use window::LentArrays;
use wire::{read_float, write_word};

const WORD: u32 = 0xa5a5_a5a5;

const FLOAT: f32 = -1.5e30;

// The byte of each mark.
fn bytes_of(held: [bool; 2048]) -> [u8; 2048] {
    held.map(u8::from)
}

// What a caller keeps of one axis.
#[derive(Drop)]
struct Memory {
    words: [u32; 8],
    floats: [f32; 14],
    rates: [f32; 2048],
    moments: [f32; 2048],
    offsets: [f32; 2048],
    held: [bool; 2048],
}

impl Memory {
    fn new() -> Memory {
        Memory {
            words: [WORD; 8],
            floats: [FLOAT; 14],
            rates: [FLOAT; 2048],
            moments: [FLOAT; 2048],
            offsets: [FLOAT; 2048],
            held: [true; 2048],
        }
    }

    fn scalars(&mut self) -> LentScalars<'_> {
        LentScalars {
            words: &mut self.words,
            floats: &mut self.floats,
        }
    }

    fn lent(&mut self) -> LentProbe<'_> {
        LentProbe {
            scalars: LentScalars {
                words: &mut self.words,
                floats: &mut self.floats,
            },
            arrays: LentArrays {
                rates: &mut self.rates,
                moments: &mut self.moments,
                offsets: &mut self.offsets,
                held: &mut self.held,
            },
        }
    }

    fn probe(&self) -> IdentifyProbe {
        let scalars = Scalars {
            words: &self.words,
            floats: &self.floats,
        };
        scalars.probe()
    }
}

// ---- runs
// Apart from `batch`, whose runs these are held against: nothing is promised of them, and a flight of `batch` would owe what it answers.

// A run of one axis, answered as `byte_run` answers it.
pub fn one_axis(options: u32, config: &[u8], calls: &[u8], output: &mut [u8]) -> Result<(), Rule> {
    if (config.len() != 24)
        | (calls.len() % 12 != 0)
        | (output.len() < 36 + 4 * (calls.len() / 12))
    {
        return Err(Rule::Form);
    }
    let mut memory = Memory::new();
    let mut clock = steady_probe::open(
        &mut memory.scalars(),
        byte_config::config_of(config),
        options,
    )?;
    for (call, word) in calls.chunks_exact(12).zip(output[36..].chunks_exact_mut(4)) {
        let call = Call {
            dt: read_float(call, 0),
            rate: read_float(call, 4),
            moment: read_float(call, 8),
        };
        let answer = steady_probe::step(&mut memory.lent(), &mut clock, call);
        write_word(word, 0, word_of(answer.map(Some)));
    }
    live_probe::report(
        memory.probe(),
        &memory.rates,
        &bytes_of(memory.held),
        output,
    );
    Ok(())
}

// A run of two axes, answered as `two_axis_run` answers it.
pub fn two_axes(options: u32, config: &[u8], calls: &[u8], output: &mut [u8]) -> Result<(), Rule> {
    if (config.len() != 24)
        | (calls.len() % 20 != 0)
        | (output.len() < 77 + 8 * (calls.len() / 20))
    {
        return Err(Rule::Form);
    }
    let mut first = Memory::new();
    let mut second = Memory::new();
    let mut clock = steady_pair::open(
        &mut first.scalars(),
        &mut second.scalars(),
        byte_config::config_of(config),
        options,
    )?;
    for (call, words) in calls.chunks_exact(20).zip(output[77..].chunks_exact_mut(8)) {
        let mut lent = LentPair {
            first: first.lent(),
            second: second.lent(),
        };
        let answer = steady_pair::step(
            &mut lent,
            &mut clock,
            TwoCall {
                dt: read_float(call, 0),
                first: AxisReading {
                    rate: read_float(call, 4),
                    moment: read_float(call, 8),
                },
                second: AxisReading {
                    rate: read_float(call, 12),
                    moment: read_float(call, 16),
                },
            },
        );
        write_word(words, 0, word_of(answer.map(|(x, _)| Some(x))));
        write_word(words, 4, word_of(answer.map(|(_, y)| Some(y))));
    }
    let pair = TwoAxisProbe {
        first: first.probe(),
        second: second.probe(),
    };
    live_pair::report(
        pair,
        &first.rates,
        &bytes_of(first.held),
        &second.rates,
        &bytes_of(second.held),
        output,
    );
    Ok(())
}

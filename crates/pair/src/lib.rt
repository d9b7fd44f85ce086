// The functions of a pair in flight that the static library exports.
// C passes words, floats and arrays one by one, names each function of one axis and of two, and takes a number for an answer, so each function here does: it calls what
// takes structs and answers a Result, and writes what came to C's own places.
// What a step lends in one struct has one lifetime.
#![tactic(auto)]

ghost use Rattle.std.specs.Prelude.{◌≡◌};
ghost use Rattle.marks.specs.Marks.{KeepsMarks};
ghost use Rattle.report.specs.Report.{floats_of};
ghost use Rattle.probe_words.specs.Layout.{scalars, status_in};
ghost use Rattle.live_status.specs.Status.{status_numbers, status_plain};
ghost use Rattle.two_axis.specs.Axes.{first, second, two_call};
ghost use Rattle.live_probe.specs.Live.{config_by};
ghost use Rattle.live_pair.specs.Pair.{scalars_over, offsets_over, scalars_read, pair_readied, both_read};
ghost use Rattle.live_pair.specs.Flown.{WritesPairReport, ReportsPair, TellsAxisDelay};
ghost use Rattle.steady_pair.specs.SteadyPair.{steady_pair_readied};
ghost use Rattle.pair.specs.Clauses.{PairOpens, PairSteps};
ghost use Rattle.pair.specs.Lent.{pair_over};

use live_pair::LentPair;
use live_probe::LentProbe;
use probe_words::{LentScalars, Scalars};
use steady::SteadyClock;
use two_axis_probe::{AxisReading, TwoAxisProbe, TwoCall};
use window::LentArrays;

// Opens a pair in its scalars, plain or, with an option of 1, as steady; the arrays of samples may hold anything. It answers 0; 9 where an option has no meaning; or the number of the first of the rules 1 to 5 that is broken. On a number nothing is written.
#[tactic(auto, unfolding(rules::specs::Numbers::numbered, live_probe::specs::Live::value_or))]
#[unsafe(no_mangle)]
pub extern "C" fn identify_live_pair_open(
    words1: &mut [u32; 8],
    floats1: &mut [f32; 14],
    words2: &mut [u32; 8],
    floats2: &mut [f32; 14],
    steady: &mut u32,
    first_dt_s: &mut f32,
    amplitude: f32,
    duration_s: f32,
    washout_tc_s: f32,
    extension: u32,
    extension_amplitude: f32,
    extension_duration_s: f32,
    options: u32,
) -> u32
    ensures { PairOpens options (config_by amplitude duration_s washout_tc_s extension extension_amplitude extension_duration_s) (scalars_over words1 floats1 words2 floats2) steady first_dt_s result }
{
    let config = live_probe::config_by(
        amplitude,
        duration_s,
        washout_tc_s,
        extension,
        extension_amplitude,
        extension_duration_s,
    );
    let mut lent1 = LentScalars {
        words: words1,
        floats: floats1,
    };
    let mut lent2 = LentScalars {
        words: words2,
        floats: floats2,
    };
    match steady_pair::open(&mut lent1, &mut lent2, config, options) {
        Ok(clock) => {
            *steady = clock.steady;
            *first_dt_s = clock.first_dt_s;
            0
        }
        Err(rule) => rule.number(),
    }
}

// One call of both axes. It answers 0, or the number of the rule that turned the call back, 6, 10, 7 or 8, for both, and then nothing is written.
#[tactic(auto, unfolding(rules::specs::Numbers::numbered, live_pair::specs::Pair::offsets_or))]
#[unsafe(no_mangle)]
pub extern "C" fn identify_live_pair_step<'a>(
    words1: &'a mut [u32; 8],
    floats1: &'a mut [f32; 14],
    rates1: &'a mut [f32; 2048],
    moments1: &'a mut [f32; 2048],
    offsets1: &'a mut [f32; 2048],
    held1: &'a mut [bool; 2048],
    words2: &'a mut [u32; 8],
    floats2: &'a mut [f32; 14],
    rates2: &'a mut [f32; 2048],
    moments2: &'a mut [f32; 2048],
    offsets2: &'a mut [f32; 2048],
    held2: &'a mut [bool; 2048],
    steady: u32,
    first_dt_s: &mut f32,
    dt: f32,
    rate1: f32,
    moment1: f32,
    rate2: f32,
    moment2: f32,
    offset1: &mut f32,
    offset2: &mut f32,
) -> u32
    ensures { PairSteps steady first_dt_s (pair_over words1 floats1 rates1 moments1 offsets1 held1 words2 floats2 rates2 moments2 offsets2 held2) (two_call dt rate1 moment1 rate2 moment2) (offsets_over offset1 offset2) result }
{
    let mut lent = LentPair {
        first: LentProbe {
            scalars: LentScalars {
                words: words1,
                floats: floats1,
            },
            arrays: LentArrays {
                rates: rates1,
                moments: moments1,
                offsets: offsets1,
                held: held1,
            },
        },
        second: LentProbe {
            scalars: LentScalars {
                words: words2,
                floats: floats2,
            },
            arrays: LentArrays {
                rates: rates2,
                moments: moments2,
                offsets: offsets2,
                held: held2,
            },
        },
    };
    let mut clock = SteadyClock {
        steady,
        first_dt_s: *first_dt_s,
    };
    let call = TwoCall {
        dt,
        first: AxisReading {
            rate: rate1,
            moment: moment1,
        },
        second: AxisReading {
            rate: rate2,
            moment: moment2,
        },
    };
    match steady_pair::step(&mut lent, &mut clock, call) {
        Ok((x, y)) => {
            *offset1 = x;
            *offset2 = y;
            *first_dt_s = clock.first_dt_s;
            0
        }
        Err(rule) => rule.number(),
    }
}

// Before a call that reads an axis's marks each byte of them is made 0 or 1, and before any other, one that is turned back among them, nothing is written. The marks that they stand for stay.
#[unsafe(no_mangle)]
pub extern "C" fn identify_live_pair_ready(
    words1: &[u32; 8],
    floats1: &[f32; 14],
    marks1: &mut [u8; 2048],
    words2: &[u32; 8],
    floats2: &[f32; 14],
    marks2: &mut [u8; 2048],
    steady: u32,
    first_dt_s: f32,
    dt: f32,
)
    ensures bytes1 { marks1.new ≡ steady_pair_readied steady first_dt_s (scalars_read words1 floats1 words2 floats2) first dt marks1.old }
    ensures bytes2 { marks2.new ≡ steady_pair_readied steady first_dt_s (scalars_read words1 floats1 words2 floats2) second dt marks2.old }
    ensures marks1 { KeepsMarks marks1.old marks1.new }
    ensures marks2 { KeepsMarks marks2.old marks2.new }
    ensures plain1 { steady ≡ 0 → marks1.new ≡ pair_readied (scalars_read words1 floats1 words2 floats2) first dt marks1.old }
    ensures plain2 { steady ≡ 0 → marks2.new ≡ pair_readied (scalars_read words1 floats1 words2 floats2) second dt marks2.old }
{
    let scalars1 = Scalars {
        words: words1,
        floats: floats1,
    };
    let scalars2 = Scalars {
        words: words2,
        floats: floats2,
    };
    let clock = SteadyClock { steady, first_dt_s };
    steady_pair::ready(scalars1, marks1, scalars2, marks2, clock, dt);
}

// Where an axis stands: its kind, its delay in half ticks, in whole ticks and the half tick left, whether it has plain units; the six floats of its status; lag and acceleration.
#[unsafe(no_mangle)]
pub extern "C" fn identify_live_pair_status(
    words: &[u32; 8],
    floats: &[f32; 14],
    numbers: &mut [u32; 5],
    model: &mut [f32; 6],
    plain: &mut [f32; 2],
)
    ensures numbers { numbers.new ≡ status_numbers (status_in words.now floats.now) }
    ensures model { model.new ≡ floats_of (status_in words.now floats.now) }
    ensures plain { plain.new ≡ status_plain (status_in words.now floats.now) }
    ensures delay { TellsAxisDelay (scalars words.now floats.now) numbers.new }
{
    live_status::status(Scalars { words, floats }.status(), numbers, model, plain);
}

// The report of both axes, 77 bytes at the front of a slice; a slice of fewer stays as it is.
#[unsafe(no_mangle)]
pub extern "C" fn identify_live_pair_report(
    words1: &[u32; 8],
    floats1: &[f32; 14],
    rates1: &[f32; 2048],
    marks1: &[u8; 2048],
    words2: &[u32; 8],
    floats2: &[f32; 14],
    rates2: &[f32; 2048],
    marks2: &[u8; 2048],
    output: &mut [u8],
)
    ensures output { WritesPairReport (scalars_read words1 floats1 words2 floats2) (both_read rates1 rates2) (both_read marks1 marks2) output.old output.new }
    ensures flown { ReportsPair (scalars_read words1 floats1 words2 floats2) (both_read rates1 rates2) (both_read marks1 marks2) output.old output.new }
{
    let scalars1 = Scalars {
        words: words1,
        floats: floats1,
    };
    let scalars2 = Scalars {
        words: words2,
        floats: floats2,
    };
    let pair = TwoAxisProbe {
        first: scalars1.probe(),
        second: scalars2.probe(),
    };
    live_pair::report(pair, rates1, marks1, rates2, marks2, output);
}

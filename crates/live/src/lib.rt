// The functions of a probe in flight that the static library exports.
// C passes words, floats and arrays one by one, names each function of one axis and of two, and takes a number for an answer, so each function here does: it calls what
// takes structs and answers a Result, and writes what came to C's own places.
// What a step lends in one struct has one lifetime.
#![tactic(auto)]

ghost use Rattle.std.specs.Prelude.{◌≡◌, ◌≢◌};
ghost use Rattle.marks.specs.Marks.{KeepsMarks};
ghost use Rattle.identify.specs.Seen.{call};
ghost use Rattle.report.specs.Report.{floats_of};
ghost use Rattle.probe_words.specs.Layout.{scalars, status_in, probe_in};
ghost use Rattle.live_status.specs.Status.{status_numbers, status_plain};
ghost use Rattle.live_probe.specs.Live.{config_by, readied};
ghost use Rattle.live.specs.Delay.{TellsDelay};
ghost use Rattle.live.specs.Lent.{live_over};
ghost use Rattle.live_probe.specs.Flown.{WritesReport, ReportsFlight};
ghost use Rattle.steady_probe.specs.SteadyLive.{scalars_over, SteadyOpened, SteadyStepped, steady_readied};
ghost use Rattle.steady_probe.specs.SteadyFlown.{OpensSteady, OpensPlain, SteadyFliesOn, StepsPlain};

use identify::Call;
use live_probe::LentProbe;
use probe_words::{LentScalars, Scalars};
use steady::SteadyClock;
use window::LentArrays;

// Opens a probe in its scalars, plain or, with an option of 1, as steady; the arrays of samples, which the other calls take, may hold anything.
// It answers 0; 9 where an option has no meaning; or the number of the first of the rules 1 to 5 that is broken. On a number nothing is written.
#[tactic(auto, unfolding(rules::specs::Numbers::numbered, live_probe::specs::Live::value_or))]
#[unsafe(no_mangle)]
pub extern "C" fn identify_live_open(
    words: &mut [u32; 8],
    floats: &mut [f32; 14],
    steady: &mut u32,
    first_dt_s: &mut f32,
    amplitude: f32,
    duration_s: f32,
    washout_tc_s: f32,
    extension: u32,
    extension_amplitude: f32,
    extension_duration_s: f32,
    options: u32,
) -> u32
    ensures opening { SteadyOpened options (config_by amplitude duration_s washout_tc_s extension extension_amplitude extension_duration_s) (scalars_over words floats) steady first_dt_s result }
    ensures flown { OpensSteady (config_by amplitude duration_s washout_tc_s extension extension_amplitude extension_duration_s) (scalars_over words floats) steady first_dt_s result }
    ensures plain { options ≢ 1 → OpensPlain options (config_by amplitude duration_s washout_tc_s extension extension_amplitude extension_duration_s) (scalars_over words floats) result }
{
    let config = live_probe::config_by(
        amplitude,
        duration_s,
        washout_tc_s,
        extension,
        extension_amplitude,
        extension_duration_s,
    );
    match steady_probe::open(&mut LentScalars { words, floats }, config, options) {
        Ok(clock) => {
            *steady = clock.steady;
            *first_dt_s = clock.first_dt_s;
            0
        }
        Err(rule) => rule.number(),
    }
}

// Before a call that reads the marks each byte of them is made 0 or 1, and before any other, one that is turned back among them, nothing is written.
#[unsafe(no_mangle)]
pub extern "C" fn identify_live_ready(
    words: &[u32; 8],
    floats: &[f32; 14],
    steady: u32,
    first_dt_s: f32,
    marks: &mut [u8; 2048],
    dt: f32,
)
    ensures bytes { marks.new ≡ steady_readied steady first_dt_s (probe_in (scalars words.now floats.now)) dt marks.old }
    ensures marks { KeepsMarks marks.old marks.new }
    ensures plain { steady ≡ 0 → marks.new ≡ readied (probe_in (scalars words.now floats.now)) dt marks.old }
{
    let clock = SteadyClock { steady, first_dt_s };
    steady_probe::ready(Scalars { words, floats }, clock, marks, dt);
}

// One call of a probe: the offset to add to the setpoint, 0 of an ended probe.
// It answers 0, or the number of the first of the rules 6, 10, 7 and 8 that is broken; then nothing is written.
#[tactic(auto, unfolding(rules::specs::Numbers::numbered, live_probe::specs::Live::value_or))]
#[unsafe(no_mangle)]
pub extern "C" fn identify_live_step<'a>(
    words: &'a mut [u32; 8],
    floats: &'a mut [f32; 14],
    steady: u32,
    first_dt_s: &mut f32,
    rates: &'a mut [f32; 2048],
    moments: &'a mut [f32; 2048],
    offsets: &'a mut [f32; 2048],
    held: &'a mut [bool; 2048],
    dt: f32,
    rate: f32,
    moment: f32,
    offset: &mut f32,
) -> u32
    ensures flight { SteadyStepped steady first_dt_s (live_over words floats rates moments offsets held) (call dt rate moment) offset result }
    ensures flown { SteadyFliesOn steady first_dt_s (live_over words floats rates moments offsets held) (call dt rate moment) offset result }
    ensures plain { steady ≡ 0 → StepsPlain first_dt_s (live_over words floats rates moments offsets held) (call dt rate moment) offset result }
{
    let mut lent = LentProbe {
        scalars: LentScalars { words, floats },
        arrays: LentArrays {
            rates,
            moments,
            offsets,
            held,
        },
    };
    let mut clock = SteadyClock {
        steady,
        first_dt_s: *first_dt_s,
    };
    match steady_probe::step(&mut lent, &mut clock, Call { dt, rate, moment }) {
        Ok(x) => {
            *offset = x;
            *first_dt_s = clock.first_dt_s;
            0
        }
        Err(rule) => rule.number(),
    }
}

// Where a probe stands: its kind, its delay in half ticks, in whole ticks and the half tick left, whether it has plain units; the six floats of its status; lag and acceleration.
#[unsafe(no_mangle)]
pub extern "C" fn identify_live_status(
    words: &[u32; 8],
    floats: &[f32; 14],
    numbers: &mut [u32; 5],
    model: &mut [f32; 6],
    plain: &mut [f32; 2],
)
    ensures numbers { numbers.new ≡ status_numbers (status_in words.now floats.now) }
    ensures model { model.new ≡ floats_of (status_in words.now floats.now) }
    ensures plain { plain.new ≡ status_plain (status_in words.now floats.now) }
    ensures delay { TellsDelay (scalars words.now floats.now) numbers.new }
{
    live_status::status(Scalars { words, floats }.status(), numbers, model, plain);
}

// The report of a probe, 36 bytes at the front of the output; an output of fewer stays as it is.
#[unsafe(no_mangle)]
pub extern "C" fn identify_live_report(
    words: &[u32; 8],
    floats: &[f32; 14],
    rates: &[f32; 2048],
    marks: &[u8; 2048],
    output: &mut [u8],
)
    ensures output { WritesReport (scalars words.now floats.now) rates.now marks.now output.old output.new }
    ensures flown { ReportsFlight (scalars words.now floats.now) rates.now marks.now output.old output.new }
{
    live_probe::report(Scalars { words, floats }.probe(), rates, marks, output);
}

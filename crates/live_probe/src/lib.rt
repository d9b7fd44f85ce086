// A probe that its caller keeps and steps: opened, stepped and reported in the caller's memory.
#![tactic(auto)]

ghost use Rattle.std.specs.Prelude.{◌≡◌};
ghost use Rattle.marks.specs.Marks.{KeepsMarks};
ghost use Rattle.rules.specs.Numbers.{numbered};
ghost use Rattle.identify.specs.Seen.{call_of};
ghost use Rattle.probe_words.specs.Layout.{scalars_in, read_in, SameScalars, probe_in};
ghost use Rattle.live_probe.specs.Live.{kept_in, SameLent, config_by, opening, live_open, Stepped, reads_in, readied};
ghost use Rattle.live_probe.specs.Flown.{OpensFlight, StepsFlight, WritesReportOf, ReportsProbe};

use account::IdentifyConfig;
use identify::{Call, IdentifyProbe};
use probe_words::{LentScalars, Scalars};
use rules::Rule;
use window::LentArrays;

// ---- open

// A configuration from its six numbers; a flag of 0 is no extension.
pub fn config_by(
    amplitude: f32,
    duration_s: f32,
    washout_tc_s: f32,
    extension: u32,
    extension_amplitude: f32,
    extension_duration_s: f32,
) -> IdentifyConfig
    ensures { result ≡ config_by amplitude duration_s washout_tc_s extension extension_amplitude extension_duration_s }
{
    IdentifyConfig {
        amplitude,
        duration_s,
        washout_tc_s,
        noisy: probe_words::noisy_by(extension, extension_amplitude, extension_duration_s),
    }
}

// Opens a probe in its scalars; the arrays of samples may hold anything. An option too is taken, since what a plain opening answers to each is promised. It is refused by 9 where an option has no meaning, or by the first of the rules 1 to 5 that is broken; then nothing is written.
pub fn open(lent: &mut LentScalars<'_>, config: IdentifyConfig, options: u32) -> Result<(), Rule>
    ensures opening { opening (numbered result) (scalars_in lent.new) ≡ live_open options config (scalars_in lent.old) }
    ensures same { SameScalars lent.old lent.new }
    ensures flown { OpensFlight config (numbered result) (scalars_in lent.new) }
{
    if options != 0 {
        return Err(Rule::Form);
    }
    let probe = IdentifyProbe::new(config)?;
    probe_writing::write_probe(lent, probe);
    Ok(())
}

// ---- step

// All that a caller keeps of a probe, as it lends it to a call: the scalars, and the arrays of its samples.
#[derive(Drop)]
pub struct LentProbe<'a> {
    pub scalars: LentScalars<'a>,
    pub arrays: LentArrays<'a>,
}

impl LentProbe<'_> {
    // One call: the offset, 0 of an ended probe. Where a rule turns the call back nothing is written.
    #[tactic(auto, unfolding(crate::specs::Live::live_step, crate::specs::Live::scalars_after, crate::specs::Live::offset_after, crate::specs::Live::value_or, identify::specs::Seen::reply_of, account::specs::Probe::number, rules::specs::Numbers::numbered, rules::specs::Numbers::numbers))]
    pub fn step(&mut self, call: Call) -> Result<f32, Rule>
        ensures flight { Stepped (kept_in self.old) (call_of call) result (kept_in self.new) }
        ensures same { SameLent self.old self.new }
        ensures flown { StepsFlight (kept_in self.old) (call_of call) result (kept_in self.new) }
    {
        let mut probe = self.scalars.read().probe();
        let Some(offset) = probe.step(&mut self.arrays, call)? else {
            return Ok(0.0);
        };
        probe_writing::write_probe(&mut self.scalars, probe);
        Ok(offset)
    }
}

// ---- marks

// Whether a call reads the marks: the probe runs, the call does not end before the end time, and no rule turns it back. The test that most calls fail comes first.
#[tactic(auto, unfolding(crate::specs::Live::reads_marks, rules::specs::Numbers::numbered), using(rules::proofs::Numbers::above_0))]
fn reads_marks(scalars: Scalars<'_>, dt: f32) -> bool
    ensures { result ≡ reads_in (probe_in (read_in scalars.entry)) dt }
{
    let clock = scalars.status().clock();
    let Some(elapsed_s) = clock else {
        return false;
    };
    if elapsed_s + dt < scalars.end_s() {
        return false;
    }
    rules::validate_call(clock, scalars.ticks(), dt).is_ok()
}

// Before a call that reads the marks each byte of them is made 0 or 1, and before any other nothing is written. The marks that they stand for stay.
// It takes the scalars and not the probe: read as a whole first, the probe costs a call twice the instructions. The marks stand apart, since they are written.
pub fn ready(scalars: Scalars<'_>, marks: &mut [u8; 2048], dt: f32)
    ensures bytes { marks.new ≡ readied (probe_in (read_in scalars.entry)) dt marks.old }
    ensures marks { KeepsMarks marks.old marks.new }
{
    if reads_marks(scalars, dt) {
        marks::settle(marks);
    }
}

// ---- report

// The report's 36 bytes at the front of a slice; a slice of fewer stays as it is.
pub fn report(probe: IdentifyProbe, rates: &[f32; 2048], marks: &[u8; 2048], output: &mut [u8])
    ensures output { WritesReportOf probe rates.now marks.now output.old output.new }
    ensures flown { ReportsProbe probe rates.now marks.now output.old output.new }
{
    let held = marks::held_by(marks);
    report::write_report(output, probe_report::report_of(probe, rates, &held));
}

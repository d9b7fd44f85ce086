// A pair of probes that their caller keeps and steps, one for each axis: opened, stepped and reported from the caller's memory.
#![tactic(auto)]

ghost use Rattle.std.specs.Prelude.{◌≡◌};
ghost use Rattle.marks.specs.Marks.{KeepsMarks};
ghost use Rattle.probe_words.specs.Layout.{read_in, SameScalars, probe_in};
ghost use Rattle.rules.specs.Numbers.{numbered};
ghost use Rattle.two_axis.specs.Axes.{first, second, axes};
ghost use Rattle.two_axis_probe.specs.Stepped.{probes_of, two_call_of};
ghost use Rattle.live_pair.specs.Pair.{scalars_lent, pair_in, SamePair, both_read, PairOpened, PairAnswers, accepted, pair_readied};
ghost use Rattle.live_pair.specs.Flown.{OpensPair, PairFliesAnswering, WritesPairReportOf, ReportsPairOf};

use account::IdentifyConfig;
use live_probe::LentProbe;
use probe_words::{LentScalars, Scalars};
use rules::Rule;
use two_axis_probe::{TwoAxisProbe, TwoCall};

// ---- open

// Opens a pair in its scalars; the arrays of samples may hold anything. An option too is taken, as `live_probe` says. It is refused by 9 where an option has no meaning, or by the first of the rules 1 to 5 that is broken; then nothing is written.
pub fn open(
    lent1: &mut LentScalars<'_>,
    lent2: &mut LentScalars<'_>,
    config: IdentifyConfig,
    options: u32,
) -> Result<(), Rule>
    ensures opening { PairOpened options config (scalars_lent lent1 lent2) (numbered result) }
    ensures same1 { SameScalars lent1.old lent1.new }
    ensures same2 { SameScalars lent2.old lent2.new }
    ensures flown { OpensPair config (scalars_lent lent1 lent2) (numbered result) }
{
    if options != 0 {
        return Err(Rule::Form);
    }
    let pair = TwoAxisProbe::new(config)?;
    probe_writing::write_probe(lent1, pair.first);
    probe_writing::write_probe(lent2, pair.second);
    Ok(())
}

// ---- step

// All that a caller keeps of a pair, as it lends it to a call.
#[derive(Drop)]
pub struct LentPair<'a> {
    pub first: LentProbe<'a>,
    pub second: LentProbe<'a>,
}

impl LentPair<'_> {
    // One call of both axes: the offsets to add to their setpoints, 0 of an ended pair. Where one of the rules 6 to 8 turns it back nothing is written.
    pub fn step(&mut self, call: TwoCall) -> Result<(f32, f32), Rule>
        ensures flight { PairAnswers (pair_in self.old) (two_call_of call) result (pair_in self.new) }
        ensures same { SamePair self.old self.new }
        ensures flown { PairFliesAnswering (pair_in self.old) (two_call_of call) result (pair_in self.new) }
    {
        let mut pair = TwoAxisProbe {
            first: self.first.scalars.read().probe(),
            second: self.second.scalars.read().probe(),
        };
        let Some((x, y)) = pair.step(&mut self.first.arrays, &mut self.second.arrays, call)? else {
            return Ok((0.0, 0.0));
        };
        probe_writing::write_probe(&mut self.first.scalars, pair.first);
        probe_writing::write_probe(&mut self.second.scalars, pair.second);
        Ok((x, y))
    }
}

// ---- marks

// Whether an axis runs and no rule turns its call back.
#[tactic(auto, unfolding(crate::specs::Pair::accepted_by, rules::specs::Numbers::numbered), using(rules::proofs::Numbers::above_0))]
fn accepts(scalars: Scalars<'_>, dt: f32) -> bool
    ensures { result ≡ accepted (probe_in (read_in scalars.entry)) dt }
{
    let clock = scalars.status().clock();
    clock.is_some() & rules::validate_call(clock, scalars.ticks(), dt).is_ok()
}

// Before a call that reads an axis's marks each byte of them is made 0 or 1, and before any other, one that is turned back among them, nothing is written. The marks that they stand for stay.
#[tactic(auto, unfolding(crate::specs::Pair::pair_readied))]
pub fn ready(
    scalars1: Scalars<'_>,
    marks1: &mut [u8; 2048],
    scalars2: Scalars<'_>,
    marks2: &mut [u8; 2048],
    dt: f32,
)
    ensures bytes1 { marks1.new ≡ pair_readied (axes (read_in scalars1.entry) (read_in scalars2.entry)) first dt marks1.old }
    ensures bytes2 { marks2.new ≡ pair_readied (axes (read_in scalars1.entry) (read_in scalars2.entry)) second dt marks2.old }
    ensures marks1 { KeepsMarks marks1.old marks1.new }
    ensures marks2 { KeepsMarks marks2.old marks2.new }
{
    if accepts(scalars1, dt) & accepts(scalars2, dt) {
        live_probe::ready(scalars1, marks1, dt);
        live_probe::ready(scalars2, marks2, dt);
    }
}

// ---- report

// The report of both axes, 77 bytes at the front of a slice; a slice of fewer stays as it is.
pub fn report(
    pair: TwoAxisProbe,
    rates1: &[f32; 2048],
    marks1: &[u8; 2048],
    rates2: &[f32; 2048],
    marks2: &[u8; 2048],
    output: &mut [u8],
)
    ensures output { WritesPairReportOf (probes_of pair) (both_read rates1 rates2) (both_read marks1 marks2) output.old output.new }
    ensures flown { ReportsPairOf (probes_of pair) (both_read rates1 rates2) (both_read marks1 marks2) output.old output.new }
{
    let held1 = marks::held_by(marks1);
    let held2 = marks::held_by(marks2);
    two_axis_report::write_two(
        output,
        probe_report::report_of(pair.first, rates1, &held1),
        probe_report::report_of(pair.second, rates2, &held2),
    );
}

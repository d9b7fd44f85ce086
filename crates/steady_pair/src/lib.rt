// A pair of probes in their caller's memory that is opened plain or as steady: the test of a call's dt, once for both axes, and then the plain call.
#![tactic(auto)]

ghost use Rattle.std.specs.Prelude.{◌≡◌, ◌≢◌};
ghost use Rattle.marks.specs.Marks.{KeepsMarks};
ghost use Rattle.rules.specs.Numbers.{numbered};
ghost use Rattle.probe_words.specs.Layout.{read_in, SameScalars};
ghost use Rattle.two_axis.specs.Axes.{first, second, axes};
ghost use Rattle.two_axis_probe.specs.Stepped.{two_call_of};
ghost use Rattle.steady.specs.Kept.{clock_after};
ghost use Rattle.live_pair.specs.Pair.{scalars_lent, pair_in, PairAnswers, SamePair, pair_readied};
ghost use Rattle.steady_probe.specs.Behind.{AnswersOpening, OpensAnswering};
ghost use Rattle.steady_probe.specs.SteadyLive.{value_over};
ghost use Rattle.steady_pair.specs.SteadyPair.{double, pair_runs, pair_lent, SteadyPairAnswers, steady_pair_readied};
ghost use Rattle.steady_pair.specs.SteadyPairFlown.{PairFliesAnswering, OpensPlainPair, PairAnswersPlain};

use account::IdentifyConfig;
use live_pair::LentPair;
use probe_words::{LentScalars, Scalars};
use rules::Rule;
use steady::SteadyClock;
use two_axis_probe::TwoCall;

// ---- open
// The clock and then the plain opening, as `steady_probe` has it of a probe, and so at the marks: one function of both would be handed the plain one, and be longer than
// two lines.

// Opens a pair in its scalars, plain or, with an option of 1, as steady; the arrays of samples may hold anything. It is refused by 9 where an option has no meaning, or by the first of the rules 1 to 5 that is broken; then nothing is written.
pub fn open(
    lent1: &mut LentScalars<'_>,
    lent2: &mut LentScalars<'_>,
    config: IdentifyConfig,
    options: u32,
) -> Result<SteadyClock, Rule>
    ensures opening { AnswersOpening double options config (scalars_lent lent1 lent2) result }
    ensures same1 { SameScalars lent1.old lent1.new }
    ensures same2 { SameScalars lent2.old lent2.new }
    ensures flown { OpensAnswering double config (scalars_lent lent1 lent2) result }
    ensures plain { options ≢ 1 → OpensPlainPair options config (scalars_lent lent1 lent2) (numbered result) }
{
    let clock = SteadyClock::new(options)?;
    live_pair::open(lent1, lent2, config, 0)?;
    Ok(clock)
}

// ---- step

// One call of both axes: their offsets, 0 of an ended pair. Where one of the rules 6, 10, 7 and 8 turns it back, it does so for both, and nothing is written.
pub fn step(
    lent: &mut LentPair<'_>,
    clock: &mut SteadyClock,
    call: TwoCall,
) -> Result<(f32, f32), Rule>
    ensures flight { SteadyPairAnswers (value_over clock) (pair_lent lent) (two_call_of call) result }
    ensures clock { clock.new ≡ clock_after (numbered result) (pair_runs (pair_in lent.old)) call.dt clock.old }
    ensures same { SamePair lent.old lent.new }
    ensures flown { PairFliesAnswering (value_over clock) (pair_lent lent) (two_call_of call) result }
    ensures plain { clock.old.steady ≡ 0 → PairAnswersPlain (value_over clock) (pair_lent lent) (two_call_of call) result }
{
    let running1 = steady_probe::is_running(lent.first.scalars.read().status());
    let running2 = steady_probe::is_running(lent.second.scalars.read().status());
    // With its clauses: without them what is known of its calls is too large a term for the proof of the step.
    let step = |lent: &mut LentPair<'_>| -> Result<(f32, f32), Rule>
        ensures flight { PairAnswers (pair_in lent.old) (two_call_of call) result (pair_in lent.new) }
        ensures same { SamePair lent.old lent.new }
    { lent.step(call) };
    clock.guard(lent, running1 & running2, call.dt, step)
}

// ---- marks

// Before a call that reads an axis's marks each byte of them is made 0 or 1, and before any other, one that is turned back among them, nothing is written. The marks that they stand for stay.
pub fn ready(
    scalars1: Scalars<'_>,
    marks1: &mut [u8; 2048],
    scalars2: Scalars<'_>,
    marks2: &mut [u8; 2048],
    clock: SteadyClock,
    dt: f32,
)
    ensures bytes1 { marks1.new ≡ steady_pair_readied clock.steady clock.first_dt_s (axes (read_in scalars1.entry) (read_in scalars2.entry)) first dt marks1.old }
    ensures bytes2 { marks2.new ≡ steady_pair_readied clock.steady clock.first_dt_s (axes (read_in scalars1.entry) (read_in scalars2.entry)) second dt marks2.old }
    ensures marks1 { KeepsMarks marks1.old marks1.new }
    ensures marks2 { KeepsMarks marks2.old marks2.new }
    ensures plain1 { clock.steady ≡ 0 → marks1.new ≡ pair_readied (axes (read_in scalars1.entry) (read_in scalars2.entry)) first dt marks1.old }
    ensures plain2 { clock.steady ≡ 0 → marks2.new ≡ pair_readied (axes (read_in scalars1.entry) (read_in scalars2.entry)) second dt marks2.old }
{
    let running1 = steady_probe::is_running(scalars1.status());
    let running2 = steady_probe::is_running(scalars2.status());
    if clock.turns_back(running1 & running2, dt) {
        return;
    }
    live_pair::ready(scalars1, marks1, scalars2, marks2, dt);
}

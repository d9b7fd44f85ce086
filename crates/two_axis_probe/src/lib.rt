// The probe of two axes: two probes that are stepped together, and share their extension.
#![tactic(auto)]

ghost use Rattle.std.specs.Prelude.{◌≡◌, ◌<◌, Ok, Some};
ghost use Rattle.account.specs.Rules.{broken, refusal};
ghost use Rattle.account.specs.Probe.{clock};
ghost use Rattle.window.specs.Lent.{arrays_in, Leaves};
ghost use Rattle.rules.specs.Numbers.{numbered, numbers};
ghost use Rattle.identify.specs.Seen.{call_of, begun_by, stored_in};
ghost use Rattle.two_axis.specs.Axes.{axes};
ghost use Rattle.two_axis_probe.specs.Stepped.{probes_of, lents_of, two_call_of, fresh_two_axis, either_number, two_opened_by, tick_ended, tick_ahead, two_ticked, answer_of, LeavesTwo};

use account::IdentifyConfig;
use identify::{Begun, Call, IdentifyProbe};
use recorded::Classified;
use rules::Rule;
use window::{LentArrays, Readings};

#[derive(Clone, Copy)]
pub struct TwoAxisProbe {
    pub first: IdentifyProbe,
    pub second: IdentifyProbe,
}

// What a call brings of one axis: its body rate at this tick, with the moment commanded on the last one.
#[derive(Clone, Copy)]
pub struct AxisReading {
    pub rate: f32,
    pub moment: f32,
}

impl AxisReading {
    // The axis's own call, dt seconds after its last one.
    fn call(self, dt: f32) -> Call
        ensures { result ≡ record { dt = dt; rate = self.rate; moment = self.moment } }
    {
        Call {
            dt,
            rate: self.rate,
            moment: self.moment,
        }
    }
}

// One call of both axes: the seconds since the last one, and each axis's reading.
#[derive(Clone, Copy)]
pub struct TwoCall {
    pub dt: f32,
    pub first: AxisReading,
    pub second: AxisReading,
}

// ---- the rules

// A call is turned back for both axes: by the first one's rule, or else by the second one's.
#[tactic(auto, unfolding(crate::specs::Stepped::either_number, rules::specs::Numbers::numbered), using(rules::proofs::Numbers::above_0))]
fn validate_both(probe: TwoAxisProbe, dt: f32) -> Result<(), Rule>
    ensures { numbered result ≡ either_number (refusal (clock probe.first.status) probe.first.ticks dt) (refusal (clock probe.second.status) probe.second.ticks dt) }
{
    probe.first.validate(dt)?;
    probe.second.validate(dt)
}

// ---- a call

// The second half of an axis's call, its sample stored and its window looked at. That ticks have room is asked for, here and below, as `identify` says.
fn end_tick(
    probe: IdentifyProbe,
    begun: Begun,
    due: Option<Classified>,
    asked: bool,
    readings: Readings<'_>,
) -> IdentifyProbe
    requires { probe.ticks < 16777216 }
    ensures { result ≡ tick_ended probe begun readings.entry.window due asked readings.entry.rates.now readings.entry.moments.now }
{
    let end = closing::close_due(due, asked, identify::tick_of(probe, begun), readings);
    identify::next_probe(probe.ticks + 1, readings.window, end)
}

// The second half of an axis's call with its end time still ahead.
fn run_on(probe: IdentifyProbe, begun: Begun) -> IdentifyProbe
    requires { probe.ticks < 16777216 }
    ensures { result ≡ tick_ahead probe begun }
{
    identify::next_probe(
        probe.ticks + 1,
        begun.window,
        closing::goes_on(identify::tick_of(probe, begun)),
    )
}

impl TwoAxisProbe {
    // A probe with nothing stored: the first axis starts high, the second low.
    pub fn fresh(config: IdentifyConfig) -> TwoAxisProbe
        ensures { result ≡ fresh_two_axis config }
    {
        TwoAxisProbe {
            first: IdentifyProbe::fresh(config, true),
            second: IdentifyProbe::fresh(config, false),
        }
    }

    // A probe ready to run, where the configuration breaks no rule.
    #[tactic(auto, unfolding(crate::specs::Stepped::two_opened_by, rules::specs::Numbers::numbered, rules::specs::Numbers::numbers), using(rules::proofs::Numbers::above_0))]
    pub fn new(config: IdentifyConfig) -> Result<TwoAxisProbe, Rule>
        ensures { numbers result ≡ two_opened_by (broken config) config }
    {
        rules::validate(config)?;
        Ok(TwoAxisProbe::fresh(config))
    }

    // A call that no rule turns back, of axes that have run for elapsed1 and elapsed2. Both samples are stored before either window is looked at, and both windows are looked at before either axis goes on.
    // It answers both offsets. The arrays are two parameters: in a pair's memory each axis's stand beside its scalars.
    #[tactic(auto, unfolding(crate::specs::Stepped::two_ticked))]
    fn tick(
        &mut self,
        elapsed1: f32,
        elapsed2: f32,
        lent1: &mut LentArrays<'_>,
        lent2: &mut LentArrays<'_>,
        call: TwoCall,
    ) -> (f32, f32)
        requires first { self.old.first.ticks < 16777216 }
        requires second { self.old.second.ticks < 16777216 }
        ensures answer { Ok (Some result) ≡ (two_ticked (axes elapsed1 elapsed2) (probes_of self.old) (lents_of lent1.old lent2.old) (two_call_of call)).answer }
        ensures left { LeavesTwo self.old self.new lent1.old lent1.new lent2.old lent2.new (two_ticked (axes elapsed1 elapsed2) (probes_of self.old) (lents_of lent1.old lent2.old) (two_call_of call)) }
    {
        let begun1 = identify::begin(self.first, elapsed1, lent1, call.first.call(call.dt));
        let begun2 = identify::begin(self.second, elapsed2, lent2, call.second.call(call.dt));
        if (begun1.now_s < self.first.duration_s) & (begun2.now_s < self.second.duration_s) {
            *self = TwoAxisProbe {
                first: run_on(self.first, begun1),
                second: run_on(self.second, begun2),
            };
            return (begun1.offset, begun2.offset);
        }
        let readings1 = lent1.readings(begun1.window);
        let readings2 = lent2.readings(begun2.window);
        let due1 = closing::due_at(begun1.now_s, self.first.duration_s, readings1);
        let due2 = closing::due_at(begun2.now_s, self.second.duration_s, readings2);
        *self = TwoAxisProbe {
            first: end_tick(self.first, begun1, due1, closing::asks(due2), readings1),
            second: end_tick(self.second, begun2, due2, closing::asks(due1), readings2),
        };
        (begun1.offset, begun2.offset)
    }

    // Advances both axes by one call. It answers the offsets to add to the loops' setpoints; once the probe has ended there are none to add.
    #[tactic(auto, unfolding(crate::specs::Stepped::two_stepped_by, crate::specs::Stepped::two_answer_by, crate::specs::Stepped::two_ticked, rules::specs::Numbers::numbered, rules::specs::Numbers::numbers), using(rules::proofs::Numbers::above_0, crate::proofs::Stepping::few_first, crate::proofs::Stepping::few_second))]
    pub fn step(
        &mut self,
        lent1: &mut LentArrays<'_>,
        lent2: &mut LentArrays<'_>,
        call: TwoCall,
    ) -> Result<Option<(f32, f32)>, Rule>
        ensures answer { numbers result ≡ (answer_of self.old lent1.old lent2.old (two_call_of call)).answer }
        ensures left { LeavesTwo self.old self.new lent1.old lent1.new lent2.old lent2.new (answer_of self.old lent1.old lent2.old (two_call_of call)) }
    {
        validate_both(*self, call.dt)?;
        let Some(elapsed1) = self.first.status.clock() else {
            return Ok(None);
        };
        let Some(elapsed2) = self.second.status.clock() else {
            return Ok(None);
        };
        Ok(Some(self.tick(elapsed1, elapsed2, lent1, lent2, call)))
    }
}

// The byte run of two axes: a configuration, calls and a report as bytes.
#![tactic(auto)]

ghost use Rattle.std.specs.Prelude.{◌≡◌};
ghost use Rattle.rules.specs.Numbers.{numbered};
ghost use Rattle.two_axis_run.specs.TwoAxisRun.{two_axis_run, TellsDelays, TellsModels, TellsSumsOf};

use account::IdentifyConfig;
use batch::{Batch, Flight, Sizes};
use rules::Rule;
use two_axis_probe::TwoAxisProbe;
use window::LentArrays;

// A flight of two axes: their probe, and the arrays of each one's window. What it has in common with one of one axis is in `batch`.
#[derive(Drop)]
struct TwoAxes<'a> {
    probe: TwoAxisProbe,
    lent1: LentArrays<'a>,
    lent2: LentArrays<'a>,
}

impl Flight for TwoAxes<'_> {
    ghost use Rattle.two_axis_run.specs.TwoAxisRun.{sizes, calls_to, calls_of};
    ghost use Rattle.two_axis_run.specs.Calls.{StandsAfter, answer_bytes, no_answers, report_of};
    ghost use Rattle.two_axis_report.proofs.Bytes.{length_two};

    ghost sizes = { sizes };

    ghost stands = { λ c calls k flight. StandsAfter c (calls_to calls k) flight.probe flight.lent1 flight.lent2 };

    ghost answers = { λ c calls k. answer_bytes c (calls_to calls k) };

    ghost reported = { λ c calls. report_of c (calls_of calls) };

    fn step(&mut self, call: &[u8], answer: &mut [u8]) {
        two_axis_calls::run_call(
            &mut self.probe,
            &mut self.lent1,
            &mut self.lent2,
            call,
            answer,
        );
    }

    fn report(&self, output: &mut [u8]) {
        let first = probe_report::report_of(self.probe.first, self.lent1.rates, self.lent1.held);
        let second = probe_report::report_of(self.probe.second, self.lent2.rates, self.lent2.held);
        two_axis_report::write_two(output, first, second);
    }

    ghost unanswered = { no_answers };

    ghost report_size = { λ c calls. length_two _ };
}

// The run of two axes, a type of its own beside the flight, as `byte_run` says.
struct TwoAxesRun;

impl Batch for TwoAxesRun {
    ghost use Rattle.std.proofs.Common.{rules};
    ghost use Rattle.two_axis_run.specs.TwoAxisRun.{sizes, written, calls_of};

    const SIZES: Sizes = Sizes {
        call: 20,
        answer: 8,
        report: 77,
    };

    ghost SIZES = { sizes };

    ghost written = { λ c calls. written c (calls_of calls) };

    fn fly(config: IdentifyConfig, calls: &[u8], output: &mut [u8]) {
        let mut rates1 = [0.0f32; 2048];
        let mut moments1 = [0.0f32; 2048];
        let mut offsets1 = [0.0f32; 2048];
        let mut held1 = [false; 2048];
        let mut rates2 = [0.0f32; 2048];
        let mut moments2 = [0.0f32; 2048];
        let mut offsets2 = [0.0f32; 2048];
        let mut held2 = [false; 2048];
        let mut flight = TwoAxes {
            probe: TwoAxisProbe::fresh(config),
            lent1: LentArrays {
                rates: &mut rates1,
                moments: &mut moments1,
                offsets: &mut offsets1,
                held: &mut held1,
            },
            lent2: LentArrays {
                rates: &mut rates2,
                moments: &mut moments2,
                offsets: &mut offsets2,
                held: &mut held2,
            },
        };
        batch::fly(&mut flight, TwoAxesRun::SIZES, calls, output);
    }

    ghost workable = { Prim.search rules };
}

// A run of two axes from a configuration of 24 bytes over calls of 20 bytes each. It writes the report of both axes and then two words a call.
// It is refused by the rule, 1 to 5 or 9, that is broken; then no byte is written.
#[tactic(auto, unfolding(crate::specs::TwoAxisRun::two_axis_run))]
pub fn two_axis_run(config: &[u8], calls: &[u8], output: &mut [u8]) -> Result<(), Rule>
    ensures result { numbered result ≡ (two_axis_run config.now calls.now output.old).result }
    ensures output { output.new ≡ (two_axis_run config.now calls.now output.old).output }
    ensures delays { TellsDelays config.now calls.now (numbered result) output.new }
    ensures models { TellsModels (numbered result) output.new }
    ensures sums { TellsSumsOf config.now calls.now (numbered result) output.new }
{
    batch::run::<TwoAxesRun>(config, calls, output)
}

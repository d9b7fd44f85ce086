// A run over bytes, whatever its calls are: a configuration, calls and a report as bytes, all at once.
#![tactic(auto)]

ghost use Rattle.std.specs.Prelude.{◌≡◌, ℕ, ◌+◌, ◌*◌, ◌/◌, ◌≤◌, List, [], length};
ghost use Rattle.account.specs.declared.IdentifyConfig.{IdentifyConfig};
ghost use Rattle.rules.specs.Numbers.{numbered};
ghost use Rattle.batch.specs.Batch.{onto, batch_run};
ghost use Rattle.batch.specs.Flown.{report_and_answers, FliesOn};
ghost use Rattle.batch.specs.Sized.{sized, Workable};

use account::IdentifyConfig;
use rules::Rule;

// The sizes of a kind of run, in bytes: of a call, of a call's answer, and of the report before the answers.
#[derive(Clone, Copy)]
pub struct Sizes {
    pub call: usize,
    pub answer: usize,
    pub report: usize,
}

// What the calls of a run go to, one at a time: the probe, and the arrays of its window.
pub trait Flight {
    ghost use Rattle.batch.specs.declared.Sizes.{Sizes};
    ghost use Rattle.batch.specs.Flown.{StepsOn, Reports};

    // The sizes of its run.
    ghost sizes: { Sizes };

    // Where a run of a configuration stands after the first calls of these bytes, as many as the number says.
    ghost stands: { IdentifyConfig → List ℕ → ℕ → Self → Type 0 };

    // The bytes of their answers.
    ghost answers: { IdentifyConfig → List ℕ → ℕ → List ℕ };

    // The report after all calls of these bytes.
    ghost reported: { IdentifyConfig → List ℕ → List ℕ };

    // One call, from its bytes to those of its answer.
    fn step(&mut self, call: &[u8], answer: &mut [u8])
        requires call { length call.now ≡ sizes.call }
        requires answer { length answer.old ≡ sizes.answer }
        ensures { StepsOn sizes.call stands answers self.old self.new call.now answer.new };

    // Writes the report to the front of the output.
    fn report(&self, output: &mut [u8])
        requires { sizes.report ≤ length output.old }
        ensures { Reports sizes.call stands reported self.now output.old output.new };

    // No call, no answer.
    ghost unanswered: { (c : IdentifyConfig) (calls : List ℕ) → answers c calls 0 ≡ [] };

    ghost report_size: { (c : IdentifyConfig) (calls : List ℕ) → length (reported c calls) ≡ sizes.report };
}

// Call k of a run, and its answer. The sizes are a value too, here and below: the kind has them as a constant, the flight not (`byte_run` says why).
fn fly_call<F: Flight>(flight: &mut F, sizes: Sizes, calls: &[u8], k: usize, output: &mut [u8])
    requires sizes { sizes ≡ F.sizes }
    requires call { sizes.call * k + sizes.call ≤ length calls.now }
    requires answer { sizes.report + sizes.answer * k + sizes.answer ≤ length output.old }
    ensures { (c : IdentifyConfig) → FliesOn sizes F.stands F.answers c calls.now k flight.old flight.new output.old output.new }
{
    let from = sizes.call * k;
    let at = sizes.report + sizes.answer * k;
    flight.step(
        &calls[from..from + sizes.call],
        &mut output[at..at + sizes.answer],
    );
}

// The calls of a run, one after the other, of a flight that none has reached yet; and then the report, in front of their answers.
// Public only for the kinds of run, `byte_run` and `two_axis_run`: it asks for the kind's own sizes, and for the room that `run` has tested.
pub fn fly<F: Flight>(flight: &mut F, sizes: Sizes, calls: &[u8], output: &mut [u8])
    requires sizes { sizes ≡ F.sizes }
    requires workable { Workable sizes }
    requires output { sizes.report + sizes.answer * (length calls.now / sizes.call) ≤ length output.old }
    ensures stands { (c : IdentifyConfig) → F.stands c calls.now 0 flight.old → F.stands c calls.now (length calls.now / sizes.call) flight.new }
    ensures output { (c : IdentifyConfig) → F.stands c calls.now 0 flight.old → output.new ≡ onto (report_and_answers sizes.call F.reported F.answers c calls.now) output.old }
{
    let n = calls.len() / sizes.call;
    // By index: after a loop over `chunks_exact_mut` a proof knows the output's length and not its bytes.
    for k in 0..n {
        fly_call(flight, sizes, calls, k, output);
    }
    flight.report(output);
}

// A kind of run: its sizes, and what flies it.
pub trait Batch {
    ghost use Rattle.batch.specs.declared.Sizes.{Sizes};

    const SIZES: Sizes;

    ghost SIZES: { Sizes };

    // What a run of a configuration over these calls writes.
    ghost written: { IdentifyConfig → List ℕ → List ℕ };

    // A run of a configuration that breaks no rule.
    fn fly(config: IdentifyConfig, calls: &[u8], output: &mut [u8])
        requires { SIZES.report + SIZES.answer * (length calls.now / SIZES.call) ≤ length output.old }
        ensures { output.new ≡ onto (written config calls.now) output.old };

    ghost workable: { Workable SIZES };
}

// Whether the three slices have the sizes that rule 9 asks for.
#[tactic(auto, unfolding(crate::specs::Sized::sized), using(crate::proofs::Sizing::answers_fit))]
fn is_sized(sizes: Sizes, config: &[u8], calls: &[u8], output: &[u8]) -> bool
    requires { Workable sizes }
    ensures { result ≡ sized sizes config.now calls.now output.now }
{
    (config.len() == 24)
        & (calls.len() % sizes.call == 0)
        & (sizes.report + sizes.answer * (calls.len() / sizes.call) <= output.len())
}

// A run from a configuration of 24 bytes. It writes the report and then the answer of each call.
// It is refused by the rule, 1 to 5 or 9, that is broken; then no byte is written.
#[tactic(auto, unfolding(rules::specs::Numbers::number_of, rules::specs::Numbers::numbered, crate::specs::Batch::batch_run, crate::specs::Batch::run_if, crate::specs::Batch::ran), using(rules::proofs::Numbers::above_0, crate::proofs::Sizing::output_size))]
pub fn run<B: Batch>(config: &[u8], calls: &[u8], output: &mut [u8]) -> Result<(), Rule>
    ensures result { numbered result ≡ (batch_run B.SIZES B.written config.now calls.now output.old).result }
    ensures output { output.new ≡ (batch_run B.SIZES B.written config.now calls.now output.old).output }
{
    if !is_sized(B::SIZES, config, calls, output) {
        return Err(Rule::Form);
    }
    let config = byte_config::config_of(config);
    rules::validate(config)?;
    B::fly(config, calls, output);
    Ok(())
}

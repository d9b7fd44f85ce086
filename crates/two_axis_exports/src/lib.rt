// The function for two axes that the static library exports.
// C takes a number for an answer, so it answers one.
#![tactic(auto)]

ghost use Rattle.std.specs.Prelude.{◌≡◌};
ghost use Rattle.two_axis_run.specs.TwoAxisRun.{two_axis_run, TellsDelays, TellsModels, TellsSumsOf};

// A run of two axes from a configuration of 24 bytes over calls of 20 bytes each: the report of both axes, and then two words a call.
// It answers 0, or the number of the rule, 1 to 5 or 9, that is broken; then no byte is written.
#[unsafe(no_mangle)]
pub extern "C" fn identify_two_axis_run(config: &[u8], calls: &[u8], output: &mut [u8]) -> u32
    ensures result { result ≡ (two_axis_run config.now calls.now output.old).result }
    ensures output { output.new ≡ (two_axis_run config.now calls.now output.old).output }
    ensures delays { TellsDelays config.now calls.now result output.new }
    ensures models { TellsModels result output.new }
    ensures sums { TellsSumsOf config.now calls.now result output.new }
{
    rules::number_or_0(two_axis_run::two_axis_run(config, calls, output))
}

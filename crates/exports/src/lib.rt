// The functions that the static library exports.
// C takes a number for an answer, so each function here answers one.
#![tactic(auto)]

ghost use Rattle.std.specs.Prelude.{◌≡◌};
ghost use Rattle.byte_run.specs.ByteRun.{byte_run, TellsDelay, TellsModel};
ghost use Rattle.byte_units.specs.ByteUnits.{byte_units, TellsUnits};

// A run from a configuration of 24 bytes over calls of 12 bytes each: the report, and then one word a call.
// It answers 0, or the number of the rule, 1 to 5 or 9, that is broken; then no byte is written.
#[unsafe(no_mangle)]
pub extern "C" fn identify_byte_run(config: &[u8], calls: &[u8], output: &mut [u8]) -> u32
    ensures result { result ≡ (byte_run config.now calls.now output.old).result }
    ensures output { output.new ≡ (byte_run config.now calls.now output.old).output }
    ensures delay { TellsDelay config.now calls.now result output.new }
    ensures model { TellsModel result output.new }
{
    rules::number_or_0(byte_run::byte_run(config, calls, output))
}

// Lag and acceleration of a report of 36 bytes: a word 1 and both floats, or three words 0, to an output of 12 bytes.
// It answers 0, or 9 where a size is wrong; then no byte is written.
#[unsafe(no_mangle)]
pub extern "C" fn identify_plain_units(report: &[u8], output: &mut [u8]) -> u32
    ensures result { result ≡ (byte_units report.now output.old).result }
    ensures output { output.new ≡ (byte_units report.now output.old).output }
    ensures reported { TellsUnits report.now output.old output.new }
{
    rules::number_or_0(byte_units::byte_units(report, output))
}

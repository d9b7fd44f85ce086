// The plain units of a report, as bytes.
#![tactic(auto)]

ghost use Rattle.std.specs.Prelude.{◌≡◌, ◌≤◌, length};
ghost use Rattle.wire.specs.Words.{word_bytes, written_at};
ghost use Rattle.rules.specs.Numbers.{numbered};
ghost use Rattle.byte_units.specs.ByteUnits.{is_done, sized, report_units, unit_words, byte_units, TellsUnits};

use rules::Rule;
use units::Plain;

// Whether the report and the output have the sizes that rule 9 asks for.
#[tactic(auto, unfolding(crate::specs::ByteUnits::sized))]
fn is_sized(report: &[u8], output: &[u8]) -> bool
    ensures { result ≡ sized report.now output.now }
{
    (report.len() == 36) & (output.len() == 12)
}

// Whether a report is that of a probe that is done.
#[tactic(auto, unfolding(crate::specs::ByteUnits::is_done))]
fn is_done(report: &[u8]) -> bool
    ensures { result ≡ is_done report.now }
{
    wire::read_word(report, 0) / 0x4000_0000 == report::DONE
}

// Lag and acceleration of the model in a report; neither where the probe is not done.
#[tactic(auto, unfolding(crate::specs::ByteUnits::report_units))]
fn units_of(report: &[u8]) -> Option<Plain>
    ensures { result ≡ report_units report.now }
{
    if is_done(report) {
        let effect = units::moment_effect(
            wire::read_float(report, 20),
            wire::read_float(report, 24),
            wire::read_float(report, 28),
        );
        return units::units_at(
            effect,
            wire::read_float(report, 32),
            -wire::read_float(report, 16),
        );
    }
    None
}

// 1 and both floats, or three zeros, to the front of an output that has the room. Each by itself: in one array with the floats, the zeros take 1.3 times as long.
#[tactic(auto, unfolding(crate::specs::ByteUnits::unit_words))]
fn write_units(output: &mut [u8], units: Option<Plain>)
    requires { 12 ≤ length output.old }
    ensures { output.new ≡ written_at 0 (word_bytes (unit_words units)) output.old }
{
    match units {
        None => wire::write_values(output, 0, &[0u32; 3]),
        Some(plain) => {
            let words = [
                1,
                float::to_word(plain.lag_s),
                float::to_word(plain.accel_radps2),
            ];
            wire::write_values(output, 0, &words);
        }
    }
}

// The units of a report of 36 bytes to an output of 12. It is refused by 9 where a size is wrong; then no byte is written.
#[tactic(auto, using(crate::proofs::Answers::not_a_report), unfolding(crate::specs::ByteUnits::byte_units, crate::specs::ByteUnits::units_if, rules::specs::Numbers::numbered, rules::specs::Numbers::number_of))]
pub fn byte_units(report: &[u8], output: &mut [u8]) -> Result<(), Rule>
    ensures result { numbered result ≡ (byte_units report.now output.old).result }
    ensures output { output.new ≡ (byte_units report.now output.old).output }
    ensures reported { TellsUnits report.now output.old output.new }
{
    if !is_sized(report, output) {
        return Err(Rule::Form);
    }
    write_units(output, units_of(report));
    Ok(())
}

// The calls of a byte run of two axes, one at a time: read from their bytes, and answered by two words.
#![tactic(auto)]

ghost use Rattle.std.specs.Prelude.{◌≡◌, ◌+◌, ◌≤◌};
ghost use Rattle.wire.specs.Words.{float_at};
ghost use Rattle.rules.specs.Numbers.{numbers};
ghost use Rattle.two_axis_probe.specs.Stepped.{two_call_of, answer_of, LeavesTwo};
ghost use Rattle.two_axis_calls.specs.Calls.{call_at, answer_words, words_within};

use rules::Rule;
use two_axis_probe::{AxisReading, TwoAxisProbe, TwoCall};
use window::LentArrays;

// The reading of 8 bytes that start at byte `at`.
fn reading_at(bytes: &[u8], at: usize) -> AxisReading
    requires { at ≤ 12 }
    ensures rate { result.rate ≡ float_at bytes.now at }
    ensures moment { result.moment ≡ float_at bytes.now (at + 4) }
{
    AxisReading {
        rate: wire::read_float(bytes, at),
        moment: wire::read_float(bytes, at + 4),
    }
}

// The call of 20 bytes; one past the end reads as 0.
// The dt is read last: read first, it goes through one register with three of the readings, and a call takes a sixth longer.
#[tactic(auto, unfolding(crate::specs::Calls::call_at))]
fn call_of(bytes: &[u8]) -> TwoCall
    ensures { two_call_of result ≡ call_at bytes.now 0 }
{
    TwoCall {
        first: reading_at(bytes, 4),
        second: reading_at(bytes, 12),
        dt: wire::read_float(bytes, 0),
    }
}

// The words of an answer, the first axis's and then the second's: the offsets, 0 of an ended probe, or twice 7FC00000 and the number of the rule that turned the call back.
#[tactic(auto, unfolding(rules::specs::Numbers::numbers, two_axis_probe::specs::Stepped::reply_two, byte_run::specs::ByteRun::reply_word), using(rules::proofs::Numbers::at_most_10))]
fn words_of(answer: Result<Option<(f32, f32)>, Rule>) -> [u32; 2]
    ensures { result ≡ answer_words (numbers answer) }
{
    match answer {
        Ok(Some((x, y))) => [float::to_word(x), float::to_word(y)],
        Ok(None) => [float::to_word(0.0), float::to_word(0.0)],
        Err(rule) => {
            let word = 0x7fc0_0000 + rule.number();
            [word, word]
        }
    }
}

// A call from its 20 bytes to its two words, at the front of the output.
pub fn run_call(
    probe: &mut TwoAxisProbe,
    lent1: &mut LentArrays<'_>,
    lent2: &mut LentArrays<'_>,
    bytes: &[u8],
    output: &mut [u8],
)
    ensures left { LeavesTwo probe.old probe.new lent1.old lent1.new lent2.old lent2.new (answer_of probe.old lent1.old lent2.old (call_at bytes.now 0)) }
    ensures output { output.new ≡ words_within (answer_of probe.old lent1.old lent2.old (call_at bytes.now 0)).answer output.old }
{
    let answer = probe.step(lent1, lent2, call_of(bytes));
    wire::write_values(output, 0, &words_of(answer));
}

// The report of two axes and its 77 bytes.
#![tactic(auto)]

ghost use Rattle.std.specs.Prelude.{◌≡◌};
ghost use Rattle.wire.specs.Words.{written_within};
ghost use Rattle.report.specs.Report.{packed};
ghost use Rattle.two_axis.specs.Axes.{axes};
ghost use Rattle.two_axis_report.specs.TwoReport.{sums_of, report_two};

use report::Report;

// ---- the sums

// The sums as 40 bits: ticks + ticks as 26 of them, rows + rows as 13, and a zero bit.
#[tactic(auto, unfolding(report::specs::Report::packed, crate::specs::TwoReport::sums_of))]
fn sums(first: Report, second: Report) -> u64
    ensures { result ≡ packed 0 (sums_of (axes first second)) }
{
    let ticks = (u64::from(first.ticks) + u64::from(second.ticks)) % 0x400_0000;
    let rows = (first.rows % 0x2000 + second.rows % 0x2000) % 0x2000;
    ticks * 0x4000 + rows as u64 * 2
}

// ---- the report's bytes

// Two reports one after the other, and then their sums, 77 bytes at the front of a slice; a slice of fewer stays as it is. Each
// field and each sum is cut to its width.
#[tactic(auto, using(crate::proofs::Bytes::length_two, wire::proofs::Written::past))]
pub fn write_two(output: &mut [u8], first: Report, second: Report)
    ensures { output.new ≡ written_within 0 (report_two (axes first second)) output.old }
{
    if output.len() < 77 {
        return;
    }
    report::write_report(output, first);
    report::write_report(&mut output[36..72], second);
    output[72..77].copy_from_slice(&sums(first, second).to_be_bytes()[3..]);
}

// The report of a probe, from its struct and its arrays.
#![tactic(auto)]

ghost use Rattle.std.specs.Prelude.{◌≡◌, List, Float};
ghost use Rattle.window.specs.Lent.{lent};
ghost use Rattle.account.specs.Probe.{clock};
ghost use Rattle.identify.specs.Seen.{seen};
ghost use Rattle.probe_report.specs.ProbeReport.{once_ended, of_probe};

use account::IdentifyStatus;
use identify::IdentifyProbe;
use report::Report;

// A count that is 0 until the probe has ended.
fn once_ended(status: IdentifyStatus, n: usize) -> usize
    ensures { result ≡ once_ended (clock status) n }
{
    match status.clock() {
        Some(_) => 0,
        None => n,
    }
}

// The report of a probe and its arrays.
#[tactic(auto, using(crate::proofs::Counting::counted), unfolding(counting::specs::Tally::counts_to))]
pub fn report_of(probe: IdentifyProbe, rates: &[f32; 2048], held: &[bool; 2048]) -> Report
    ensures { (moments offsets : List Float) → result ≡ of_probe (seen probe (lent rates.now moments offsets held.now)) }
{
    let counts = counting::count_ticks(probe.window, held);
    // Field by field: three of the seven are no copies, and the others are of two structs.
    Report {
        ticks: probe.ticks,
        stored: probe.window.stored(),
        held: counts.held,
        warm: once_ended(probe.status, counts.warm),
        rows: once_ended(probe.status, counts.rows),
        status: probe.status,
        gain_fits: probe.gain_fits,
    }
}

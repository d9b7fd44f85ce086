// A probe's scalars written to the two arrays that `probe_words` reads.
#![tactic(auto)]

ghost use Rattle.std.specs.Prelude.{◌≡◌, ◌≤◌};
ghost use Rattle.window.specs.Samples.{capacity};
ghost use Rattle.probe_words.specs.Layout.{scalars_in, LeavesScalars, probe_in, words_of, floats_in, scalars_of};

use account::IdentifyExtension;
use identify::IdentifyProbe;
use probe_words::LentScalars;

#[tactic(auto, unfolding(probe_words::specs::Layout::words_of, probe_words::specs::Layout::extension_flag, window::specs::Arrays::stored_of))]
fn words_of(probe: IdentifyProbe) -> [u32; 8]
    ensures { result ≡ words_of probe }
{
    [
        report::kind(probe.status),
        report::kept_delay(probe.status).half_ticks,
        probe.ticks,
        probe.window.stored() as u32,
        probe.gain_fits,
        u32::from(probe.noisy.is_some()),
        probe.sweep.edge,
        u32::from(probe.sweep.high),
    ]
}

// No extension is written as zeros.
#[tactic(auto, unfolding(probe_words::specs::Layout::floats_in, probe_words::specs::Layout::extension_or_zeros))]
fn floats_of(probe: IdentifyProbe) -> [f32; 14]
    ensures { result ≡ floats_in probe }
{
    let extension = probe.noisy.unwrap_or(IdentifyExtension {
        amplitude: 0.0,
        duration_s: 0.0,
    });
    let mut floats = [0.0; 14];
    floats[..8].copy_from_slice(&[
        probe.duration_s,
        extension.amplitude,
        extension.duration_s,
        probe.sweep.amplitude,
        probe.sweep.washout_tc_s,
        probe.sweep.next_edge_s,
        probe.sweep.washout,
        probe.window.duration_s,
    ]);
    floats[8..].copy_from_slice(&report::floats(probe.status));
    floats
}

// The probe's scalars into the two arrays.
#[tactic(auto, using(probe_words::proofs::Back::back))]
pub fn write_probe(lent: &mut LentScalars<'_>, probe: IdentifyProbe)
    ensures scalars { LeavesScalars lent.old lent.new (scalars_of probe) }
    ensures back { probe.window.len ≤ capacity → probe_in (scalars_in lent.new) ≡ probe }
{
    *lent.words = words_of(probe);
    *lent.floats = floats_of(probe);
}

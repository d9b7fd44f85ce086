// Where a probe stands, as numbers and floats.
#![tactic(auto)]

ghost use Rattle.std.specs.Prelude.{◌≡◌};
ghost use Rattle.report.specs.Report.{floats_of};
ghost use Rattle.byte_units.specs.ByteUnits.{status_units};
ghost use Rattle.live_status.specs.Status.{status_numbers, status_plain};

use account::IdentifyStatus;
use units::Plain;

// Lag and acceleration of a status; neither unless it is done.
#[tactic(auto, unfolding(byte_units::specs::ByteUnits::status_units))]
fn units_of(status: IdentifyStatus) -> Option<Plain>
    ensures { result ≡ status_units status }
{
    match status {
        IdentifyStatus::Done(model) => units::plain_units(model),
        _ => None,
    }
}

// Where the probe stands: its kind, its delay in half ticks, the delay's whole ticks and its half tick, whether it has plain units; the six floats of its status; lag and acceleration.
#[tactic(auto, unfolding(crate::specs::Status::status_numbers, crate::specs::Status::status_plain, crate::specs::Status::has_units, crate::specs::Status::units_or_zeros))]
pub fn status(
    status: IdentifyStatus,
    numbers: &mut [u32; 5],
    model: &mut [f32; 6],
    plain: &mut [f32; 2],
)
    ensures numbers { numbers.new ≡ status_numbers status }
    ensures model { model.new ≡ floats_of status }
    ensures plain { plain.new ≡ status_plain status }
{
    let delay = report::kept_delay(status);
    let units = units_of(status);
    let both = units.unwrap_or(Plain {
        lag_s: 0.0,
        accel_radps2: 0.0,
    });
    *numbers = [
        report::kind(status),
        delay.half_ticks,
        delay.whole_ticks(),
        delay.half_tick(),
        u32::from(units.is_some()),
    ];
    *model = report::floats(status);
    *plain = [both.lag_s, both.accel_radps2];
}

// The end of a tick: the probe goes on, takes its extension, or ends with what the class of its window leads to.
#![tactic(auto)]

ghost use Rattle.std.specs.Prelude.{◌≡◌, List, Float};
ghost use Rattle.std.specs.Float.Ieee.{lt};
ghost use Rattle.recorded.specs.declared.Classified.TheVariants.{Integrated};
ghost use Rattle.account.specs.declared.IdentifyStatus.TheVariants.{Running};
ghost use Rattle.account.specs.Probe.{takes, status_of};
ghost use Rattle.account.specs.Account.{is_integrated};
ghost use Rattle.closing.specs.Ending.{ending, ahead_of, stand_of, finished_in, stands_by, class_of, due_by, asks_of, ended_by, closed_due, samples_read, closed_alone, ended_alone};

use account::{IdentifyExtension, IdentifyStatus};
use delay::RateModel;
use recorded::Classified;
use sweep::SquareSweep;
use window::Readings;

// A tick of a probe, its sample stored: the time, the probe's end time, the extension that it has not used, and its sweep.
#[derive(Clone, Copy)]
pub struct Tick {
    pub now_s: f32,
    pub end_s: f32,
    pub noisy: Option<IdentifyExtension>,
    pub sweep: SquareSweep,
}

// A status, and the gain fits made for it.
#[derive(Clone, Copy)]
pub struct Stand {
    pub status: IdentifyStatus,
    pub gain_fits: u32,
}

// What the end of a tick decides.
#[derive(Clone, Copy)]
pub struct Ending {
    pub duration_s: f32,
    pub noisy: Option<IdentifyExtension>,
    pub sweep: SquareSweep,
    pub stand: Stand,
}

#[tactic(auto, unfolding(account::specs::Account::is_integrated))]
fn is_integrated(class: Classified) -> bool
    ensures { result ≡ is_integrated class }
{
    matches!(class, Classified::Integrated)
}

// The extension that a class of window takes; where the other axis asks for it, any class does.
#[tactic(auto, unfolding(account::specs::Probe::takes))]
fn taken_extension(
    asked: bool,
    class: Classified,
    noisy: Option<IdentifyExtension>,
) -> Option<IdentifyExtension>
    ensures { result ≡ takes asked class noisy }
{
    if asked {
        return noisy;
    }
    match class {
        Classified::Integrated => noisy,
        _ => None,
    }
}

fn status_of(model: Option<RateModel>) -> IdentifyStatus
    ensures { result ≡ status_of model }
{
    model.map_or(IdentifyStatus::Unexcited, IdentifyStatus::Done)
}

// A status for which no gain fit was made.
fn unfitted(status: IdentifyStatus) -> Stand
    ensures { result ≡ record { status = status; gain_fits = 0 } }
{
    Stand {
        status,
        gain_fits: 0,
    }
}

#[tactic(auto, unfolding(account::specs::Probe::finished, window::specs::Arrays::stored_of))]
fn search(readings: Readings<'_>) -> Stand
    ensures { result ≡ stand_of (finished_in Integrated readings.entry.window readings.entry.rates.now readings.entry.moments.now) }
{
    let Readings {
        window,
        rates,
        moments,
        ..
    } = readings;
    let fit = integrated::fit_integrated(rates, moments, window.len, window.duration_s);
    Stand {
        status: status_of(fit.model),
        gain_fits: fit.gain_fits,
    }
}

// Where the class of a window leads.
#[tactic(auto, unfolding(crate::specs::Ending::finished_in, account::specs::Probe::finished))]
fn finish(class: Classified, readings: Readings<'_>) -> Stand
    ensures { result ≡ stand_of (finished_in class readings.entry.window readings.entry.rates.now readings.entry.moments.now) }
{
    match class {
        Classified::Recorded(model) => unfitted(IdentifyStatus::Done(model)),
        Classified::Integrated => search(readings),
        Classified::Unexcited => unfitted(IdentifyStatus::Unexcited),
        Classified::Saturated => unfitted(IdentifyStatus::Saturated),
    }
}

fn running(elapsed_s: f32) -> Stand
    ensures { result ≡ record { status = Running elapsed_s; gain_fits = 0 } }
{
    unfitted(IdentifyStatus::Running(elapsed_s))
}

// Where a probe stands at now_s: running with its end time ahead, else where the class of its window leads.
#[tactic(auto, unfolding(crate::specs::Ending::stands_by, account::specs::Probe::stands))]
fn stand_at(now_s: f32, ahead: bool, class: Classified, readings: Readings<'_>) -> Stand
    ensures { result ≡ stand_of (stands_by ahead now_s class readings.entry.window readings.entry.rates.now readings.entry.moments.now) }
{
    if ahead {
        return running(now_s);
    }
    finish(class, readings)
}

impl Tick {
    // How a tick ends that leaves the end time and the extension as they were. Field by field: an ending has a stand in place of the time.
    fn ended(self, stand: Stand) -> Ending
        ensures { result ≡ ending self.end_s self.noisy self.sweep stand }
    {
        Ending {
            duration_s: self.end_s,
            noisy: self.noisy,
            sweep: self.sweep,
            stand,
        }
    }
}

// The end of a tick with the end time still ahead.
pub fn goes_on(tick: Tick) -> Ending
    ensures { result ≡ ahead_of tick.now_s tick.end_s tick.noisy tick.sweep }
{
    tick.ended(running(tick.now_s))
}

// The class of a window. A flight asks for it once or twice, so it stands apart from the ticks before it, as `end_by` does.
#[cold]
#[inline(never)]
#[tactic(auto, unfolding(window::specs::Arrays::samples_in))]
fn class_of(readings: Readings<'_>) -> Classified
    ensures { (offsets : List Float) → result ≡ class_of (samples_read readings.entry offsets) }
{
    recorded::classify(readings)
}

// What the tick at now_s finds, its sample stored: none while its end time is ahead, else the class of the window.
#[tactic(auto, unfolding(crate::specs::Ending::due_by))]
pub fn due_at(now_s: f32, end_s: f32, readings: Readings<'_>) -> Option<Classified>
    ensures { (offsets : List Float) → result ≡ due_by (lt now_s end_s) (samples_read readings.entry offsets) }
{
    let ahead = now_s < end_s;
    if ahead {
        return None;
    }
    Some(class_of(readings))
}

// Whether an axis asks for the extension.
#[tactic(auto, unfolding(crate::specs::Ending::asks_of))]
pub fn asks(due: Option<Classified>) -> bool
    ensures { result ≡ asks_of due }
{
    due.is_some_and(is_integrated)
}

// The end of a tick whose window has this class.
#[cold]
#[inline(never)]
#[tactic(auto, unfolding(crate::specs::Ending::ended_by, crate::specs::Ending::stands_by))]
fn end_by(class: Classified, asked: bool, tick: Tick, readings: Readings<'_>) -> Ending
    ensures { result ≡ ended_by (takes asked class tick.noisy) class tick.now_s readings.entry.window tick.end_s tick.noisy tick.sweep readings.entry.rates.now readings.entry.moments.now }
{
    let extension = taken_extension(asked, class, tick.noisy);
    let ahead = extension.is_some_and(|x| tick.now_s < x.duration_s);
    let stand = stand_at(tick.now_s, ahead, class, readings);
    let Some(x) = extension else {
        return tick.ended(stand);
    };
    Ending {
        duration_s: x.duration_s,
        noisy: None,
        sweep: tick.sweep.with_amplitude(x.amplitude),
        stand,
    }
}

// The end of a tick by what it finds, and whether the other axis asks for the extension.
#[tactic(auto, unfolding(crate::specs::Ending::closed_due))]
pub fn close_due(due: Option<Classified>, asked: bool, tick: Tick, readings: Readings<'_>) -> Ending
    ensures { result ≡ closed_due due asked tick.now_s readings.entry.window tick.end_s tick.noisy tick.sweep readings.entry.rates.now readings.entry.moments.now }
{
    let Some(class) = due else {
        return goes_on(tick);
    };
    end_by(class, asked, tick, readings)
}

// The end that the class of its window leads a tick to, of a probe that flies alone; wherever its end time is.
pub fn close_over(tick: Tick, readings: Readings<'_>) -> Ending
    ensures { (offsets : List Float) → result ≡ ended_alone tick readings.entry (samples_read readings.entry offsets) }
{
    let class = class_of(readings);
    end_by(class, false, tick, readings)
}

// The end of a tick of a probe that flies alone. Within its caller, and from a tick's parts: put together before the test, a tick would stand in memory at every call.
#[inline(always)]
#[tactic(auto, using(crate::proofs::Closing::ahead, crate::proofs::Closing::over))]
pub fn close(
    now_s: f32,
    end_s: f32,
    noisy: Option<IdentifyExtension>,
    sweep: SquareSweep,
    readings: Readings<'_>,
) -> Ending
    ensures { (offsets : List Float) → result ≡ closed_alone (record { now_s = now_s; end_s = end_s; noisy = noisy; sweep = sweep }) (samples_read readings.entry offsets) }
{
    if now_s < end_s {
        return goes_on(Tick {
            now_s,
            end_s,
            noisy,
            sweep,
        });
    }
    close_over(
        Tick {
            now_s,
            end_s,
            noisy,
            sweep,
        },
        readings,
    )
}

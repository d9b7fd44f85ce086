// A probe in its caller's memory that is opened plain or as steady: the test of a call's dt, and then the plain call.
#![tactic(auto)]

ghost use Rattle.std.specs.Prelude.{◌≡◌, ◌≢◌};
ghost use Rattle.marks.specs.Marks.{KeepsMarks};
ghost use Rattle.account.specs.Probe.{clock};
ghost use Rattle.rules.specs.Numbers.{numbered};
ghost use Rattle.identify.specs.Seen.{call_of};
ghost use Rattle.probe_words.specs.Layout.{read_in, SameScalars, probe_in};
ghost use Rattle.steady.specs.Kept.{clock_after};
ghost use Rattle.steady.specs.Steady.{is_running};
ghost use Rattle.live_probe.specs.Live.{kept_in, live_probe, SameLent, readied};
ghost use Rattle.steady_probe.specs.Behind.{AnswersOpening, OpensAnswering};
ghost use Rattle.steady_probe.specs.SteadyLive.{single, runs_in, scalars_lent, kept_lent, value_over, SteadyAnswers, steady_readied};
ghost use Rattle.steady_probe.specs.SteadyFlown.{FliesAnswering, OpensPlain, AnswersPlain};

use account::{IdentifyConfig, IdentifyStatus};
use identify::Call;
use live_probe::LentProbe;
use probe_words::{LentScalars, Scalars};
use rules::Rule;
use steady::SteadyClock;

// ---- open

// Opens a probe in its scalars, plain or, with an option of 1, as steady; the arrays of samples may hold anything. It is refused by 9 where an option has no meaning, or by the first of the rules 1 to 5 that is broken; then nothing is written.
pub fn open(
    lent: &mut LentScalars<'_>,
    config: IdentifyConfig,
    options: u32,
) -> Result<SteadyClock, Rule>
    ensures opening { AnswersOpening single options config (scalars_lent lent) result }
    ensures same { SameScalars lent.old lent.new }
    ensures flown { OpensAnswering single config (scalars_lent lent) result }
    ensures plain { options ≢ 1 → OpensPlain options config (scalars_lent lent) (numbered result) }
{
    let clock = SteadyClock::new(options)?;
    live_probe::open(lent, config, 0)?;
    Ok(clock)
}

// ---- step

#[tactic(auto, unfolding(steady::specs::Steady::is_running))]
pub fn is_running(status: IdentifyStatus) -> bool
    ensures { result ≡ is_running (clock status) }
{
    status.clock().is_some()
}

// One call: the offset, 0 of an ended probe. Where one of the rules 6, 10, 7 and 8 turns it back nothing is written.
pub fn step(lent: &mut LentProbe<'_>, clock: &mut SteadyClock, call: Call) -> Result<f32, Rule>
    ensures flight { SteadyAnswers (value_over clock) (kept_lent lent) (call_of call) result }
    ensures clock { clock.new ≡ clock_after (numbered result) (runs_in (live_probe (kept_in lent.old))) call.dt clock.old }
    ensures same { SameLent lent.old lent.new }
    ensures flown { FliesAnswering (value_over clock) (kept_lent lent) (call_of call) result }
    ensures plain { clock.old.steady ≡ 0 → AnswersPlain (value_over clock) (kept_lent lent) (call_of call) result }
{
    let running = is_running(lent.scalars.read().status());
    clock.guard(lent, running, call.dt, |lent| lent.step(call))
}

// ---- marks

// Before a call that reads the marks each byte of them is made 0 or 1, and before any other, one that 10 turns back among them, nothing is written. The marks that they stand for stay.
pub fn ready(scalars: Scalars<'_>, clock: SteadyClock, marks: &mut [u8; 2048], dt: f32)
    ensures bytes { marks.new ≡ steady_readied clock.steady clock.first_dt_s (probe_in (read_in scalars.entry)) dt marks.old }
    ensures marks { KeepsMarks marks.old marks.new }
    ensures plain { clock.steady ≡ 0 → marks.new ≡ readied (probe_in (read_in scalars.entry)) dt marks.old }
{
    if clock.turns_back(is_running(scalars.status()), dt) {
        return;
    }
    live_probe::ready(scalars, marks, dt);
}

// The rules by which a configuration, a call or a buffer is turned back, and which of them is broken first.
#![tactic(auto)]

ghost use Rattle.std.specs.Prelude.{◌≡◌, not, ◌||◌, Some};
ghost use Rattle.std.specs.Float.Ieee.{lt};
ghost use Rattle.float.specs.Values.{finite};
ghost use Rattle.account.specs.Rules.{positive, non_zero, too_long, broken, overrun, refusal};
ghost use Rattle.rules.specs.Numbers.{number_of, numbered};

use account::IdentifyConfig;

const LONGEST_S: f32 = 3600.0;

const LATEST_S: f32 = 4096.0;

const MOST_TICKS: u32 = 16_777_216;

// The rules, each with its number, by what breaks them. The form is the sizes of a run's slices, and the options of an opening.
#[derive(Clone, Copy, PartialEq, Eq)]
pub enum Rule {
    Amplitude = 1,
    Duration = 2,
    Washout = 3,
    ExtensionAmplitude = 4,
    ExtensionDuration = 5,
    Dt = 6,
    Elapsed = 7,
    Ticks = 8,
    Form = 9,
    UnevenDt = 10,
}

impl Rule {
    // The rule's number, from 1 to 10.
    #[tactic(auto, unfolding(crate::specs::Numbers::number_of))]
    pub fn number(self) -> u32
        ensures { result ≡ number_of self }
    {
        self as u32
    }
}

// The number of the rule that is broken, 0 if none is.
#[tactic(auto, unfolding(crate::specs::Numbers::numbered))]
pub fn number_or_0(answer: Result<(), Rule>) -> u32
    ensures { result ≡ numbered answer }
{
    match answer {
        Ok(()) => 0,
        Err(rule) => rule.number(),
    }
}

// ---- a configuration

// Whether a value is positive and finite.
#[tactic(auto, unfolding(account::specs::Rules::positive))]
pub fn is_positive(x: f32) -> bool
    ensures { result ≡ positive x }
{
    float::is_finite(x) & (x > 0.0)
}

#[tactic(auto, unfolding(account::specs::Rules::non_zero))]
fn is_bad_amplitude(x: f32) -> bool
    ensures { result ≡ not (non_zero x) }
{
    !(float::is_finite(x) & !(x == 0.0))
}

#[tactic(auto, unfolding(account::specs::Rules::too_long), using(crate::proofs::Limits::longest))]
fn is_bad_duration(x: f32) -> bool
    ensures { result ≡ (not (positive x) || too_long x) }
{
    !is_positive(x) | (x > LONGEST_S)
}

#[tactic(auto, unfolding(account::specs::Rules::too_long), using(crate::proofs::Limits::longest))]
fn is_bad_extension(x: f32, duration_s: f32) -> bool
    ensures { result ≡ (not (finite x) || lt x duration_s || too_long x) }
{
    !float::is_finite(x) | (x < duration_s) | (x > LONGEST_S)
}

// A configuration is refused by the first of the rules 1 to 5 that it breaks.
#[tactic(auto, unfolding(crate::specs::Numbers::numbered, crate::specs::Numbers::number_of, account::specs::Rules::broken, account::specs::Rules::broken_extension))]
pub fn validate(config: IdentifyConfig) -> Result<(), Rule>
    ensures { numbered result ≡ broken config }
{
    if is_bad_amplitude(config.amplitude) {
        return Err(Rule::Amplitude);
    }
    if is_bad_duration(config.duration_s) {
        return Err(Rule::Duration);
    }
    if !is_positive(config.washout_tc_s) {
        return Err(Rule::Washout);
    }
    let Some(extension) = config.noisy else {
        return Ok(());
    };
    if is_bad_amplitude(extension.amplitude) {
        return Err(Rule::ExtensionAmplitude);
    }
    if is_bad_extension(extension.duration_s, config.duration_s) {
        return Err(Rule::ExtensionDuration);
    }
    Ok(())
}

// ---- a call

// A call of a running probe is turned back by the first of the rules 7 and 8 that it breaks.
#[tactic(auto, unfolding(crate::specs::Numbers::numbered, crate::specs::Numbers::number_of, account::specs::Rules::overrun), using(crate::proofs::Limits::latest))]
fn validate_running(elapsed_s: f32, ticks: u32, dt: f32) -> Result<(), Rule>
    ensures { numbered result ≡ overrun (Some elapsed_s) ticks dt }
{
    if elapsed_s + dt > LATEST_S {
        return Err(Rule::Elapsed);
    }
    if ticks >= MOST_TICKS {
        return Err(Rule::Ticks);
    }
    Ok(())
}

// A call is turned back by the first of the rules 6 to 8 that it breaks.
#[tactic(auto, unfolding(crate::specs::Numbers::numbered, crate::specs::Numbers::number_of, account::specs::Rules::refusal, account::specs::Rules::overrun))]
pub fn validate_call(clock: Option<f32>, ticks: u32, dt: f32) -> Result<(), Rule>
    ensures { numbered result ≡ refusal clock ticks dt }
{
    if !is_positive(dt) {
        return Err(Rule::Dt);
    }
    let Some(elapsed_s) = clock else {
        return Ok(());
    };
    validate_running(elapsed_s, ticks, dt)
}

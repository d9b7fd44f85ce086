// A model in plain units: its lag in s, and its acceleration per unit moment in rad/s² once the lag has settled.
#![tactic(auto)]

ghost use Rattle.std.specs.Prelude.{◌≡◌, T};
ghost use Rattle.std.specs.Float.Ieee.Positive.{positive};
ghost use Rattle.units.specs.Units.{effect_of, lag_of, accel_of, units_at, units_of, ProperLag};

use delay::RateModel;

#[derive(Clone, Copy)]
pub struct Plain {
    pub lag_s: f32,
    pub accel_radps2: f32,
}

// The moments' total weight.
#[tactic(auto, unfolding(crate::specs::Units::effect_of))]
pub fn moment_effect(m0: f32, m1: f32, m2: f32) -> f32
    ensures { result ≡ effect_of m0 m1 m2 }
{
    m0 + m1 + m2
}

// The time constant of a pole below 1 at ticks of dt_s; 0 where the pole is not above 0.
#[tactic(auto, unfolding(crate::specs::Units::lag_of))]
fn lag(dt_s: f32, pole: f32) -> f32
    ensures { result ≡ lag_of dt_s pole }
{
    if pole > 0.0 {
        return -dt_s / float::log(pole);
    }
    0.0
}

#[tactic(auto, unfolding(crate::specs::Units::accel_of))]
fn acceleration(effect: f32, dt_s: f32, pole: f32) -> f32
    ensures { result ≡ accel_of effect dt_s pole }
{
    effect / ((1.0 - float::max_zero(pole)) * dt_s)
}

// Lag and acceleration of a moment effect, a tick and a pole; neither where the pole is 1 or more, or NaN.
// Where dt_s is positive and finite the lag is neither negative nor NaN.
#[tactic(auto, using(crate::proofs::ProperLag::proper_lag), unfolding(crate::specs::Units::units_at))]
pub fn units_at(effect: f32, dt_s: f32, pole: f32) -> Option<Plain>
    ensures units { result ≡ units_at effect dt_s pole }
    ensures lag { T (positive dt_s) → ProperLag result }
{
    if (pole >= 1.0) | pole.is_nan() {
        return None;
    }
    Some(Plain {
        lag_s: lag(dt_s, pole),
        accel_radps2: acceleration(effect, dt_s, pole),
    })
}

// Lag and acceleration of a model. Its pole is minus the second rate weight.
#[tactic(auto, unfolding(crate::specs::Units::units_of))]
pub fn plain_units(model: RateModel) -> Option<Plain>
    ensures units { result ≡ units_of model }
    ensures lag { T (positive model.dt_s) → ProperLag result }
{
    units_at(
        moment_effect(model.m0, model.m1, model.m2),
        model.dt_s,
        -model.r2,
    )
}

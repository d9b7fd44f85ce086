// A probe opened as steady, which tests each dt against its first accepted one: the definitions, for one axis and for two, and what
// holds over every list of calls. What a caller keeps for it is a word and a float, and any plain call goes behind the test.
#![tactic(auto)]

ghost use Rattle.std.specs.Prelude.{◌≡◌, true, false, Err};
ghost use Rattle.std.specs.Fn.{FnOnceReturnsAtMut};
ghost use Rattle.rules.specs.declared.Rule.TheVariants.{UnevenDt};
ghost use Rattle.rules.specs.Numbers.{numbered};
ghost use Rattle.steady.specs.Band.{uneven, turns_back};
ghost use Rattle.steady.specs.Kept.{opened_clock, first_after, clock_band, clock_after};

use rules::Rule;

// How a probe takes an uneven clock: opened plain, it takes any; opened as steady, it tests each dt against the first accepted
// one, once there is one.
#[derive(Clone, Copy)]
pub enum Band {
    Plain,
    Steady,
    Around(f32),
}

#[tactic(auto, unfolding(crate::specs::Band::uneven, crate::specs::Band::outside))]
fn is_uneven(band: Band, dt: f32) -> bool
    ensures { result ≡ uneven band dt }
{
    match band {
        Band::Plain | Band::Steady => false,
        Band::Around(first) => (dt < 0.75 * first) | (1.25 * first < dt),
    }
}

// Whether 10 turns a call back. The band first: a plain probe has none, and its dt is not tested here.
#[tactic(auto, unfolding(crate::specs::Band::turns_back), using(crate::proofs::Guarded::none_back))]
fn turns_back(band: Band, running: bool, dt: f32) -> bool
    ensures { result ≡ turns_back band running dt }
{
    is_uneven(band, dt) && (running & rules::is_positive(dt))
}

// The first dt after an accepted call of a probe that ran or had ended.
#[tactic(auto, unfolding(crate::specs::Kept::first_after))]
fn first_after(band: Band, running: bool, first_dt_s: f32, dt: f32) -> f32
    ensures { result ≡ first_after 0 running band first_dt_s dt }
{
    if !running {
        return first_dt_s;
    }
    match band {
        Band::Steady => dt,
        Band::Plain | Band::Around(_) => first_dt_s,
    }
}

// What a caller keeps for the test: a word, not 0 where the probe is steady, and its first accepted dt, none where it is not above 0. As C keeps them: any word but
// 0 is steady, and a `Band` would not give it back.
#[derive(Clone, Copy)]
pub struct SteadyClock {
    pub steady: u32,
    pub first_dt_s: f32,
}

impl SteadyClock {
    // The clock that an option opens with, of 1 a steady one, of 0 a plain one; no other has a meaning. No dt is accepted yet.
    #[tactic(auto, unfolding(crate::specs::Kept::opened_clock))]
    pub fn new(options: u32) -> Result<SteadyClock, Rule>
        ensures { result ≡ opened_clock options }
    {
        if options > 1 {
            return Err(Rule::Form);
        }
        Ok(SteadyClock {
            steady: options,
            first_dt_s: 0.0,
        })
    }

    #[tactic(auto, unfolding(crate::specs::Kept::band_in, crate::specs::Kept::around))]
    fn band(self) -> Band
        ensures { result ≡ clock_band self }
    {
        if self.steady == 0 {
            return Band::Plain;
        }
        if self.first_dt_s > 0.0 {
            return Band::Around(self.first_dt_s);
        }
        Band::Steady
    }

    // Whether 10 turns a call back.
    pub fn turns_back(self, running: bool, dt: f32) -> bool
        ensures { result ≡ turns_back (clock_band self) running dt }
    {
        turns_back(self.band(), running, dt)
    }

    // A plain call behind the test: 10 turns it back, or it is made, and then the first dt is kept of one that is accepted.
    // Public only for `steady_probe` and `steady_pair`, whose call it makes: that it may be made is all that it asks.
    #[tactic(auto, unfolding(crate::specs::Kept::first_after, rules::specs::Numbers::numbered), using(rules::proofs::Numbers::above_0))]
    pub fn guard<K, T, F: FnOnce(&mut K) -> Result<T, Rule>>(
        &mut self,
        kept: &mut K,
        running: bool,
        dt: f32,
        call: F,
    ) -> Result<T, Rule>
        requires { F.IsAlwaysCallable call }
        ensures turned { turns_back (clock_band self.old) running dt ≡ true → (result ≡ Err UnevenDt) × (kept.new ≡ kept.old) }
        ensures made { turns_back (clock_band self.old) running dt ≡ false → FnOnceReturnsAtMut F.FnOnce call kept.old result kept.new }
        ensures clock { self.new ≡ clock_after (numbered result) running dt self.old }
    {
        let band = self.band();
        if turns_back(band, running, dt) {
            return Err(Rule::UnevenDt);
        }
        // Worked out before the call: after it, a steady step of a pair takes 422 instructions where it takes 407.
        let first_dt_s = first_after(band, running, self.first_dt_s, dt);
        let answer = call(kept)?;
        self.first_dt_s = first_dt_s;
        Ok(answer)
    }
}

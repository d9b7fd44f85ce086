// What gain fits are made of: the series and their leaky sums, what a window's fits share, and the solution of the six sums.
#![tactic(auto)]

ghost use Rattle.std.specs.Prelude.{◌≡◌, ℕ, ◌-◌, ◌<◌, ◌≤◌, min, Float};
ghost use Rattle.std.specs.Int.{from_bool};
ghost use Rattle.std.specs.Float.{binary32, binary64};
ghost use Rattle.std.specs.Float.Ieee.{add, sub, mul};
ghost use Rattle.float.specs.Values.{one32, one64};
ghost use Rattle.float.specs.Series.{at, fill};
ghost use Rattle.gain.specs.Gain.{first_tick, blend as blend_of, change, through, sound_fit, solved};
ghost use Rattle.gain.specs.Prepared.{series, Adds, ticks_of, products, Prepared};

// One gain fit.
#[derive(Clone, Copy)]
pub struct GainFit {
    pub gain: f32,
    pub residual: f32,
}

// What the gain fits of a window share: the carry, how many ticks are fitted, and the sums of the constant and the target.
#[derive(Clone, Copy)]
pub struct Shared {
    pub carry: f64,
    pub ticks: usize,
    pub cc: f64,
    pub ct: f64,
    pub tt: f64,
}

impl Shared {
    // The ticks that are fitted, at most the 2,037 that a full window has from tick 11 on.
    pub fn fitted(self) -> usize
        ensures { result ≡ ticks_of self }
    {
        self.ticks.min(2037)
    }

    // The fit that these sums and those of one step solve to.
    #[tactic(auto, unfolding(crate::specs::Gain::solved))]
    pub fn solve(self, step: StepSums) -> Option<GainFit>
        ensures { result ≡ solved step.mm step.mc self.cc step.mt self.ct self.tt }
    {
        let det = step.mm * self.cc - step.mc * step.mc;
        if det > 2.220446049250313e-16 * step.mm * self.cc {
            let gain = (step.mt * self.cc - step.mc * self.ct) / det;
            let trim = (step.mm * self.ct - step.mc * step.mt) / det;
            return sound_fit(gain, self.tt - gain * step.mt - trim * self.ct);
        }
        None
    }
}

// The sums that the moment of one step is in.
#[derive(Clone, Copy)]
pub struct StepSums {
    pub mm: f64,
    pub mc: f64,
    pub mt: f64,
}

impl StepSums {
    // With the values of one tick more.
    pub fn plus(self, m: f64, c: f64, t: f64) -> StepSums
        ensures squares { result.mm ≡ add binary64 self.mm (mul binary64 m m) }
        ensures constants { result.mc ≡ add binary64 self.mc (mul binary64 m c) }
        ensures targets { result.mt ≡ add binary64 self.mt (mul binary64 m t) }
    {
        StepSums {
            mm: self.mm + m * m,
            mc: self.mc + m * c,
            mt: self.mt + m * t,
        }
    }
}

// What the gain fits of a window read: its moments, the leaky series of 1 and of the changes, and what the fits share. Two series,
// as the definitions have them: each is filled, and summed with itself and with the other, as a series of its own.
#[derive(Clone, Copy)]
pub struct FitInput<'a> {
    pub moments: &'a [f32; 2048],
    pub constants: &'a [f64; 2048],
    pub changes: &'a [f64; 2048],
    pub shared: Shared,
}

// ---- the series

// A lagged moment, one moment on.
pub fn lag_on(pole: f32, lagged: f32, moment: f32) -> f32
    ensures { result ≡ add binary32 (mul binary32 pole lagged) (mul binary32 (sub binary32 one32 pole) moment) }
{
    pole * lagged + (1.0 - pole) * moment
}

// The moment that a step feels: the newer one, or at a half step half of each.
pub fn blend(half: bool, newer: f64, older: f64) -> f64
    ensures { result ≡ blend_of (from_bool half) newer older }
{
    if half {
        return 0.5 * newer + 0.5 * older;
    }
    1.0 * newer + 0.0 * older
}

// The leaky sum of what is added at each tick, tick by tick.
#[tactic(auto, unfolding(crate::specs::Gain::leaky, float::specs::Series::fill))]
fn leaky_sums<F: Fn(usize) -> f64>(carry: f64, ticks: usize, sums: &mut [f64; 2048], added: F)
    requires ticks { ticks ≤ 2048 }
    requires callable { (i : ℕ) → i < ticks → F.pre added i }
    ensures { (x : ℕ → Float) → Adds (F.post added) ticks x → sums.new ≡ fill (series (through carry x)) sums.old ticks }
{
    let mut sum = 0.0f64;
    for (i, leaky) in sums[..ticks].iter_mut().enumerate() {
        sum = carry * sum + added(i);
        *leaky = sum;
    }
}

// The leaky sum of 1.
fn leaky_constants(carry: f64, ticks: usize, cs: &mut [f64; 2048])
    requires { ticks ≤ 2048 }
    ensures { cs.new ≡ fill (series (through carry (λ i. one64))) cs.old ticks }
{
    leaky_sums(carry, ticks, cs, |_| 1.0);
}

// The leaky sum of the changes of the rate, from tick 11 on.
fn leaky_changes(rates: &[f32; 2048], carry: f64, ticks: usize, ts: &mut [f64; 2048])
    requires { ticks ≤ 2037 }
    ensures { ts.new ≡ fill (series (through carry (change (at rates.now)))) ts.old ticks }
{
    leaky_sums(
        carry,
        ticks,
        ts,
        |i| f64::from(rates[11 + i] - rates[10 + i]),
    );
}

// ---- the sums

// The sum of the products of two lists, entry by entry. `least_squares` has the same of f32: one function of both would want four more laws of `float::Width`,
// that + and * may be used and that they are those of IEEE 754, which is no plainer than the line below.
fn dot(a: &[f64], b: &[f64]) -> f64
    ensures { result ≡ products a.now b.now }
{
    a.iter().zip(b).fold(0.0f64, |sum, (x, y)| sum + x * y)
}

// The stored count, at most the 2,048 that a window holds.
pub fn stored(len: usize) -> usize
    ensures { result ≡ min len 2048 }
{
    len.min(2048)
}

// How many ticks of a window are fitted: those from 11 on.
fn fitted_ticks(len: usize) -> usize
    ensures { result ≡ min len 2048 - first_tick }
{
    stored(len).saturating_sub(11)
}

// What does not depend on a pole or a step, once a window.
pub fn prepare(
    rates: &[f32; 2048],
    carry: f64,
    len: usize,
    cs: &mut [f64; 2048],
    ts: &mut [f64; 2048],
) -> Shared
    ensures { Prepared carry (at rates.now) (min len 2048 - first_tick) cs.old ts.old cs.new ts.new result }
{
    let ticks = fitted_ticks(len);
    leaky_constants(carry, ticks, cs);
    leaky_changes(rates, carry, ticks, ts);
    let constants = &cs[..ticks];
    let changes = &ts[..ticks];
    let cc = dot(constants, constants);
    let ct = dot(constants, changes);
    let tt = dot(changes, changes);
    Shared {
        carry,
        ticks,
        cc,
        ct,
        tt,
    }
}

// ---- the solution

// A gain and a difference before max as a fit, narrowed. None where the difference is NaN or the narrowed gain is not finite.
#[tactic(auto, unfolding(crate::specs::Gain::sound_fit))]
fn sound_fit(gain: f64, difference: f64) -> Option<GainFit>
    ensures { result ≡ sound_fit gain difference }
{
    let residual = float::max_zero(difference);
    let narrow_gain = float::narrow(gain);
    let narrow_residual = float::narrow(residual);
    if !difference.is_nan() & float::is_finite(narrow_gain) {
        return Some(GainFit {
            gain: narrow_gain,
            residual: narrow_residual,
        });
    }
    None
}

// The float functions of 01, "Stand-ins for libm and nalgebra", and 32-bit words to and from floats.
#![tactic(auto)]

ghost use Rattle.std.specs.Prelude.{◌≡◌, ◌+◌, ◌*◌, ◌^◌, ◌<◌, ◌≤◌, T, ◌⊎◌, Float, from_bits, to_bits};
ghost use Rattle.std.specs.Ordering.{partial_lt};
ghost use Rattle.std.specs.Float.{Format, binary32, binary64};
ghost use Rattle.std.specs.Float.Ieee.{minus, units, round, le, lt};
ghost use Rattle.std.specs.Float.Ieee.Nearest.{closest};
ghost use Rattle.std.specs.Float.Ieee.Positive.{positive};
ghost use Rattle.float.specs.Values.{zero32, finite, max_zero, least};
ghost use Rattle.float.specs.Width.{less_is_lt};
ghost use Rattle.float.specs.Narrow.{narrowed};
ghost use Rattle.float.specs.Root.{root_of, rooted, NearestRoot};
ghost use Rattle.float.specs.Exp.{horner, squared, exp_of, InUnit};
ghost use Rattle.float.specs.Log.{log_sum, log_from, log_at, log_of};

// ---- single values

// Whether x is neither a NaN nor an infinity.
#[tactic(auto, using(crate::proofs::Values::finite_is))]
pub fn is_finite(x: f32) -> bool
    ensures { result ≡ finite x }
{
    x.is_finite()
}

// A float of either width: the values that it holds, with their order and +0.
pub trait Width: PartialOrd + Default + Copy + Drop {
    ghost format: { Format };

    ghost value: { Self → Float };

    ghost less: { (x y : Self) → partial_lt Self.partial_cmp x y ≡ lt (value x) (value y) };

    ghost zero: { (x : Self) → Self.is_default x → value x ≡ from_bits format 0 };
}

impl Width for f32 {
    ghost format = { binary32 };

    ghost value = { λ x. x };

    ghost less = { less_is_lt };

    ghost zero = { λ x e. e };
}

impl Width for f64 {
    ghost format = { binary64 };

    ghost value = { λ x. x };

    ghost less = { less_is_lt };

    ghost zero = { λ x e. e };
}

// v if v > 0, else +0, for a NaN too. The library's `max` leaves open which zero comes out of -0 and +0; here it is +0.
pub fn max_zero<F: Width>(v: F) -> F
    ensures { F.value result ≡ max_zero F.format (F.value v) }
{
    let zero = F::default();
    if zero < v { v } else { zero }
}

// The smaller of a and b, or the other one where one is a NaN. The library's `min` leaves open which zero comes out where two meet; here it is the first.
#[tactic(auto, using(crate::proofs::Values::least_is))]
pub fn min(a: f32, b: f32) -> f32
    ensures { result ≡ least a b }
{
    if a.is_nan() {
        b
    } else if b < a {
        b
    } else {
        a
    }
}

// ---- words

// The float of a bit pattern; every NaN pattern gives NaN.
pub fn from_word(w: u32) -> f32
    ensures { result ≡ from_bits binary32 w }
{
    std::num::f32_from_bits_with_nan(w)
}

// The bit pattern of a float; a NaN gives 7FC00000.
pub fn to_word(x: f32) -> u32
    ensures { result ≡ to_bits binary32 x }
{
    std::num::f32_to_bits_with_nan(x)
}

// ---- rounding to f32

// m / 2^j to the nearest whole number, a tie to the even one.
fn to_nearest(m: u64, j: u64) -> u64
    requires { (m < 2 ^ 63) × (j < 64) }
    ensures { result ≡ closest m (2 ^ j) }
{
    let unit: u64 = 1 << j;
    let quotient: u64 = m >> j;
    let twice: u64 = (m & (unit - 1)) * 2;
    if twice < unit {
        return quotient;
    }
    if unit < twice {
        return quotient + 1;
    }
    quotient + quotient % 2
}

// q * 2^k times 2^-149, the smallest f32. A q of 2^24 carries into the exponent, and what is too
// large becomes infinity's pattern.
fn packed(negative: bool, q: u64, k: u64) -> f32
    requires { (q ≤ 2 ^ 24) × (k < 2 ^ 11) × ((k ≡ 0) ⊎ (2 ^ 23 ≤ q)) }
    ensures { result ≡ units binary32 negative q k }
{
    let magnitude: u64 = (k * 0x80_0000 + q).min(0x7f80_0000);
    if negative {
        return f32::from_bits((0x8000_0000 + magnitude) as u32);
    }
    f32::from_bits(magnitude as u32)
}

// m * 2^e times 2^-1074, the smallest f64, as the nearest f32. By the place of the highest set bit, as 01 names the form of a narrowing.
fn nearest(negative: bool, m: u64, e: u64) -> f32
    requires { (m < 2 ^ 63) × (e < 2 ^ 11) }
    ensures { result ≡ round binary32 negative (m * 2 ^ e) (2 ^ 1074) }
{
    if m == 0 {
        return packed(negative, 0, 0);
    }
    // The highest set bit of n is 2^62; n * 2^w times 2^-1136 is the value.
    let zeros: u64 = m.leading_zeros() as u64;
    let n: u64 = m << (zeros - 1);
    let w: u64 = e + 63 - zeros;
    if w < 924 {
        return packed(negative, 0, 0);
    }
    if w < 949 {
        return packed(negative, to_nearest(n, 987 - w), 0);
    }
    packed(negative, to_nearest(n, 39), w - 948)
}

// The nearest f32, ties to even, subnormals kept, beyond range infinite; NaN stays NaN.
pub fn narrow(x: f64) -> f32
    ensures { result ≡ narrowed x }
{
    if x.is_nan() {
        return f32::NAN;
    }
    let bits: u64 = x.to_bits();
    let negative = bits >= 0x8000_0000_0000_0000;
    let exponent: u64 = bits % 0x8000_0000_0000_0000 / 0x10_0000_0000_0000;
    let fraction: u64 = bits % 0x10_0000_0000_0000;
    if exponent == 2047 {
        return packed(negative, 0x80_0000, 254);
    }
    if exponent == 0 {
        return nearest(negative, fraction, 0);
    }
    nearest(negative, fraction + 0x10_0000_0000_0000, exponent - 1)
}

// ---- the square root

// The root of m * 2^e times 2^-298, the square of the smallest f32.
fn root_of(m: u64, e: u64) -> f32
    requires { (m < 2 ^ 24) × (149 ≤ e) × (e < 2 ^ 9) }
    ensures { result ≡ root_of (m * 2 ^ e) }
{
    if m == 0 {
        return 0.0;
    }
    // n has 31 or 32 binary digits, and n * 2^16 * 4^k is m * 2^e.
    let digits: u64 = 64 - m.leading_zeros() as u64;
    let k: u64 = (digits + e - 47) / 2;
    let n: u64 = m << (e - 2 * k - 16);
    let whole = whole_root::whole_root(n as u32);
    // (root + 1/2)^2 is root * root + root + 1/4
    if whole.root < whole.rest {
        return packed(false, whole.root + 1, k);
    }
    packed(false, whole.root, k)
}

// The nearest f32 to the square root of a positive value; 0 of 0, -0 of -0, infinity of infinity,
// NaN of NaN and of any other negative value.
pub fn root(x: f32) -> f32
    ensures value { result ≡ rooted x }
    ensures nearest { T (positive x) → NearestRoot x result }
{
    if x.is_nan() {
        return f32::NAN;
    }
    let bits: u32 = x.to_bits();
    if bits == 0x8000_0000 {
        return x;
    }
    if bits > 0x8000_0000 {
        return f32::NAN;
    }
    let exponent: u64 = (bits % 0x8000_0000 / 0x80_0000) as u64;
    if exponent == 255 {
        return x;
    }
    let fraction: u64 = (bits % 0x80_0000) as u64;
    // The hidden digit, 0 in a subnormal value.
    let hidden: u64 = exponent.min(1);
    root_of(fraction + hidden * 0x80_0000, exponent + 149 - hidden)
}

// ---- exp

// 1 + (t / n) * (last), from 1, for n = 8 down to 1.
#[tactic(auto, using(crate::proofs::ExpSteps::horner_first, crate::proofs::ExpSteps::horner_next))]
fn series(t: f64) -> f64
    ensures { result ≡ horner t 8 }
{
    let mut last: f64 = 1.0;
    for n in (1..=8u32).rev() {
        last = 1.0 + (t / (n as f64)) * last;
    }
    last
}

// A `for`, of which no index is read. Tried as a fold over the range: it wants a law more, that the last square may come last.
#[tactic(auto, using(crate::proofs::ExpSteps::squared_next, crate::proofs::ExpSteps::squared_done))]
fn squared_ten_times(x: f64) -> f64
    ensures { result ≡ squared 10 x }
{
    let mut power = x;
    for _ in 0u64..10 {
        power = power * power;
    }
    power
}

// e^x for x <= 0: 0 below -104, else the series at x/1024 in f64, squared ten times and narrowed.
// Its answer for such an x lies in 0 to 1.
pub fn exp(x: f32) -> f32
    ensures value { result ≡ exp_of x }
    ensures unit { T (le x zero32) → InUnit result }
{
    let wide: f64 = f64::from(x);
    if wide < -104.0 {
        return 0.0;
    }
    narrow(squared_ten_times(series(wide / 1024.0)))
}

// ---- log

// 1/n + q * (last), from 1/15, for n = 13 down to 1 by twos: n is 2 * k - 1.
#[tactic(auto, using(crate::proofs::LogSteps::sum_first, crate::proofs::LogSteps::sum_next))]
fn log_sum(q: f64) -> f64
    ensures { result ≡ log_sum q 7 }
{
    let mut last: f64 = 1.0 / 15.0;
    for k in (1..=7u32).rev() {
        last = 1.0 / ((2 * k - 1) as f64) + q * last;
    }
    last
}

// The logarithm of m * 2^k.
#[tactic(auto, unfolding(crate::specs::Log::log_from, crate::specs::Log::log_part, crate::specs::Log::z_of))]
fn log_from(m: f64, k: f64) -> f64
    ensures { result ≡ log_from m k }
{
    let z = (m - 1.0) / (m + 1.0);
    k * 0.6931471805599453 + 2.0 * z * log_sum(z * z)
}

// The logarithm of m * 2^e times 2^-149, the smallest f32.
fn log_of(m: u64, e: u64) -> f32
    requires { (0 < m) × (m < 2 ^ 24) × (e < 2 ^ 9) }
    ensures { result ≡ narrowed (log_at m (minus e 149)) }
{
    // m / top is from 0.5 up to 1.
    let digits: u64 = 64 - m.leading_zeros() as u64;
    let top: u64 = 1 << digits;
    let k = (e + digits) as i64 - 149;
    let (m, k) = if 3 * top <= 4 * m {
        (m, k)
    } else {
        (2 * m, k - 1)
    };
    narrow(log_from((m as f64) / (top as f64), k as f64))
}

// The logarithm of a positive value: it is written as m * 2^k with m from 0.75 up to 1.5, then a sum in f64, narrowed.
// -infinity of a zero, infinity of infinity, NaN of NaN and of any other negative value.
// The fields are cut out of the bits as in `root`: the two share the three lines that do so, and each counts its exponent from another place.
pub fn log(x: f32) -> f32
    ensures { result ≡ log_of x }
{
    if x.is_nan() {
        return f32::NAN;
    }
    let bits: u32 = x.to_bits();
    if bits % 0x8000_0000 == 0 {
        return f32::NEG_INFINITY;
    }
    if bits > 0x8000_0000 {
        return f32::NAN;
    }
    let exponent: u32 = bits % 0x8000_0000 / 0x80_0000;
    if exponent == 255 {
        return x;
    }
    let fraction: u32 = bits % 0x80_0000;
    if exponent == 0 {
        return log_of(fraction as u64, 0);
    }
    log_of((fraction + 0x80_0000) as u64, (exponent - 1) as u64)
}

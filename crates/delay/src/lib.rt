// What both fits share: the one unit of a delay, the model, and the rule that picks a delay among fits that are as good.
#![tactic(auto)]

ghost use Rattle.std.specs.Prelude.{◌≡◌, min, position};
ghost use Rattle.delay.specs.HalfTicks.{of_recorded, of_integrated, whole_ticks, half_tick};
ghost use Rattle.delay.specs.Tie.{passes, entry_count, considered as considered_of, residuals, lesser as lesser_of, least_to, within, first_from, shortest_tied, delay_to_fit};

// A delay in half ticks.
#[derive(Clone, Copy)]
pub struct Delay {
    pub half_ticks: u32,
}

// The body rate one tick on, from the last two rates and three moments:
// y[k] = r1 y[k-1] + r2 y[k-2] + m0 u[k+1-d] + m1 u[k-d] + m2 u[k-1-d], d the delay's whole ticks.
#[derive(Clone, Copy)]
pub struct RateModel {
    pub r1: f32,
    pub r2: f32,
    pub m0: f32,
    pub m1: f32,
    pub m2: f32,
    pub delay: Delay,
    pub dt_s: f32,
}

// A fit as an entry of the rule's list: its moment effect and its residual.
#[derive(Clone, Copy)]
pub struct Entry {
    pub effect: f32,
    pub residual: f32,
}

// ---- the unit

// A position as a number of the rule's list: at most 20, its length.
fn listed(position: usize) -> u32
    ensures { result ≡ min position entry_count }
{
    position.min(20) as u32
}

impl Delay {
    // The recorded fit tries whole ticks: its position p is p ticks. A position past the rule's list is read as its last.
    pub fn from_recorded(position: usize) -> Delay
        ensures { result ≡ of_recorded (min position entry_count) }
    {
        Delay {
            half_ticks: 2 * listed(position),
        }
    }

    // The integrated fit tries half ticks from one tick on: its position p is p + 1 half ticks.
    pub fn from_integrated(position: usize) -> Delay
        ensures { result ≡ of_integrated (min position entry_count) }
    {
        Delay {
            half_ticks: listed(position) + 1,
        }
    }

    pub fn whole_ticks(self) -> u32
        ensures { result ≡ whole_ticks self }
    {
        self.half_ticks / 2
    }

    // 1 where half a tick is left past the whole ones, else 0: a number, as a report's bit and C's field have it.
    pub fn half_tick(self) -> u32
        ensures { result ≡ half_tick self }
    {
        self.half_ticks % 2
    }
}

// ---- the tie rule

// An entry's residual, where a pass considers it: one pass takes effects above 0, the other takes all.
#[tactic(auto, unfolding(crate::specs::Tie::considered))]
fn considered(all: bool, entry: Option<Entry>) -> Option<f32>
    ensures { result ≡ considered_of all entry }
{
    match entry {
        Some(fit) if all | (fit.effect > 0.0) => Some(fit.residual),
        _ => None,
    }
}

// Tried as `reduce(float::min)` over what is considered: no law tells what `reduce` makes of a function that is handed to it.
#[tactic(auto, unfolding(crate::specs::Tie::lesser))]
fn lesser(a: Option<f32>, b: Option<f32>) -> Option<f32>
    ensures { result ≡ lesser_of a b }
{
    match (a, b) {
        (Some(x), Some(y)) => Some(float::min(x, y)),
        (Some(x), None) => Some(x),
        (None, y) => y,
    }
}

#[tactic(auto, unfolding(crate::specs::Tie::within))]
fn is_within(bar: f32, residual: Option<f32>) -> bool
    ensures { result ≡ within bar residual }
{
    residual.is_some_and(|r| r <= bar)
}

#[tactic(auto, unfolding(crate::specs::Tie::least_to, crate::specs::Tie::residuals))]
fn least_residual(entries: &[Option<Entry>; 20], all: bool) -> Option<f32>
    ensures { result ≡ least_to (residuals all entries.now) entry_count }
{
    let mut least = None;
    for entry in entries {
        least = lesser(least, considered(all, *entry));
    }
    least
}

// The place of the first entry whose residual is within the bar.
fn place_within(entries: &[Option<Entry>], all: bool, bar: f32) -> Option<usize>
    ensures { result ≡ position (passes all bar) entries.now }
{
    entries
        .iter()
        .position(|entry| is_within(bar, considered(all, *entry)))
}

fn first_within(entries: &[Option<Entry>; 20], all: bool, bar: f32) -> Option<usize>
    ensures { result ≡ first_from bar (residuals all entries.now) 0 entry_count }
{
    let place = place_within(entries, all, bar)?;
    Some(place + 1)
}

// The first residual that is within the share of the least one, in one pass.
#[tactic(auto, unfolding(crate::specs::Tie::shortest_tied, crate::specs::Tie::under_bar))]
pub fn shortest_tied(entries: [Option<Entry>; 20], share: f32, all: bool) -> Option<usize>
    ensures { result ≡ shortest_tied share all entries }
{
    let least = least_residual(&entries, all)?;
    first_within(&entries, all, least + share * least)
}

// The shortest tied of the fits whose effect is above 0; where there is none, of all.
#[tactic(auto, unfolding(crate::specs::Tie::delay_to_fit))]
pub fn delay_to_fit(entries: [Option<Entry>; 20], share: f32) -> Option<usize>
    ensures { result ≡ delay_to_fit share entries }
{
    shortest_tied(entries, share, false).or_else(|| shortest_tied(entries, share, true))
}

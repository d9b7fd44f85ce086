// The square sweep: a square wave whose half periods shrink, less its washout.
#![tactic(auto)]

ghost use Rattle.std.specs.Prelude.{◌≡◌, ◌<◌};
ghost use Rattle.sweep.specs.Sweep.{half_period, started, pass_edge, due, pass_edges, square, with_washout, with_amplitude, swept, next_sweep};

// The sweep between two ticks.
#[derive(Clone, Copy)]
pub struct SquareSweep {
    pub amplitude: f32,
    pub washout_tc_s: f32,
    // When the next edge falls, in s since the start, and how many edges are passed.
    pub next_edge_s: f32,
    pub edge: u32,
    // Whether the wave is at its amplitude, or at 0.
    pub high: bool,
    // The wave through a low-pass filter of the washout's time constant.
    pub washout: f32,
}

// What a tick makes of a sweep: its offset, and the sweep after it.
#[derive(Clone, Copy)]
pub struct Swept {
    pub offset: f32,
    pub sweep: SquareSweep,
}

// The edge at which the count of edges stops: no call up to 4,096 s reaches it.
const LAST_EDGE: u32 = 32_769;

// The half periods in s: 1.0 down to 0.2 by 0.1, then 0.6 down to 0.2 over and over.
#[tactic(auto, unfolding(crate::specs::Sweep::half_period))]
pub fn half_period_s(index: u32) -> f32
    ensures { result ≡ half_period index }
{
    if index < 9 {
        return 1.0 - 0.1 * (index as f32);
    }
    0.6 - 0.1 * (((index - 9) % 5) as f32)
}

impl SquareSweep {
    // A sweep at its start, high or low.
    #[tactic(auto, unfolding(crate::specs::Sweep::started))]
    pub fn new(amplitude: f32, washout_tc_s: f32, high: bool) -> Self
        ensures { result ≡ started amplitude washout_tc_s high }
    {
        SquareSweep {
            amplitude,
            washout_tc_s,
            next_edge_s: half_period_s(0),
            edge: 0,
            high,
            washout: 0.0,
        }
    }

    // The sweep with another amplitude: edge, level and washout go on.
    #[tactic(auto, unfolding(crate::specs::Sweep::with_amplitude))]
    pub fn with_amplitude(self, amplitude: f32) -> Self
        ensures { result ≡ with_amplitude self amplitude }
    {
        SquareSweep { amplitude, ..self }
    }

    // One tick: the offset at elapsed_s, dt after the last call, and the sweep after it.
    #[tactic(auto, unfolding(crate::specs::Sweep::next_sweep))]
    pub fn next(self, dt: f32, elapsed_s: f32) -> Swept
        ensures { result ≡ next_sweep self dt elapsed_s }
    {
        self.pass_edges(elapsed_s).wash(dt)
    }

    #[tactic(auto, unfolding(crate::specs::Sweep::due))]
    fn is_due(self, elapsed_s: f32) -> bool
        ensures { result ≡ due elapsed_s self }
    {
        self.next_edge_s <= elapsed_s
    }

    #[tactic(auto, unfolding(crate::specs::Sweep::pass_edge))]
    fn pass_edge(self) -> Self
        requires { self.edge < 32769 }
        ensures { result ≡ pass_edge self }
    {
        let edge = self.edge + 1;
        SquareSweep {
            next_edge_s: self.next_edge_s + half_period_s(edge),
            edge,
            high: !self.high,
            ..self
        }
    }

    // Every edge up to the elapsed time is passed. A `while`: how many are due shows only as they are passed.
    fn pass_edges(self, elapsed_s: f32) -> Self
        ensures { result ≡ pass_edges elapsed_s self }
    {
        let mut s = self;
        while s.edge < LAST_EDGE && s.is_due(elapsed_s) {
            s = s.pass_edge();
        }
        s
    }

    // The wave at a tick, less its washout.
    #[tactic(auto, unfolding(crate::specs::Sweep::swept, crate::specs::Sweep::washed))]
    fn wash(self, dt: f32) -> Swept
        ensures { result ≡ swept self dt }
    {
        let square = self.level();
        let washout = self.washout
            + (square - self.washout) * float::min(dt / self.washout_tc_s, 1.0);
        Swept {
            offset: square - washout,
            sweep: self.with_washout(washout),
        }
    }

    #[tactic(auto, unfolding(crate::specs::Sweep::square))]
    fn level(self) -> f32
        ensures { result ≡ square self }
    {
        if self.high { self.amplitude } else { 0.0 }
    }

    #[tactic(auto, unfolding(crate::specs::Sweep::with_washout))]
    fn with_washout(self, washout: f32) -> Self
        ensures { result ≡ with_washout self washout }
    {
        SquareSweep { washout, ..self }
    }
}

// One tick of a sweep that is lent: it is moved on, and the offset is answered. The Rust has this form; `next`, by value, is that of
// the definition.
pub fn advance(sweep: &mut SquareSweep, dt: f32, elapsed_s: f32) -> f32
    ensures { (result ≡ (next_sweep sweep.old dt elapsed_s).offset)
        × (sweep.new ≡ (next_sweep sweep.old dt elapsed_s).sweep) }
{
    let swept = sweep.next(dt, elapsed_s);
    *sweep = swept.sweep;
    swept.offset
}

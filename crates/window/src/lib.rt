// The window of recorded ticks. Its samples stand in arrays that the caller lends; the rest is here, by value.
#![tactic(auto)]

ghost use Rattle.std.specs.Prelude.{◌≡◌, ◌<◌};
ghost use Rattle.float.specs.Values.{zero32};
ghost use Rattle.window.specs.Samples.{bad};
ghost use Rattle.window.specs.Arrays.{stored_of, hold_at, next_window};
ghost use Rattle.window.specs.Lent.{Leaves, arrays_in, put_sample};

const CAPACITY: usize = 2048;

// How many samples are stored, and the sum of their dt.
#[derive(Clone, Copy, Default)]
pub struct Window {
    pub len: usize,
    pub duration_s: f32,
}

impl Window {
    pub fn new() -> Self
        ensures { result ≡ record { len = 0; duration_s = zero32 } }
    {
        Window::default()
    }

    // The stored samples: never more than the arrays hold, whatever the struct says.
    #[tactic(auto, unfolding(crate::specs::Arrays::stored_of))]
    pub fn stored(self) -> usize
        ensures { result ≡ stored_of self }
    {
        self.len.min(CAPACITY)
    }
}

// The arrays that a caller lends with a window: place k of each is sample k's. Four arrays, and their length apart in `Window`: C has
// them one by one, and by value a struct of them would be copied at each tick, 26 KB.
#[derive(Drop)]
pub struct LentArrays<'a> {
    pub rates: &'a mut [f32; 2048],
    pub moments: &'a mut [f32; 2048],
    pub offsets: &'a mut [f32; 2048],
    pub held: &'a mut [bool; 2048],
}

// A window as a fit on its recorded rates reads it. A clause names those of its arrays that its function reads, since not each reads all three.
#[derive(Clone, Copy)]
pub struct Readings<'a> {
    pub window: Window,
    pub rates: &'a [f32; 2048],
    pub moments: &'a [f32; 2048],
    pub held: &'a [bool; 2048],
}

// What is stored of a reading at a place: the one before it of its own kind where the reading is not finite, 0 at the first place.
#[tactic(auto, unfolding(crate::specs::Arrays::hold_at, crate::specs::Arrays::previous_at))]
fn held_value(value: f32, values: &[f32; 2048], index: usize) -> f32
    requires { index < 2048 }
    ensures { result ≡ hold_at values.now index value }
{
    if float::is_finite(value) {
        return value;
    }
    if index == 0 {
        return 0.0;
    }
    values[index - 1]
}

#[tactic(auto, unfolding(crate::specs::Samples::bad))]
fn is_bad(rate: f32, moment: f32) -> bool
    ensures { result ≡ bad rate moment }
{
    !(float::is_finite(rate) & float::is_finite(moment))
}

impl LentArrays<'_> {
    // A window whose samples stand in these arrays, as a fit reads it.
    pub fn readings(&self, window: Window) -> Readings<'_>
        ensures window { result.window ≡ window }
        ensures rates { result.rates.now ≡ self.now.rates.now }
        ensures moments { result.moments.now ≡ self.now.moments.now }
        ensures held { result.held.now ≡ self.now.held.now }
    {
        Readings {
            window,
            rates: self.rates,
            moments: self.moments,
            held: self.held,
        }
    }

    // Stores one tick of a window, if there is room.
    pub fn record_tick(
        &mut self,
        window: Window,
        dt: f32,
        rate: f32,
        moment: f32,
        offset: f32,
    ) -> Window
        ensures result { result ≡ next_window window dt }
        ensures lent { Leaves self.old self.new (put_sample window (arrays_in self.old) rate moment offset) }
    {
        let index = window.stored();
        if index < CAPACITY {
            self.rates[index] = held_value(rate, self.rates, index);
            self.moments[index] = held_value(moment, self.moments, index);
            self.offsets[index] = offset;
            self.held[index] = is_bad(rate, moment);
            Window {
                len: index + 1,
                duration_s: window.duration_s + dt,
            }
        } else {
            window
        }
    }
}

// A probe from two arrays that its caller keeps, its scalars: eight words, and fourteen floats, of which the last six are those of its status. Two arrays, as C keeps
// them (include/identify.h): with the floats of the status in a third a step took 0.7 ns more.
#![tactic(auto)]

ghost use Rattle.std.specs.Prelude.{◌≡◌, ◌≤◌};
ghost use Rattle.float.specs.Series.{at};
ghost use Rattle.window.specs.Samples.{capacity};
ghost use Rattle.probe_words.specs.Layout.{scalars, scalars_in, read_in, word, noisy_by, model_by, status_by, status_in, sweep_by, window_by, probe_in};

use account::{IdentifyExtension, IdentifyStatus};
use delay::{Delay, RateModel};
use identify::IdentifyProbe;
use sweep::SquareSweep;
use window::Window;

// An extension by its flag: 0 is none.
#[tactic(auto, unfolding(crate::specs::Layout::noisy_by))]
pub fn noisy_by(flag: u32, amplitude: f32, duration_s: f32) -> Option<IdentifyExtension>
    ensures { result ≡ noisy_by flag amplitude duration_s }
{
    (flag != 0).then_some(IdentifyExtension {
        amplitude,
        duration_s,
    })
}

// The model of a delay and the last six floats.
fn model_by(half_ticks: u32, floats: &[f32; 14]) -> RateModel
    ensures { result ≡ model_by half_ticks floats.now }
{
    RateModel {
        r1: floats[8],
        r2: floats[9],
        m0: floats[10],
        m1: floats[11],
        m2: floats[12],
        delay: Delay { half_ticks },
        dt_s: floats[13],
    }
}

// A status by its kind, its delay and the last six floats. Any kind above 2 is saturated.
#[tactic(auto, unfolding(crate::specs::Layout::status_by))]
fn status_by(kind: u32, half_ticks: u32, floats: &[f32; 14]) -> IdentifyStatus
    ensures { result ≡ status_by kind half_ticks floats.now }
{
    match kind {
        report::RUNNING => IdentifyStatus::Running(floats[13]),
        report::DONE => IdentifyStatus::Done(model_by(half_ticks, floats)),
        report::UNEXCITED => IdentifyStatus::Unexcited,
        _ => IdentifyStatus::Saturated,
    }
}

// The status that any content of the two arrays stands for. A function of the arrays, as the others here: a proof knows an array's length behind a reference that is
// a parameter, and not behind a field.
fn status_of(words: &[u32; 8], floats: &[f32; 14]) -> IdentifyStatus
    ensures { result ≡ status_in words.now floats.now }
{
    status_by(words[0], words[1], floats)
}

fn sweep_by(words: &[u32; 8], floats: &[f32; 14]) -> SquareSweep
    ensures { result ≡ sweep_by words.now floats.now }
{
    SquareSweep {
        amplitude: floats[3],
        washout_tc_s: floats[4],
        next_edge_s: floats[5],
        edge: words[6],
        high: words[7] != 0,
        washout: floats[6],
    }
}

// A count of samples above 2,048 is read as 2,048.
fn window_by(stored: u32, duration_s: f32) -> Window
    ensures { result ≡ window_by stored duration_s }
{
    Window {
        len: stored.min(2048) as usize,
        duration_s,
    }
}

// The probe that any content of the two arrays stands for.
#[tactic(auto, unfolding(crate::specs::Layout::probe_in))]
fn probe_of(words: &[u32; 8], floats: &[f32; 14]) -> IdentifyProbe
    ensures probe { result ≡ probe_in (scalars words.now floats.now) }
    ensures room { result.window.len ≤ capacity }
{
    IdentifyProbe {
        duration_s: floats[0],
        noisy: noisy_by(words[5], floats[1], floats[2]),
        status: status_of(words, floats),
        sweep: sweep_by(words, floats),
        window: window_by(words[3], floats[7]),
        ticks: words[2],
        gain_fits: words[4],
    }
}

// How many ticks the probe has taken.
fn ticks_of(words: &[u32; 8]) -> u32
    ensures { result ≡ word words.now 2 }
{
    words[2]
}

fn end_of(floats: &[f32; 14]) -> f32
    ensures { result ≡ at floats.now 0 }
{
    floats[0]
}

// The two arrays, as a call that only reads them takes them.
#[derive(Clone, Copy)]
pub struct Scalars<'a> {
    pub words: &'a [u32; 8],
    pub floats: &'a [f32; 14],
}

// What is read of the probe that stands in them, each part by itself.
impl Scalars<'_> {
    #[tactic(auto, unfolding(crate::specs::Layout::probe_in))]
    pub fn status(self) -> IdentifyStatus
        ensures status { result ≡ status_in self.entry.words.now self.entry.floats.now }
        ensures probe { result ≡ (probe_in (read_in self.entry)).status }
    {
        status_of(self.words, self.floats)
    }

    pub fn probe(self) -> IdentifyProbe
        ensures probe { result ≡ probe_in (read_in self.entry) }
        ensures room { result.window.len ≤ capacity }
    {
        probe_of(self.words, self.floats)
    }

    #[tactic(auto, unfolding(crate::specs::Layout::probe_in))]
    pub fn ticks(self) -> u32
        ensures { result ≡ (probe_in (read_in self.entry)).ticks }
    {
        ticks_of(self.words)
    }

    #[tactic(auto, unfolding(crate::specs::Layout::probe_in))]
    pub fn end_s(self) -> f32
        ensures { result ≡ (probe_in (read_in self.entry)).duration_s }
    {
        end_of(self.floats)
    }
}

// The two arrays, as a caller lends them to a call that may write them.
#[derive(Drop)]
pub struct LentScalars<'a> {
    pub words: &'a mut [u32; 8],
    pub floats: &'a mut [f32; 14],
}

impl LentScalars<'_> {
    // The two arrays to read.
    pub fn read(&self) -> Scalars<'_>
        ensures { read_in result ≡ scalars_in self.now }
    {
        Scalars {
            words: self.words,
            floats: self.floats,
        }
    }
}

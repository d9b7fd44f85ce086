// What a list of calls is owed: the rules, the probe's step and the account of a list as definitions, and the theorem that the two agree
// on every list. The types that they speak of are here; the code that meets the definitions is in `identify`.
#![tactic(auto)]

ghost use Rattle.std.specs.Prelude.{◌≡◌};
ghost use Rattle.account.specs.Probe.{clock};

use delay::RateModel;

// How a probe goes on where a window is noisy: the amplitude of later ticks, and the whole length in s.
#[derive(Clone, Copy)]
pub struct IdentifyExtension {
    pub amplitude: f32,
    pub duration_s: f32,
}

#[derive(Clone, Copy)]
pub struct IdentifyConfig {
    pub amplitude: f32,
    pub duration_s: f32,
    pub washout_tc_s: f32,
    // The extension of a noisy window, if there is one.
    pub noisy: Option<IdentifyExtension>,
}

// Where a probe stands: running, with the elapsed seconds; done, with the model; or given up.
#[derive(Clone, Copy)]
pub enum IdentifyStatus {
    Running(f32),
    Done(RateModel),
    Unexcited,
    Saturated,
}

impl IdentifyStatus {
    // The elapsed time of a probe that runs.
    #[tactic(auto, unfolding(crate::specs::Probe::clock))]
    pub fn clock(self) -> Option<f32>
        ensures { result ≡ clock self }
    {
        match self {
            IdentifyStatus::Running(elapsed_s) => Some(elapsed_s),
            _ => None,
        }
    }
}

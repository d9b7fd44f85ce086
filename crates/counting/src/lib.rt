// What the stored ticks of a window are, counted in one pass: held, too early in their run to make a row, or a row.
#![tactic(auto)]

ghost use Rattle.std.specs.Prelude.{◌≡◌, ◌<◌};
ghost use Rattle.window.specs.Arrays.{stored_of};
ghost use Rattle.counting.specs.Tally.{counts_to, tallied};

use window::Window;

#[derive(Clone, Copy, Default)]
pub struct Counts {
    pub held: usize,
    pub warm: usize,
    pub rows: usize,
}

// Counts so far, with the good ticks in a row just before the next one.
#[derive(Clone, Copy, Default)]
pub struct Tally {
    pub counts: Counts,
    pub run: usize,
}

impl Tally {
    // One more tick. A held one empties the history; a good one is a row from the 12th of its run on.
    #[tactic(auto, unfolding(crate::specs::Tally::tallied))]
    fn count(&mut self, held: bool)
        requires { (self.old.counts.held < 2048) × (self.old.counts.warm < 2048) × (self.old.counts.rows < 2048) × (self.old.run < 2048) }
        ensures { self.new ≡ tallied self.old held }
    {
        if held {
            self.counts.held += 1;
            self.run = 0;
            return;
        }
        if self.run < 11 {
            self.counts.warm += 1;
        } else {
            self.counts.rows += 1;
        }
        self.run += 1;
    }
}

// What the stored ticks of a window are.
#[tactic(auto, using(crate::proofs::Tallies::no_ticks, crate::proofs::Tallies::few, crate::proofs::Tallies::tally_more), unfolding(window::specs::Arrays::stored_of, crate::specs::Tally::tally_to))]
pub fn count_ticks(window: Window, held: &[bool; 2048]) -> Counts
    ensures { result ≡ counts_to held.now (stored_of window) }
{
    let mut t = Tally::default();
    for mark in &held[..window.stored()] {
        t.count(*mark);
    }
    t.counts
}

// A position as the tie rule gives it, counted from one.
ghost use Rattle.std.specs.Prelude.{◌≡◌, ◌-◌, ◌≤◌};

#[derive(Clone, Copy)]
pub struct Position {
    pub place: usize,
    ghost from_one: { 1 ≤ place },
    ghost in_list: { place ≤ 20 },
}

impl Position {
    // Its step, counted from zero.
    pub fn step(self) -> usize
        ensures { result ≡ self.place - 1 }
    {
        self.place - 1
    }
}

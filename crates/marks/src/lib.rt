// The marks of a window as bytes: not 0 where a sample is held.
#![tactic(auto)]

ghost use Rattle.std.specs.Prelude.{◌≡◌};
ghost use Rattle.marks.specs.Marks.{marks_by, settled};

// Each byte is made that of its mark, 0 or 1.
#[tactic(auto, using(std::proofs::lemmas::List::Edits::map_over_more))]
pub fn settle(marks: &mut [u8; 2048])
    ensures { marks.new ≡ settled marks.old }
{
    for byte in marks.iter_mut() {
        *byte = u8::from(*byte != 0);
    }
}

// A mark is held where its byte is not 0.
pub fn held_by(marks: &[u8; 2048]) -> [bool; 2048]
    ensures { result ≡ marks_by marks.now }
{
    std::array::from_fn(|k| marks[k] != 0)
}

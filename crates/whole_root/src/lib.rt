// The whole part of a square root, bit by bit (02, request three): 24 rounds that double, compare, add and subtract.
#![tactic(auto)]

ghost use Rattle.std.specs.Prelude.{◌≡◌, ◌+◌, ◌*◌, ◌^◌, ◌<◌};
ghost use Rattle.whole_root.specs.Rounds.{one_round, rounds, whole_of, Whole};

// A root on its way. Both are in units of 2^32: the root's binary digits so far, and what is left of
// the number above its square.
#[derive(Clone, Copy)]
struct PartialRoot {
    root: u64,
    left: u64,
}

// The whole part of a square root, and what the number is above its square.
#[derive(Clone, Copy)]
pub struct WholeRoot {
    pub root: u64,
    pub rest: u64,
}

// One round gives the root one digit more.
#[tactic(auto, using(crate::proofs::Rounds::digit_zero, crate::proofs::Rounds::digit_one))]
fn one_round(s: PartialRoot) -> PartialRoot
    requires { (s.root < 2 ^ 56) × (s.left < 2 * s.root + 2 ^ 32) }
    ensures { result ≡ one_round s }
{
    let left: u64 = 4 * s.left;
    let root: u64 = 2 * s.root;
    // (root + 1)^2 is root^2 + 2 * root + 1.
    let trial: u64 = 2 * root + 0x1_0000_0000;
    if left < trial {
        return PartialRoot { root, left };
    }
    PartialRoot {
        root: root + 0x1_0000_0000,
        left: left - trial,
    }
}

// The whole part of the square root of n * 2^16. A `for`, of which no index is read: what is handed to a fold would have to ask how large the root so far is,
// as a round does.
pub fn whole_root(n: u32) -> WholeRoot
    ensures rounds { result ≡ whole_of (rounds 24 n) }
    ensures whole { Whole (n * 2 ^ 16) result }
{
    let mut s = PartialRoot {
        root: 0,
        left: n as u64,
    };
    for _ in 0u64..24 {
        s = one_round(s);
    }
    WholeRoot {
        root: s.root / 0x1_0000_0000,
        rest: s.left / 0x1_0000_0000,
    }
}

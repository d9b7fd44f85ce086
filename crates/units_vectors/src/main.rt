// Replays the plain units of reports, and prints how many records agree in all 12 bytes. A record is a report's 36 bytes and
// then the expected 12, the reference's answer; host/README.md has the command that wrote them, with seed 1.
#![tactic(auto)]

use std::io;
use vectors::{part, replay};

// Whether a report's units are the three words that follow it.
fn agrees(s: &[u8]) -> bool {
    let mut output = [0u8; 12];
    let answered = byte_units::byte_units(part(s, 0, 36), &mut output);
    answered.is_ok() && output.as_slice() == part(s, 36, 12)
}

fn main(rt: HostRuntime) -> io::Result<()> {
    replay(&rt, "plain units", "units.bin", |_| 48, agrees)
}

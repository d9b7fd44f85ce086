// 32-bit words and floats in byte slices, big-endian. A place may be any number: what stands past the end reads as 0, and
// four bytes that do not fit are not written.
#![tactic(auto)]

ghost use Rattle.std.specs.Prelude.{◌≡◌, ℕ, ◌+◌, ◌*◌, ◌≤◌, map, length, get_or};
ghost use Rattle.wire.specs.Words.{bytes_of, word_bytes, word_of, word_at, float_at, written_at, written_within, words_within};

#[cfg(test)]
mod tests;

// The byte at a place; 0 past the end.
pub fn read_byte(bytes: &[u8], at: usize) -> u8
    ensures { result ≡ get_or bytes.now at 0 }
{
    bytes.get(at).copied().unwrap_or(0)
}

// The word at byte `at` of a slice that ends before the word does.
#[tactic(auto, using(crate::proofs::Bytes::four_joined), unfolding(crate::specs::Words::word_at))]
fn torn_word(bytes: &[u8], at: usize) -> u32
    ensures { result ≡ word_at bytes.now at }
{
    u32::from_be_bytes([
        read_byte(bytes, at),
        read_byte(bytes, at.saturating_add(1)),
        read_byte(bytes, at.saturating_add(2)),
        read_byte(bytes, at.saturating_add(3)),
    ])
}

// The word at byte `at`; a byte past the end counts as 0.
#[tactic(auto, using(crate::proofs::Bytes::four_joined), unfolding(crate::specs::Words::word_at))]
pub fn read_word(bytes: &[u8], at: usize) -> u32
    ensures { result ≡ word_at bytes.now at }
{
    match bytes.get(at..).and_then(|rest| rest.first_chunk::<4>()) {
        Some(word) => u32::from_be_bytes(*word),
        None => torn_word(bytes, at),
    }
}

// The float at byte `at`; every NaN pattern gives NaN.
#[tactic(auto, unfolding(crate::specs::Words::float_at))]
pub fn read_float(bytes: &[u8], at: usize) -> f32
    ensures { result ≡ float_at bytes.now at }
{
    float::from_word(read_word(bytes, at))
}

// The word's bytes from byte `at` on; every other byte stays, and all of them where the four do not fit.
#[tactic(auto, using(crate::proofs::Written::word_copied, crate::proofs::Written::word_within, crate::proofs::Written::word_past))]
pub fn write_word(out: &mut [u8], at: usize, word: u32)
    ensures { out.new ≡ written_within at (bytes_of 4 word) out.old }
{
    if out.len() < 4 || out.len() - 4 < at {
        return;
    }
    out[at..at + 4].copy_from_slice(&word.to_be_bytes());
}

// The float's bytes from byte `at` on, as its word's; a NaN is written as 7FC00000.
pub fn write_float(out: &mut [u8], at: usize, x: f32)
    ensures { out.new ≡ written_within at (bytes_of 4 (word_of x)) out.old }
{
    write_word(out, at, x.word());
}

// What is written as a word.
pub trait Word: Copy + Drop {
    ghost word: { Self → ℕ };

    fn word(self) -> u32
        ensures { result ≡ word self };
}

// What is written by a function of its own, as its word.
pub trait Value: Word {
    // Its bytes from byte `at` on, where they fit.
    fn write(self, out: &mut [u8], at: usize)
        ensures { out.new ≡ written_within at (bytes_of 4 (Self.word self)) out.old }
    {
        write_word(out, at, self.word());
    }
}

impl Word for u32 {
    ghost word = { λ w. w };

    fn word(self) -> u32 {
        self
    }
}

impl Word for f32 {
    ghost word = { λ x. word_of x };

    fn word(self) -> u32 {
        float::to_word(self)
    }
}

impl Value for u32 {}

impl Value for f32 {
    fn write(self, out: &mut [u8], at: usize) {
        write_float(out, at, self);
    }
}

// Words or floats from byte `at` on, one word after another, each where it fits.
#[tactic(auto, unfolding(crate::specs::Words::words_within))]
pub fn write_words<W: Word>(out: &mut [u8], at: usize, values: &[W])
    ensures each { out.new ≡ words_within at (map W.word values.now) out.old }
    ensures all { at + 4 * length values.now ≤ length out.old → out.new ≡ written_at at (word_bytes (map W.word values.now)) out.old }
{
    // By places: after a loop over `chunks_exact_mut(4)` zipped with the values a proof does not know what the bytes are.
    for (k, value) in values.iter().enumerate() {
        write_word(out, at.saturating_add(k.saturating_mul(4)), value.word());
    }
}

// The same, each value by its own function: a float by `write_float`.
#[tactic(auto, unfolding(crate::specs::Words::words_within))]
pub fn write_values<V: Value>(out: &mut [u8], at: usize, values: &[V])
    ensures each { out.new ≡ words_within at (map V.word values.now) out.old }
    ensures all { at + 4 * length values.now ≤ length out.old → out.new ≡ written_at at (word_bytes (map V.word values.now)) out.old }
{
    // By places, as `write_words`.
    for (k, value) in values.iter().enumerate() {
        value.write(out, at.saturating_add(k.saturating_mul(4)));
    }
}

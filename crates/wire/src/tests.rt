// Words of a caller's type, which has no more to give than its word.
use crate::{Word, write_values, write_words};

#[derive(Clone, Copy)]
struct Ticks {
    count: u32,
}

impl Word for Ticks {
    ghost word = { λ t. t.count };

    fn word(self) -> u32 {
        self.count
    }
}

// A trait of the caller's, whose method has the name that a value's has.
trait Put {
    fn write(self, out: &mut [u8], at: usize);
}

impl Put for Ticks {
    fn write(self, out: &mut [u8], at: usize) {
        write_words(out, at, &[self]);
    }
}

#[test]
fn words_of_a_callers_type(rt: HostRuntime) {
    let ticks = [Ticks { count: 0x0102_0304 }, Ticks { count: 5 }];
    let mut out = [9; 11];
    write_words(&mut out, 1, &ticks);
    assert_eq!(rt; out, [9, 1, 2, 3, 4, 0, 0, 0, 5, 9, 9]);
    // The second does not fit.
    let mut short = [9; 7];
    write_words(&mut short, 2, &ticks);
    assert_eq!(rt; short, [9, 9, 1, 2, 3, 4, 9]);
    ticks[1].write(&mut short, 0);
    assert_eq!(rt; short, [0, 0, 0, 5, 3, 4, 9]);
}

#[test]
fn floats_and_words(rt: HostRuntime) {
    let mut one = [9; 8];
    write_words(&mut one, 0, &[1.5f32, f32::NAN]);
    assert_eq!(rt; one, [0x3f, 0xc0, 0, 0, 0x7f, 0xc0, 0, 0]);
    let mut other = [9; 8];
    write_values(&mut other, 0, &[1.5f32, f32::NAN]);
    assert_eq!(rt; other, one);
    write_words(&mut one, 4, &[0xfffe_fdfcu32]);
    write_values(&mut other, 4, &[0xfffe_fdfcu32]);
    assert_eq!(rt; one, [0x3f, 0xc0, 0, 0, 0xff, 0xfe, 0xfd, 0xfc]);
    assert_eq!(rt; other, one);
}

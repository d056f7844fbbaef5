// A text with room for so many bytes, and what is written behind it, for callers that keep within the room.
ghost use Rattle.std.specs.Prelude.{◌≡◌, ◌∷◌, [], ◌++◌, ◌+◌, ◌≤◌, ◌<◌, length};
ghost use Rattle.job_text_digits.specs.Numbers.{digits, decimal, RealText};
ghost use Rattle.job_text_numbers.specs.Added.{Added};

use arrayvec::ArrayVec;
use job_text_digits::kernel::{digit, pattern, places};
use std::marker::Model;

// What the longest text of a job needs: `done 64` and its newline, and 64 lines of 16 digits and a newline.
pub const TEXT: usize = 1096;

// The bytes that are written so far, of which there is room for CAP. A contract sees it as the list of them.
// It is no `fmt::Write`: `write!` may answer an `Err`, of which std's contract says nothing, and a job's text cannot fail.
#[derive(Drop)]
pub struct Text<const CAP: usize> {
    bytes: ArrayVec<u8, CAP>,
}

impl<const CAP: usize> Model for Text<CAP> {
    ghost use Rattle.std.specs.Prelude.{ℕ, List};

    ghost Value = { List ℕ };

    ghost view = { λ t. t.bytes.items };
}

impl<const CAP: usize> Text<CAP> {
    // No bytes.
    pub fn new() -> Self
        ensures { result ≡ [] }
    {
        Text {
            bytes: ArrayVec::new(),
        }
    }

    // The bytes, which are never more than there is room for.
    pub fn as_bytes(&self) -> &[u8]
        ensures bytes { result.now ≡ self.now }
        ensures upper_bound { length result.now ≤ CAP }
    {
        self.bytes.as_slice()
    }

    // One byte.
    pub fn put_byte(&mut self, byte: u8)
        requires { length self.old < CAP }
        ensures { self.new ≡ self.old ++ byte ∷ [] }
    {
        self.bytes.push(byte);
    }

    // Bytes, as they are.
    pub fn put_bytes(&mut self, bytes: &[u8])
        requires { length self.old + length bytes.now ≤ CAP }
        ensures { self.new ≡ self.old ++ bytes.now }
    {
        self.bytes.try_extend_from_slice(bytes).unwrap();
    }

    // The last k digits of n in a base, the most significant first.
    fn put_digits(&mut self, base: u64, k: usize, n: u64)
        requires base_value { (0 < base) × (base ≤ 16) }
        requires room { length self.old + k ≤ CAP }
        ensures { self.new ≡ self.old ++ digits base k n }
    {
        if k == 0 {
            return;
        }
        self.put_digits(base, k - 1, n / base);
        self.put_byte(digit(n % base));
    }

    // A count in decimal.
    pub fn put_decimal(&mut self, n: usize)
        requires { length self.old + 20 ≤ CAP }
        ensures added { self.new ≡ self.old ++ decimal n }
        ensures upper_bound { length self.new ≤ length self.old + 20 }
    {
        self.put_digits(10, places(n), n as u64);
    }

    // A real, as a bit pattern of it in hexadecimal.
    pub fn put_real(&mut self, x: f64)
        requires { length self.old + 16 ≤ CAP }
        ensures added { Added (RealText x) self.old self.new }
        ensures length_value { length self.new ≡ length self.old + 16 }
    {
        self.put_digits(16, 16, pattern(x));
    }
}

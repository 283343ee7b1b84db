//! A line that is written from its end to its beginning.
ghost use Rattle.std.specs.Prelude.{◌≡◌, ◌≤◌, ◌+◌, ◌<◌, ◌++◌, ◌∷◌, [], length, true};
ghost use Rattle.std.specs.Fmt.{decimal, digit_glyph, digits};

use itoa::write_digits;
use std::marker::Model;

/// How many bytes a line may have.
const ROOM: usize = 512;

/// The end of a line. Contracts see its bytes.
#[derive(Drop)]
pub(crate) struct Line {
    bytes: [u8; ROOM],
    start: usize,
}

impl Model for Line {
    ghost use Rattle.std.specs.Prelude.{◌≤◌, ℕ, List, drop};

    ghost Value = { List ℕ };

    ghost view = { λ l. drop l.start l.bytes };

    ghost invariant = { λ l. l.start ≤ 512 };
}

/// A digit in upper-case hexadecimal.
fn upper_digit(n: u8) -> u8
    requires { n < 16 }
    ensures { result ≡ digit_glyph true n }
{
    if n < 10 { b'0' + n } else { b'A' + (n - 10) }
}

impl Line {
    /// Nothing so far.
    pub(crate) fn new() -> Line
        ensures { result ≡ [] }
    {
        Line {
            bytes: [0; ROOM],
            start: ROOM,
        }
    }

    /// Nothing again.
    fn clear(&mut self)
        ensures { self.new ≡ [] }
    {
        self.start = ROOM;
    }

    /// A piece takes the place of what there was.
    pub(crate) fn begin(&mut self, piece: &[u8])
        requires { length piece.now ≤ 512 }
        ensures line { self.new ≡ piece.now }
        ensures length { length self.new ≡ length piece.now }
    {
        self.clear();
        self.put(piece);
    }

    /// Puts a piece before it.
    pub(crate) fn put(&mut self, piece: &[u8])
        requires { length self.old + length piece.now ≤ 512 }
        ensures line { self.new ≡ piece.now ++ self.old }
        ensures length { length self.new ≡ length piece.now + length self.old }
    {
        let end = self.start;
        let start = end - piece.len();
        self.bytes[start..end].copy_from_slice(piece);
        self.start = start;
    }

    /// Puts a number before it.
    pub(crate) fn put_number(&mut self, n: u64)
        requires { length self.old + 20 ≤ 512 }
        ensures line { self.new ≡ decimal n ++ self.old }
        ensures length { length self.new ≤ 20 + length self.old }
    {
        self.start = write_digits(n, &mut self.bytes, self.start);
    }

    /// Puts a digit before it.
    fn put_digit(&mut self, digit: u8)
        requires { length self.old + 1 ≤ 512 }
        ensures line { self.new ≡ digit ∷ self.old }
        ensures length { length self.new ≡ 1 + length self.old }
    {
        self.start -= 1;
        self.bytes[self.start] = digit;
    }

    /// Puts a number before it, in upper-case hexadecimal.
    pub(crate) fn put_hex(&mut self, n: u32)
        requires { length self.old + 64 ≤ 512 }
        ensures line { self.new ≡ digits 16 true n ++ self.old }
        ensures length { length self.new ≤ 64 + length self.old }
    {
        let mut left = n;
        for i in 0..64u32 {
            self.put_digit(upper_digit((left % 16) as u8));
            left /= 16;
            if left == 0 {
                return;
            }
        }
    }

    /// Its bytes.
    pub(crate) fn bytes(&self) -> &[u8]
        ensures { result.now ≡ self.now }
    {
        &self.bytes[self.start..]
    }
}

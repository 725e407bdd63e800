// Signed numbers and bits as digits.
ghost use Rattle.std.specs.Prelude.{◌≡◌, ◌+◌, ◌≤◌, ◌<◌, ◌++◌, length};
ghost use Rattle.listing.specs.Text.{signed_text, hex_text, hex_digit};
ghost use Rattle.listing.specs.Writer.{room};

use crate::writer::Writer;

impl Writer {
    // A negative number is its magnitude with a minus sign before it. It does not go to the kit's `itoa` whole: the
    // definition has its own words, and a law would stand beside that of the library.
    pub(crate) fn put_signed(&mut self, n: i64)
        requires { length self.old + 21 ≤ room }
        ensures { self.new ≡ self.old ++ signed_text n }
    {
        if n < 0 {
            self.put(b"-");
        }
        self.put_number(n.unsigned_abs());
    }

    // The last digits of a number, as many as the width says, with zeros in front of a shorter one. They are set down
    // in an array from the last to the first and put at once: put one by one, they take four times the instructions.
    #[tactic(auto, using(crate::proofs::Lengths::hex_length))]
    pub(crate) fn put_hex(&mut self, n: u64, width: u8)
        requires { (width ≤ 16) × (length self.old + width ≤ room) }
        ensures text { self.new ≡ self.old ++ hex_text width n }
        ensures len { length self.new ≡ length self.old + width }
    {
        let mut digits = [0u8; 16];
        let mut rest = n;
        for i in (0..width as usize).rev() {
            digits[i] = hex_digit(rest % 16);
            rest /= 16;
        }
        self.put(&digits[..width as usize]);
    }
}

// 0 to 9, then a to f. `char::from_digit` gives an Option of a char, so that it is no shorter.
fn hex_digit(d: u64) -> u8
    requires { d < 16 }
    ensures { result ≡ hex_digit d }
{
    match d as u8 {
        d if d < 10 => b'0' + d,
        d => b'a' + (d - 10),
    }
}

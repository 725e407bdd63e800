// Words and numbers, each with the byte that ends it. One function for both would need a trait that says what a word
// and a number are as text, which is no plainer.
ghost use Rattle.std.specs.Prelude.{◌≡◌, [], ◌∷◌, ◌++◌, ◌+◌, ◌≤◌, ◌<◌, length};
ghost use Rattle.ascii.specs.Number.{decimal_text};
ghost use Rattle.listing.specs.Writer.{room};

use crate::writer::Writer;

impl Writer {
    pub(crate) fn word(&mut self, word: &[u8], end: u8)
        requires { length self.old + length word.now < room }
        ensures text { self.new ≡ self.old ++ (word.now ++ (end ∷ [])) }
        ensures len { length self.new ≡ length self.old + length word.now + 1 }
    {
        self.put(word);
        self.put(&[end]);
    }

    pub(crate) fn number(&mut self, number: u64, end: u8)
        requires { length self.old + 21 ≤ room }
        ensures text { self.new ≡ self.old ++ (decimal_text number ++ (end ∷ [])) }
        ensures len { length self.new ≤ length self.old + 21 }
    {
        self.put_number(number);
        self.put(&[end]);
    }
}

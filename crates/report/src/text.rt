// A page, and text written on it from its start on, byte after byte.
ghost use Rattle.std.specs.Prelude.{◌≡◌, [], ◌∷◌, ◌+◌, ◌*◌, ◌<◌, ◌≤◌, length, take};
ghost use Rattle.list.specs.Meaning.{bad_of};
ghost use Rattle.report.specs.Text.{digit, digit_from, number_then, hex, answer_line, word_line, word_lines, all_lines, line_of};
ghost use Rattle.report.specs.Page.{Wrote};

use crate::repeated;
use list::Refused;
use vram::Vram;

// Room for the longest text: the answer line, and 15 bytes for each word.
const PAGE: usize = 491540;

// A digit, 0 to 9 and then A to F.
fn digit(d: u32) -> u8
    requires { d < 16 }
    ensures { result ≡ digit d }
{
    if d < 10 {
        (48 + d) as u8
    } else {
        (55 + d) as u8
    }
}

// The text so far, and the place after it.
#[derive(Drop)]
pub(crate) struct Page {
    text: [u8; PAGE],
    at: usize,
}

impl Page {
    // Of what stands on it only the length is said.
    pub(crate) fn empty() -> Page
        ensures { (491540 ≡ length result.text) × (result.at ≡ 0) }
    {
        Page {
            text: repeated(0),
            at: 0,
        }
    }

    fn byte(&mut self, byte: u8)
        requires { self.old.at < length self.old.text }
        ensures { Wrote self.old (byte ∷ []) self.new }
    {
        self.text[self.at] = byte;
        self.at += 1;
    }

    fn digit(&mut self, d: u32)
        requires { (d < 16) × (self.old.at < length self.old.text) }
        ensures { Wrote self.old (digit d ∷ []) self.new }
    {
        self.byte(digit(d));
    }

    // The digit of a number that counts 10, 100 or 1,000. Nothing where the number is smaller.
    fn digit_from(&mut self, n: u32, least: u32)
        requires { (0 < least) × (self.old.at < length self.old.text) }
        ensures { Wrote self.old (digit_from least n) self.new × (self.new.at ≤ self.old.at + 1) }
    {
        if n >= least {
            self.digit(n / least % 10);
        }
    }

    // A number below 10,000 in decimal, and a byte after it.
    fn number(&mut self, n: u32, after: u8)
        requires { (n < 10000) × (self.old.at + 5 ≤ length self.old.text) }
        ensures { Wrote self.old (number_then after n) self.new × (self.new.at ≤ self.old.at + 5) }
    {
        self.digit_from(n, 1000);
        self.digit_from(n, 100);
        self.digit_from(n, 10);
        self.digit(n % 10);
        self.byte(after);
    }

    // A word in four capital hex digits.
    fn hex(&mut self, word: u32)
        requires { self.old.at + 4 ≤ length self.old.text }
        ensures { Wrote self.old (hex word) self.new × (self.new.at ≤ self.old.at + 4) }
    {
        self.digit(word / 4096 % 16);
        self.digit(word / 256 % 16);
        self.digit(word / 16 % 16);
        self.digit(word % 16);
    }

    // A line of a word: row and column in decimal, the word in hex.
    fn line(&mut self, i: u32, word: u32)
        requires { (i < 32768) × (self.old.at + 15 ≤ length self.old.text) }
        ensures { Wrote self.old (word_line i word) self.new }
    {
        self.number(i / 512, b' ');
        self.number(i % 512, b' ');
        self.hex(word);
        self.byte(b'\n');
    }

    // A line where the word is not 0.
    fn word(&mut self, i: u32, word: u32)
        requires { (i < 32768) × (self.old.at + 15 ≤ length self.old.text) }
        ensures { Wrote self.old (line_of i word) self.new }
    {
        if word != 0 {
            self.line(i, word);
        }
    }

    // A line for each word that is not 0.
    fn words(&mut self, memory: &[u16])
        requires { (length memory.now ≤ 32768) × (self.old.at + 15 * length memory.now ≤ length self.old.text) }
        ensures { Wrote self.old (word_lines 0 memory.now) self.new }
    {
        for (i, word) in memory.iter().enumerate() {
            self.word(i as u32, u32::from(*word));
        }
    }

    // The first line.
    fn answer(&mut self, number: u32, place: u32)
        requires { (number < 10000) × (place < 10000) × (self.old.at + 20 ≤ length self.old.text) }
        ensures { Wrote self.old (answer_line number place) self.new × (self.new.at ≤ self.old.at + 20) }
    {
        self.bytes(b"answer ");
        self.number(number, b' ');
        self.bytes(b"at ");
        self.number(place, b'\n');
    }

    // The first line, and after it the words where nothing was refused.
    pub(crate) fn lines(&mut self, answer: Result<Vram, Refused>, memory: &[u16])
        requires { ((bad_of answer).number < 10000) × ((bad_of answer).place < 10000) × (length memory.now ≤ 32768) × (self.old.at + 491540 ≤ length self.old.text) }
        ensures { Wrote self.old (all_lines (bad_of answer).number (bad_of answer).place memory.now) self.new }
    {
        match answer {
            Ok(_) => {
                self.answer(0, 0);
                self.words(memory);
            }
            Err(refused) => self.answer(u32::from(refused.refusal), refused.place as u32),
        }
    }

    // Some bytes, as they are.
    pub(crate) fn bytes(&mut self, bytes: &[u8])
        requires { self.old.at + length bytes.now ≤ length self.old.text }
        ensures { Wrote self.old bytes.now self.new }
    {
        for byte in bytes {
            self.byte(*byte);
        }
    }

    // What stands on it.
    pub(crate) fn written(&self) -> &[u8]
        requires { self.now.at ≤ length self.now.text }
        ensures { result.now ≡ take self.now.at self.now.text }
    {
        &self.text[..self.at]
    }
}

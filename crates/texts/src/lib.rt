// Texts, numbers and sets, each written at the front of a lent buffer or from a place on.
#![tactic(auto)]

ghost use Rattle.std.specs.Prelude.{◌≡◌, ◌+◌, ◌≤◌, ◌<◌, ◌++◌, ℕ, List, length};
ghost use Rattle.lists.specs.Writing.{Wrote, WroteAt};
ghost use Rattle.rows.specs.Rows.{row_bytes};
ghost use Rattle.machine.specs.Text.{digit, set_text, number_text};
ghost use Rattle.texts.specs.Digits.{low_digits, last_digits, in_turn};

use rows::Row;

// What has a text, which is written at the front of a lent buffer, or from a place on.
pub trait Written {
    ghost text_of: { Self → List ℕ };

    fn put(&self, buf: &mut [u8]) -> usize
        requires { length (text_of self.now) ≤ length buf.old }
        ensures { Wrote (text_of self.now) buf.old buf.new result };

    // Into the unwritten rest of the buffer. Returns the next place. This and what writes texts are put into their callers, where a text is known.
    #[inline(always)]
    final fn put_at(&self, buf: &mut [u8], at: usize) -> usize
        requires { at + length (text_of self.now) ≤ length buf.old }
        ensures { WroteAt (text_of self.now) buf.old buf.new at result }
    {
        at + self.put(&mut buf[at..])
    }
}

// A text as it is.
#[derive(Clone, Copy)]
pub struct Text<'a>(pub &'a [u8]);

impl<'a> Written for Text<'a> {
    ghost text_of = { λ text. text.0.now };

    #[inline(always)]
    fn put(&self, buf: &mut [u8]) -> usize {
        lists::write_over(&mut buf[..self.0.len()], self.0);
        self.0.len()
    }
}

// A number with no leading zeros. Most have one digit or two: they are written without a loop.
#[derive(Clone, Copy)]
pub struct Number(pub u64);

impl Written for Number {
    ghost text_of = { λ n. number_text n.0 };

    fn put(&self, buf: &mut [u8]) -> usize {
        if self.0 < 10 {
            return put_one(buf, self.0);
        }
        if self.0 < 100 {
            return put_two(buf, self.0);
        }
        put_digits(buf, number_len(self.0), self.0)
    }
}

// A set, as 16 hexadecimal digits: each byte of it has two.
#[derive(Clone, Copy)]
pub struct Hex(pub u64);

impl Written for Hex {
    ghost text_of = { λ set. set_text set.0 };

    fn put(&self, buf: &mut [u8]) -> usize {
        put_in_turn(buf, last_digits(self.0 / 16), last_digits(self.0))
    }
}

// One after the other.
impl<A: Written, B: Written> Written for (A, B) {
    ghost text_of = { λ p. A.text_of p.0 ++ B.text_of p.1 };

    #[inline(always)]
    fn put(&self, buf: &mut [u8]) -> usize {
        let next = self.0.put(buf);
        self.1.put_at(buf, next)
    }
}

// A row, as its bytes.
impl Written for Row {
    ghost text_of = { row_bytes };

    fn put(&self, buf: &mut [u8]) -> usize {
        self.write(buf)
    }
}

// The byte of a decimal digit.
fn digit_byte(d: u8) -> u8
    requires { d < 10 }
    ensures { result ≡ digit d }
{
    48 + d
}

// Writes the `count` low digits of a number, from the last to the first.
fn put_digits(buf: &mut [u8], count: usize, n: u64) -> usize
    requires { count ≤ length buf.old }
    ensures { Wrote (low_digits count n) buf.old buf.new result }
{
    let mut v = n;
    for i in (0..count).rev() {
        buf[i] = digit_byte((v % 10) as u8);
        v = v / 10;
    }
    count
}

// How many digits a number has.
pub fn number_len(n: u64) -> usize
    ensures is { result ≡ length (number_text n) }
    ensures short { result ≤ 20 }
{
    let mut v = n;
    let mut k = 1;
    // The tenths come to their end: no range counts them.
    while 10 <= v {
        v = v / 10;
        k += 1;
    }
    k
}

// Writes a number of one digit.
fn put_one(buf: &mut [u8], n: u64) -> usize
    requires { (n < 10) × (1 ≤ length buf.old) }
    ensures { Wrote (number_text n) buf.old buf.new result }
{
    buf[0] = digit_byte(n as u8);
    1
}

// Writes a number of two digits.
fn put_two(buf: &mut [u8], n: u64) -> usize
    requires { (10 ≤ n) × (n < 100) × (2 ≤ length buf.old) }
    ensures { Wrote (number_text n) buf.old buf.new result }
{
    buf[0] = digit_byte((n / 10) as u8);
    buf[1] = digit_byte((n % 10) as u8);
    2
}

// The last hex digits of the eight bytes of a word, all at once: 0 to 9, a to f. Below 10 a digit and 6 stay below 16.
fn last_digits(x: u64) -> u64
    ensures { result ≡ last_digits 8 x }
{
    let digits = x & 0x0f0f_0f0f_0f0f_0f0f;
    let letters = ((digits + 0x0606_0606_0606_0606) / 16) & 0x0101_0101_0101_0101;
    digits + 0x3030_3030_3030_3030 + letters * 39
}

// Writes the eight bytes of two words in turn, from the last to the first.
fn put_in_turn(buf: &mut [u8], first: u64, second: u64) -> usize
    requires { 16 ≤ length buf.old }
    ensures { Wrote (in_turn 8 first second) buf.old buf.new result }
{
    let mut a = first;
    let mut b = second;
    for i in (0..8).rev() {
        buf[2 * i + 1] = (b % 256) as u8;
        buf[2 * i] = (a % 256) as u8;
        a = a / 256;
        b = b / 256;
    }
    16
}

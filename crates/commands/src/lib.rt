// A line of a session, parsed: which call it asks for, and with what; and bytes in hex, for the answers.
#![tactic(auto)]

ghost use Rattle.std.specs.Prelude.{◌≡◌, true, ◌+◌, ◌/◌, ◌%◌, ◌<◌, ◌≤◌, length, take, drop};
ghost use Rattle.machine.specs.Text.{digit};
ghost use Rattle.commands.specs.Digits.{digit_value, digits, bytes, number_from, at_most};
ghost use Rattle.commands.specs.Meaning as m;
ghost use Rattle.commands.specs.Meaning.{longest, words, passed_over, called, meaning};
ghost use Rattle.commands.specs.Table.{alone_as, command_of};
ghost use Rattle.commands.specs.Promise.{Means, Asks, FindsSpace, Extends, Encodes, EncodesIn};

use machine::LONGEST_SHEET;
use texts::{Text, Written};

// The calls that a batch comes with.
#[derive(Clone, Copy)]
pub enum Change {
    Load,
    Withdraw,
}

// The calls that write into a buffer.
#[derive(Clone, Copy)]
pub enum Report {
    Print,
    Save,
    Expression,
}

// No word is longer than ten bytes, so the space behind it is one of the first eleven.
const WORD_ROOM: usize = 11;

// The longest buffer that an expression is lent: 1 MB.
pub const EXPRESSION_ROOM: usize = 1048576;

// The calls that take nothing.
#[derive(Clone, Copy)]
pub enum Move {
    Close,
    Round,
    Reopen,
    Verdict,
}

// The calls that a name comes with.
#[derive(Clone, Copy)]
pub enum Naming {
    Mark,
    Return,
}

// What a line asks for: a call with the count of bytes at the start of the batch (of a name too, which is put there), with the length
// of the buffer that it lends, or with neither.
#[derive(Clone, Copy)]
pub enum Call {
    Changes(Change, usize),
    Reports(Report, usize),
    Moves(Move),
    Names(Naming, usize),
}

// Why a line asks for no call: it is passed over, or what it says is wrong.
#[derive(Clone, Copy)]
pub enum NoCall {
    Nothing,
    BadHex,
    TooLong,
    Unknown,
}

// The value of a digit of either case; 16 for any other byte, as `digit_value` says, which is no digit to any base.
#[tactic(auto, unfolding(crate::specs::Digits::digit_value, crate::specs::Digits::between))]
fn value(c: u8) -> u8
    ensures { result ≡ digit_value c }
{
    match c {
        48..=57 => c - 48,
        97..=102 => c - 87,
        65..=70 => c - 55,
        _ => 16,
    }
}

// Is every byte a digit to the base?
#[tactic(auto, using(crate::proofs::Values::digits_fail, crate::proofs::Values::digits_end))]
fn digits(text: &[u8], base: u8) -> bool
    ensures { result ≡ digits base text.now }
{
    for c in text {
        if value(*c) >= base {
            return false;
        }
    }
    true
}

// Writes the bytes that pairs of hex digits name.
fn decode(text: &[u8], batch: &mut [u8]) -> usize
    requires { (length text.now % 2 ≡ 0) × (digits 16 text.now ≡ true) × (length text.now / 2
        ≤ length batch.old) }
    ensures { (result ≤ length batch.new) × (take result batch.new ≡ bytes text.now) }
{
    for i in 0..text.len() / 2 {
        batch[i] = value(text[2 * i]) * 16 + value(text[2 * i + 1]);
    }
    text.len() / 2
}

// The byte of a hex digit, in lower case.
fn digit_byte(d: u8) -> u8
    requires { d < 16 }
    ensures { result ≡ digit d }
{
    if d < 10 { 48 + d } else { 87 + d }
}

// Writes bytes as pairs of hex digits, in lower case, where they fit.
fn put_pairs(bytes: &[u8], text: &mut [u8]) -> usize
    requires { length bytes.now + length bytes.now ≤ length text.old }
    ensures { Encodes bytes.now text.new result }
{
    for (i, b) in bytes.iter().enumerate() {
        text[2 * i] = digit_byte(*b / 16);
        text[2 * i + 1] = digit_byte(*b % 16);
    }
    2 * bytes.len()
}

// Writes bytes as pairs of hex digits, in lower case; nothing where the text has no room for all of them.
#[tactic(auto, using(crate::proofs::Texts::nothing_held))]
pub fn encode(bytes: &[u8], text: &mut [u8]) -> usize
    ensures { EncodesIn bytes.now text.old text.new result }
{
    if bytes.len() > text.len() / 2 {
        return 0;
    }
    put_pairs(bytes, text)
}

// The call with the batch that hex digits name.
fn with_batch(call: Change, text: &[u8], batch: &mut [u8]) -> Result<Call, NoCall>
    ensures { Means (m.batch call (length batch.old) text.now) batch.new result }
{
    if text.len() % 2 != 0 {
        return Err(NoCall::BadHex);
    }
    if !digits(text, 16) {
        return Err(NoCall::BadHex);
    }
    if text.len() / 2 > batch.len() {
        return Err(NoCall::TooLong);
    }
    Ok(Call::Changes(call, decode(text, batch)))
}

// The longest buffer that a call is lent. No sheet and no save is longer than 6,400 bytes.
fn longest(call: Report) -> usize
    ensures { result ≡ longest call }
{
    match call {
        Report::Print => LONGEST_SHEET,
        Report::Save => LONGEST_SHEET,
        Report::Expression => EXPRESSION_ROOM,
    }
}

// The number, or `most` where it is more.
#[tactic(auto, unfolding(crate::specs::Digits::at_most))]
fn at_most(most: usize, n: usize) -> usize
    ensures { result ≡ at_most most n }
{
    if most < n { most } else { n }
}

// The number of decimal digits, at most `most`.
fn number(text: &[u8], most: usize) -> usize
    requires { most ≤ 1048576 }
    ensures { result ≡ at_most most (number_from 0 text.now) }
{
    let mut n = 0;
    for c in text {
        n = at_most(most, n * 10 + usize::from(value(*c)));
    }
    n
}

// The call with a buffer of the length that decimal digits name, one at least.
fn with_length(call: Report, text: &[u8]) -> Result<Call, NoCall>
    ensures { Asks (m.lends call text.now) result }
{
    if text.len() == 0 {
        return Err(NoCall::Unknown);
    }
    if !digits(text, 10) {
        return Err(NoCall::Unknown);
    }
    Ok(Call::Reports(call, number(text, longest(call))))
}

// The call with a name, which is put to the start of the batch.
#[tactic(auto, using(crate::proofs::Texts::name_long))]
fn with_name(call: Naming, text: &[u8], batch: &mut [u8]) -> Result<Call, NoCall>
    ensures { Means (m.with_name call (length batch.old) text.now) batch.new result }
{
    if text.len() > batch.len() {
        return Err(NoCall::TooLong);
    }
    Ok(Call::Names(call, Text(text).put(batch)))
}

// Is the line empty or a comment?
#[tactic(auto, using(crate::proofs::Texts::passed_empty, crate::proofs::Texts::passed_first))]
fn is_passed_over(line: &[u8]) -> bool
    ensures { result ≡ passed_over line.now }
{
    line.is_empty() || line[0] == b'#'
}

// The place of the first space.
fn space(line: &[u8]) -> Option<usize>
    ensures { FindsSpace line.now result }
{
    line.iter().position(|c| *c == b' ')
}

// What a word asks for where it stands alone.
// A `match` on the words would leave a goal for each byte in which two of them differ.
#[tactic(auto, unfolding(crate::specs::Meaning::words, crate::specs::Table::alone_as))]
fn alone(word: &[u8]) -> Result<Call, NoCall>
    ensures { result ≡ command_of (alone_as words word.now) }
{
    if word == b"load".as_slice() {
        Ok(Call::Changes(Change::Load, 0))
    } else if word == b"withdraw".as_slice() {
        Ok(Call::Changes(Change::Withdraw, 0))
    } else if word == b"print".as_slice() {
        Ok(Call::Reports(Report::Print, LONGEST_SHEET))
    } else if word == b"save".as_slice() {
        Ok(Call::Reports(Report::Save, LONGEST_SHEET))
    } else if word == b"close".as_slice() {
        Ok(Call::Moves(Move::Close))
    } else if word == b"round".as_slice() {
        Ok(Call::Moves(Move::Round))
    } else if word == b"reopen".as_slice() {
        Ok(Call::Moves(Move::Reopen))
    } else if word == b"verdict".as_slice() {
        Ok(Call::Moves(Move::Verdict))
    } else if word == b"mark".as_slice() {
        Ok(Call::Names(Naming::Mark, 0))
    } else if word == b"return".as_slice() {
        Ok(Call::Names(Naming::Return, 0))
    } else if word == b"expression".as_slice() {
        Ok(Call::Reports(Report::Expression, EXPRESSION_ROOM))
    } else {
        Err(NoCall::Unknown)
    }
}

// What the word asks for with a text behind it.
fn with_text(word: Call, text: &[u8], batch: &mut [u8]) -> Result<Call, NoCall>
    ensures { Extends word (length batch.old) text.now batch.new result }
{
    match word {
        Call::Changes(call, _) => with_batch(call, text, batch),
        Call::Reports(call, _) => with_length(call, text),
        Call::Names(call, _) => with_name(call, text, batch),
        Call::Moves(_) => Err(NoCall::Unknown),
    }
}

// The call of a line that starts with a word. No more of the line is looked at than where a word may end.
fn called(line: &[u8], batch: &mut [u8]) -> Result<Call, NoCall>
    ensures { Means (called words (length batch.old) line.now) batch.new result }
{
    let start = &line[..line.len().min(WORD_ROOM)];
    match space(start) {
        None => alone(line),
        Some(at) => {
            let word = alone(&line[..at])?;
            with_text(word, &line[at + 1..], batch)
        }
    }
}

// The call of a line. A batch that the line brings is decoded to the start of `batch`, a name is put there.
#[tactic(auto, unfolding(crate::specs::Meaning::meaning))]
pub fn parse(line: &[u8], batch: &mut [u8]) -> Result<Call, NoCall>
    ensures { Means (meaning (length batch.old) line.now) batch.new result }
{
    if is_passed_over(line) {
        return Err(NoCall::Nothing);
    }
    called(line, batch)
}

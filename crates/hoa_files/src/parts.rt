// What may stand at the head of some bytes: a number, a line with a number.
ghost use Rattle.std.specs.Prelude.{◌≤◌, ◌<◌, length};
ghost use Rattle.hoa_files.specs.Reading.{NoDigitFirst, RunsTo, CountsDigits, TellsNumber, FindsNumbered};

use crate::Numbered;

// How many digits stand at the head.
fn digits(rest: &[u8]) -> usize
    ensures { RunsTo rest.now result }
{
    rest.iter()
        .position(|c| !c.is_ascii_digit())
        .unwrap_or(rest.len())
}

// How many digits the number at the head has: several have no zero at their head.
fn count_digits(rest: &[u8]) -> Option<usize>
    ensures { CountsDigits rest.now result }
{
    match digits(rest) {
        0 => None,
        1 => Some(1),
        _ if rest[0] == b'0' => None,
        count => Some(count),
    }
}

// The number of these digits: one of several is ten at least.
fn number_of(digit: u8, count: usize) -> u8
    requires { 48 ≤ digit }
    ensures { TellsNumber digit count result }
{
    if count == 1 { digit - b'0' } else { 10 }
}

// The word, a number and the tail at the head.
pub fn numbered(rest: &[u8], word: &[u8], tail: &[u8]) -> Option<Numbered>
    requires { (0 < length tail.now) × NoDigitFirst tail.now }
    ensures { FindsNumbered word.now tail.now rest.now result }
{
    let number = rest.strip_prefix(word)?;
    let count = count_digits(number)?;
    number[count..].strip_prefix(tail)?;
    Some(Numbered {
        length: word.len() + count + tail.len(),
        number: number_of(number[0], count),
    })
}

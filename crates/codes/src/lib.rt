// An answer as one number and a place, for callers in C and Rust.
#![tactic(auto)]

ghost use Rattle.codes.specs.Coding.{Codes, CodesRefusal};

use machine::{Answer, Success, Verdict};

// An answer as a number: the length of a text, a verdict, or 2^32 times the number of the refusal, whose place is written to `place`.
pub fn code(answer: Answer, place: &mut u64) -> u64
    ensures { Codes answer place.old place.new result }
{
    match answer {
        Ok(Success::Done) => 0,
        Ok(Success::Wrote(n)) => n as u64,
        Ok(Success::Decided(Verdict::NonEmpty)) => 1,
        Ok(Success::Decided(Verdict::Empty)) => 0,
        Err(refusal) => refused(u8::from(refusal.cause), refusal.place, place),
    }
}

// A refusal as a number, by its own number, which may be any: that of no cause too.
pub fn refused(number: u8, at: usize, place: &mut u64) -> u64
    ensures { CodesRefusal number at place.old place.new result }
{
    *place = at as u64;
    number as u64 * 4294967296
}

// What calls return: those of the crates, and the functions of the library, by their codes.
use machine::{Answer, Refusal, Success};
use std::fmt;

// What the library multiplies the number of a refusal by.
const REFUSAL: u64 = 4294967296;

// The number of a refusal, and its place.
#[derive(Clone, Copy)]
pub(crate) struct Refused {
    pub number: u64,
    pub place: u64,
}

impl fmt::Display for Refused {
    fn fmt<W: fmt::Write>(&self, f: &mut fmt::Formatter<W>) -> fmt::Result {
        let number = self.number;
        let place = self.place;
        write!(f, "refuses {number} at {place}")
    }
}

// A length or a verdict, or what is refused.
pub(crate) type Returned = Result<u64, Refused>;

// What a function of the library returns, by the code and the place.
fn decoded(code: u64, place: u64) -> Returned {
    if code < REFUSAL {
        return Ok(code);
    }
    Err(Refused {
        number: code / REFUSAL,
        place,
    })
}

// What a call of a crate returns.
pub(crate) fn of_answer(answer: Answer) -> Returned {
    match answer {
        Ok(Success::Wrote(n)) => Ok(n as u64),
        Ok(_) => Ok(0),
        Err(Refusal { cause, place }) => Err(Refused {
            number: cause as u64,
            place: place as u64,
        }),
    }
}

pub(crate) fn sheet(batch: &[u8], buffer: &mut [u8]) -> Returned {
    let mut place = 0u64;
    let code = ffi::gozhmerik_sheet(batch, buffer, &mut place);
    decoded(code, place)
}

pub(crate) fn verdict(batch: &[u8]) -> Returned {
    let mut place = 0u64;
    let code = ffi::gozhmerik_verdict(batch, &mut place);
    decoded(code, place)
}

pub(crate) fn expression(batch: &[u8], buffer: &mut [u8]) -> Returned {
    let mut place = 0u64;
    let code = ffi::gozhmerik_expression(batch, buffer, &mut place);
    decoded(code, place)
}

pub(crate) fn hoa(file: &[u8], buffer: &mut [u8]) -> Returned {
    let mut place = 0u64;
    let code = ffi::gozhmerik_hoa(file, buffer, &mut place);
    decoded(code, place)
}

// The rows of a batch.
use crate::list::List;
use crate::sets::Set;
use std::fmt;

// The most rows that are read.
pub const ROWS: usize = 82;

pub type Rows = List<Row, ROWS>;

#[derive(Clone, Copy)]
pub enum Row {
    Initial(u8),
    Final(u8),
    Letter(u8, u8, u8),
    // From the left, set → state.
    Left(Set, u8),
    // From the right, state → set.
    Right(u8, Set),
    Struck(u8),
}

impl Row {
    // How many bytes the row has.
    fn length(self) -> usize {
        match self {
            Row::Letter(_, _, _) => 4,
            Row::Left(_, _) | Row::Right(_, _) => 10,
            _ => 2,
        }
    }

    // The set of a limit.
    pub fn set(self) -> Option<Set> {
        match self {
            Row::Left(set, _) | Row::Right(_, set) => Some(set),
            _ => None,
        }
    }

    // Why the row is refused: a state above 63, or a set without states.
    fn cause(self) -> Option<Cause> {
        let states = match self {
            Row::Letter(from, _, to) => from | to,
            Row::Left(_, s) | Row::Right(s, _) => s,
            Row::Initial(s) | Row::Final(s) | Row::Struck(s) => s,
        };
        if states > 63 {
            return Some(Cause::State);
        }
        if self.set() == Some(Set(0)) {
            return Some(Cause::EmptySet);
        }
        None
    }
}

// Why a row is refused, by the number of the refusal.
#[derive(Clone, Copy)]
enum Cause {
    Kind = 2,
    Cut = 3,
    State = 4,
    EmptySet = 5,
}

// A refusal, and the place of its row.
#[derive(Clone, Copy)]
pub struct Refused {
    cause: Cause,
    place: usize,
}

impl fmt::Display for Refused {
    fn fmt<W: fmt::Write>(&self, f: &mut fmt::Formatter<W>) -> fmt::Result {
        let number = self.cause as u8;
        let place = self.place;
        write!(f, "refused {number} at {place}")
    }
}

// The row at the start of the bytes.
fn read_row(bytes: &[u8]) -> Result<Row, Cause> {
    let row = match *bytes {
        [1, s, ..] => Row::Initial(s),
        [2, s, ..] => Row::Final(s),
        [3, from, letter, to, ..] => Row::Letter(from, letter, to),
        [4, a, b, c, d, e, f, g, h, to, ..] => {
            Row::Left(Set(u64::from_be_bytes([a, b, c, d, e, f, g, h])), to)
        }
        [5, from, a, b, c, d, e, f, g, h, ..] => {
            Row::Right(from, Set(u64::from_be_bytes([a, b, c, d, e, f, g, h])))
        }
        [6, s, ..] => Row::Struck(s),
        [1..=6, ..] => return Err(Cause::Cut),
        _ => return Err(Cause::Kind),
    };
    match row.cause() {
        Some(cause) => Err(cause),
        None => Ok(row),
    }
}

// The states that the rows name of which a function tells it.
pub fn named<F: Fn(Row) -> Option<u8>>(rows: &[Row], state_of: F) -> Set
    requires { F.IsAlwaysCallable state_of }
{
    let mut found = Set(0);
    for row in rows {
        if let Some(s) = state_of(*row) {
            found = found.with(s);
        }
    }
    found
}

// The rows, as many as there is room for, or the first that is refused.
pub fn read(batch: &[u8]) -> Result<Rows, Refused> {
    let mut rows = List::new(Row::Struck(0));
    let mut place = 0usize;
    for _ in 0..ROWS {
        let rest = batch.get(place..).unwrap_or(&[]);
        if rest.is_empty() {
            break;
        }
        let row = read_row(rest).map_err(|cause| Refused { cause, place })?;
        rows.push(row);
        place = place.saturating_add(row.length());
    }
    Ok(rows)
}

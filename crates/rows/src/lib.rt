// The rows of an automaton on linear orderings: read from bytes, written to bytes, and their keys.
#![tactic(auto)]

ghost use Rattle.std.specs.Prelude.{◌≡◌, [], ◌∷◌, ◌+◌, ◌≤◌, ◌<◌, length, get_or, MatchResult};
ghost use Rattle.causes.specs.declared.Cause.TheVariants.{CutShort, HighState};
ghost use Rattle.lists.specs.Writing.{Wrote, WroteAt};
ghost use Rattle.rows.specs.Rows.{row_bytes};
ghost use Rattle.rows.specs.Reading.{set_at, width, row_checked, set_read, read_row, Known, Headed, LimitAt};
ghost use Rattle.rows.specs.Keys.{high, key_of, row_of, set_of};
ghost use Rattle.rows.specs.declared.Row.TheVariants.{Successor};

use causes::Cause;
use sorted_keys::Key;

// States are 0 to this.
const LAST_STATE: u8 = 63;

// The weights of bytes 4 to 7 of a word.
const BYTE_4: u64 = 4294967296;

const BYTE_5: u64 = 256 * BYTE_4;

const BYTE_6: u64 = 256 * BYTE_5;

const BYTE_7: u64 = 256 * BYTE_6;

// Document 01, "Rows and the batch": the five kinds; request C-18: a sixth.
#[derive(Clone, Copy, PartialEq, Eq)]
pub enum Row {
    Initial(u8),
    Final(u8),
    Successor(u8, u8, u8),
    LeftLimit(u64, u8),
    RightLimit(u8, u64),
    Strike(u8),
}

// The set at place `at`: eight bytes, most significant first.
fn set_at(s: &[u8], at: usize) -> u64
    requires { at + 8 ≤ length s.now }
    ensures { result ≡ set_at s.now at }
{
    let mut bytes = [0; 8];
    bytes.copy_from_slice(&s[at..at + 8]);
    u64::from_be_bytes(bytes)
}

// Refuses a row that is shorter than its kind.
fn check_width(rest: &[u8], width: usize) -> Result<(), Cause>
    ensures { MatchResult result (λ u. width ≤ length rest.now)
        (λ c. (c ≡ CutShort) × (length rest.now < width)) }
{
    if rest.len() < width {
        return Err(Cause::CutShort);
    }
    Ok(())
}

// Refuses what is no state.
fn check_low(state: u8) -> Result<(), Cause>
    ensures { MatchResult result (λ u. state ≤ 63) (λ c. (c ≡ HighState) × (63 < state)) }
{
    if LAST_STATE < state {
        return Err(Cause::HighState);
    }
    Ok(())
}

// Refuses a row of kind 1, 2 or 6 by its lowest cause.
pub fn check_state(rest: &[u8]) -> Result<(), Cause>
    requires { Known (get_or rest.now 0 0) × (width (get_or rest.now 0 0) ≡ 2) }
    ensures { result ≡ row_checked rest.now }
{
    check_width(rest, 2)?;
    check_low(rest[1])
}

// Refuses a row of kind 3 by its lowest cause.
pub fn check_step(rest: &[u8]) -> Result<(), Cause>
    requires { get_or rest.now 0 0 ≡ 3 }
    ensures { result ≡ row_checked rest.now }
{
    check_width(rest, 4)?;
    check_low(rest[1])?;
    check_low(rest[3])
}

// The set of a row of kind 4 or 5, which has its state and its set at these places. It is read once.
pub fn read_set(rest: &[u8], state_place: usize, set_place: usize) -> Result<u64, Cause>
    requires { LimitAt (get_or rest.now 0 0) state_place set_place }
    ensures { result ≡ set_read rest.now set_place }
{
    check_width(rest, 10)?;
    check_low(rest[state_place])?;
    match set_at(rest, set_place) {
        0 => Err(Cause::ZeroSet),
        set => Ok(set),
    }
}

// A row of kind 1, 2 or 6: its state.
fn read_state(rest: &[u8], kind: u8) -> Result<(Row, usize), Cause>
    requires { Headed kind rest.now × Known kind × (width kind ≡ 2) }
    ensures { result ≡ read_row rest.now }
{
    check_state(rest)?;
    let state = rest[1];
    let row = match kind {
        1 => Row::Initial(state),
        2 => Row::Final(state),
        _ => Row::Strike(state),
    };
    Ok((row, 2))
}

// A row of kind 3: two states with a letter between them.
fn read_step(rest: &[u8]) -> Result<(Row, usize), Cause>
    requires { Headed 3 rest.now }
    ensures { result ≡ read_row rest.now }
{
    check_step(rest)?;
    Ok((Row::Successor(rest[1], rest[2], rest[3]), 4))
}

// A row of kind 4 or 5: a state and a set, at the places that the kind has for them.
fn read_limit(
    rest: &[u8],
    kind: u8,
    state_place: usize,
    set_place: usize,
) -> Result<(Row, usize), Cause>
    requires { Headed kind rest.now × LimitAt kind state_place set_place }
    ensures { result ≡ read_row rest.now }
{
    let set = read_set(rest, state_place, set_place)?;
    let row = match kind {
        4 => Row::LeftLimit(set, rest[state_place]),
        _ => Row::RightLimit(rest[state_place], set),
    };
    Ok((row, 10))
}

// The row at the head of the bytes with the count of its bytes, or the cause of the lowest number that refuses it.
pub fn read_row(rest: &[u8]) -> Result<(Row, usize), Cause>
    ensures { result ≡ read_row rest.now }
{
    check_width(rest, 1)?;
    // Document 01: by the kind byte, with a range for unknown kinds.
    match rest[0] {
        1 => read_state(rest, 1),
        2 => read_state(rest, 2),
        3 => read_step(rest),
        4 => read_limit(rest, 4, 9, 1),
        5 => read_limit(rest, 5, 1, 2),
        6 => read_state(rest, 6),
        0 | 7..=255 => Err(Cause::UnknownKind),
    }
}

// Writes the bytes at the front of the buffer.
fn put(buf: &mut [u8], bytes: &[u8]) -> usize
    requires { length bytes.now ≤ length buf.old }
    ensures { Wrote bytes.now buf.old buf.new result }
{
    lists::write_over(&mut buf[..bytes.len()], bytes);
    bytes.len()
}

// The first word of the key of a letter row, whose second word is 0. By shifts: bytes put together took longer on long batches.
#[tactic(auto, unfolding(crate::specs::Keys::high))]
pub fn letter_word(p: u8, a: u8, q: u8) -> u64
    ensures { result ≡ high (Successor p a q) }
{
    3 * BYTE_7 + u64::from(p) * BYTE_6 + u64::from(a) * BYTE_5 + u64::from(q) * BYTE_4
}

impl Row {
    // How many bytes the row has.
    #[tactic(auto, unfolding(crate::specs::Rows::row_bytes))]
    pub fn len(self) -> usize
        ensures { result ≡ length (row_bytes self) }
    {
        match self {
            Row::Initial(_) | Row::Final(_) | Row::Strike(_) => 2,
            Row::Successor(_, _, _) => 4,
            Row::LeftLimit(_, _) | Row::RightLimit(_, _) => 10,
        }
    }

    // Writes the row's bytes at the front of the buffer.
    #[tactic(auto, unfolding(crate::specs::Rows::row_bytes))]
    pub fn write(self, buf: &mut [u8]) -> usize
        requires { length (row_bytes self) ≤ length buf.old }
        ensures { Wrote (row_bytes self) buf.old buf.new result }
    {
        match self {
            Row::Initial(s) => put(buf, &[1, s]),
            Row::Final(s) => put(buf, &[2, s]),
            Row::Successor(p, a, q) => put(buf, &[3, p, a, q]),
            Row::LeftLimit(set, r) => {
                let [a, b, c, d, e, f, g, h] = set.to_be_bytes();
                put(buf, &[4, a, b, c, d, e, f, g, h, r])
            }
            Row::RightLimit(l, set) => {
                let [a, b, c, d, e, f, g, h] = set.to_be_bytes();
                put(buf, &[5, l, a, b, c, d, e, f, g, h])
            }
            Row::Strike(s) => put(buf, &[6, s]),
        }
    }

    // Writes the row's bytes from `at` on, and returns the next place.
    pub fn write_at(self, buf: &mut [u8], at: usize) -> usize
        requires { at + length (row_bytes self) ≤ length buf.old }
        ensures { WroteAt (row_bytes self) buf.old buf.new at result }
    {
        at + self.write(&mut buf[at..])
    }

    // The row's key. Put into its callers, which make the keys of many rows.
    #[tactic(auto, unfolding(crate::specs::Keys::high, crate::specs::Keys::low))]
    #[inline(always)]
    pub fn key(self) -> Key
        ensures { result ≡ key_of self }
    {
        match self {
            Row::Initial(s) => Key {
                high: u64::from_be_bytes([1, s, 0, 0, 0, 0, 0, 0]),
                low: 0,
            },
            Row::Final(s) => Key {
                high: u64::from_be_bytes([2, s, 0, 0, 0, 0, 0, 0]),
                low: 0,
            },
            Row::Successor(p, a, q) => Key {
                high: letter_word(p, a, q),
                low: 0,
            },
            // The parts of a set as numbers: put together from bytes they took twice the steps.
            Row::LeftLimit(set, q) => Key {
                high: 4 * BYTE_7 + set / 256,
                low: set % 256 * 256 + u64::from(q),
            },
            Row::RightLimit(q, set) => Key {
                high: 5 * BYTE_7 + u64::from(q) * BYTE_6 + set / 65536,
                low: set % 65536,
            },
            Row::Strike(s) => Key {
                high: u64::from_be_bytes([6, s, 0, 0, 0, 0, 0, 0]),
                low: 0,
            },
        }
    }

    // The row of a key.
    #[tactic(auto, unfolding(crate::specs::Keys::row_from))]
    pub fn of_key(key: Key) -> Row
        ensures { result ≡ row_of key }
    {
        let [kind, a, b, c, ..] = key.high.to_be_bytes();
        let [.., i] = key.low.to_be_bytes();
        match kind {
            1 => Row::Initial(a),
            2 => Row::Final(a),
            3 => Row::Successor(a, b, c),
            4 => Row::LeftLimit(key.high % BYTE_7 * 256 + key.low / 256 % 256, i),
            5 => Row::RightLimit(a, key.high % BYTE_6 * 65536 + key.low % 65536),
            _ => Row::Strike(a),
        }
    }

    // The row's set, if it has one.
    pub fn set(self) -> Option<u64>
        ensures { result ≡ set_of self }
    {
        match self {
            Row::LeftLimit(set, _) | Row::RightLimit(_, set) => Some(set),
            Row::Initial(_) | Row::Final(_) | Row::Successor(_, _, _) | Row::Strike(_) => None,
        }
    }
}

// The marks of a session: their names, and what is kept under each.
#![tactic(auto)]

ghost use Rattle.std.specs.Prelude.{◌≡◌, ◌==◌, ◌↔◌, ℕ, [], ◌≤◌, ◌<◌, length, slice_index, EachIndex, IsTrue, position};
ghost use Rattle.lists.specs.Tests.{Decides};
ghost use Rattle.machine.specs.Marks.{Name};
ghost use Rattle.marks.specs.Record.{name_number, marks_of};
ghost use Rattle.marks.specs.Promise.{Keeps, Unpacks, HoldsKeys, FindsPlace, PutsMark, HoldsKept};

use machine::{MOST_ROWS, Phase};
use row_table::RowKeys;
use sorted_keys::Key;

// As many marks as a session has, and the bytes that a name may have.
pub const MOST_MARKS: usize = 4;

pub const LONGEST_NAME: usize = 8;

// What is kept under a name: the keys of the standing rows, the phase, and the count of rounds. The sets and the openings follow from these.
// The second word of a key has two bytes here: keys in one array would take 16 bytes each, and not 10.
#[derive(Clone, Copy)]
pub struct Kept {
    pub high: [u64; MOST_ROWS],
    pub low: [u16; MOST_ROWS],
    pub row_count: usize,
    pub phase: Phase,
    pub rounds: u8,
}

// A name as a number, and what is kept under it.
#[derive(Clone, Copy)]
pub struct Mark {
    pub name: u64,
    pub kept: Kept,
}

// The marks in the order in which their names were first used. What is not used holds a filler.
#[derive(Clone, Copy)]
pub struct Marks {
    pub marks: [Mark; MOST_MARKS],
    pub count: usize,
}

// Is the byte one of `a` to `z`?
fn is_letter(b: u8) -> bool
    ensures { IsTrue result ↔ ((97 ≤ b) × (b ≤ 122)) }
{
    b.is_ascii_lowercase()
}

// Are all the bytes letters?
fn all_letters(bytes: &[u8]) -> bool
    ensures { IsTrue result ↔ EachIndex bytes.now
        (λ k. (97 ≤ slice_index bytes.now k) × (slice_index bytes.now k ≤ 122)) }
{
    bytes.iter().all(|b| is_letter(*b))
}

// Is it a name: 1 to 8 bytes `a` to `z`?
fn is_name(name: &[u8]) -> bool
    ensures { Decides result (Name name.now) }
{
    1 <= name.len() && name.len() <= LONGEST_NAME && all_letters(name)
}

// The bytes of a name as one number, the last of them most significant: no two names have one number.
fn name_number(name: &[u8]) -> u64
    requires { length name.now ≤ 8 }
    ensures { result ≡ name_number name.now }
{
    let mut bytes = [0u8; 8];
    bytes[..name.len()].copy_from_slice(name);
    u64::from_le_bytes(bytes)
}

// The place of the first mark whose name has the number.
fn first_place(marks: &[Mark], number: u64) -> Option<usize>
    ensures { result ≡ position (λ k. k.name == number) marks.now }
{
    marks.iter().position(|mark| mark.name == number)
}

impl Kept {
    // What is kept of the rows that have these keys.
    pub fn new(rows: &RowKeys, phase: Phase, rounds: u8) -> Kept
        ensures { Keeps rows.now.keys rows.now.count phase rounds result }
    {
        let mut high = [0u64; MOST_ROWS];
        let mut low = [0u16; MOST_ROWS];
        for i in 0..rows.count {
            let key = rows.keys[i];
            high[i] = key.high;
            low[i] = (key.low % 65536) as u16;
        }
        Kept {
            high,
            low,
            row_count: rows.count,
            phase,
            rounds,
        }
    }

    // The keys again, at all places.
    pub fn keys(&self) -> RowKeys
        requires { self.now.row_count ≤ 256 }
        ensures unpacks { Unpacks self.now result }
        ensures holds { HoldsKeys self.now result }
    {
        let mut keys = [Key { high: 0, low: 0 }; MOST_ROWS];
        for i in 0..MOST_ROWS {
            keys[i] = Key {
                high: self.high[i],
                low: u64::from(self.low[i]),
            };
        }
        RowKeys {
            keys,
            count: self.row_count,
        }
    }
}

impl Marks {
    // No mark.
    pub fn none() -> Marks
        ensures { result ≡ marks_of [] }
    {
        let high = [0u64; MOST_ROWS];
        let low = [0u16; MOST_ROWS];
        let phase = Phase::Open;
        let blank = Kept {
            high,
            low,
            row_count: 0,
            phase,
            rounds: 0,
        };
        let mark = Mark {
            name: 0,
            kept: blank,
        };
        Marks {
            marks: [mark; MOST_MARKS],
            count: 0,
        }
    }

    // The place of the mark with the name; where there is none, that of a new one. What is no name has no place.
    pub fn place(&self, name: &[u8]) -> Option<usize>
        requires { self.now.count ≤ 4 }
        ensures { FindsPlace self.now name.now result }
    {
        if !is_name(name) {
            return None;
        }
        let at = first_place(&self.marks[..self.count], name_number(name));
        Some(at.unwrap_or(self.count))
    }

    // Puts a mark at that place.
    pub fn put(&mut self, at: usize, name: &[u8], kept: Kept)
        requires { (at < 4) × Name name.now }
        ensures { PutsMark self.old at name.now kept self.new }
    {
        let name = name_number(name);
        self.marks[at] = Mark { name, kept };
        if at == self.count {
            self.count = at + 1;
        }
    }

    // What is kept at a place.
    pub fn kept_at(&self, at: usize) -> Kept
        requires { at < 4 }
        ensures { HoldsKept self.now at result }
    {
        self.marks[at].kept
    }
}

// Sets of states.
use std::fmt;

// The bit of each state; the order is that of the numbers.
#[derive(Clone, Copy, PartialEq, Eq, PartialOrd, Ord)]
pub struct Set(pub u64);

impl Set {
    pub fn has(self, s: u8) -> bool {
        s < 64 && (self.0 >> s) & 1 == 1
    }

    pub fn with(self, s: u8) -> Set {
        if s < 64 {
            Set(self.0 | (1u64 << s))
        } else {
            self
        }
    }

    pub fn or(self, other: Set) -> Set {
        Set(self.0 | other.0)
    }

    pub fn and(self, other: Set) -> Set {
        Set(self.0 & other.0)
    }

    pub fn without(self, other: Set) -> Set {
        Set(self.0 & !other.0)
    }

    pub fn is_empty(self) -> bool {
        self.0 == 0
    }

    // Is every state of it in the other? Then their union is the other.
    pub fn is_inside(self, other: Set) -> bool {
        self.or(other) == other
    }

    pub fn lowest(self) -> Option<u8> {
        (0..64u8).find(|s| self.has(*s))
    }
}

// 16 hexadecimal digits.
impl fmt::Display for Set {
    fn fmt<W: fmt::Write>(&self, f: &mut fmt::Formatter<W>) -> fmt::Result {
        let bits = self.0;
        write!(f, "{bits:016x}")
    }
}

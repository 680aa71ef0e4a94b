// The rows of a batch that is made, and sets of its states.

pub fn has(set: u64, s: u64) -> bool {
    (set >> (s % 64)) & 1 == 1
}

pub fn with(set: u64, s: u64) -> u64 {
    set | (1u64 << (s % 64))
}

// The name of a state: itself, or its six bits turned round by three places and some of them changed. No two states share one.
fn name(s: u64, names: u64) -> u8 {
    let bits = s % 64;
    let named = if names % 2 == 0 {
        bits
    } else {
        ((bits << 3) | (bits >> 3)) ^ (names >> 1)
    };
    (named % 64) as u8
}

// The set of the names of its states, which are below 16.
fn named(set: u64, names: u64) -> u64 {
    (0..16u64)
        .filter(|s| has(set, *s))
        .fold(0, |found, s| with(found, u64::from(name(s, names))))
}

// The kinds of rows that mark a state.
#[derive(Clone, Copy)]
pub enum Mark {
    Initial = 1,
    Final = 2,
    Struck = 6,
}

// Rows at the start of a buffer, with the names of their states. What does not fit is dropped.
#[derive(Drop)]
pub struct Rows<'a> {
    batch: &'a mut [u8],
    pub length: usize,
    pub names: u64,
}

impl<'a> Rows<'a> {
    pub fn new(batch: &'a mut [u8], names: u64) -> Rows<'a> {
        Rows {
            batch,
            length: 0,
            names,
        }
    }

    fn put(&mut self, b: u8) {
        if self.length < self.batch.len() {
            self.batch[self.length] = b;
            self.length += 1;
        }
    }

    fn put_state(&mut self, s: u64) {
        self.put(name(s, self.names));
    }

    fn put_set(&mut self, set: u64) {
        for b in named(set, self.names).to_be_bytes() {
            self.put(b);
        }
    }

    pub fn put_mark(&mut self, mark: Mark, s: u64) {
        self.put(mark as u8);
        self.put_state(s);
    }

    pub fn put_step(&mut self, p: u64, letter: u8, q: u64) {
        self.put(3);
        self.put_state(p);
        self.put(letter);
        self.put_state(q);
    }

    // The row set → s or, of the other side, s → set.
    pub fn put_limit(&mut self, set: u64, s: u64, by_left: bool) {
        if by_left {
            self.put(4);
            self.put_set(set);
            self.put_state(s);
        } else {
            self.put(5);
            self.put_state(s);
            self.put_set(set);
        }
    }
}

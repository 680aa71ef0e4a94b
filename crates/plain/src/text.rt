// The text of a sheet.
use crate::settling::Settled;
use std::fmt;
use std::fmt::Write;

// A text at the start of a buffer.
#[derive(Drop)]
pub struct Text<'a> {
    buffer: &'a mut [u8],
    pub length: usize,
}

impl<'a> Text<'a> {
    pub fn new(buffer: &'a mut [u8]) -> Text<'a> {
        Text { buffer, length: 0 }
    }

    // Writes a byte behind the text, where there is room.
    fn put(&mut self, b: u8) {
        if self.length < self.buffer.len() {
            self.buffer[self.length] = b;
            self.length += 1;
        }
    }
}

impl<'a> fmt::Write for Text<'a> {
    fn write_str(&mut self, s: &str) -> fmt::Result {
        for b in s.as_bytes() {
            self.put(*b);
        }
        Ok(())
    }
}

// The lines of all openings, of 65 rounds: by round, then set, then loop before mix.
pub fn put_openings(settled: &Settled, text: &mut Text) -> fmt::Result {
    for k in 1..=65 {
        put_round(settled, k, text)?;
    }
    Ok(())
}

fn put_round(settled: &Settled, k: u64, text: &mut Text) -> fmt::Result {
    for t in settled.automaton.sets.as_slice() {
        let set = t.set;
        if t.looped == Some(k) {
            writeln!(text, "open {k} loop {set}")?;
        }
        if t.mixed == Some(k) {
            writeln!(text, "open {k} mix {set}")?;
        }
    }
    Ok(())
}

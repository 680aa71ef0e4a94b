// A second search, written plainly from document 01 with requests C-16 and C-18 so that the engine can be run against it. It shares no code with the engine.
// Nothing is promised of what it writes: each function is proved to stay in bounds and to end, and the sheets are compared.
// Its limits: 82 rows, 32 sets, 1,020 steps, of refusals those of single rows.
#![tactic(auto)]

mod claims;
mod list;
mod reader;
mod sets;
mod settling;
mod steps;
mod text;
mod walk;

use settling::Settled;
use std::fmt;
use std::fmt::Write;
use text::Text;

// The length of what was written, whether a set mixed only with its gaps, and whether struck states took a step away.
#[derive(Clone, Copy)]
pub struct Written {
    pub length: usize,
    pub by_gap: bool,
    pub by_strike: bool,
}

// Writes the sheet of the batch's rows into `out`, or the line of its refusal. What does not fit is dropped.
pub fn sheet(batch: &[u8], out: &mut [u8]) -> Written {
    let mut text = Text::new(out);
    match reader::read(batch) {
        Ok(rows) => {
            let settled = settling::settle(rows);
            let _ = report(&settled, &mut text);
            Written {
                length: text.length,
                by_gap: settled.by_gap,
                by_strike: settled.by_strike,
            }
        }
        Err(refused) => {
            let _ = writeln!(text, "{refused}");
            Written {
                length: text.length,
                by_gap: false,
                by_strike: false,
            }
        }
    }
}

// The lines: verdict, openings and, if non-empty, the walk.
fn report(settled: &Settled, text: &mut Text) -> fmt::Result {
    let rounds = settled.rounds;
    match settled.walk_length {
        Some(_) => writeln!(text, "verdict nonempty rounds {rounds}")?,
        None => writeln!(text, "verdict empty rounds {rounds}")?,
    }
    text::put_openings(settled, text)?;
    walk::put_walk(settled, text)
}

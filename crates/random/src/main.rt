// Random automata with nested limits, and spoiled batches, from a fixed seed: the engine's sheet or refusal against that of the plain
// second search, and its verdict by rising size against that sheet's.
#![tactic(auto)]

mod batches;
mod dice;
mod generator;
mod row_bytes;
mod tally;

use machine::Answer;
use program_output::first;
use tally::Tally;

// What the engine made of a batch against what the plain search makes of it without its last two bytes.
fn try_shorter(batch: &[u8], ours: &[u8], verdict: Answer, tally: &mut Tally) {
    let mut theirs = [0u8; 6400];
    let n = batch.len().wrapping_sub(2);
    let sheet = plain::sheet(first(batch, n), &mut theirs);
    tally.tell_pair(ours, first(&theirs, sheet.length), verdict);
}

// Tries one batch; and of some also that it is told from the same batch without its last row.
fn try_batch(rt: &impl Print, batch: &[u8], turn: u64, tally: &mut Tally) {
    let shown = checker::shown(batch);
    let text = shown.text;
    let ours = first(&text, shown.length);
    let verdict = checker::verdict(batch);
    let mut theirs = [0u8; 6400];
    let sheet = plain::sheet(batch, &mut theirs);
    let theirs = first(&theirs, sheet.length);
    if !tally.tell(ours, theirs, verdict) {
        tally::show(rt, batch, ours, theirs);
    }
    tally.count_special(sheet);
    if turn % 64 == 0 {
        try_shorter(batch, ours, verdict, tally);
    }
}

// Tries a batch that was not tried before.
fn try_one(rt: &impl Print, seed: u64, turn: u64, seen: &mut [u64], tally: &mut Tally) {
    let mut buffer = [0u8; 1024];
    let n = batches::write(seed, &mut buffer);
    let batch = first(&buffer, n);
    if batches::is_new(seen, batch) {
        try_batch(rt, batch, turn, tally);
    } else {
        tally.count_repeated();
    }
}

fn main(rt: HostRuntime) {
    let mut tally = Tally::new();
    let mut seen = [0u64; 32768];
    let mut seed = 2026u64;
    for turn in (1..=tally::BATCHES).rev() {
        try_one(&rt, seed, turn, &mut seen, &mut tally);
        seed = dice::next_seed(seed);
    }
    tally.report(&rt);
}

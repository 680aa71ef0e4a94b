// Batches of automata, every fifth spoiled; and those that were made before.
use crate::dice::{choice, next, next_seed};
use crate::generator::automaton;
use program_output::{beyond, first};

// As many rows as a batch may have: it has at most 1,024 bytes, and a row two or more.
const ROWS: usize = 512;

// The byte that spoils: 0, so that a set may have no state, or any.
fn bad_byte(word: u64) -> u8 {
    if choice(word, 1, 4) == 0 {
        return 0;
    }
    (choice(word, 2, 256) % 256) as u8
}

// Every fifth batch is cut short, or another byte is put in place of one; answers the length.
fn spoil(batch: &mut [u8], n: usize, word: u64) -> usize {
    if n == 0 || choice(word, 7, 5) != 0 {
        return n;
    }
    let at = (word >> 24) as usize % n;
    if choice(word, 0, 4) == 0 {
        return at;
    }
    if let Some(b) = batch.get_mut(at) {
        *b = bad_byte(word);
    }
    n
}

// Writes a batch and answers its length.
pub fn write(seed: u64, batch: &mut [u8]) -> usize {
    let word = next(next(seed));
    let n = automaton(word, batch);
    spoil(batch, n, next(word ^ 5))
}

// The digest goes on with a byte.
fn mixed(digest: u64, b: u8) -> u64 {
    next(next_seed(digest ^ u64::from(b)))
}

// A digest of some bytes.
fn digest(bytes: &[u8]) -> u64 {
    bytes.iter().fold(1, |found, b| mixed(found, *b))
}

// Keeps a digest on the first place that is free, from a place on, and says whether it is new. A place is free where 0 stands.
fn keep(seen: &mut [u64], from: usize, digest: u64) -> bool {
    let Some(places) = seen.get_mut(from..) else {
        return true;
    };
    for place in places {
        if *place == digest {
            return false;
        }
        if *place == 0 {
            *place = digest;
            return true;
        }
    }
    true
}

// How many bytes a row has, by its kind; where that is none, all that follow belong to it.
fn width(kind: u8) -> usize {
    match kind {
        1 | 2 | 6 => 2,
        3 => 4,
        4 | 5 => 10,
        _ => 1024,
    }
}

// The digest of a row, 0 where it was met before.
fn row_digest(met: &mut [u64], row: &[u8]) -> u64 {
    let d = digest(row);
    if keep(met, 0, d) { d } else { 0 }
}

// A digest of the rows of a batch, each once and in any order; of a spoiled one, what is no row counts as its last.
fn rows_digest(batch: &[u8]) -> u64 {
    let mut met = [0u64; ROWS];
    let mut sum = 1u64;
    let mut rest = batch;
    for _ in 0..ROWS {
        let Some(kind) = rest.first() else {
            break;
        };
        let n = width(*kind);
        sum = sum.wrapping_add(row_digest(&mut met, first(rest, n)));
        rest = beyond(rest, n);
    }
    sum
}

// Keeps the digest of the batch's rows, and says whether no batch before had the same rows.
pub fn is_new(seen: &mut [u64], batch: &[u8]) -> bool {
    let d = rows_digest(batch);
    keep(seen, (d % 30000) as usize, d)
}

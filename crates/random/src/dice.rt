// Words that look random and are the same in every run: Marsaglia's xorshift on 64 bits.

// The word after this one.
pub fn next(word: u64) -> u64 {
    let a = word ^ (word << 13);
    let b = a ^ (a >> 7);
    b ^ (b << 17)
}

// The word that automaton after automaton starts from: a sum that wraps, so that no two share their words.
pub fn next_seed(seed: u64) -> u64 {
    seed.wrapping_add(0x9e3779b97f4a7c15)
}

// The choice below `n` that byte `k` of the word makes, 0 where there is none.
pub fn choice(word: u64, k: u64, n: u64) -> u64 {
    if k < 8 && n > 0 {
        (word >> (k * 8)) % 256 % n
    } else {
        0
    }
}

// Places chained by a number. A link is one more than a place, 0 for none: each number has the link to its newest place, and each place the
// link to the one before it.
#![tactic(auto)]

ghost use Rattle.std.specs.Prelude.{◌≡◌, ◌+◌, ◌<◌, ◌≤◌, length, get_or, set};
ghost use Rattle.chains.specs.Chains.{Falls, Sought};

// The places of a chain that a loop has still to pass, the newest first.
#[derive(Drop)]
pub struct Links<'a> {
    next: &'a [u16],
    link: u16,
    ghost within: { link ≤ length next.now },
    ghost falls: { Falls next.now link },
}

// The places of the chain from `first` on, the newest first.
pub fn each(next: &[u16], first: u16) -> Links
    requires { (first ≤ length next.now) × Falls next.now first }
    ensures { (result.link ≡ first) × (result.next.now ≡ next.now) }
{
    Links { next, link: first }
}

impl<'a> Iterator for Links<'a> {
    ghost use Rattle.chains.specs.Passing.{GivesPlace};
    ghost use Rattle.std.specs.Iterator.{at_most};

    type Item = usize;

    ghost next_gives = { GivesPlace };

    ghost remaining = { λ s. at_most s.link };

    fn next(&mut self) -> Option<usize> {
        let at = usize::from(self.link).checked_sub(1)?;
        self.link = self.next[at];
        Some(at)
    }
}

// The newest place of the chain from `first` on whose word is `x`.
pub fn find(words: &[u64], next: &[u16], first: u16, x: u64) -> Option<usize>
    requires { (first ≤ length words.now) × (first ≤ length next.now) × Falls next.now first }
    ensures { Sought words.now next.now first x result }
{
    for at in each(next, first) {
        if words[at] == x {
            return Some(at);
        }
    }
    None
}

// The place `n` is the newest of the chain `h`.
pub fn put(heads: &mut [u16], next: &mut [u16], h: usize, n: usize)
    requires { (h < length heads.old) × (n < length next.old) × (n < 65535) }
    ensures links { next.new ≡ set next.old n (get_or heads.old h 0) }
    ensures newest { heads.new ≡ set heads.old h (n + 1) }
{
    next[n] = heads[h];
    heads[h] = n as u16 + 1;
}

// The letter rows as words, chained by the states that they start from, and the first step by one.
ghost use Rattle.std.specs.Prelude.{◌≡◌, true, false, ◌↔◌, ℕ, ◌≤◌, ◌<◌};
ghost use Rattle.rows.specs.Keys.{row_from};
ghost use Rattle.masks.specs.Mask.{member};
ghost use Rattle.machine.specs.declared.StepLabel.TheVariants.{Letter};
ghost use Rattle.row_table.specs.Letters.{LetterAt};
ghost use Rattle.walks.specs.Choices.{source, BySource, as_step, Better, Picked};

use machine::{MOST_ROWS, Step, StepLabel};
use masks::{NO_STATE, STATES, Set, has};
use rows::Row;
use sorted_keys::Key;

// The first `count` words, each in the chain of the state that its row starts from.
#[derive(Drop)]
pub struct Letters<'a> {
    pub words: &'a [u64; MOST_ROWS],
    pub count: usize,
    first: [u16; STATES],
    next: [u16; MOST_ROWS],
    ghost chained: { ∥ BySource first next words.now count ∥₁ },
}

// The row of a word, where its other word is 0.
fn row_of(word: u64) -> Row
    ensures { result ≡ row_from word 0 }
{
    Row::of_key(Key { high: word, low: 0 })
}

// The state that a letter row starts from. A row of another kind stands in the chain of state 0, where the search passes over it: then every word has
// a chain, and the laws of chains need no case for words without one.
fn source(row: Row) -> u8
    ensures is { result ≡ source row }
    ensures low { result < 64 }
{
    match row {
        Row::Successor(p, _, _) => p % NO_STATE,
        _ => 0,
    }
}

// Is `t`, which may be any number, a state of `layer`?
fn in_layer(layer: Set, t: u8) -> bool
    ensures { result ≡ member t layer }
{
    t < NO_STATE && has(layer, t)
}

// The lesser of the best word so far, if there is one, and of a word that is a letter row from `a` into `layer`.
fn better(best: Option<u64>, word: u64, a: u8, layer: Set) -> Option<u64>
    ensures { Better a layer best word result }
{
    match row_of(word) {
        Row::Successor(from, _, to) if from == a && in_layer(layer, to) => match best {
            Some(least) if least < word => best,
            _ => Some(word),
        },
        _ => best,
    }
}

// A letter row as a step; none where it is no such row.
fn letter_of(row: Row) -> Option<Step>
    ensures { result ≡ as_step row }
{
    match row {
        Row::Successor(_, letter, to) => Some(Step {
            label: StepLabel::Letter(letter),
            to,
        }),
        _ => None,
    }
}

impl<'a> Letters<'a> {
    pub fn new(words: &'a [u64; MOST_ROWS], count: usize) -> Letters<'a>
        requires { count ≤ 256 }
        ensures words { result.words.now ≡ words.now }
        ensures count { result.count ≡ count }
    {
        let mut first = [0u16; STATES];
        let mut next = [0u16; MOST_ROWS];
        for i in 0..count {
            chains::put(&mut first, &mut next, source(row_of(words[i])) as usize, i);
        }
        Letters {
            words,
            count,
            first,
            next,
        }
    }

    // The first letter step from `a` into `layer`.
    #[inline(always)]
    pub(crate) fn first_letter(&self, a: u8, layer: Set) -> Option<Step>
        requires { a < 64 }
        ensures { Picked layer (LetterAt self.now.words.now self.now.count a) (λ x l. l ≡ Letter x) Unit result }
    {
        let mut best = None;
        for at in chains::each(&self.next, self.first[a as usize]) {
            best = better(best, self.words[at], a, layer);
        }
        letter_of(row_of(best?))
    }
}

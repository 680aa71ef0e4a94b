// The graph that the search reads, made in one pass over the keys of rows.
#![tactic(auto)]

ghost use Rattle.std.specs.Prelude.{◌≡◌, not, ◌&&◌, ℕ, ◌≤◌, ◌<◌, List, [], ◌∷◌, ◌++◌, length, replicate};
ghost use Rattle.masks.specs.Mask.{member};
ghost use Rattle.rows.specs.declared.Row.{Row};
ghost use Rattle.search.specs.Graph.{Unindexed, Indexed};
ghost use Rattle.automaton.specs.Promise.{Adds, AddsAt, AddsLimit, HasSets, GivesKeyed, automaton_of};
ghost use Rattle.automaton.specs.Passed.{SetsPassed, TakesLetter, FinishesLetters};
ghost use Rattle.automaton.specs.Striking.{Remains, StruckSets, LeavesOut, Strikes, Finishes};

use masks::{NO_STATE, PLACES, Places, Set};
use row_table::{RowKeys, RowSets};
use rows::Row;
pub use search::Endpoints;
use search::graphs;
use search::graphs::{LEFTS, MASKS, Masks, RIGHTS, SETS};

// The graph of some rows as one array of masks; their initial and their final states.
#[derive(Drop)]
pub struct Automaton {
    pub graph: Masks,
    pub initials: Set,
    pub finals: Set,
}

// The states that rows of one state name, by kind: initial, final and struck ones.
#[derive(Clone, Copy)]
pub struct Seen {
    pub initials: Set,
    pub finals: Set,
    pub struck: Set,
}

impl Seen {
    // The initial and the final states that are not struck.
    pub fn points(self) -> Endpoints
        ensures starts { (t : ℕ) → member t result.initials ≡ (member t self.initials && not (member t self.struck)) }
        ensures ends { (t : ℕ) → member t result.finals ≡ (member t self.finals && not (member t self.struck)) }
    {
        Endpoints {
            initials: masks::difference(self.initials, self.struck),
            finals: masks::difference(self.finals, self.struck),
        }
    }
}

// The states of `m`, and `s`, if that is a state.
fn add(m: Set, s: u8) -> Set
    ensures { Adds m s result }
{
    if s < NO_STATE {
        return masks::with(m, s);
    }
    m
}

// Adds `s` to the mask at the place `at` of the part that begins at `base`, if there is one.
fn put(graph: &mut Masks, base: usize, at: usize, s: u8)
    requires { base ≤ 192 }
    ensures { AddsAt graph.old base at s graph.new }
{
    if at < PLACES {
        let i = base + at;
        graph[i] = add(graph[i], s);
    }
}

// Adds `s` to the mask at the place of the set in the part that begins at `base`, if it is one of the sets.
fn put_limit(graph: &mut Masks, base: usize, sets: &[Set], set: Set, s: u8)
    requires { (base ≤ 192) × (length sets.now ≤ 64) }
    ensures { AddsLimit sets.now graph.old base set s graph.new }
{
    if let Ok(at) = sets.binary_search(&set) {
        put(graph, base, at, s);
    }
}

// Puts the sets into their part of a graph that has nothing yet.
fn put_sets(graph: &mut Masks, sets: &[Set])
    requires { length sets.now ≤ 64 }
    ensures { graph.old ≡ replicate 448 0 → HasSets sets.now (length sets.now) graph.new }
{
    lists::write_over(&mut graph[SETS..SETS + sets.len()], sets);
}

// The states of `m` that are not struck, none if the mask goes.
fn remaining(m: Set, goes: bool, struck: Set) -> Set
    ensures { Remains m goes struck result }
{
    if goes {
        return 0;
    }
    masks::difference(m, struck)
}

// The places of the first `n` sets that have a struck state.
fn struck_sets(graph: &Masks, set_count: usize, struck: Set) -> Places
    requires { set_count ≤ 64 }
    ensures { StruckSets graph.now set_count struck result }
{
    let mut places: Places = 0;
    for i in 0..set_count {
        if masks::meets(graph[SETS + i], struck) {
            places = masks::with(places, i as u8);
        }
    }
    places
}

// Leaves the struck states out of the first `count` masks of the part that begins at `base`, and all states out of those at the places
// `gone`.
fn leave_out(graph: &mut Masks, base: usize, count: usize, gone: Places, struck: Set)
    requires { (base ≤ 192) × (count ≤ 64) }
    ensures { LeavesOut graph.old base count gone struck graph.new }
{
    for i in 0..count {
        let at = base + i;
        graph[at] = remaining(graph[at], masks::has(gone, i as u8), struck);
    }
}

// Request C-18: letter steps at struck states go, limits at them, and all limits of the sets that have one.
fn strike(graph: &mut Masks, set_count: usize, struck: Set)
    requires { set_count ≤ 64 }
    ensures { Strikes set_count struck graph.old graph.new }
{
    if struck == 0 {
        return;
    }
    let gone = struck_sets(graph, set_count, struck);
    leave_out(graph, 0, PLACES, struck, struck);
    leave_out(graph, LEFTS, set_count, gone, struck);
    leave_out(graph, RIGHTS, set_count, gone, struck);
}

// Of the masks of all rows, what struck states take away goes, and what says which sets a state touches is written once.
pub fn finish(graph: &mut Masks, set_count: usize, struck: Set)
    requires { set_count ≤ 64 }
    ensures { Finishes set_count struck graph.old graph.new }
{
    strike(graph, set_count, struck);
    graphs::index(graph, set_count);
}

// One row into the graph of the rows before it: it adds one state to one mask.
fn take_row(graph: &mut Masks, sets: &[Set], before: Seen, row: Row) -> Seen
    requires { length sets.now ≤ 64 }
    ensures bare { Unindexed graph.old (length sets.now) → Unindexed graph.new (length sets.now) }
    ensures takes { (l : List Row) → SetsPassed sets.now l graph.old before
        → SetsPassed sets.now (l ++ (row ∷ [])) graph.new result }
{
    match row {
        Row::Initial(s) => {
            return Seen {
                initials: add(before.initials, s),
                ..before
            };
        }
        Row::Final(s) => {
            return Seen {
                finals: add(before.finals, s),
                ..before
            };
        }
        Row::Successor(p, _, q) => put(graph, 0, usize::from(p), q),
        Row::LeftLimit(set, q) => put_limit(graph, LEFTS, sets, set, q),
        Row::RightLimit(q, set) => put_limit(graph, RIGHTS, sets, set, q),
        Row::Strike(s) => {
            return Seen {
                struck: add(before.struck, s),
                ..before
            };
        }
    }
    before
}

// Fills a graph that has nothing yet from the rows that have the keys.
pub fn fill(graph: &mut Masks, keys: &RowKeys, sets: &RowSets) -> Endpoints
    ensures gives { graph.old ≡ replicate 448 0 →
        GivesKeyed keys.now.keys keys.now.count sets.now.sets sets.now.count
        (automaton_of graph.new result.initials result.finals) }
    ensures indexed { graph.old ≡ replicate 448 0 → Indexed graph.new }
{
    let held = &sets.sets[..sets.count];
    put_sets(graph, held);
    let mut seen = Seen {
        initials: 0,
        finals: 0,
        struck: 0,
    };
    for key in &keys.keys[..keys.count] {
        seen = take_row(graph, held, seen, Row::of_key(*key));
    }
    finish(graph, sets.count, seen.struck);
    seen.points()
}

// The same as one value, for those who hold no graph.
pub fn of_keys(keys: &RowKeys, sets: &RowSets) -> Automaton
    ensures gives { GivesKeyed keys.now.keys keys.now.count
        sets.now.sets sets.now.count result }
    ensures indexed { Indexed result.graph }
{
    let mut graph = [0u64; MASKS];
    let points = fill(&mut graph, keys, sets);
    Automaton {
        graph,
        initials: points.initials,
        finals: points.finals,
    }
}

// One row into a graph without sets: without a claim limits lead nowhere.
pub fn take_letter(graph: &mut Masks, before: Seen, row: Row) -> Seen
    ensures { TakesLetter graph.old before row graph.new result }
{
    match row {
        Row::Successor(p, _, q) => {
            put(graph, 0, usize::from(p), q);
            before
        }
        Row::LeftLimit(_, _) | Row::RightLimit(_, _) => before,
        _ => take_row(graph, &[], before, row),
    }
}

// The letter steps of all rows are in such a graph: those at struck states go.
pub fn finish_letters(graph: &mut Masks, seen: Seen) -> Endpoints
    ensures { FinishesLetters graph.old seen graph.new result.initials result.finals }
{
    strike(graph, 0, seen.struck);
    seen.points()
}

// The fresh session; the table of a session as arrays of keys and sets, its automaton, and what close reads of it.
ghost use Rattle.std.specs.Prelude.{◌≡◌, ℕ, ◌<◌, List, get_or, replicate};
ghost use Rattle.sorted_keys.specs.Keys.{key_at};
ghost use Rattle.rows.specs.declared.Row.{Row};
ghost use Rattle.rows.specs.Rows.{AllFit};
ghost use Rattle.row_table.specs.Arrays.{Keyed, padded};
ghost use Rattle.search.specs.Graph.{Indexed};
ghost use Rattle.automaton.specs.Promise.{automaton_of};
ghost use Rattle.session.specs.Record.{blank};
ghost use Rattle.session.specs.Promise.{Fresh, Ranged};
ghost use Rattle.session.specs.Standing.{standing, HoldsTable, Reads, LettersOf};

use crate::{Keys, Session, Slot};
use automaton::Seen;
use machine::{MOST_ROWS, MOST_SETS, Phase};
use marks::Marks;
use row_table::{RowKeys, RowSets};
use rows::Row;
use search::Endpoints;
use search::graphs::Masks;
use sorted_keys::Key;

// What an unused place of the array of rows holds.
const BLANK: Row = Row::Initial(0);

// The rows of the keys, and then the filler.
fn rows_of(keys: &RowKeys) -> [Slot; MOST_ROWS]
    ensures { (rows : List Row) → AllFit rows → Keyed rows keys.now.keys keys.now.count
        → result ≡ padded 256 blank rows }
{
    let mut rows = [BLANK; MOST_ROWS];
    for i in 0..keys.count {
        rows[i] = Row::of_key(keys.keys[i]);
    }
    rows
}

// The first words of the keys: those of letter rows are the words that a walk reads.
pub(crate) fn words_of(keys: &RowKeys) -> [u64; MOST_ROWS]
    ensures { (i : ℕ) → i < keys.now.count → get_or result i 0 ≡ (key_at keys.now.keys i).high }
{
    let mut words = [0u64; MOST_ROWS];
    for i in 0..keys.count {
        words[i] = keys.keys[i].high;
    }
    words
}

impl Session {
    // Open, with no rows and no marks.
    pub fn fresh() -> Session
        ensures { Fresh result }
    {
        Session {
            rows: [BLANK; MOST_ROWS],
            row_count: 0,
            sets: [0; MOST_SETS],
            set_count: 0,
            loop_rounds: [0; MOST_SETS],
            mix_rounds: [0; MOST_SETS],
            phase: Phase::Open,
            rounds: 0,
            marks: Marks::none(),
        }
    }

    // The keys of the standing rows.
    pub(crate) fn keys(&self) -> Keys
        requires { Ranged self.now }
        ensures count { result.count ≡ self.now.row_count }
        ensures keyed { Keyed (standing self.now) result.keys result.count }
    {
        let mut keys = [Key { high: 0, low: 0 }; MOST_ROWS];
        for i in 0..self.row_count {
            keys[i] = self.rows[i].key();
        }
        RowKeys {
            keys,
            count: self.row_count,
        }
    }

    // Their sets.
    pub(crate) fn row_sets(&self) -> RowSets
        requires { Ranged self.now }
        ensures sets { result.sets ≡ self.now.sets }
        ensures count { result.count ≡ self.now.set_count }
    {
        RowSets {
            sets: self.sets,
            count: self.set_count,
        }
    }

    // The session with another table.
    pub(crate) fn with_table(self, keys: &RowKeys, sets: RowSets) -> Session
        ensures { HoldsTable self keys.now sets result }
    {
        let rows = rows_of(keys);
        let set_count = sets.count;
        let sets = sets.sets;
        Session {
            rows,
            row_count: keys.count,
            sets,
            set_count,
            ..self
        }
    }

    // The graph of the standing rows, into masks that have nothing yet; where its walks start and end.
    pub(crate) fn fill(&self, masks: &mut Masks) -> Endpoints
        requires { Ranged self.now }
        ensures reads { masks.old ≡ replicate 448 0 →
            Reads self.now (automaton_of masks.new result.initials result.finals) }
        ensures indexed { masks.old ≡ replicate 448 0 → Indexed masks.new }
    {
        automaton::fill(masks, &self.keys(), &self.row_sets())
    }

    // The letter steps of the standing rows, into a graph that has nothing yet; their initial and their final states.
    pub(crate) fn put_letters(&self, graph: &mut Masks) -> Endpoints
        requires { Ranged self.now }
        ensures { graph.old ≡ replicate 448 0 →
            LettersOf self.now graph.new result.initials result.finals }
    {
        let mut seen = Seen {
            initials: 0,
            finals: 0,
            struck: 0,
        };
        for row in &self.rows[..self.row_count] {
            seen = automaton::take_letter(graph, seen, *row);
        }
        automaton::finish_letters(graph, seen)
    }
}

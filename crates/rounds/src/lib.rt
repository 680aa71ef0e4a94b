// Rounds on masks and arrays: what each opens, the rounds in which claims opened, and all of them one after another.
#![tactic(auto)]

ghost use Rattle.std.specs.Prelude.{◌≡◌, true, false, ℕ, ◌≤◌, ◌<◌};
ghost use Rattle.lists.specs.Tests.{Decides};
ghost use Rattle.masks.specs.Mask.{◌∈◌};
ghost use Rattle.machine.specs.declared.Phase.TheVariants.{Running};
ghost use Rattle.machine.specs.Machine.{judged};
ghost use Rattle.search.specs.Graph.{graph_of};
ghost use Rattle.search.specs.Promises.{OpensBelow};
ghost use Rattle.candidates.specs.Promises.{Paired};
ghost use Rattle.rounds.specs.Arrays.{OpenPlaces, Notes};
ghost use Rattle.rounds.specs.Promises.{closed_as, Closes, DoesRound, Unaccepted, WorksUpTo, Settles};
ghost use Rattle.rounds.specs.Promises.{Idle, AllIdle, vain};

use candidates::Trial;
use lacks::Lacks;
use machine::{MOST_ROUNDS, MOST_SETS, Phase, Verdict};
use masks::{Places, Set, difference, each, meets, with};
use search::graphs::{MASKS, Masks};
use search::searches::{accepted, accepts_by_letters};
use search::{Claims, Endpoints, IndexedGraph, MaskGraph, TwoWayGraph};

// So many sets, and so many states of each, are looked at before the first round: to look at more would take as long as the round.
const FEW_SETS: usize = 16;

const FEW_STATES: usize = 8;

// The rounds in which the loop and the mix of each set opened, 0 for not open; the phase and the count of rounds.
#[derive(Clone, Copy)]
pub struct Progress {
    pub loop_rounds: [u8; MOST_SETS],
    pub mix_rounds: [u8; MOST_SETS],
    pub phase: Phase,
    pub rounds: u8,
}

// The phase after a close or a round: `accepted`, a walk leads from an initial to a final state; `vain`, nothing opened.
fn judge(accepted: bool, vain: bool) -> Phase
    ensures { result ≡ judged accepted vain }
{
    if accepted {
        return Phase::Settled(Verdict::NonEmpty);
    }
    if vain {
        return Phase::Settled(Verdict::Empty);
    }
    Phase::Running
}

// Is the phase running?
fn is_running(phase: Phase) -> bool
    ensures { Decides result (phase ≡ Running) }
{
    phase == Phase::Running
}

// Are there no claims? Asked of one mask: of the two in a struct the proof does not know that they fit a word, so `==` would not do.
fn nothing(new: Claims) -> bool
    ensures { Decides result ((t : ℕ) → (¬ (t ∈ new.loops)) × (¬ (t ∈ new.mixes))) }
{
    new.places() == 0
}

// The places below `n` whose round is not 0.
pub fn open_mask(rounds: &[u8; MOST_SETS], set_count: usize) -> Places
    requires { set_count ≤ 64 }
    ensures { OpenPlaces rounds.now set_count result }
{
    let mut r: Places = 0;
    for i in 0..set_count {
        if rounds[i] != 0 {
            r = with(r, i as u8);
        }
    }
    r
}

// Round `k` at the places of `opened`, and at the others what `rounds` had.
fn note(rounds: &mut [u8; MOST_SETS], opened: Places, round: u8)
    ensures { Notes rounds.old opened round rounds.new }
{
    for i in each(opened) {
        rounds[i as usize] = round;
    }
}

// Closed: no claim is open, and no round is done.
pub fn without_rounds(accepted: bool) -> Progress
    ensures { result ≡ closed_as accepted }
{
    let phase = judge(accepted, false);
    let loop_rounds = [0u8; MOST_SETS];
    let mix_rounds = [0u8; MOST_SETS];
    Progress {
        loop_rounds,
        mix_rounds,
        phase,
        rounds: 0,
    }
}

// Close: letters alone may lead from an initial to a final state. Nothing else of the graph is read.
pub fn close(graph: &Masks, ends: Endpoints) -> Progress
    ensures { Closes (graph_of graph.now) ends.initials ends.finals result }
{
    let accepted = accepts_by_letters(graph, ends.initials, ends.finals);
    without_rounds(accepted)
}

// The claims that a round opens, with the claims in force before it, as rounds leave them: all sets with no claim in force are tried.
fn opened(graph: &IndexedGraph, force: Claims, set_count: usize) -> Claims
    requires { set_count ≤ 64 }
    ensures { Paired graph.now force set_count
        → OpensBelow graph.now force set_count set_count result }
{
    let mut array = [0u64; MASKS];
    graph.turn_into(&mut array);
    let back = IndexedGraph::new(&array);
    let both = TwoWayGraph::new(graph, &back);
    let pieces = lacks::pieced(&graph.parts(), set_count);
    let mut lacks = Lacks::none();
    lacks.fill(&both, pieces, set_count);
    let places = candidates::live(force, set_count);
    lacks.supply(graph, force, 0, places);
    let trial = Trial {
        force,
        fresh: 0,
        pieces,
        places,
    };
    trial.open_next(&both, &lacks)
}

// One round: what it opens depends on the claims that were open before it, and on no other.
pub fn round(graph: &IndexedGraph, ends: Endpoints, set_count: usize, before: Progress) -> Progress
    requires { (set_count ≤ 64) × (before.rounds < 129) }
    ensures { DoesRound graph.now ends.initials ends.finals set_count before result }
{
    let mut loop_rounds = before.loop_rounds;
    let mut mix_rounds = before.mix_rounds;
    let loops = open_mask(&loop_rounds, set_count);
    let mixes = open_mask(&mix_rounds, set_count);
    let force = Claims { loops, mixes };
    let new = opened(graph, force, set_count);
    let accepted = graph.accepts(force.with_new(new), ends.initials, ends.finals);
    let phase = judge(accepted, nothing(new));
    let rounds = before.rounds + 1;
    note(&mut loop_rounds, new.loops, rounds);
    note(&mut mix_rounds, new.mixes, rounds);
    Progress {
        loop_rounds,
        mix_rounds,
        phase,
        rounds,
    }
}

// Rounds until the automaton is settled, `most` at most, where letters alone, which lead to the states `reached`, do not settle it.
fn run_rounds(
    graph: &TwoWayGraph,
    ends: Endpoints,
    set_count: usize,
    reached: Set,
    most: u8,
) -> Progress
    requires { (set_count ≤ 64) × (most ≤ 129)
        × Unaccepted graph.now ends.initials ends.finals reached }
    ensures { WorksUpTo graph.now ends.initials ends.finals set_count most result }
{
    let forth = graph.forth();
    let pieces = lacks::pieced(&forth.parts(), set_count);
    let mut lacks = Lacks::none();
    lacks.fill(graph, pieces, set_count);
    let mut trial = Trial {
        force: Claims::NONE,
        fresh: 0,
        pieces,
        places: candidates::live(Claims::NONE, set_count),
    };
    let mut seen = reached;
    let mut loop_rounds = [0u8; MOST_SETS];
    let mut mix_rounds = [0u8; MOST_SETS];
    for done in 0..most {
        let new = trial.open_next(graph, &lacks);
        let fresh = difference(new.loops, trial.force.mixes);
        let force = trial.force.with_new(new);
        let live = candidates::live(force, set_count);
        let places = lacks.supply(forth, new, fresh, live);
        trial = Trial {
            force,
            fresh,
            places,
            ..trial
        };
        seen = forth.reached_more(force, new, ends.initials, seen);
        let phase = judge(accepted(ends.initials, seen, ends.finals), nothing(new));
        let rounds = done + 1;
        note(&mut loop_rounds, new.loops, rounds);
        note(&mut mix_rounds, new.mixes, rounds);
        if !is_running(phase) {
            return Progress {
                loop_rounds,
                mix_rounds,
                phase,
                rounds,
            };
        }
    }
    Progress {
        loop_rounds,
        mix_rounds,
        phase: Phase::Running,
        rounds: most,
    }
}

// Is one of the lowest states of the set at place `i`, which is no exit of it, without a letter to a state of the set? Then it opens only after
// another set. That it is not says nothing.
#[tactic(auto, using(crate::proofs::Vain::idle_by))]
fn is_idle(graph: &MaskGraph, i: usize) -> bool
    requires { i < 64 }
    ensures { result ≡ true → Idle graph.now i }
{
    let p = graph.set_at(i);
    let inner = difference(p, graph.rights_at(i));
    for s in each(inner).take(FEW_STATES) {
        if !meets(graph.letters_at(s as usize), p) {
            return true;
        }
    }
    false
}

// Are all of the first `set_count` sets so, which are few? Then letters alone decide.
pub fn all_idle(graph: &MaskGraph, set_count: usize) -> bool
    requires { set_count ≤ 64 }
    ensures { result ≡ true → AllIdle graph.now set_count }
{
    if FEW_SETS < set_count {
        return false;
    }
    for i in 0..set_count {
        if !is_idle(graph, i) {
            return false;
        }
    }
    true
}

// Is the automaton, where all sets are idle, settled as empty by a first round that opens nothing? Told without the graph turned round. Where they
// are idle and it is not, it is settled as it is closed.
pub fn is_vain(graph: &IndexedGraph, ends: Endpoints, set_count: usize, idle: bool) -> bool
    requires { idle ≡ true → AllIdle graph.now set_count }
    ensures vain { result ≡ true → Settles graph.now ends.initials ends.finals set_count vain }
    ensures closed { result ≡ false → idle ≡ true
        → Settles graph.now ends.initials ends.finals set_count (closed_as true) }
{
    idle && !graph.accepts(Claims::NONE, ends.initials, ends.finals)
}

// Close, and rounds until the automaton is settled, `most` at most.
pub fn work(graph: &TwoWayGraph, ends: Endpoints, set_count: usize, most: u8) -> Progress
    requires { (set_count ≤ 64) × (most ≤ 129) }
    ensures { WorksUpTo graph.now ends.initials ends.finals set_count most result }
{
    let reached = graph.forth().reached(Claims::NONE, ends.initials);
    if accepted(ends.initials, reached, ends.finals) {
        return without_rounds(true);
    }
    run_rounds(graph, ends, set_count, reached, most)
}

// Close, and rounds until the automaton is settled: none needs more than 129.
pub fn settle(graph: &TwoWayGraph, ends: Endpoints, set_count: usize) -> Progress
    requires { set_count ≤ 64 }
    ensures { Settles graph.now ends.initials ends.finals set_count result }
{
    work(graph, ends, set_count, MOST_ROUNDS)
}

// A refutation checked by hints. A store of clause numbers holds the clauses of a formula and, behind them, lemmas, each ended by 0, the last
// one empty; the hints say for each lemma how many they are, and then at which places of the store clauses start. Nothing is believed of any of it.
#![tactic(auto)]

ghost use Rattle.std.specs.Prelude.{◌≡◌, ◌&&◌, ◌+◌, ◌-◌, ◌/◌, ◌≤◌, leb, length, take, drop};
ghost use Rattle.refutation_hints.specs.Propagation.{follows};
ghost use Rattle.refutation_hints.specs.Marks.{UpTo, Before};
ghost use Rattle.refutation_lemmas.specs.Refutation.{checked, Unsatisfiable};
ghost use Rattle.refutation_lemmas.specs.Ends.{before_end};

// What a check finds: the formula is refuted, or the first lemma that does not follow by its hints, counted from 0.
#[derive(Clone, Copy)]
pub enum Checked {
    Refuted,
    Unjustified(usize),
}

// Where the clause from a place on ends: the place of the first end mark, or behind the store.
fn clause_end(store: &[i32], at: usize) -> usize
    ensures { result ≡ at + before_end (drop at store.now) }
{
    if store.len() <= at {
        return at;
    }
    let rest = &store[at..];
    at + rest
        .iter()
        .position(|&z| refutation_hints::slot(z) == 0)
        .unwrap_or(rest.len())
}

// Whether the lemma between two places of the store follows by the hints from place `first` on, of which there are to be `count`.
fn is_justified(
    store: &[i32],
    at: usize,
    end: usize,
    hints: &[u32],
    first: usize,
    count: usize,
    marks: &mut [u32],
    turn: u32,
) -> bool
    requires { (at ≤ end) × (end ≤ length store.now) × (first ≤ length hints.now) × Before turn marks.old }
    ensures answer { result ≡ (leb count (length (drop first hints.now))
        && follows (length marks.old / 2) (take at store.now) (take (end - at) (drop at store.now))
        (take count (drop first hints.now))) }
    ensures scratch { UpTo turn marks.new }
{
    if count <= hints.len() - first {
        let last = first + count;
        return refutation_hints::lemma_follows(
            &store[..at],
            &store[at..end],
            &hints[first..last],
            marks,
            turn,
        );
    }
    false
}

// Checks the lemmas behind the first `front` numbers of the store. Variables are those below half the number of marks, whose contents do not
// count: they are scratch.
pub fn check(store: &[i32], front: usize, hints: &[u32], marks: &mut [u32]) -> Checked
    ensures answer { result ≡ checked (length marks.old / 2) (take front store.now)
        (drop front store.now) hints.now }
    ensures refuted { result ≡ Checked.Refuted → Unsatisfiable (take front store.now) }
    ensures scratch { length marks.new ≡ length marks.old }
{
    refutation_hints::clear(marks);
    let mut turn: u32 = 0;
    let mut at = front;
    let mut i = 0;
    let mut lemma = 0;
    while i < hints.len() {
        let end = clause_end(store, at);
        if store.len() <= end {
            return Checked::Unjustified(lemma);
        }
        turn = refutation_hints::next_turn(marks, turn);
        let count = hints[i] as usize;
        let first = i + 1;
        if is_justified(store, at, end, hints, first, count, marks, turn) {
            if end == at {
                return Checked::Refuted;
            }
            at = end + 1;
            i = first + count;
            lemma += 1;
        } else {
            return Checked::Unjustified(lemma);
        }
    }
    Checked::Unjustified(lemma)
}

// Whether a lemma follows by hints from the clauses known: unit propagation along them, with marks that hold what is false. Nothing is believed of any of it.
#![tactic(auto)]

ghost use Rattle.std.specs.Prelude.{◌≡◌, true, cond, ◌/◌, ◌≤◌, eqb, ℤ, neg_ℤ, length, drop};
ghost use Rattle.model.specs.Numbers.{clauses_in};
ghost use Rattle.answer_signs.specs.Signs.{among};
ghost use Rattle.refutation_hints.specs.Propagation.{every, within, first_outcome, starts_at, hint_outcome, propagates, follows};
ghost use Rattle.refutation_hints.specs.Marks.{slot_of, false_in, UpTo, Before, code_of, joined_code};

// Where the mark of a number is. Only an end mark has slot 0. Not by `parts_of`: with the sign read before the value, a loop of the check takes one
// instruction more for each number.
pub fn slot(z: i32) -> usize
    ensures { result ≡ slot_of z }
{
    (z.unsigned_abs() as usize) * 2 + usize::from(z < 0)
}

// Where the mark of its opposite is.
fn opposite(slot: usize) -> usize
    requires { 2 ≤ slot }
    ensures { ((z : ℤ) → slot_of z ≡ slot → result ≡ slot_of (neg_ℤ z)) × (result / 2 ≡ slot / 2) }
{
    if slot % 2 == 0 {
        return slot + 1;
    }
    slot - 1
}

// Whether a clause starts at a place.
fn starts_at(known: &[i32], place: usize) -> bool
    ensures { result ≡ starts_at known.now place }
{
    if place == 0 {
        return true;
    }
    let before = place - 1;
    if before < known.len() {
        return slot(known[before]) == 0;
    }
    false
}

// The outcome of a part of a clause, with one number more.
fn join(outcome: usize, slot: usize, mark: u32, turn: u32) -> usize
    requires { 2 ≤ slot }
    ensures { result ≡ joined_code outcome (cond (eqb mark turn) 0 slot) }
{
    if mark == turn {
        return outcome;
    }
    if outcome == 0 {
        return slot;
    }
    if outcome == slot {
        return slot;
    }
    1
}

// The outcome of the clause from a place on. It is left at the second number that is not false.
fn clause_outcome(known: &[i32], place: usize, marks: &[u32], turn: u32) -> usize
    ensures { result ≡ code_of (first_outcome (length marks.now / 2) (false_in marks.now turn)
        (clauses_in (drop place known.now))) }
{
    let limit = marks.len() / 2 * 2;
    let mut outcome = 0;
    for i in place..known.len() {
        let s = slot(known[i]);
        if s == 0 {
            return outcome;
        }
        if limit <= s {
            return 1;
        }
        outcome = join(outcome, s, marks[s], turn);
        if outcome == 1 {
            return 1;
        }
    }
    1
}

// The outcome of a hint.
fn hint_outcome(known: &[i32], place: usize, marks: &[u32], turn: u32) -> usize
    ensures { result ≡ code_of (hint_outcome (length marks.now / 2) known.now
        (false_in marks.now turn) place) }
{
    if starts_at(known, place) {
        return clause_outcome(known, place, marks, turn);
    }
    1
}

// Whether hints lead to a conflict. The opposite of each unit on the way becomes false in this turn.
fn propagate(known: &[i32], hints: &[u32], marks: &mut [u32], turn: u32) -> bool
    requires { UpTo turn marks.old }
    ensures answer { result ≡ propagates (length marks.old / 2) known.now (false_in marks.old turn)
        hints.now }
    ensures scratch { UpTo turn marks.new }
{
    for hint in hints {
        let outcome = hint_outcome(known, *hint as usize, marks, turn);
        if outcome == 0 {
            return true;
        }
        if outcome == 1 {
            return false;
        }
        let other = opposite(outcome);
        marks[other] = turn;
    }
    false
}

// Makes the numbers of a lemma, and no others, false in a new turn; or one of them has no mark.
fn mark_lemma(lemma: &[i32], marks: &mut [u32], turn: u32) -> bool
    requires { Before turn marks.old }
    ensures answer { result ≡ every (within (length marks.old / 2)) lemma.now }
    ensures marked { result ≡ true → (z : ℤ) → false_in marks.new turn z ≡ among z lemma.now }
    ensures scratch { UpTo turn marks.new }
{
    let limit = marks.len() / 2 * 2;
    for number in lemma {
        let s = slot(*number);
        if limit <= s {
            return false;
        }
        marks[s] = turn;
    }
    true
}

// Whether a lemma follows by its hints from what is known.
pub fn lemma_follows(
    known: &[i32],
    lemma: &[i32],
    hints: &[u32],
    marks: &mut [u32],
    turn: u32,
) -> bool
    requires { Before turn marks.old }
    ensures answer { result ≡ follows (length marks.old / 2) known.now lemma.now hints.now }
    ensures scratch { UpTo turn marks.new }
{
    if mark_lemma(lemma, marks, turn) {
        return propagate(known, hints, marks, turn);
    }
    false
}

// Makes every mark 0.
pub fn clear(marks: &mut [u32])
    ensures { UpTo 0 marks.new }
{
    marks.fill(0);
}

// The next turn, of which there is no mark yet. Behind the last one turns begin anew.
pub fn next_turn(marks: &mut [u32], turn: u32) -> u32
    requires { UpTo turn marks.old }
    ensures { Before result marks.new }
{
    if turn == 4294967295 {
        clear(marks);
        return 1;
    }
    turn + 1
}

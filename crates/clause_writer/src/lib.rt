// Clauses as numbers in a borrowed slice (RULES G20, "written at the start of what is left of the slice, behind
// the numbers already written"). Each function writes from the start of what it is lent and answers how many numbers that was. Here
// constants are dropped (RULES G28 and G29): a clause with a true literal is not written, and of the others no false one. Only of a
// clause of any length its group asks first whether a literal is true (`put_some_source`, `put_property`).
#![tactic(auto)]

ghost use Rattle.std.specs.Prelude.{[], ◌∷◌, ◌+◌, ◌≤◌, length, pos, negsuc};
ghost use Rattle.model.specs.Numbers.{kept_of, end_of, written};
ghost use Rattle.literals.specs.Lit.{literal_at, literal_of, IsLit, IsTerm};
ghost use Rattle.model.specs.Wrote.{Wrote};
ghost use Rattle.clause_writer.specs.EndedAfter.{ended_after};

use literals::{Lit, Term};

// The end mark of a clause.
fn put_mark(out: &mut [i32]) -> usize
    requires { 1 ≤ length out.old }
    ensures { Wrote (pos 0 ∷ []) out.old out.new result × (result ≤ 1) }
{
    out[0] = 0;
    1
}

// The single number of a clause left empty.
fn put_minus_one(out: &mut [i32]) -> usize
    requires { 1 ≤ length out.old }
    ensures { Wrote (negsuc 0 ∷ []) out.old out.new result × (result ≤ 1) }
{
    out[0] = -1;
    1
}

// One literal of a clause, a variable's.
fn put_lit(out: &mut [i32], a: Lit) -> usize
    requires { IsLit a × (1 ≤ length out.old) }
    ensures { Wrote (kept_of (literal_at a.0)) out.old out.new result × (result ≤ 1) }
{
    let x = a.0;
    out[0] = x;
    1
}

// One literal of a clause; nothing of a constant.
pub fn put_literal(out: &mut [i32], a: Term) -> usize
    requires { IsTerm a × (1 ≤ length out.old) }
    ensures { Wrote (kept_of (literal_of a)) out.old out.new result × (result ≤ 1) }
{
    match a {
        Term::True => 0,
        Term::False => 0,
        Term::Number(l) => put_lit(out, l),
    }
}

// The end of a clause of which `begun` numbers are written.
pub fn put_end(out: &mut [i32], begun: usize) -> usize
    requires { (1 ≤ length out.old) × (2 ≤ begun + length out.old) }
    ensures { Wrote (end_of begun) out.old out.new result × (result ≤ 2) }
{
    if begun == 0 {
        let i = put_minus_one(out);
        return i + put_mark(&mut out[i..]);
    }
    put_mark(out)
}

// A clause of one literal.
pub fn put_unit(out: &mut [i32], a: Term) -> usize
    requires { IsTerm a × (2 ≤ length out.old) }
    ensures { Wrote (written ((literal_of a ∷ []) ∷ [])) out.old out.new result × (result ≤ 2) }
{
    if a.is_true() {
        return 0;
    }
    let i = put_literal(out, a);
    i + put_end(&mut out[i..], i)
}

// A clause of two literals.
pub fn put_binary(out: &mut [i32], a: Term, b: Term) -> usize
    requires { IsTerm a × IsTerm b × (3 ≤ length out.old) }
    ensures { Wrote (written ((literal_of a ∷ literal_of b ∷ []) ∷ [])) out.old out.new result × (result ≤ 3) }
{
    if a.is_true() | b.is_true() {
        return 0;
    }
    let i = put_literal(out, a);
    let j = i + put_literal(&mut out[i..], b);
    j + put_end(&mut out[j..], j)
}

// A clause of two literals that are no constants: nothing is tested.
pub fn put_two_numbers(out: &mut [i32], a: Lit, b: Lit) -> usize
    requires { IsLit a × IsLit b × (3 ≤ length out.old) }
    ensures { Wrote (written ((literal_at a.0 ∷ literal_at b.0 ∷ []) ∷ [])) out.old out.new result × (result ≤ 3) }
{
    let i = put_lit(out, a);
    let j = i + put_lit(&mut out[i..], b);
    j + put_mark(&mut out[j..])
}

// A clause of three, which is most of what is written.
pub fn put_three_numbers(out: &mut [i32], a: Lit, b: Lit, c: Lit) -> usize
    requires { IsLit a × IsLit b × IsLit c × (4 ≤ length out.old) }
    ensures { Wrote (written ((literal_at a.0 ∷ literal_at b.0 ∷ literal_at c.0 ∷ []) ∷ []))
        out.old out.new result × (result ≤ 4) }
{
    let i = put_lit(out, a);
    i + put_two_numbers(&mut out[i..], b, c)
}

// The last three literals of a clause of which `begun` numbers are written, and its end.
fn put_last_three(out: &mut [i32], begun: usize, a: Term, b: Term, c: Term) -> usize
    requires { IsTerm a × IsTerm b × IsTerm c × (begun ≤ 2) × (4 ≤ length out.old) }
    ensures { Wrote (ended_after begun (literal_of a ∷ literal_of b ∷ literal_of c ∷ [])) out.old out.new result
        × (result ≤ 4) }
{
    let i = put_literal(out, a);
    let j = i + put_literal(&mut out[i..], b);
    let k = j + put_literal(&mut out[j..], c);
    k + put_end(&mut out[k..], begun + k)
}

// A clause of three literals.
pub fn put_ternary(out: &mut [i32], a: Term, b: Term, c: Term) -> usize
    requires { IsTerm a × IsTerm b × IsTerm c × (4 ≤ length out.old) }
    ensures { Wrote (written ((literal_of a ∷ literal_of b ∷ literal_of c ∷ []) ∷ [])) out.old out.new result
        × (result ≤ 4) }
{
    if a.is_true() | b.is_true() | c.is_true() {
        return 0;
    }
    put_last_three(out, 0, a, b, c)
}

// A clause of five literals.
pub fn put_quinary(out: &mut [i32], a: Term, b: Term, c: Term, d: Term, e: Term) -> usize
    requires { IsTerm a × IsTerm b × IsTerm c × IsTerm d × IsTerm e × (6 ≤ length out.old) }
    ensures { Wrote (written ((literal_of a ∷ literal_of b ∷ literal_of c ∷ literal_of d ∷ literal_of e ∷ []) ∷ []))
        out.old out.new result × (result ≤ 6) }
{
    if a.is_true() | b.is_true() | c.is_true() | d.is_true() | e.is_true() {
        return 0;
    }
    let i = put_literal(out, a);
    let j = i + put_literal(&mut out[i..], b);
    j + put_last_three(&mut out[j..], j, c, d, e)
}

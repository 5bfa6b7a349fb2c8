// Gates and equalities as clauses (the Tseitin encoding; RULES G1, G4, G6, G10, G12 and G32). Each function writes from the start of
// what it is lent and answers how many numbers that was.
#![tactic(auto)]

ghost use Rattle.std.specs.Prelude.{◌≡◌, [], ◌∷◌, ◌≤◌, length};
ghost use Rattle.model.specs.Clauses.{Literal, neg, and_clauses, same_clauses, same_if_clauses, same_if_all_clauses, bit_clauses};
ghost use Rattle.model.specs.Numbers.{written};
ghost use Rattle.literals.specs.Lit.{literal_at, literal_of, IsLit, IsTerm};
ghost use Rattle.model.specs.Wrote.{Wrote};

use clause_writer::{put_binary, put_quinary, put_ternary, put_three_numbers, put_two_numbers};
use literals::{Lit, Term};

// What clauses are written of: terms, or numbers, which are no constants, so that none is tested. A function over this trait is compiled for each.
trait ClauseLiteral: Copy {
    // Which literal it is.
    ghost means: { Self → Literal };

    // That it has such a number as a literal has.
    ghost can_stand: { Self → Type 0 };

    // ¬ of the rules.
    fn inverse(self) -> Self
        requires { can_stand self }
        ensures literal { means result ≡ neg (means self) }
        ensures stands { can_stand result };

    // A clause of two.
    fn put_two(out: &mut [i32], a: Self, b: Self) -> usize
        requires { can_stand a × can_stand b × (3 ≤ length out.old) }
        ensures { Wrote (written ((means a ∷ means b ∷ []) ∷ [])) out.old out.new result × (result ≤ 3) };

    // A clause of three.
    fn put_three(out: &mut [i32], a: Self, b: Self, c: Self) -> usize
        requires { can_stand a × can_stand b × can_stand c × (4 ≤ length out.old) }
        ensures { Wrote (written ((means a ∷ means b ∷ means c ∷ []) ∷ [])) out.old out.new result × (result ≤ 4) };
}

impl ClauseLiteral for Term {
    ghost means = { literal_of };

    ghost can_stand = { IsTerm };

    fn inverse(self) -> Term {
        self.negated()
    }

    fn put_two(out: &mut [i32], a: Term, b: Term) -> usize {
        put_binary(out, a, b)
    }

    fn put_three(out: &mut [i32], a: Term, b: Term, c: Term) -> usize {
        put_ternary(out, a, b, c)
    }
}

impl ClauseLiteral for Lit {
    ghost means = { λ l. literal_at l.0 };

    ghost can_stand = { IsLit };

    fn inverse(self) -> Lit {
        self.negated()
    }

    fn put_two(out: &mut [i32], a: Lit, b: Lit) -> usize {
        put_two_numbers(out, a, b)
    }

    fn put_three(out: &mut [i32], a: Lit, b: Lit, c: Lit) -> usize {
        put_three_numbers(out, a, b, c)
    }
}

// The clauses of a gate g = a ∧ b, of terms or of numbers.
fn put_and_of<L: ClauseLiteral>(out: &mut [i32], g: L, a: L, b: L) -> usize
    requires { L.can_stand g × L.can_stand a × L.can_stand b × (10 ≤ length out.old) }
    ensures { Wrote (written (and_clauses (L.means g) (L.means a) (L.means b)))
        out.old out.new result × (result ≤ 10) }
{
    let not_g = g.inverse();
    let i = L::put_two(out, not_g, a);
    let j = i + L::put_two(&mut out[i..], not_g, b);
    j + L::put_three(&mut out[j..], g, a.inverse(), b.inverse())
}

// The clauses of a gate g = a ∧ b. Most of a formula is of numbers: here, in `put_same_if` and in `put_bit` constants
// are asked for once, and not in each clause.
pub fn put_and(out: &mut [i32], g: Term, a: Term, b: Term) -> usize
    requires { IsTerm g × IsTerm a × IsTerm b × (10 ≤ length out.old) }
    ensures { Wrote (written (and_clauses (literal_of g) (literal_of a) (literal_of b)))
        out.old out.new result × (result ≤ 10) }
{
    if g.is_number() & a.is_number() & b.is_number() {
        return put_and_of(out, g.number(), a.number(), b.number());
    }
    put_and_of(out, g, a, b)
}

// The clauses of q = d.
pub fn put_same(out: &mut [i32], q: Term, d: Term) -> usize
    requires { IsTerm q × IsTerm d × (6 ≤ length out.old) }
    ensures { Wrote (written (same_clauses (literal_of q) (literal_of d))) out.old out.new result × (result ≤ 6) }
{
    let i = put_binary(out, q.negated(), d);
    i + put_binary(&mut out[i..], q, d.negated())
}

// The clauses of a = b where p is true, of terms or of numbers.
fn put_same_of<L: ClauseLiteral>(out: &mut [i32], p: L, a: L, b: L) -> usize
    requires { L.can_stand p × L.can_stand a × L.can_stand b × (8 ≤ length out.old) }
    ensures { Wrote (written (same_if_clauses (L.means p) (L.means a) (L.means b)))
        out.old out.new result × (result ≤ 8) }
{
    let not_p = p.inverse();
    let i = L::put_three(out, not_p, a.inverse(), b);
    i + L::put_three(&mut out[i..], not_p, a, b.inverse())
}

// The clauses of a = b where p is true.
pub fn put_same_if(out: &mut [i32], p: Term, a: Term, b: Term) -> usize
    requires { IsTerm p × IsTerm a × IsTerm b × (8 ≤ length out.old) }
    ensures { Wrote (written (same_if_clauses (literal_of p) (literal_of a) (literal_of b)))
        out.old out.new result × (result ≤ 8) }
{
    if p.is_number() & a.is_number() & b.is_number() {
        return put_same_of(out, p.number(), a.number(), b.number());
    }
    put_same_of(out, p, a, b)
}

// The clauses of one address bit, of terms or of numbers: x and y are equal where all bits are, and differ where e is false.
fn put_bit_of<L: ClauseLiteral>(
    out: &mut [i32],
    address_equal: L,
    bit_equal: L,
    x: L,
    y: L,
) -> usize
    requires { L.can_stand address_equal × L.can_stand bit_equal × L.can_stand x × L.can_stand y × (16 ≤ length out.old) }
    ensures { Wrote (written (bit_clauses (L.means address_equal) (L.means bit_equal) (L.means x) (L.means y)))
        out.old out.new result × (result ≤ 16) }
{
    let not_x = x.inverse();
    let i = put_same_of(out, address_equal, not_x, y.inverse());
    i + put_same_of(&mut out[i..], bit_equal.inverse(), not_x, y)
}

// The clauses of one address bit, `x` of the writing frame and `y` of the reading one: `address_equal` where all bits are, `bit_equal`
// where this one is.
pub fn put_bit(out: &mut [i32], address_equal: Term, bit_equal: Term, x: Term, y: Term) -> usize
    requires { IsTerm address_equal × IsTerm bit_equal × IsTerm x × IsTerm y × (16 ≤ length out.old) }
    ensures { Wrote (written (bit_clauses (literal_of address_equal) (literal_of bit_equal) (literal_of x) (literal_of y)))
        out.old out.new result × (result ≤ 16) }
{
    if address_equal.is_number() & bit_equal.is_number() & x.is_number() & y.is_number() {
        return put_bit_of(
            out,
            address_equal.number(),
            bit_equal.number(),
            x.number(),
            y.number(),
        );
    }
    put_bit_of(out, address_equal, bit_equal, x, y)
}

// The clauses of a = b where p, q and r are true.
pub fn put_same_if_all(out: &mut [i32], p: Term, q: Term, r: Term, a: Term, b: Term) -> usize
    requires { IsTerm p × IsTerm q × IsTerm r × IsTerm a × IsTerm b × (12 ≤ length out.old) }
    ensures { Wrote (written (same_if_all_clauses (literal_of p) (literal_of q) (literal_of r) (literal_of a) (literal_of b)))
        out.old out.new result × (result ≤ 12) }
{
    let not_p = p.negated();
    let not_q = q.negated();
    let not_r = r.negated();
    let i = put_quinary(out, not_p, not_q, not_r, a.negated(), b);
    i + put_quinary(&mut out[i..], not_p, not_q, not_r, a, b.negated())
}

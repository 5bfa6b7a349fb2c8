// A law of one step of the circuit (RULES H4): how one is made of terms, and how one of four is picked. Which laws there are is `invariant_axioms`'s.
#![tactic(auto)]

ghost use Rattle.std.specs.Prelude.{◌≡◌, ◌≤◌};
ghost use Rattle.invariant_laws.specs.LawForms.{law_of, no_law, false_term, true_term, same, where_true, where_both, where_false, pick};

// Terms: where both guards are false, left and right are equal.
#[derive(Clone, Copy)]
pub struct Law {
    pub guard: u64,
    pub second: u64,
    pub left: u64,
    pub right: u64,
}

fn law_of(guard: u64, second: u64, left: u64, right: u64) -> Law
    ensures { result ≡ law_of guard second left right }
{
    Law {
        guard,
        second,
        left,
        right,
    }
}

// One that says nothing.
pub fn no_law() -> Law
    ensures { result ≡ no_law }
{
    law_of(0, 0, 0, 0)
}

// The constants: wire 0 and its opposite.
pub fn false_term(b: u64) -> u64
    requires { b ≤ 131736 }
    ensures { result ≡ false_term b }
{
    invariant_terms::term(b, 1, 0)
}

pub fn true_term(b: u64) -> u64
    requires { b ≤ 131736 }
    ensures { result ≡ true_term b }
{
    invariant_terms::term(b, 1, 0) + 1
}

// Two terms that are equal; equal where a term is true, or two are; and equal where one is false.
pub fn same(b: u64, left: u64, right: u64) -> Law
    requires { b ≤ 131736 }
    ensures { result ≡ same b left right }
{
    let no = false_term(b);
    law_of(no, no, left, right)
}

pub fn where_both(x: u64, y: u64, left: u64, right: u64) -> Law
    ensures { result ≡ where_both x y left right }
{
    law_of(
        invariant_terms::opposite(x),
        invariant_terms::opposite(y),
        left,
        right,
    )
}

pub fn where_true(x: u64, left: u64, right: u64) -> Law
    ensures { result ≡ where_true x left right }
{
    where_both(x, x, left, right)
}

pub fn where_false(x: u64, left: u64, right: u64) -> Law
    ensures { result ≡ where_false x left right }
{
    law_of(x, x, left, right)
}

// One of four, by number.
pub fn pick(k: u32, first: Law, second: Law, third: Law, fourth: Law) -> Law
    ensures { result ≡ pick k first second third fourth }
{
    if k == 0 {
        return first;
    }
    if k == 1 {
        return second;
    }
    if k == 2 {
        return third;
    }
    fourth
}

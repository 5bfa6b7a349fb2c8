// Wire numbers, codes and clause numbers: three types, never accepted in each other's place (RULES W6 and N1).
// Between them only a frame converts; a code in a frame may also be a constant. What compares or counts by the numbers inside stands here.
#![tactic(auto)]

ghost use Rattle.std.specs.Prelude.{◌≡◌, true, ◌+◌, ◌*◌, ◌/◌, ◌^◌, ◌≤◌, ◌<◌, ltb};
ghost use Rattle.model.specs.Bits.{odd, bit};
ghost use Rattle.model.specs.Clauses.{known, plus, neg};
ghost use Rattle.model.specs.Variables.{wire_at, code_at};
ghost use Rattle.model.specs.Numbers.{is_true};
ghost use Rattle.literals.specs.Lit.{literal_at, literal_of, is_number, IsLit, IsTerm, HasNumber};
ghost use Rattle.literals.specs.Numbering.{NumberingFits, base_of, pair_base_of};

// An AIG variable, numbered from 1.
#[derive(Clone, Copy)]
pub struct Wire(pub u32);

// The customer's "code" (RULES W3): an AIGER literal.
#[repr(C)]
#[derive(Clone, Copy)]
pub struct Code(pub u32);

// The customer's "clause number" (RULES W4): a DIMACS literal, not 0 and not the least i32.
#[derive(Clone, Copy)]
pub struct Lit(pub i32);

// What a code is in a clause (RULES G28): a constant, or a literal of a variable.
#[derive(Clone, Copy)]
pub enum Term {
    True,
    False,
    Number(Lit),
}

// What the numbering of variables depends on: V, and how many variables a pair of frames has.
#[derive(Clone, Copy)]
pub struct Numbering {
    pub wires: u32,
    pub stride: u32,
}

impl Wire {
    // The wire in a frame whose variables start after `b`.
    pub fn in_frame(self, b: u32) -> Term
        requires { HasNumber b self.0 × (1 ≤ self.0) }
        ensures literal { literal_of result ≡ wire_at b self.0 }
        ensures number { IsTerm result }
    {
        Term::Number(Lit::variable(b, self.0))
    }

    // The wire `by` places behind this one.
    pub fn offset(self, by: u32) -> Wire
        requires { self.0 + by < 2 ^ 32 }
        ensures { result.0 ≡ self.0 + by }
    {
        Wire(self.0 + by)
    }

    // The wire's place in a table of all wires, whose place 0 is the constants'.
    pub fn index(self) -> usize
        ensures { result ≡ self.0 }
    {
        self.0 as usize
    }
}

impl Code {
    // What the code is in a frame whose variables start after `b`: true, false, or a wire's variable, inverted or not.
    pub fn in_frame(self, b: u32) -> Term
        requires { HasNumber b (self.0 / 2) }
        ensures literal { literal_of result ≡ code_at b self.0 }
        ensures number { IsTerm result }
    {
        let x = self.0;
        if x < 2 {
            return Term::constant(x == 1);
        }
        Term::Number(Lit::signed(b, x))
    }

    // The place of the code's wire in a table of all wires, whose place 0 is the constants'.
    pub fn wire_index(self) -> usize
        ensures { result ≡ self.0 / 2 }
    {
        (self.0 / 2) as usize
    }

    // Whether the code is its wire's inverted: the odd one of the two.
    pub fn is_inverted(self) -> bool
        ensures { result ≡ odd self.0 }
    {
        self.0 % 2 == 1
    }

    // Whether the code is less than both codes of a wire.
    pub fn is_below(self, wire: Wire) -> bool
        ensures { result ≡ ltb self.0 (2 * wire.0) }
    {
        self.0 / 2 < wire.0
    }

    // Whether the code is greater than both codes of a wire.
    pub fn is_above(self, wire: Wire) -> bool
        ensures { result ≡ ltb (2 * wire.0 + 1) self.0 }
    {
        wire.0 < self.0 / 2
    }
}

impl Lit {
    // What a code of a wire is in a frame: its lowest bit inverts.
    fn signed(b: u32, x: u32) -> Lit
        requires { HasNumber b (x / 2) × (2 ≤ x) }
        ensures literal { literal_at result.0 ≡ code_at b x }
        ensures number { IsLit result }
    {
        let wire = Lit::variable(b, x / 2);
        if x % 2 == 1 {
            return wire.negated();
        }
        wire
    }

    // Variable b + w.
    fn variable(b: u32, w: u32) -> Lit
        requires { HasNumber b w × (1 ≤ w) }
        ensures literal { literal_at result.0 ≡ plus (b + w) }
        ensures number { IsLit result }
    {
        Lit((b + w) as i32)
    }

    // Number 1.
    fn first() -> Lit
        ensures literal { literal_at result.0 ≡ plus 1 }
        ensures number { IsLit result }
    {
        Lit(1)
    }

    // ¬ of the rules: the sign turns (RULES W5).
    pub fn negated(self) -> Lit
        requires { IsLit self }
        ensures literal { literal_at result.0 ≡ neg (literal_at self.0) }
        ensures number { IsLit result }
    {
        let x = self.0;
        Lit(-x)
    }
}

impl Term {
    // A constant.
    fn constant(value: bool) -> Term
        ensures literal { literal_of result ≡ known value }
        ensures number { IsTerm result }
    {
        if value {
            return Term::True;
        }
        Term::False
    }

    // Variable 1, which the first clause makes true (RULES V7).
    pub fn first() -> Term
        ensures literal { literal_of result ≡ plus 1 }
        ensures number { IsTerm result }
    {
        Term::Number(Lit::first())
    }

    // A variable of a pair whose variables start after `q`.
    pub fn in_pair(q: u32, offset: u32) -> Term
        requires { HasNumber q offset × (1 ≤ offset) }
        ensures literal { literal_of result ≡ plus (q + offset) }
        ensures number { IsTerm result }
    {
        Term::Number(Lit::variable(q, offset))
    }

    // Bit t of a word, as a constant.
    pub fn bit(word: u32, t: u32) -> Term
        requires { t < 32 }
        ensures literal { literal_of result ≡ known (bit word t) }
        ensures number { IsTerm result }
    {
        Term::constant((word >> t) % 2 == 1)
    }

    // ¬ of the rules.
    pub fn negated(self) -> Term
        requires { IsTerm self }
        ensures literal { literal_of result ≡ neg (literal_of self) }
        ensures number { IsTerm result }
    {
        match self {
            Term::True => Term::False,
            Term::False => Term::True,
            Term::Number(l) => Term::Number(l.negated()),
        }
    }

    // Whether it is the constant true.
    pub fn is_true(self) -> bool
        ensures { result ≡ is_true (literal_of self) }
    {
        match self {
            Term::True => true,
            Term::False => false,
            Term::Number(_) => false,
        }
    }

    // Whether it is no constant.
    pub fn is_number(self) -> bool
        ensures { result ≡ is_number self }
    {
        match self {
            Term::True => false,
            Term::False => false,
            Term::Number(_) => true,
        }
    }

    // The number that it is. A constant has none: it is not asked for.
    pub fn number(self) -> Lit
        requires { IsTerm self × (is_number self ≡ true) }
        ensures literal { literal_at result.0 ≡ literal_of self }
        ensures number { IsLit result }
    {
        match self {
            Term::True => Lit::first(),
            Term::False => Lit::first(),
            Term::Number(l) => l,
        }
    }
}

impl Numbering {
    // B(i): frame i's variables start after it.
    pub fn base(self, i: u32) -> u32
        requires { NumberingFits self i }
        ensures { result ≡ base_of self.wires self.stride i }
    {
        if i == 0 {
            return 1;
        }
        1 + i * self.wires + self.stride * i * (i - 1) / 2
    }

    // Q: the variables of pair (j, i) start after it, at a port whose first variable of a pair is `first`.
    pub fn pair_base(self, first: u32, j: u32, i: u32) -> u32
        requires { NumberingFits self i × (j ≤ i) × (first ≤ self.stride) }
        ensures { result ≡ pair_base_of self.wires self.stride first j i }
    {
        self.base(i) + self.wires + j * self.stride + first
    }
}

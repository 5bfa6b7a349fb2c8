// That the property holds for ever (RULES H2): what it means, the bits of a whole state, and the terms in which one step of the circuit is said. A term is a code
// over the step's variables, counted from 0: twice the variable, and one more where it is negated.
#![tactic(auto)]

ghost use Rattle.std.specs.Prelude.{◌≡◌, cond, ◌^◌, ◌≤◌, ◌<◌};
ghost use Rattle.model.specs.Acceptance.{SizesFit};
ghost use Rattle.netlist.specs.NetOf.{alone};
ghost use Rattle.invariant_terms.specs.StateBits.{state_count, word_bit};
ghost use Rattle.invariant_terms.specs.Terms.{state_term, term, code_term, opposite, number_of};

use literals::{Code, Wire};
use netlist::Netlist;

// How many words the memory has.
pub fn word_count(net: Netlist) -> u64
    requires { SizesFit (alone net) }
    ensures { (result ≡ 2 ^ net.m) × (result ≤ 4096) }
{
    1 << net.m
}

// How many bits a state has.
pub fn state_count(net: Netlist) -> u64
    requires { SizesFit (alone net) }
    ensures { (result ≡ state_count (alone net)) × (result ≤ 131736) }
{
    let words = word_count(net) * (net.n as u64);
    net.latches as u64 + netlist::read_count(net) as u64 + words
}

// Which bit of a state bit t of word x is.
pub fn word_bit(net: Netlist, x: u64, t: u64) -> u64
    requires { SizesFit (alone net) × (x < 4294967296) × (t < 4294967296) }
    ensures { (result ≡ word_bit (alone net) x t) × (result ≤ 141733930000) }
{
    net.latches as u64 + netlist::read_count(net) as u64 + (x * (net.n as u64) + t)
}

// The term of a variable of a family.
pub fn term(b: u64, k: u64, j: u64) -> u64
    requires { (b ≤ 131736) × (k ≤ 4) × (j ≤ 1000000000000) }
    ensures { (result ≡ term b k j) × (result ≤ 20000000000000) }
{
    2 * (b + 5 * j + k)
}

// The term of bit j of the state, or of the state behind the step.
pub fn bit_term(b: u64, j: u64, behind: bool) -> u64
    requires { (b ≤ 131736) × (j ≤ 1000000000000) }
    ensures { (result ≡ cond behind (term b 0 j) (state_term j)) × (result ≤ 20000000000000) }
{
    if behind {
        return term(b, 0, j);
    }
    2 * j
}

// The term of a wire.
pub fn wire_term(b: u64, wire: Wire) -> u64
    requires { b ≤ 131736 }
    ensures { result ≡ term b 1 wire.0 }
{
    term(b, 1, wire.0 as u64)
}

// The term of a code.
pub fn code_term(b: u64, code: Code) -> u64
    requires { b ≤ 131736 }
    ensures { result ≡ code_term b code.0 }
{
    let x = code.0 as u64;
    term(b, 1, x / 2) + x % 2
}

// The opposite of a term.
pub fn opposite(x: u64) -> u64
    ensures { result ≡ opposite x }
{
    if x % 2 == 1 {
        return x - 1;
    }
    x + 1
}

// A term as a clause number.
pub fn number_of(x: u64) -> i32
    requires { x < 4294967294 }
    ensures { result ≡ number_of x }
{
    let v = (x / 2 + 1) as i32;
    if x % 2 == 1 {
        return -v;
    }
    v
}

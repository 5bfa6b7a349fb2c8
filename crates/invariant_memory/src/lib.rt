// The laws of the memory that requests ask for (RULES H4), worked out from a record: reads, words behind the step, and matches of an address with a word's.
// What each says, and that it holds, is `invariant_axioms`'s.
#![tactic(auto)]

ghost use Rattle.std.specs.Prelude.{◌≡◌, cond, suc, ◌+◌, ◌*◌, ◌≤◌, ◌<◌};
ghost use Rattle.model.specs.Acceptance.{SizesFit};
ghost use Rattle.netlist.specs.NetOf.{alone};
ghost use Rattle.model.specs.Bits.{bit};
ghost use Rattle.model.specs.Netlist.{port, read_wire};
ghost use Rattle.invariant_terms.specs.StateBits.{state_count, held_bit, word_bit};
ghost use Rattle.invariant_terms.specs.Terms.{state_term, term, code_term, opposite};
ghost use Rattle.invariant_axioms.specs.Laws.{read_pick, read_law, word_pick, word_law, match_pick, match_law};

use invariant_laws::Law;
use literals::Code;
use netlist::Netlist;

// The term of match j of word x.
fn match_term(b: u64, x: u32, j: u32) -> u64
    requires { (b ≤ 131736) × (x < 4096) × (j < 32) }
    ensures { result ≡ term b 2 (32 * x + j) }
{
    invariant_terms::term(b, 2, (32 * x + j) as u64)
}

// Of read bit t of port q + 1: its wire, which bit of the state it is where it is held, and the port's RE.
fn read_wire(net: Netlist, b: u64, q: u32, t: u32) -> u64
    requires { SizesFit (alone net) × (b ≤ 131736) × (q ≤ net.second_port) × (t < net.n) }
    ensures { result ≡ term b 1 (read_wire (alone net) (q * net.n + t)) }
{
    let wire = netlist::first_read_wire(net).offset(q * net.n + t);
    invariant_terms::wire_term(b, wire)
}

fn held_bit(net: Netlist, q: u32, t: u32) -> u64
    requires { SizesFit (alone net) × (q ≤ net.second_port) × (t < net.n) }
    ensures { (result ≡ held_bit (alone net) (q * net.n + t)) × (result ≤ 1000) }
{
    (net.latches + (q * net.n + t)) as u64
}

fn enable(net: Netlist, b: u64, q: u32) -> u64
    requires { SizesFit (alone net) × (b ≤ 131736) × (q ≤ net.second_port) }
    ensures { result ≡ code_term b (port (alone net) (suc q)).RE }
{
    let port = clause_variables::port_of(net, q + 1);
    invariant_terms::code_term(b, port.re)
}

// The term of bit t of word x, in the state or behind the step.
fn word_term(net: Netlist, b: u64, x: u32, t: u32, behind: bool) -> u64
    requires { SizesFit (alone net) × (b ≤ 131736) }
    ensures { result ≡ cond behind (term b 0 (word_bit (alone net) x t)) (state_term (word_bit (alone net) x t)) }
{
    let bit = invariant_terms::word_bit(net, x as u64, t as u64);
    invariant_terms::bit_term(b, bit, behind)
}

// A read bit of a port, or its bit held.
fn pick_read(net: Netlist, b: u64, k: u32, q: u32, t: u32, x: u32) -> Law
    requires { SizesFit (alone net) × (b ≡ state_count (alone net)) × (b ≤ 131736) × (q ≤ net.second_port) × (t < net.n) × (x < 4096) }
    ensures { result ≡ read_pick (alone net) k q t x }
{
    let wire = read_wire(net, b, q, t);
    let bit = held_bit(net, q, t);
    let held = invariant_terms::bit_term(b, bit, false);
    let kept = invariant_terms::bit_term(b, bit, true);
    let re = enable(net, b, q);
    let hit = match_term(b, x, 2 * net.m + q);
    let word = word_term(net, b, x, t, false);
    invariant_laws::pick(
        k,
        invariant_laws::where_false(re, wire, held),
        invariant_laws::where_both(re, hit, wire, word),
        invariant_laws::same(b, kept, wire),
        invariant_laws::no_law(),
    )
}

// Asked for as i = 2 t + q.
pub fn read_law(net: Netlist, b: u64, k: u32, i: u32, x: u32) -> Law
    requires { SizesFit (alone net) × (b ≡ state_count (alone net)) × (b ≤ 131736) }
    ensures { result ≡ read_law (alone net) k i x }
{
    let q = i % 2;
    let t = i / 2;
    if net.second_port < q {
        return invariant_laws::no_law();
    }
    if net.n <= t {
        return invariant_laws::no_law();
    }
    if invariant_terms::word_count(net) <= x as u64 {
        return invariant_laws::no_law();
    }
    pick_read(net, b, k, q, t, x)
}

// A bit of a word behind the step.
fn pick_word(net: Netlist, b: u64, k: u32, t: u32, x: u32) -> Law
    requires { SizesFit (alone net) × (b ≡ state_count (alone net)) × (b ≤ 131736) × (t < net.n) × (x < 4096) }
    ensures { result ≡ word_pick (alone net) k t x }
{
    let before = word_term(net, b, x, t, false);
    let after = word_term(net, b, x, t, true);
    let hit = match_term(b, x, 2 * net.m);
    let we = invariant_terms::code_term(b, net.we);
    let data = invariant_terms::code_term(b, net.write_data[t as usize]);
    invariant_laws::pick(
        k,
        invariant_laws::where_both(we, hit, after, data),
        invariant_laws::where_false(we, after, before),
        invariant_laws::where_false(hit, after, before),
        invariant_laws::no_law(),
    )
}

pub fn word_law(net: Netlist, b: u64, k: u32, t: u32, x: u32) -> Law
    requires { SizesFit (alone net) × (b ≡ state_count (alone net)) × (b ≤ 131736) }
    ensures { result ≡ word_law (alone net) k t x }
{
    if net.n <= t {
        return invariant_laws::no_law();
    }
    if invariant_terms::word_count(net) <= x as u64 {
        return invariant_laws::no_law();
    }
    pick_word(net, b, k, t, x)
}

// The term that says that an address bit is bit t of word y.
fn agreeing(own: u64, y: u32, t: u32) -> u64
    requires { t < 32 }
    ensures { result ≡ cond (bit y t) own (opposite own) }
{
    if (y >> t) % 2 == 1 {
        return own;
    }
    invariant_terms::opposite(own)
}

// A match of an address, by one bit more.
fn pick_match(b: u64, k: u32, i: u32, y: u32, code: Code) -> Law
    requires { (b ≤ 131736) × (i < 24) × (y < 4096) }
    ensures { result ≡ match_pick b k i y code.0 }
{
    let agree = agreeing(invariant_terms::code_term(b, code), y, i / 2);
    let here = match_term(b, y, i);
    let next = match_term(b, y, i + 2);
    let none = match_term(b, y, i % 2);
    invariant_laws::pick(
        k,
        invariant_laws::same(b, none, invariant_laws::true_term(b)),
        invariant_laws::where_true(agree, next, here),
        invariant_laws::where_false(agree, next, invariant_laws::false_term(b)),
        invariant_laws::no_law(),
    )
}

// Asked for as i = 2 t + q.
pub fn match_law(net: Netlist, b: u64, k: u32, i: u32, y: u32) -> Law
    requires { SizesFit (alone net) × (b ≡ state_count (alone net)) × (b ≤ 131736) }
    ensures { result ≡ match_law (alone net) k i y }
{
    let q = i % 2;
    let t = i / 2;
    if net.second_port < q {
        return invariant_laws::no_law();
    }
    if net.m <= t {
        return invariant_laws::no_law();
    }
    if 4096 <= y {
        return invariant_laws::no_law();
    }
    let port = clause_variables::port_of(net, q + 1);
    pick_match(b, k, i, y, port.address[t as usize])
}

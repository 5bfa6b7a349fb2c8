// The laws of a step that requests ask for (RULES H4), worked out from a record and its lists: those of the circuit, of the gates and of the invariant's
// places here, those of the memory by `invariant_memory`. What each says, and that it holds, is `invariant_axioms`'s.
#![tactic(auto)]

ghost use Rattle.std.specs.Prelude.{◌≡◌, [], ◌≤◌};
ghost use Rattle.model.specs.Acceptance.{SizesFit};
ghost use Rattle.netlist.specs.NetOf.{net_of, alone};
ghost use Rattle.invariant_terms.specs.StateBits.{state_count};
ghost use Rattle.invariant_laws.specs.LawForms.{pick};
ghost use Rattle.invariant_axioms.specs.Laws.{place_law, last_law, invariant_law, constant_law, latch_law, next_law, fail_law, gate_law, requested};

use invariant_laws::Law;
use literals::Code;
use netlist::{Netlist, UnpackedList};

// A latch's wire.
fn latch_law(net: Netlist, b: u64, l: u32) -> Law
    requires { SizesFit (alone net) × (b ≡ state_count (alone net)) × (b ≤ 131736) }
    ensures { result ≡ latch_law (alone net) l }
{
    if l < net.latches {
        let wire = netlist::first_latch_wire(net).offset(l);
        let own = invariant_terms::wire_term(b, wire);
        return invariant_laws::same(b, own, invariant_terms::bit_term(b, l as u64, false));
    }
    invariant_laws::no_law()
}

// A latch behind the step.
fn next_law(net: Netlist, latches: &UnpackedList, b: u64, l: u32) -> Law
    requires { SizesFit (alone net) × (b ≡ state_count (alone net)) × (b ≤ 131736) }
    ensures { result ≡ next_law (net_of net latches.now []) l }
{
    if l < net.latches {
        let next = invariant_terms::code_term(b, Code(latches[2 * (l as usize)]));
        return invariant_laws::same(b, invariant_terms::bit_term(b, l as u64, true), next);
    }
    invariant_laws::no_law()
}

// The constants, latches, and that P is false or the invariant fails behind the step.
fn circuit_law(net: Netlist, latches: &UnpackedList, b: u64, k: u32, i: u32) -> Law
    requires { SizesFit (alone net) × (b ≡ state_count (alone net)) × (b ≤ 131736) }
    ensures { result ≡ pick k (constant_law (alone net)) (latch_law (alone net) i) (next_law (net_of net latches.now []) i) (fail_law (alone net)) }
{
    let no = invariant_laws::false_term(b);
    let yes = invariant_laws::true_term(b);
    let p = invariant_terms::code_term(b, net.p);
    let fails = invariant_terms::term(b, 3, 0);
    invariant_laws::pick(
        k,
        invariant_laws::where_false(yes, no, yes),
        latch_law(net, b, i),
        next_law(net, latches, b, i),
        invariant_laws::where_true(p, fails, yes),
    )
}

// A gate by its two codes.
fn gate_law(net: Netlist, gates: &UnpackedList, b: u64, k: u32, g: u32) -> Law
    requires { SizesFit (alone net) × (b ≡ state_count (alone net)) × (b ≤ 131736) }
    ensures { result ≡ gate_law (net_of net [] gates.now) k g }
{
    if g < net.gates {
        let at = 2 * (g as usize);
        let left = invariant_terms::code_term(b, Code(gates[at]));
        let right = invariant_terms::code_term(b, Code(gates[at + 1]));
        let wire = netlist::first_gate_wire(net).offset(g);
        let own = invariant_terms::wire_term(b, wire);
        let no = invariant_laws::false_term(b);
        return invariant_laws::pick(
            k,
            invariant_laws::where_true(right, own, left),
            invariant_laws::where_false(right, own, no),
            invariant_laws::where_true(left, own, right),
            invariant_laws::where_false(left, own, no),
        );
    }
    invariant_laws::no_law()
}

// The number z at place h of the invariant.
fn place_law(b: u64, k: u32, h: u32, z: i32) -> Law
    requires { b ≤ 131736 }
    ensures { result ≡ place_law b k h z }
{
    let next = h as u64 + 1;
    let none = invariant_terms::term(b, 3, h as u64);
    let found = invariant_terms::term(b, 4, h as u64);
    let next_none = invariant_terms::term(b, 3, next);
    let next_found = invariant_terms::term(b, 4, next);
    let parts = text_writer::parts_of(z);
    if parts.value == 0 {
        return invariant_laws::pick(
            k,
            invariant_laws::same(b, none, invariant_laws::true_term(b)),
            invariant_laws::same(b, found, next_none),
            invariant_laws::no_law(),
            invariant_laws::no_law(),
        );
    }
    let after = invariant_terms::bit_term(b, (parts.value - 1) as u64, true) + parts.sign as u64;
    invariant_laws::pick(
        k,
        invariant_laws::where_true(after, none, next_found),
        invariant_laws::where_false(after, none, next_none),
        invariant_laws::same(b, found, next_found),
        invariant_laws::no_law(),
    )
}

// Behind the invariant's end.
fn last_law(b: u64, k: u32, h: u32) -> Law
    requires { b ≤ 131736 }
    ensures { result ≡ last_law b k h }
{
    let no = invariant_laws::false_term(b);
    let none = invariant_terms::term(b, 3, h as u64);
    let found = invariant_terms::term(b, 4, h as u64);
    invariant_laws::pick(
        k,
        invariant_laws::same(b, none, no),
        invariant_laws::same(b, found, no),
        invariant_laws::no_law(),
        invariant_laws::no_law(),
    )
}

fn invariant_law(b: u64, invariant: &[i32], k: u32, h: u32) -> Law
    requires { b ≤ 131736 }
    ensures { result ≡ invariant_law b invariant.now k h }
{
    let at = h as usize;
    if at < invariant.len() {
        return place_law(b, k, h, invariant[at]);
    }
    last_law(b, k, h)
}

// The law that a request asks for.
pub fn requested(
    net: Netlist,
    latches: &UnpackedList,
    gates: &UnpackedList,
    b: u64,
    invariant: &[i32],
    request: u32,
    i: u32,
    j: u32,
) -> Law
    requires { SizesFit (alone net) × (b ≡ state_count (alone net)) × (b ≤ 131736) }
    ensures { result ≡ requested (net_of net latches.now gates.now) invariant.now request i j }
{
    let family = request / 8;
    let k = request / 2 % 4;
    if family == 0 {
        return circuit_law(net, latches, b, k, i);
    }
    if family == 1 {
        return gate_law(net, gates, b, k, i);
    }
    if family == 2 {
        return invariant_memory::read_law(net, b, k, i, j);
    }
    if family == 3 {
        return invariant_memory::word_law(net, b, k, i, j);
    }
    if family == 4 {
        return invariant_memory::match_law(net, b, k, i, j);
    }
    if family == 5 {
        return invariant_law(b, invariant, k, i);
    }
    invariant_laws::no_law()
}

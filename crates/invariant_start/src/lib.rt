// The test of an invariant at the start of every run.
#![tactic(auto)]

ghost use Rattle.std.specs.Prelude.{◌≡◌, [], ◌<◌};
ghost use Rattle.model.specs.Netlist.{start};
ghost use Rattle.model.specs.Acceptance.{SizesFit};
ghost use Rattle.netlist.specs.NetOf.{net_of, alone};
ghost use Rattle.invariant_terms.specs.StateBits.{state_count};
ghost use Rattle.invariant_formula.specs.AtStart.{word_starts, bit_starts, number_starts, holds_at_start};
ghost use Rattle.invariant_start.specs.Progress.{progress};

use netlist::{Netlist, UnpackedList};

// Whether bit t of every word is this one at the start.
fn word_starts(net: Netlist, t: u32, value: bool) -> bool
    requires { t < 32 }
    ensures { result ≡ word_starts (start (alone net)) t value }
{
    if net.unknown_start == 0 {
        return ((net.initial_word >> t) % 2 == 1) == value;
    }
    false
}

// Whether bit j of a state is this one at the start.
fn bit_starts(net: Netlist, latches: &UnpackedList, j: u32, value: bool) -> bool
    requires { SizesFit (alone net) }
    ensures { result ≡ bit_starts (net_of net latches.now []) j value }
{
    if j < net.latches {
        return (latches[2 * (j as usize) + 1] == 1) == value;
    }
    let reads = netlist::read_count(net);
    if j < net.latches + reads {
        return false;
    }
    word_starts(net, (j - net.latches - reads) % net.n, value)
}

// Whether a number that ends no clause is true in every state at the start.
fn number_starts(net: Netlist, latches: &UnpackedList, z: i32) -> bool
    requires { SizesFit (alone net) }
    ensures { result ≡ number_starts (net_of net latches.now []) z }
{
    let parts = text_writer::parts_of(z);
    if parts.value == 0 {
        return bit_starts(net, latches, 0, true);
    }
    bit_starts(net, latches, parts.value - 1, parts.sign == 0)
}

// How the test stands behind one number more: 0 where it has failed, 2 where the clause begun has a number that is true at the start, else 1.
fn next(net: Netlist, latches: &UnpackedList, b: u64, state: u32, z: i32) -> u32
    requires { SizesFit (alone net) × (b ≡ state_count (alone net)) }
    ensures { result ≡ progress (net_of net latches.now []) state z }
{
    let parts = text_writer::parts_of(z);
    if parts.value == 0 {
        if state == 2 {
            return 1;
        }
        return 0;
    }
    if b < parts.value as u64 {
        return 0;
    }
    if number_starts(net, latches, z) {
        return 2;
    }
    state
}

// Whether each clause of an invariant has a number that is true in every state at the start, and each number is of a bit of the state.
pub fn holds_at_start(net: Netlist, latches: &UnpackedList, invariant: &[i32]) -> bool
    requires { SizesFit (alone net) }
    ensures { result ≡ holds_at_start (net_of net latches.now []) invariant.now }
{
    let b = invariant_terms::state_count(net);
    let mut state: u32 = 1;
    for number in invariant {
        state = next(net, latches, b, state, *number);
        if state == 0 {
            return false;
        }
    }
    true
}

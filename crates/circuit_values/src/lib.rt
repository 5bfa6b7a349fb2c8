// The values of a frame's wires, in a table that is filled in wire order (RULES W1, C12 and C21).
//
// Inputs, latches and read bits are given; the gates are worked out from them. Wire 0 is the constants': always false.
#![tactic(auto)]

ghost use Rattle.std.specs.Prelude.{◌≡◌, ℕ, ◌+◌, ◌/◌, ◌^◌, ◌≤◌, ◌<◌, [], false, cond, eqb, length};
ghost use Rattle.model.specs.Bits.{bit, from_bits};
ghost use Rattle.model.specs.Netlist.{IsPort, port, gate_wire, last_wire};
ghost use Rattle.model.specs.Circuit.{Values, code_value, address_of, word_written, evaluate};
ghost use Rattle.model.specs.Acceptance.{WithinLimits};
ghost use Rattle.netlist.specs.NetOf.{code_of, net_of, alone};
ghost use Rattle.netlist.specs.WireTable.{entry, HasBelow};
ghost use Rattle.circuit_values.specs.Gates.{GatesHold};

use literals::Code;
use netlist::{Netlist, UnpackedList};

// A value for each wire, 600 at most, and for wire 0.
pub type WireValues = [bool; 601];

// A value for each input, or for each latch, 600 at most.
pub type SourceValues = [bool; 600];

// The value of a code, by a table of the wires.
pub fn code_value(values: &WireValues, code: Code) -> bool
    requires { code.0 / 2 ≤ 600 }
    ensures { result ≡ code_value (entry values.now) code.0 }
{
    let value = values[code.wire_index()];
    if code.is_inverted() {
        return !value;
    }
    value
}

// Puts given values at the wires from `first` on.
fn put_sources(values: &mut WireValues, first: usize, sources: &SourceValues, count: usize)
    requires { (count ≤ 600) × (first + count ≤ 601) }
    ensures { (v : Values) → HasBelow first v values.old → ((x : ℕ) → x < count → entry sources.now x ≡ v (first + x))
        → HasBelow (first + count) v values.new }
{
    values[first..first + count].copy_from_slice(&sources[..count]);
}

// Puts the bits of a word at the wires from `first` on.
fn put_bits(values: &mut WireValues, first: usize, word: u64, count: u32)
    requires { (count ≤ 64) × (first + count ≤ 601) }
    ensures { (v : Values) → HasBelow first v values.old → ((t : ℕ) → t < count → bit word t ≡ v (first + t))
        → HasBelow (first + count) v values.new }
{
    for t in 0..count {
        values[first + t as usize] = (word >> t) % 2 == 1;
    }
}

// Works out the gates in wire order, each from what its two codes are by then (RULES W2).
fn put_gates(values: &mut WireValues, net: Netlist, gates: &UnpackedList)
    requires { WithinLimits (net_of net [] gates.now) }
    ensures { (v : Values) → GatesHold (net_of net [] gates.now) v → HasBelow (gate_wire (alone net) 0) v values.old
        → HasBelow (last_wire (alone net) + 1) v values.new }
{
    let first = netlist::first_gate_wire(net).index();
    for g in 0..net.gates as usize {
        let left = code_value(values, Code(gates[2 * g]));
        let right = code_value(values, Code(gates[2 * g + 1]));
        values[first + g] = left & right;
    }
}

// All wires in wire order, from inputs, latches and the word whose bits are the read bits, those of a second port above the first's.
pub fn evaluate(
    values: &mut WireValues,
    net: Netlist,
    gates: &UnpackedList,
    inputs: &SourceValues,
    latches: &SourceValues,
    word: u64,
)
    requires { WithinLimits (net_of net [] gates.now) × (length values.old ≡ 601) }
    ensures { HasBelow (last_wire (alone net) + 1)
        (evaluate (net_of net [] gates.now) (entry inputs.now) (entry latches.now) (bit word)) values.new }
{
    values[0] = false;
    let latch = netlist::first_latch_wire(net).index();
    let read = netlist::first_read_wire(net).index();
    put_sources(values, 1, inputs, net.inputs as usize);
    put_sources(values, latch, latches, net.latches as usize);
    put_bits(values, read, word, netlist::read_count(net));
    put_gates(values, net, gates);
}

// A number of t bits, with bit t put before them.
pub fn with_bit(number: u32, t: u32, value: bool) -> u32
    requires { (t < 32) × (number < 2 ^ t) }
    ensures { result ≡ number + cond value (2 ^ t) 0 }
{
    if value {
        return number + (1 << t);
    }
    number
}

// A code of a port: the first port's or the second's.
fn of_port(number: u32, first: Code, second: Code) -> Code
    ensures { result.0 ≡ cond (eqb number 1) first.0 second.0 }
{
    if number == 1 {
        return first;
    }
    second
}

// RE of a port, by a table of the wires.
pub fn is_reading(values: &WireValues, net: Netlist, port_number: u32) -> bool
    requires { WithinLimits (alone net) × IsPort (alone net) port_number }
    ensures { result ≡ code_value (entry values.now) (port (alone net) port_number).RE }
{
    code_value(values, of_port(port_number, net.re, net.re2))
}

// The number whose bits are the values of the first `count` codes, by a table of the wires.
fn code_bits(values: &WireValues, bits: &[Code], count: u32) -> u32
    requires { (count ≤ 32) × (count ≤ length bits.now) × ((t : ℕ) → t < count → code_of bits.now t / 2 ≤ 600) }
    ensures { result ≡ from_bits count (λ t. code_value (entry values.now) (code_of bits.now t)) }
{
    let mut number = 0;
    for t in 0..count {
        number = with_bit(number, t, code_value(values, bits[t as usize]));
    }
    number
}

// The address at a port, by a table of the wires.
pub fn address_of(values: &WireValues, net: Netlist, port_number: u32) -> u32
    requires { WithinLimits (alone net) × IsPort (alone net) port_number }
    ensures { result ≡ address_of (alone net) (port (alone net) port_number) (entry values.now) }
{
    if port_number == 1 {
        return code_bits(values, &net.address, net.m);
    }
    code_bits(values, &net.address2, net.m)
}

// The word that is written where WE is true, by a table of the wires.
pub fn word_written(values: &WireValues, net: Netlist) -> u32
    requires { WithinLimits (alone net) }
    ensures { result ≡ word_written (alone net) (entry values.now) }
{
    code_bits(values, &net.write_data, net.n)
}

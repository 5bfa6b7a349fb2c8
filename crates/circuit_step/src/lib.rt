// One frame of the circuit with its whole memory: the values of its wires, and the state that the next frame begins in (RULES C4, C6, C7,
// C12, C15, C17, C21, C22 and C28). Latches and memory are lent; the words held are a number, the second port's bits above the first's. What
// holds of them is said of every state of the model that they hold.
#![tactic(auto)]

ghost use Rattle.std.specs.Prelude.{◌≡◌, ℕ, ◌+◌, ◌^◌, ◌≤◌, ◌<◌, Bool, [], length};
ghost use Rattle.model.specs.Bits.{bit};
ghost use Rattle.model.specs.Netlist.{IsPort, port, read_bits, read_wire, last_wire};
ghost use Rattle.model.specs.Circuit.{code_value, State, read_data, frame};
ghost use Rattle.model.specs.Acceptance.{WithinLimits};
ghost use Rattle.netlist.specs.NetOf.{net_of, alone};
ghost use Rattle.netlist.specs.WireTable.{entry, HasBelow};
ghost use Rattle.circuit_step.specs.Held.{state_in, HoldsState, Fed, memory_after, StepFits, Stepped};

use circuit_values::{SourceValues, WireValues};
use literals::Code;
use netlist::{Netlist, UnpackedList};

// Two words of n bits as one: the second above the first. What the first has behind its n bits is dropped.
pub fn two_words(n: u32, first: u32, second: u32) -> u64
    requires { n ≤ 32 }
    ensures { (t : ℕ) → t < n → (bit result t ≡ bit first t) × (bit result (n + t) ≡ bit second t) }
{
    let above = (second as u64) << n;
    above + (first as u64) % (1 << n)
}

// The word of a port's read bits: the memory's at its address where its RE is true, and the one held for it where it is not.
fn read_word(values: &WireValues, net: Netlist, memory: &[u32], held: u64, port_number: u32) -> u32
    requires { WithinLimits (alone net) × (2 ^ net.m ≤ length memory.now) × IsPort (alone net) port_number }
    ensures { (t : ℕ) → t < net.n → bit result t
        ≡ read_data (alone net) (state_in [] memory.now held) (entry values.now) ((port (alone net) port_number).first_read + t) }
{
    if circuit_values::is_reading(values, net, port_number) {
        let address = circuit_values::address_of(values, net, port_number);
        return memory[address as usize];
    }
    let own = held >> ((port_number - 1) * net.n);
    (own % 4294967296) as u32
}

// The words of all ports' read bits.
fn read_words(values: &WireValues, net: Netlist, memory: &[u32], held: u64) -> u64
    requires { WithinLimits (alone net) × (2 ^ net.m ≤ length memory.now) }
    ensures { (t : ℕ) → t < read_bits (alone net)
        → bit result t ≡ read_data (alone net) (state_in [] memory.now held) (entry values.now) t }
{
    let first = read_word(values, net, memory, held, 1);
    if net.second_port == 0 {
        return first as u64;
    }
    let second = read_word(values, net, memory, held, 2);
    two_words(net.n, first, second)
}

// The values of a frame, by two passes: the first with every read bit 0, which settles addresses and REs, the second with the words that are
// read. Answers these words: their bits are the read bits.
fn put_frame(
    values: &mut WireValues,
    net: Netlist,
    gates: &UnpackedList,
    inputs: &SourceValues,
    state: &SourceValues,
    memory: &[u32],
    held: u64,
) -> u64
    requires { WithinLimits (net_of net [] gates.now) × (length values.old ≡ 601) × (2 ^ net.m ≤ length memory.now) }
    ensures values { (s : State) (f : ℕ → Bool) → HoldsState (alone net) s state.now memory.now held → Fed (alone net) f inputs.now
        → HasBelow (last_wire (alone net) + 1) (frame (net_of net [] gates.now) s f) values.new }
    ensures words { (t : ℕ) → t < read_bits (alone net) → bit result t ≡ entry values.new (read_wire (alone net) t) }
{
    circuit_values::evaluate(values, net, gates, inputs, state, 0);
    let words = read_words(values, net, memory, held);
    circuit_values::evaluate(values, net, gates, inputs, state, words);
    words
}

// Writes the word at the first port's address where WE is true.
fn write_memory(values: &WireValues, net: Netlist, memory: &mut [u32])
    requires { WithinLimits (alone net) × (2 ^ net.m ≤ length memory.old) }
    ensures { memory.new ≡ memory_after (alone net) (entry values.now) memory.old }
{
    if circuit_values::code_value(values, net.we) {
        let address = circuit_values::address_of(values, net, 1);
        memory[address as usize] = circuit_values::word_written(values, net);
    }
}

// All latches take the values of their next codes.
fn put_latches(values: &WireValues, net: Netlist, latches: &UnpackedList, state: &mut SourceValues)
    requires { WithinLimits (net_of net latches.now []) × (length state.old ≡ 600) }
    ensures { (length state.new ≡ 600) × ((l : ℕ) → l < net.latches
        → entry state.new l ≡ code_value (entry values.now) ((net_of net latches.now []).next l)) }
{
    for l in 0..net.latches as usize {
        state[l] = circuit_values::code_value(values, Code(latches[2 * l]));
    }
}

// Steps one frame: its values, then its write and all latches at once, both from these values; the words of its read bits are answered, and are
// the next ones held. Lent latches and memory that hold a state of the model before hold the next one after; the memory behind the 2^m
// words stays.
pub fn step_frame(
    values: &mut WireValues,
    state: &mut SourceValues,
    memory: &mut [u32],
    net: Netlist,
    latches: &UnpackedList,
    gates: &UnpackedList,
    inputs: &SourceValues,
    held: u64,
) -> u64
    requires { StepFits (net_of net latches.now gates.now) values.old state.old memory.old }
    ensures { Stepped (net_of net latches.now gates.now) inputs.now state.old memory.old held
        values.new state.new memory.new result }
{
    let words = put_frame(values, net, gates, inputs, state, memory, held);
    write_memory(values, net, memory);
    put_latches(values, net, latches, state);
    words
}

// One frame of a replay: the circuit is fed what an answer says of the frame's inputs, in frame 0 also of the idle words; a word of an unknown
// start that it reads is filled as the answer says; and it is stepped (RULES Y11 to Y13).
#![tactic(auto)]

ghost use Rattle.std.specs.Prelude.{◌≡◌, ℕ, suc, ◌+◌, ◌^◌, ◌≤◌, ◌<◌, not, ◌&&◌, [], length};
ghost use Rattle.model.specs.Bits.{bit, from_bits};
ghost use Rattle.model.specs.Search.{any_below};
ghost use Rattle.model.specs.Wrote.{Wrote};
ghost use Rattle.model.specs.Netlist.{ports, IsPort, port, read_bits, last_wire};
ghost use Rattle.model.specs.Circuit.{code_value, address_of};
ghost use Rattle.model.specs.Acceptance.{SizesFit, WithinLimits};
ghost use Rattle.model.specs.Claim.{idle_of};
ghost use Rattle.netlist.specs.NetOf.{net_of, alone};
ghost use Rattle.netlist.specs.WireTable.{entry};
ghost use Rattle.answer_signs.specs.Signs.{true_in, unclear_in};
ghost use Rattle.replay_frame.specs.Replay.{said_in, word_said, fills, read_unclear, digit_of, frame_line};
ghost use Rattle.replay_frame.specs.Frames.{touched_after, WordFilled, FrameBegins, FrameDone, FrameJudged};

use answer_signs::SignTable;
use circuit_values::{SourceValues, WireValues};
use netlist::{Netlist, UnpackedList};

// What a frame of a replay shows: that it is fed something unclear, and that it breaks the property.
#[derive(Clone, Copy)]
pub struct FrameVerdict {
    pub fault: bool,
    pub broken: bool,
}

// Whether a frame has read or written a word, for each of the 4,096 there may be.
pub type TouchedWords = [bool; 4096];

// A frame that was stepped: the words held behind it, and whether it filled a word.
#[derive(Clone, Copy)]
pub struct FrameStepped {
    pub held: u64,
    pub filled: bool,
}

// Whether any of `count` variables from `first` on is unclear.
fn any_unclear(signs: &SignTable, first: u32, count: u32) -> bool
    requires { first + count < 4294967296 }
    ensures { result ≡ any_below count (λ x. unclear_in signs.now (first + x)) }
{
    let mut any = false;
    for x in 0..count {
        any |= answer_signs::is_unclear(signs, first + x);
    }
    any
}

// Puts the values of `count` variables from `first` on into a table.
fn put_values(table: &mut SourceValues, signs: &SignTable, first: u32, count: u32)
    requires { (length table.old ≡ 600) × (count ≤ 600) × (first + count < 4294967296) }
    ensures { (length table.new ≡ 600)
        × ((x : ℕ) → x < count → entry table.new x ≡ true_in signs.now (first + x)) }
{
    for x in 0..count {
        table[x as usize] = answer_signs::is_true(signs, first + x);
    }
}

// The word whose bits are the values of `count` variables from `first` on.
fn word_of(signs: &SignTable, first: u32, count: u32) -> u32
    requires { (count ≤ 32) × (first + count < 4294967296) }
    ensures { result ≡ from_bits count (λ t. true_in signs.now (first + t)) }
{
    let mut word = 0;
    for t in 0..count {
        word = circuit_values::with_bit(word, t, answer_signs::is_true(signs, first + t));
    }
    word
}

// The digit of a value.
fn digit(value: bool) -> u8
    ensures { result ≡ digit_of value }
{
    if value {
        return b'1';
    }
    b'0'
}

// Writes a frame's line, and answers its length.
pub fn put_line(out: &mut [u8], values: &WireValues, net: Netlist) -> usize
    requires { SizesFit (alone net) × (last_wire (alone net) + 1 ≤ length out.old) }
    ensures { Wrote (frame_line (alone net) (entry values.now)) out.old out.new result }
{
    let wires = netlist::wire_count(net) as usize;
    for w in 0..wires {
        out[w] = digit(values[w + 1]);
    }
    out[wires] = b'\n';
    wires + 1
}

// The word of the first port's read bits in frame i, as the signs say it.
fn word_said(net: Netlist, signs: &SignTable, i: u32) -> u32
    requires { SizesFit (alone net) × (i ≤ 255) }
    ensures { result ≡ word_said (alone net) (said_in signs.now) i }
{
    let base = clause_variables::frame_base(net, i);
    let read = netlist::first_read_wire(net).0;
    word_of(signs, base + read, net.n)
}

// The idle words, which are held before frame 0: what the signs say of the read bits of frame 0, port by port.
pub fn idle_words(net: Netlist, signs: &SignTable) -> u64
    requires { SizesFit (alone net) }
    ensures { (t : ℕ) → t < read_bits (alone net) → bit result t ≡ idle_of (alone net) (true_in signs.now) t }
{
    let read = clause_variables::frame_base(net, 0) + netlist::first_read_wire(net).0;
    let first = word_of(signs, read, net.n);
    if net.second_port == 0 {
        return first as u64;
    }
    let second = word_of(signs, read + net.n, net.n);
    circuit_step::two_words(net.n, first, second)
}

// Whether a frame reads a word that no frame before has touched.
fn reads_untouched(values: &WireValues, touched: &TouchedWords, net: Netlist) -> bool
    requires { WithinLimits (alone net) × (length touched.now ≡ 4096) }
    ensures { result ≡ (code_value (entry values.now) (alone net).RE
        && not (entry touched.now (address_of (alone net) (port (alone net) 1) (entry values.now)))) }
{
    if circuit_values::code_value(values, net.re) {
        let address = circuit_values::address_of(values, net, 1);
        return !touched[address as usize];
    }
    false
}

// Fills a word of an unknown start where frame i reads it: by the first pass, which settles address and RE. An unknown start has one port. Answers whether it does.
fn fill_word(
    values: &mut WireValues,
    memory: &mut [u32],
    touched: &TouchedWords,
    net: Netlist,
    gates: &UnpackedList,
    inputs: &SourceValues,
    state: &SourceValues,
    signs: &SignTable,
    i: u32,
) -> bool
    requires { WithinLimits (net_of net [] gates.now) × (length values.old ≡ 601) × (2 ^ net.m ≤ length memory.old) × (length touched.now ≡ 4096)
        × (i ≤ 255) }
    ensures filled { WordFilled (net_of net [] gates.now) touched.now inputs.now state.now
        (word_said (alone net) (said_in signs.now) i) memory.old memory.new result }
    ensures size { length values.new ≡ 601 }
{
    if net.unknown_start == 0 {
        return false;
    }
    circuit_values::evaluate(values, net, gates, inputs, state, 0);
    if reads_untouched(values, touched, net) {
        let address = circuit_values::address_of(values, net, 1);
        memory[address as usize] = word_said(net, signs, i);
        return true;
    }
    false
}

// Marks the word that a frame reads or writes.
fn mark_touched(values: &WireValues, touched: &mut TouchedWords, net: Netlist)
    requires { WithinLimits (alone net) × (length touched.old ≡ 4096) }
    ensures { touched.new ≡ touched_after (alone net) (entry values.now) touched.old }
{
    let reads = circuit_values::code_value(values, net.re);
    if reads | circuit_values::code_value(values, net.we) {
        let address = circuit_values::address_of(values, net, 1);
        touched[address as usize] = true;
    }
}

// Steps frame i with the words held before it, fed what the signs say of its inputs and of a word that it fills.
pub fn step_fed(
    values: &mut WireValues,
    inputs: &mut SourceValues,
    state: &mut SourceValues,
    touched: &mut TouchedWords,
    memory: &mut [u32],
    net: Netlist,
    latches: &UnpackedList,
    gates: &UnpackedList,
    signs: &SignTable,
    i: u32,
    held: u64,
) -> FrameStepped
    requires { FrameBegins (net_of net latches.now gates.now) (said_in signs.now) i values.old inputs.old state.old touched.old memory.old held }
    ensures done { FrameDone (net_of net latches.now gates.now) (said_in signs.now) i memory.old
        values.new inputs.new state.new touched.new memory.new result.held }
    ensures filled { result.filled ≡ fills (net_of net latches.now gates.now) (said_in signs.now) i }
{
    let base = clause_variables::frame_base(net, i);
    put_values(inputs, signs, base + 1, net.inputs);
    let filled = fill_word(values, memory, touched, net, gates, inputs, state, signs, i);
    let next = circuit_step::step_frame(values, state, memory, net, latches, gates, inputs, held);
    mark_touched(values, touched, net);
    FrameStepped { held: next, filled }
}

// Whether a port's read bits of frame i are fed, in frame 0 or to be filled, and one of them is unclear.
fn read_unclear(
    values: &WireValues,
    net: Netlist,
    signs: &SignTable,
    i: u32,
    filled: bool,
    port_number: u32,
) -> bool
    requires { WithinLimits (alone net) × (i ≤ 255) × IsPort (alone net) port_number }
    ensures { result ≡ read_unclear (alone net) (unclear_in signs.now) i filled (entry values.now) (port (alone net) port_number) }
{
    let reads = circuit_values::is_reading(values, net, port_number);
    if filled | ((i == 0) & !reads) {
        let base = clause_variables::frame_base(net, i);
        let read = netlist::first_read_wire(net).0 + (port_number - 1) * net.n;
        return any_unclear(signs, base + read, net.n);
    }
    false
}

// Whether any port's are.
fn any_read_unclear(
    values: &WireValues,
    net: Netlist,
    signs: &SignTable,
    i: u32,
    filled: bool,
) -> bool
    requires { WithinLimits (alone net) × (i ≤ 255) }
    ensures { result ≡ any_below (ports (alone net))
        (λ x. read_unclear (alone net) (unclear_in signs.now) i filled (entry values.now) (port (alone net) (suc x))) }
{
    let first = read_unclear(values, net, signs, i, filled, 1);
    if net.second_port == 0 {
        return first;
    }
    first | read_unclear(values, net, signs, i, filled, 2)
}

// What frame i shows, by the table of its values.
pub fn judge_frame(
    values: &WireValues,
    net: Netlist,
    signs: &SignTable,
    i: u32,
    filled: bool,
) -> FrameVerdict
    requires { WithinLimits (alone net) × (i ≤ 255) }
    ensures { FrameJudged (alone net) (unclear_in signs.now) i filled (entry values.now) result }
{
    let base = clause_variables::frame_base(net, i);
    let input_fault = any_unclear(signs, base + 1, net.inputs);
    let read_fault = any_read_unclear(values, net, signs, i, filled);
    let holds = circuit_values::code_value(values, net.p);
    FrameVerdict {
        fault: input_fault | read_fault,
        broken: !holds,
    }
}

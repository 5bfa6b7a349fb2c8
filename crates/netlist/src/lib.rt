// The netlist record (RULES W17), the lines of its sheet, and the faults of a line.
//
// The lists are handed over unpacked: `latches[2 * l]` is latch l's next code and `latches[2 * l + 1]` its reset, `gates[2 * g]`
// and `gates[2 * g + 1]` are gate g's two codes. What looks at no list speaks of the record `alone`.
#![tactic(auto)]

ghost use Rattle.std.specs.Prelude.{◌≡◌, suc, ◌+◌, ◌-◌, ◌*◌, ◌^◌, ◌<◌, ◌≤◌};
ghost use Rattle.model.specs.Netlist.{start_of, ports, read_bits, latch_wire, read_wire, gate_wire, last_wire};
ghost use Rattle.model.specs.Agree.{given_word};
ghost use Rattle.model.specs.Acceptance.{SizesFit};
ghost use Rattle.netlist.specs.NetOf.{net_of, alone, put_numbers};
ghost use Rattle.netlist.specs.RecordOf.{record_of, no_netlist};
ghost use Rattle.netlist.specs.Places.{control_line, line_at, HasLine};
ghost use Rattle.netlist.specs.Faults.{outside, start_fault, size_fault, latch_fault, gate_fault, code_fault};

use literals::{Code, Wire};

// 600 latches or gates, unpacked: two numbers each.
pub type UnpackedList = [u32; 1200];

// All of a netlist but its two lists (RULES W17). `unknown_start` is 1 where the start is unknown (W19), `second_port` where there is a second read port
// (W22), whose address codes and read enable are the last two.
#[repr(C)]
#[derive(Clone, Copy)]
pub struct Netlist {
    pub inputs: u32,
    pub latches: u32,
    pub gates: u32,
    pub m: u32,
    pub n: u32,
    pub initial_word: u32,
    pub unknown_start: u32,
    pub second_port: u32,
    pub address: [Code; 12],
    pub write_data: [Code; 32],
    pub we: Code,
    pub re: Code,
    pub p: Code,
    pub address2: [Code; 12],
    pub re2: Code,
}

// A line of a sheet, by what it holds (RULES S5), with its number among those of its letter.
#[derive(Clone, Copy)]
pub enum Line {
    Sizes,
    Memory,
    Latch(u32),
    Gate(u32),
    Address(u32),
    WriteData(u32),
    SecondAddress(u32),
    SecondEnable,
    Control,
}

// The record that is all zeros.
pub fn empty_net() -> Netlist
    ensures { result ≡ record_of no_netlist }
{
    let none = Code(0);
    Netlist {
        inputs: 0,
        latches: 0,
        gates: 0,
        m: 0,
        n: 0,
        initial_word: 0,
        unknown_start: 0,
        second_port: 0,
        address: [none; 12],
        write_data: [none; 32],
        we: none,
        re: none,
        p: none,
        address2: [none; 12],
        re2: none,
    }
}

// Puts the two numbers of a latch or a gate at its place in a list.
pub fn put_numbers(list: &mut UnpackedList, index: usize, first: u32, second: u32)
    requires { index < 600 }
    ensures { list.new ≡ put_numbers index first second list.old }
{
    list[2 * index] = first;
    list[2 * index + 1] = second;
}

// The start word that is given, 0 where the start is unknown.
pub fn given_word(word: u32, unknown: u32) -> u32
    ensures { result ≡ given_word (start_of word unknown) }
{
    match unknown {
        0 => word,
        _ => 0,
    }
}

// Whether x is outside the limits `low` to `high`.
fn is_outside(low: u32, high: u32, x: u32) -> bool
    ensures { result ≡ outside low high x }
{
    (x < low) | (high < x)
}

// Whether a start word has more than n bits.
fn is_word_outside(n: u32, word: u32) -> bool
    ensures { result ≡ outside 0 (2 ^ n - 1) word }
{
    if n < 32 { word >> n != 0 } else { false }
}

// Whether a start word that is given has more than n bits. Where the start is unknown the word is not looked at.
fn is_start_outside(n: u32, word: u32, unknown: u32) -> bool
    ensures { result ≡ start_fault n (start_of word unknown) }
{
    if unknown == 0 {
        return is_word_outside(n, word);
    }
    false
}

// Whether V is above its limit. The other sizes may be any numbers yet: their sum is taken where it fits.
fn is_last_wire_outside(inputs: u32, latches: u32, n: u32, second_port: u32, gates: u32) -> bool
    requires { second_port ≤ 1 }
    ensures { result ≡ outside 0 600 (inputs + latches + suc second_port * n + gates) }
{
    600 < inputs as u64 + latches as u64 + (second_port as u64 + 1) * (n as u64) + gates as u64
}

// Whether the numbers that say the kind of a record are outside their limit: at most one of them is 1, the other is 0.
fn is_kind_outside(unknown: u32, second_port: u32) -> bool
    ensures { result ≡ outside 0 1 (unknown + second_port) }
{
    1 < unknown as u64 + second_port as u64
}

// Refusal 4 at line N.
pub fn sizes_fault(net: Netlist) -> bool
    ensures { result ≡ size_fault (alone net) Line.Sizes }
{
    is_outside(0, 600, net.inputs) | is_outside(0, 600, net.latches) | is_outside(0, 600, net.gates)
}

// Refusal 4 at line M or T.
pub fn memory_fault(net: Netlist) -> bool
    ensures { result ≡ size_fault (alone net) Line.Memory }
{
    if is_kind_outside(net.unknown_start, net.second_port) {
        return true;
    }
    is_outside(1, 12, net.m)
        | is_outside(1, 32, net.n)
        | is_start_outside(net.n, net.initial_word, net.unknown_start)
        | is_last_wire_outside(net.inputs, net.latches, net.n, net.second_port, net.gates)
}

// How many read ports there are.
pub fn port_count(net: Netlist) -> u32
    requires { SizesFit (alone net) }
    ensures { result ≡ ports (alone net) }
{
    net.second_port + 1
}

// How many read bits there are, over all ports.
pub fn read_count(net: Netlist) -> u32
    requires { SizesFit (alone net) }
    ensures { result ≡ read_bits (alone net) }
{
    (net.second_port + 1) * net.n
}

// V, how many wires there are.
pub fn wire_count(net: Netlist) -> u32
    requires { SizesFit (alone net) }
    ensures { result ≡ last_wire (alone net) }
{
    net.inputs + net.latches + read_count(net) + net.gates
}

// The last wire: wires are numbered from 1.
pub fn last_wire(net: Netlist) -> Wire
    requires { SizesFit (alone net) }
    ensures { result.0 ≡ last_wire (alone net) }
{
    Wire(wire_count(net))
}

// The wire of the first latch.
pub fn first_latch_wire(net: Netlist) -> Wire
    requires { SizesFit (alone net) }
    ensures { result.0 ≡ latch_wire (alone net) 0 }
{
    Wire(1 + net.inputs)
}

// The wire of the first read bit.
pub fn first_read_wire(net: Netlist) -> Wire
    requires { SizesFit (alone net) }
    ensures { result.0 ≡ read_wire (alone net) 0 }
{
    first_latch_wire(net).offset(net.latches)
}

// The wire of the first gate.
pub fn first_gate_wire(net: Netlist) -> Wire
    requires { SizesFit (alone net) }
    ensures { result.0 ≡ gate_wire (alone net) 0 }
{
    first_read_wire(net).offset(read_count(net))
}

// The place of the last line.
pub fn control_line(net: Netlist) -> u32
    requires { SizesFit (alone net) }
    ensures { result ≡ control_line (alone net) }
{
    3 + net.latches + net.gates + net.m + net.n + net.second_port * (net.m + 1)
}

// The line due at a place.
pub fn line_at(net: Netlist, place: u32) -> Line
    requires { SizesFit (alone net) }
    ensures { result ≡ line_at (alone net) place }
{
    let gate = 3 + net.latches;
    let address = gate + net.gates;
    let data = address + net.m;
    if place < 2 {
        return Line::Sizes;
    }
    if place < 3 {
        return Line::Memory;
    }
    if place < gate {
        return Line::Latch(place - 3);
    }
    if place < address {
        return Line::Gate(place - gate);
    }
    if place < data {
        return Line::Address(place - address);
    }
    let second = data + net.n;
    if place < second {
        return Line::WriteData(place - data);
    }
    if control_line(net) <= place {
        return Line::Control;
    }
    if place < second + net.m {
        return Line::SecondAddress(place - second);
    }
    Line::SecondEnable
}

// Refusal 5 at the line of a latch; the last wire is given.
pub fn latch_fault(last: Wire, next: Code, reset: u32) -> bool
    ensures { result ≡ latch_fault last.0 next.0 reset }
{
    next.is_above(last) | is_outside(0, 1, reset)
}

// Refusal 5 at the line of a gate, whose own wire is given.
pub fn gate_fault(own: Wire, left: Code, right: Code) -> bool
    ensures { result ≡ gate_fault own.0 left.0 right.0 }
{
    !left.is_below(own) | !right.is_below(own)
}

// Refusal 5 at a line.
pub fn code_fault(net: Netlist, latches: &UnpackedList, gates: &UnpackedList, line: Line) -> bool
    requires { SizesFit (alone net) × HasLine (alone net) line }
    ensures { result ≡ code_fault (net_of net latches.now gates.now) line }
{
    let last = last_wire(net);
    match line {
        Line::Sizes => false,
        Line::Memory => false,
        Line::Latch(l) => {
            let at = 2 * (l as usize);
            latch_fault(last, Code(latches[at]), latches[at + 1])
        }
        Line::Gate(g) => {
            let at = 2 * (g as usize);
            gate_fault(
                first_gate_wire(net).offset(g),
                Code(gates[at]),
                Code(gates[at + 1]),
            )
        }
        Line::Address(t) => {
            let at = t as usize;
            net.address[at].is_above(last)
        }
        Line::WriteData(t) => {
            let at = t as usize;
            net.write_data[at].is_above(last)
        }
        Line::SecondAddress(t) => {
            let at = t as usize;
            net.address2[at].is_above(last)
        }
        Line::SecondEnable => net.re2.is_above(last),
        Line::Control => net.we.is_above(last) | net.re.is_above(last) | net.p.is_above(last),
    }
}

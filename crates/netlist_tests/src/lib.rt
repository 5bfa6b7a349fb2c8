// The tests of a record with its lists (RULES T54, "is tested alike").
#![tactic(auto)]

ghost use Rattle.std.specs.Prelude.{◌≡◌, [], ℕ, ◌/◌, ◌≤◌, ◌<◌};
ghost use Rattle.model.specs.Circuit.{is_read, depends_on_read};
ghost use Rattle.model.specs.Search.{first_where};
ghost use Rattle.model.specs.Acceptance.{SizesFit, WithinLimits};
ghost use Rattle.netlist.specs.NetOf.{code_of, net_of, alone};
ghost use Rattle.netlist.specs.WireTable.{entry, HasAll};
ghost use Rattle.netlist.specs.Places.{HasLine};
ghost use Rattle.netlist.specs.Faults.{size_fault, code_fault, is_tied, tie_fault, loop_fault_by, loop_fault};
ghost use Rattle.netlist_scan.specs.AnyLine.{any_line};
ghost use Rattle.netlist_tests.specs.Record.{test_lines, test_ports, record_verdict};
ghost use Rattle.netlist_tests.specs.OnePort.{test_address, any_dependent};

use literals::Code;
use netlist::{Line, Netlist, UnpackedList};
use refusals::{Refusal, Refused, Verdict};

// Tests the numbers of lines N and M or T (refusal 4).
pub fn test_sizes(net: Netlist) -> Verdict
    ensures { result ≡ test_lines (alone net) Refusal.Size size_fault }
{
    if netlist::sizes_fault(net) {
        return Err(Refused(Refusal::Size, 1));
    }
    if netlist::memory_fault(net) {
        return Err(Refused(Refusal::Size, 2));
    }
    Ok(())
}

// Looks for the first line, in line order, with a code, gate operand or reset outside its limit.
fn first_code_fault(net: Netlist, latches: &UnpackedList, gates: &UnpackedList) -> Verdict
    requires { SizesFit (alone net) }
    ensures { result ≡ test_lines (net_of net latches.now gates.now) Refusal.CodeOutside code_fault }
{
    for place in 1..=netlist::control_line(net) {
        let line = netlist::line_at(net, place);
        if netlist::code_fault(net, latches, gates, line) {
            return Err(Refused(Refusal::CodeOutside, place));
        }
    }
    Ok(())
}

// Tests every code, gate operand and reset (refusal 5). A place is looked for only where there is one.
fn test_codes(net: Netlist, latches: &UnpackedList, gates: &UnpackedList) -> Verdict
    requires { SizesFit (alone net) }
    ensures { result ≡ test_lines (net_of net latches.now gates.now) Refusal.CodeOutside code_fault }
{
    if netlist_scan::any_code_fault(net, latches, gates) {
        return first_code_fault(net, latches, gates);
    }
    Ok(())
}

// Whether the wire of address code t is that of an earlier one, inverted or not, and no constant's. Nearly all records pass: the loop
// runs to its end, so that the compiler can take several codes at a time.
fn is_tied(address: [Code; 12], t: u32) -> bool
    requires { t < 12 }
    ensures { result ≡ is_tied (code_of address) t }
{
    let own = address[t as usize].wire_index();
    let mut any = false;
    for earlier in &address[..t as usize] {
        any |= earlier.wire_index() == own;
    }
    (own != 0) & any
}

// The first of m address codes that is tied to an earlier one; m where none is.
fn first_tie(address: [Code; 12], m: u32) -> u32
    requires { m ≤ 12 }
    ensures { result ≡ first_where (is_tied (code_of address)) m }
{
    for t in 0..m {
        if is_tied(address, t) {
            return t;
        }
    }
    m
}

// Tests a port's m address codes for ties, in line order; their lines begin at a place.
fn test_address(address: [Code; 12], m: u32, line: u32) -> Verdict
    requires { (m ≤ 12) × (line ≤ 1000) }
    ensures { result ≡ test_address (code_of address) m line }
{
    let t = first_tie(address, m);
    if t < m {
        return Err(Refused(Refusal::TiedAddress, line + t));
    }
    Ok(())
}

// Tests each port's address codes for ties, in line order (refusal 17).
fn test_ties(net: Netlist) -> Verdict
    requires { SizesFit (alone net) }
    ensures { result ≡ test_lines (alone net) Refusal.TiedAddress tie_fault }
{
    let line = 3 + net.latches + net.gates;
    let address = net.address;
    test_address(address, net.m, line)?;
    if 0 < net.second_port {
        let second = net.address2;
        return test_address(second, net.m, line + net.m + net.n);
    }
    Ok(())
}

// Makes the table of the read bits.
fn read_bits(net: Netlist) -> [bool; 601]
    requires { SizesFit (alone net) }
    ensures { HasAll (is_read (alone net)) result }
{
    let mut flags = [false; 601];
    let first = netlist::first_read_wire(net).index();
    let end = netlist::first_gate_wire(net).index();
    for w in first..end {
        flags[w] = true;
    }
    flags
}

// Makes the table of the wires that depend on a read bit, in one pass over the gates.
fn depends_on_read(net: Netlist, gates: &UnpackedList) -> [bool; 601]
    requires { WithinLimits (net_of net [] gates.now) }
    ensures { HasAll (depends_on_read (net_of net [] gates.now)) result }
{
    let mut flags = read_bits(net);
    let first = netlist::first_gate_wire(net).index();
    for g in 0..net.gates as usize {
        let left = Code(gates[2 * g]).wire_index();
        let right = Code(gates[2 * g + 1]).wire_index();
        flags[first + g] = flags[left] | flags[right];
    }
    flags
}

// Whether a line makes a memory loop, by a table of the wires that depend on a read bit.
fn loop_fault(net: Netlist, flags: &[bool; 601], line: Line) -> bool
    requires { WithinLimits (alone net) × HasLine (alone net) line }
    ensures { result ≡ loop_fault_by (entry flags.now) (alone net) line }
{
    match line {
        Line::Sizes | Line::Memory | Line::Latch(_) | Line::Gate(_) | Line::WriteData(_) => false,
        Line::Address(t) => flags[net.address[t as usize].wire_index()],
        Line::SecondAddress(t) => flags[net.address2[t as usize].wire_index()],
        Line::SecondEnable => flags[net.re2.wire_index()],
        Line::Control => flags[net.re.wire_index()],
    }
}

// Whether any of a port's m address codes, or its RE, depends on a read bit, by such a table.
fn any_dependent(address: [Code; 12], m: u32, re: Code, flags: &[bool; 601]) -> bool
    requires { (m ≤ 12) × ((t : ℕ) → t < m → code_of address t / 2 ≤ 600) × (re.0 / 2 ≤ 600) }
    ensures { result ≡ any_dependent (entry flags.now) (code_of address) m re.0 }
{
    let mut any = false;
    for code in &address[..m as usize] {
        any |= flags[code.wire_index()];
    }
    any | flags[re.wire_index()]
}

// Whether any line makes a memory loop, by such a table.
fn any_loop(net: Netlist, flags: &[bool; 601]) -> bool
    requires { WithinLimits (alone net) }
    ensures { result ≡ any_line (alone net) (loop_fault_by (entry flags.now)) }
{
    let address = net.address;
    let any = any_dependent(address, net.m, net.re, flags);
    if 0 < net.second_port {
        let second = net.address2;
        return any | any_dependent(second, net.m, net.re2, flags);
    }
    any
}

// Tests each port's address codes and RE, in line order (refusal 6). A place is looked for only where there is one. The lines before the
// address codes make no memory loop.
fn test_loops(net: Netlist, gates: &UnpackedList) -> Verdict
    requires { WithinLimits (net_of net [] gates.now) }
    ensures { result ≡ test_lines (net_of net [] gates.now) Refusal.MemoryLoop loop_fault }
{
    let flags = depends_on_read(net, gates);
    if !any_loop(net, &flags) {
        return Ok(());
    }
    let first = 3 + net.latches + net.gates;
    for place in first..=netlist::control_line(net) {
        let line = netlist::line_at(net, place);
        if loop_fault(net, &flags, line) {
            return Err(Refused(Refusal::MemoryLoop, place));
        }
    }
    Ok(())
}

// Tests the memory's ports: ties, then memory loops.
pub fn test_ports(net: Netlist, gates: &UnpackedList) -> Verdict
    requires { WithinLimits (net_of net [] gates.now) }
    ensures { result ≡ test_ports (net_of net [] gates.now) }
{
    test_ties(net)?;
    test_loops(net, gates)
}

// Tests a record with its lists, in the order of RULES T54. The caller's lists have `latch_count` and `gate_count` records.
pub fn test_record(
    net: Netlist,
    latches: &UnpackedList,
    latch_count: usize,
    gates: &UnpackedList,
    gate_count: usize,
) -> Verdict
    ensures { result ≡ record_verdict (net_of net latches.now gates.now) latch_count gate_count }
{
    test_sizes(net)?;
    if (latch_count < net.latches as usize) | (gate_count < net.gates as usize) {
        return Err(Refused(Refusal::OutOfOrder, 0));
    }
    test_codes(net, latches, gates)?;
    test_ports(net, gates)
}

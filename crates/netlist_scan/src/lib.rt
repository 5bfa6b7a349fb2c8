// Whether any line of a record has a code, gate operand or reset outside its limit (refusal 5). Every call tests its record, and
// nearly all pass: each loop runs to its end and looks for no place, so that the compiler can take several codes at a time.
#![tactic(auto)]

ghost use Rattle.std.specs.Prelude.{◌≡◌, ◌≤◌, length};
ghost use Rattle.model.specs.Acceptance.{SizesFit};
ghost use Rattle.netlist.specs.NetOf.{code_of, net_of, alone};
ghost use Rattle.netlist.specs.Faults.{code_fault};
ghost use Rattle.netlist_scan.specs.AnyLine.{any_latch, any_gate, any_above, any_in_second, any_in_record, any_line};

use literals::{Code, Wire};
use netlist::{Netlist, UnpackedList};

// Whether any latch's next code or reset is outside its limit.
fn any_latch(last: Wire, latches: &UnpackedList, count: u32) -> bool
    requires { count ≤ 600 }
    ensures { result ≡ any_latch last.0 latches.now count }
{
    let mut any = false;
    for l in 0..count as usize {
        any |= netlist::latch_fault(last, Code(latches[2 * l]), latches[2 * l + 1]);
    }
    any
}

// Whether any gate's operand is outside its limit; the first gate's wire is given. A gate's own wire is counted beside its number:
// as a sum with the number it would be compiled to 64 bits, and compared one gate at a time.
fn any_gate(first: Wire, gates: &UnpackedList, count: u32) -> bool
    requires { (first.0 ≤ 601) × (count ≤ 600) }
    ensures { result ≡ any_gate first.0 gates.now count }
{
    let mut any = false;
    let mut own = first;
    for g in 0..count as usize {
        any |= netlist::gate_fault(own, Code(gates[2 * g]), Code(gates[2 * g + 1]));
        own = own.offset(1);
    }
    any
}

// Whether any of some codes is outside its limit.
fn any_above(last: Wire, codes: &[Code]) -> bool
    ensures { result ≡ any_above last.0 (code_of codes.now) (length codes.now) }
{
    let mut any = false;
    for code in codes {
        any |= code.is_above(last);
    }
    any
}

// Whether any code of a second port is outside its limit: those of lines B and R. Where there is none they are not looked at.
fn any_in_second(net: Netlist, last: Wire) -> bool
    requires { SizesFit (alone net) }
    ensures { result ≡ any_in_second last.0 (alone net) }
{
    if 0 < net.second_port {
        return any_above(last, &net.address2[..net.m as usize]) | net.re2.is_above(last);
    }
    false
}

// Whether any code that the record itself holds is outside its limit: those of lines A, D, B, R and C.
fn any_in_record(net: Netlist, last: Wire) -> bool
    requires { SizesFit (alone net) }
    ensures { result ≡ any_in_record last.0 (alone net) }
{
    any_above(last, &net.address[..net.m as usize])
        | any_above(last, &net.write_data[..net.n as usize])
        | any_in_second(net, last)
        | (net.we.is_above(last) | net.re.is_above(last) | net.p.is_above(last))
}

// Whether any line has refusal 5.
pub fn any_code_fault(net: Netlist, latches: &UnpackedList, gates: &UnpackedList) -> bool
    requires { SizesFit (alone net) }
    ensures { result ≡ any_line (net_of net latches.now gates.now) code_fault }
{
    let last = netlist::last_wire(net);
    let first = netlist::first_gate_wire(net);
    any_latch(last, latches, net.latches)
        | any_gate(first, gates, net.gates)
        | any_in_record(net, last)
}

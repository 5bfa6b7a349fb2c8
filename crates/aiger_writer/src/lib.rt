// The binary AIGER file of a record and unpacked lists: header, next codes, outputs, gates.
#![tactic(auto)]

ghost use Rattle.std.specs.Prelude.{◌≡◌, ℕ, ◌+◌, ◌*◌, ◌≤◌, ◌<◌, length};
ghost use Rattle.model.specs.Wrote.{Wrote};
ghost use Rattle.model.specs.Gather.{gather};
ghost use Rattle.model.specs.Acceptance.{SizesFit, WithinLimits};
ghost use Rattle.netlist.specs.NetOf.{first_at, second_at, net_of, alone};
ghost use Rattle.aiger_graph.specs.RecordAig.{output_of};
ghost use Rattle.aiger_binary.specs.BinaryText.{aig_text};
ghost use Rattle.aiger_ordered.specs.OrderedAig.{aig_of};
ghost use Rattle.aiger_writer.specs.Parts.{OrderFits, GatesFit, own_in, next_text, output_text, gate_text_at};

use aiger_binary::{put_code, put_gate, put_header};
use aiger_ordered::{FileOrder, file_code};
use literals::{Code, Wire};
use netlist::{Netlist, UnpackedList};

// Writes the line of latch l's next code.
fn put_next(out: &mut [u8], order: FileOrder, latches: &UnpackedList, l: u32) -> usize
    requires { OrderFits order × (l < 600) × (first_at latches.now l ≤ 1201) × (5 ≤ length out.old) }
    ensures { Wrote (next_text order latches.now l) out.old out.new result × (result ≤ 5) }
{
    let at = 2 * (l as usize);
    let next = Code(latches[at]);
    put_code(out, file_code(order, next))
}

// Writes those of all latches.
fn put_nexts(out: &mut [u8], order: FileOrder, latches: &UnpackedList, count: u32) -> usize
    requires { OrderFits order × (count ≤ 600) × ((l : ℕ) → l < count → first_at latches.now l ≤ 1201) × (count * 5 ≤ length out.old) }
    ensures { Wrote (gather count (next_text order latches.now)) out.old out.new result × (result ≤ count * 5) }
{
    let mut at: usize = 0;
    for l in 0..count {
        at += put_next(&mut out[at..], order, latches, l);
    }
    at
}

// Writes the line of output o of a record with one port.
fn put_output(out: &mut [u8], order: FileOrder, net: Netlist, o: u32) -> usize
    requires { OrderFits order × SizesFit (alone net) × (o < net.m + net.n + 3) × (output_of (alone net) o ≤ 1201) × (5 ≤ length out.old) × (net.second_port ≡ 0) }
    ensures { Wrote (output_text order (alone net) o) out.old out.new result × (result ≤ 5) }
{
    let code = aiger_ordered::output_code(net, o);
    put_code(out, file_code(order, code))
}

// Writes those of all outputs.
fn put_outputs(out: &mut [u8], order: FileOrder, net: Netlist) -> usize
    requires { OrderFits order × SizesFit (alone net) × ((o : ℕ) → output_of (alone net) o ≤ 1201) × ((net.m + net.n + 3) * 5 ≤ length out.old) × (net.second_port ≡ 0) }
    ensures { Wrote (gather (net.m + net.n + 3) (output_text order (alone net))) out.old out.new result × (result ≤ (net.m + net.n + 3) * 5) }
{
    let count = net.m + net.n + 3;
    let mut at: usize = 0;
    for o in 0..count {
        at += put_output(&mut out[at..], order, net, o);
    }
    at
}

// Writes gate g. The larger of its codes by the numbers of the file goes first.
fn put_gate_at(out: &mut [u8], order: FileOrder, gates: &UnpackedList, g: u32) -> usize
    requires { (own_in order g ≤ 600) × (first_at gates.now g < 2 * own_in order g) × (second_at gates.now g < 2 * own_in order g) × (4 ≤ length out.old) }
    ensures { Wrote (gate_text_at order gates.now g) out.old out.new result × (result ≤ 4) }
{
    let at = 2 * (g as usize);
    let first = Code(gates[at]);
    let second = Code(gates[at + 1]);
    let own = Wire(1 + order.inputs + order.latches + order.reads + g);
    let left = file_code(order, first);
    let right = file_code(order, second);
    if left.0 < right.0 {
        return put_gate(out, own, right, left);
    }
    put_gate(out, own, left, right)
}

// Writes all gates, one behind the other.
fn put_gates(out: &mut [u8], order: FileOrder, gates: &UnpackedList, count: u32) -> usize
    requires { GatesFit order gates.now count × (count * 4 ≤ length out.old) }
    ensures { Wrote (gather count (gate_text_at order gates.now)) out.old out.new result × (result ≤ count * 4) }
{
    let mut at: usize = 0;
    for g in 0..count {
        at += put_gate_at(&mut out[at..], order, gates, g);
    }
    at
}

// Writes the file of a record with one port.
pub fn put_file(out: &mut [u8], net: Netlist, latches: &UnpackedList, gates: &UnpackedList) -> usize
    requires { WithinLimits (net_of net latches.now gates.now) × (4096 ≤ length out.old) × (net.second_port ≡ 0) }
    ensures { Wrote (aig_text (aig_of (net_of net latches.now gates.now))) out.old out.new result × (result ≤ 4096) }
{
    let order = aiger_ordered::order_of(net);
    let header = put_header(
        out,
        net.inputs + order.reads,
        net.latches,
        net.m + net.n + 3,
        net.gates,
    );
    let nexts = header + put_nexts(&mut out[header..], order, latches, net.latches);
    let outputs = nexts + put_outputs(&mut out[nexts..], order, net);
    outputs + put_gates(&mut out[outputs..], order, gates, net.gates)
}

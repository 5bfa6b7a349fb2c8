// A record's wires and codes in the numbers of a binary AIGER file.
#![tactic(auto)]

ghost use Rattle.std.specs.Prelude.{◌≡◌, ◌+◌, ◌≤◌, ◌<◌};
ghost use Rattle.model.specs.Network.{renamed};
ghost use Rattle.model.specs.Acceptance.{SizesFit};
ghost use Rattle.netlist.specs.NetOf.{alone};
ghost use Rattle.aiger_graph.specs.RecordAig.{output_of};
ghost use Rattle.aiger_ordered.specs.OrderedAig.{order_of, file_variable};

use literals::{Code, Wire};
use netlist::Netlist;

// What the numbers of a file depend on: how many inputs, latches and read bits there are.
#[derive(Clone, Copy)]
pub struct FileOrder {
    pub inputs: u32,
    pub latches: u32,
    pub reads: u32,
}

// The order of a record's file.
pub fn order_of(net: Netlist) -> FileOrder
    requires { SizesFit (alone net) }
    ensures { result ≡ order_of (alone net) }
{
    FileOrder {
        inputs: net.inputs,
        latches: net.latches,
        reads: netlist::read_count(net),
    }
}

// The variable of a wire: the read bits come before the latches.
fn file_variable(order: FileOrder, wire: Wire) -> Wire
    requires { (order.inputs + order.latches + order.reads ≤ 600) × (wire.0 ≤ 600) }
    ensures { (result.0 ≡ file_variable order wire.0) × (result.0 ≤ 600) }
{
    let w = wire.0;
    let latch = 1 + order.inputs;
    if w < latch {
        return wire;
    }
    if w < latch + order.latches {
        return Wire(w + order.reads);
    }
    if w < latch + order.latches + order.reads {
        return Wire(w - order.latches);
    }
    wire
}

// A code by the numbers of the file.
pub fn file_code(order: FileOrder, code: Code) -> Code
    requires { (order.inputs + order.latches + order.reads ≤ 600) × (code.0 ≤ 1201) }
    ensures { (result.0 ≡ renamed (file_variable order) code.0) × (result.0 ≤ 1201) }
{
    let x = code.0;
    Code(2 * file_variable(order, Wire(x / 2)).0 + x % 2)
}

// The code of an output of a record with one port: address, write data, WE, RE, P.
pub fn output_code(net: Netlist, output: u32) -> Code
    requires { SizesFit (alone net) × (output < net.m + net.n + 3) × (net.second_port ≡ 0) }
    ensures { result.0 ≡ output_of (alone net) output }
{
    let data = net.m;
    let control = data + net.n;
    if output < data {
        let at = output as usize;
        return net.address[at];
    }
    if output < control {
        let at = (output - data) as usize;
        return net.write_data[at];
    }
    if output == control {
        return net.we;
    }
    if output == control + 1 {
        return net.re;
    }
    net.p
}

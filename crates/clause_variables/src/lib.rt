// The numbers of the variables of a record's frames and pairs, and the literals that two frames have in common: the port of the
// memory, B(i), Q, N and Z, S (RULES V2 to V5, V8, G9, G11, G37).
#![tactic(auto)]

ghost use Rattle.std.specs.Prelude.{◌≡◌, ◌≤◌, ◌<◌};
ghost use Rattle.model.specs.Netlist.{IsPort, port, last_wire};
ghost use Rattle.model.specs.Variables.{stride, base, pair_base, none_since_of, selected};
ghost use Rattle.model.specs.Acceptance.{SizesFit};
ghost use Rattle.literals.specs.Lit.{literal_of, IsTerm};
ghost use Rattle.netlist.specs.NetOf.{alone};
ghost use Rattle.clause_variables.specs.PortOf.{port_of};
ghost use Rattle.clause_variables.specs.PortFits.{PortFits};

use literals::{Code, Numbering, Term};
use netlist::Netlist;

// A read port of the memory: its codes, its first read bit and its first variable of a pair, each counted from the first of all
// ports' (the model's port).
#[derive(Clone, Copy)]
pub struct Port {
    pub address: [Code; 12],
    pub re: Code,
    pub first_read: u32,
    pub first_variable: u32,
}

// The port of this number.
pub fn port_of(net: Netlist, number: u32) -> Port
    requires { SizesFit (alone net) × IsPort (alone net) number }
    ensures { port_of result ≡ port (alone net) number }
{
    if number == 1 {
        let address = net.address;
        let re = net.re;
        return Port {
            address,
            re,
            first_read: 0,
            first_variable: 0,
        };
    }
    let address = net.address2;
    let re = net.re2;
    Port {
        address,
        re,
        first_read: net.n,
        first_variable: net.m + 4,
    }
}

// V, and how many variables a pair has, over all ports.
pub fn numbering(net: Netlist) -> Numbering
    requires { SizesFit (alone net) }
    ensures { (result.wires ≡ last_wire (alone net)) × (result.stride ≡ stride (alone net)) }
{
    Numbering {
        wires: netlist::wire_count(net),
        stride: netlist::port_count(net) * (net.m + 4),
    }
}

// B(i).
pub fn frame_base(net: Netlist, i: u32) -> u32
    requires { SizesFit (alone net) × (i ≤ 256) }
    ensures { result ≡ base (alone net) i }
{
    numbering(net).base(i)
}

// Q of pair (j, i).
pub fn pair_base(net: Netlist, port: Port, j: u32, i: u32) -> u32
    requires { PortFits (alone net) (port_of port) × (j ≤ i) × (i ≤ 255) }
    ensures { result ≡ pair_base (alone net) (port_of port) j i }
{
    numbering(net).pair_base(port.first_variable, j, i)
}

// PS of pair (j, i), or RE of frame i where j = i: N of pair (j − 1, i), and Z where j = 0.
pub fn none_since(net: Netlist, port: Port, j: u32, i: u32) -> Term
    requires { PortFits (alone net) (port_of port) × (j ≤ i) × (i ≤ 255) }
    ensures literal { literal_of result ≡ none_since_of (alone net) (port_of port) j i }
    ensures number { IsTerm result }
{
    if j == i {
        return port.re.in_frame(frame_base(net, i));
    }
    Term::in_pair(pair_base(net, port, j, i), net.m + 3)
}

// S of pair (j, i).
pub fn selected(net: Netlist, port: Port, j: u32, i: u32) -> Term
    requires { PortFits (alone net) (port_of port) × (j < i) × (i ≤ 255) }
    ensures literal { literal_of result ≡ selected (alone net) (port_of port) j i }
    ensures number { IsTerm result }
{
    Term::in_pair(pair_base(net, port, j, i), net.m + 4)
}

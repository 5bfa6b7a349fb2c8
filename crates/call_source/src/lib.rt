// The literals that say where a word that a port reads comes from (RULES L15): S of a pair and Z of a closing. No list is looked at, so none is
// lent.
#![tactic(auto)]

ghost use Rattle.std.specs.Prelude.{◌≡◌, true, ◌&&◌, ◌+◌, ◌≤◌, ◌<◌, leb};
ghost use Rattle.model.specs.Netlist.{ports, port, IsPort};
ghost use Rattle.model.specs.Clauses.{plus};
ghost use Rattle.model.specs.Variables.{stride, pair_base};
ghost use Rattle.model.specs.Groups.{in_depth};
ghost use Rattle.model.specs.Acceptance.{SizesFit, IsCode};
ghost use Rattle.literals.specs.Lit.{literal_of, IsTerm};
ghost use Rattle.netlist.specs.NetOf.{alone};
ghost use Rattle.clause_variables.specs.PortOf.{port_of};
ghost use Rattle.call_source.specs.Sources.{source_in, port_in, source_verdict, source_sent};

use call_position::LiteralReply;
use clause_variables::Port;
use literals::Term;
use model::Group;
use netlist::Netlist;
use refusals::{Refusal, Refused, Verdict};

// The port of a pair or a closing, 0 of the others.
fn port_in(group: Group) -> u32
    ensures { result ≡ port_in group }
{
    match group {
        Group::Wires(_) => 0,
        Group::Pair(_, _, port) => port,
        Group::Closing(_, port) => port,
        Group::Property => 0,
    }
}

// Whether there is such a pair or closing.
fn has_source(ports: u32, depth: u32, group: Group) -> bool
    ensures { result ≡ (in_depth ports depth group && leb 1 (port_in group)) }
{
    group_order::is_in_depth(ports, depth, group) & (1 <= port_in(group))
}

// The tests of the call.
fn test_source(net: Netlist, depth: u32, group: Group) -> Verdict
    ensures { result ≡ source_verdict (alone net) depth group }
{
    call_position::test_numbering(net, depth)?;
    if !has_source(netlist::port_count(net), depth, group) {
        return Err(Refused(Refusal::NoSuchGroup, 0));
    }
    let re = clause_variables::port_of(net, port_in(group)).re;
    if re.is_above(netlist::last_wire(net)) {
        return Err(Refused(Refusal::CodeOutside, 0));
    }
    Ok(())
}

// The variable of pair (j, i) at a port that is `offset` behind the e's of the address bits.
fn of_pair(net: Netlist, port: Port, j: u32, i: u32, offset: u32) -> Term
    requires { SizesFit (alone net) × ((port_of port).first_variable + (alone net).m + 4 ≤ stride (alone net)) × (j < i) × (i ≤ 255) × (1 ≤ offset) × (offset ≤ 4) }
    ensures literal { literal_of result ≡ plus (pair_base (alone net) (port_of port) j i + (alone net).m + offset) }
    ensures number { IsTerm result }
{
    let base = clause_variables::numbering(net).pair_base(port.first_variable, j, i);
    Term::in_pair(base, net.m + offset)
}

// Z of frame i at a port: RE in frame 0, PS of the pair (0, i) in a later one.
fn of_closing(net: Netlist, number: u32, i: u32) -> Term
    requires { SizesFit (alone net) × IsPort (alone net) number × IsCode (alone net) (port (alone net) number).RE × (i ≤ 255) }
    ensures literal { literal_of result ≡ source_in (alone net) (Group.Closing i number) }
    ensures number { IsTerm result }
{
    let port = clause_variables::port_of(net, number);
    if i == 0 {
        return port.re.in_frame(clause_variables::frame_base(net, 0));
    }
    of_pair(net, port, 0, i, 3)
}

// The literal of a pair or a closing that is there.
fn source_in(net: Netlist, depth: u32, group: Group) -> Term
    requires { SizesFit (alone net) × (depth ≤ 255) × (in_depth (ports (alone net)) depth group ≡ true) × (1 ≤ port_in group) × IsCode (alone net) (port (alone net) (port_in group)).RE }
    ensures literal { literal_of result ≡ source_in (alone net) group }
    ensures number { IsTerm result }
{
    match group {
        Group::Wires(_) => Term::False,
        Group::Pair(j, i, number) => of_pair(net, clause_variables::port_of(net, number), j, i, 4),
        Group::Closing(i, number) => of_closing(net, number, i),
        Group::Property => Term::False,
    }
}

// The literal, or the refusal.
pub fn source_literal(net: Netlist, depth: u32, group: Group) -> LiteralReply
    ensures { result ≡ source_sent (alone net) depth group }
{
    if let Err(Refused(refusal, place)) = test_source(net, depth, group) {
        return call_position::no_literal(refusal, place);
    }
    call_position::answer_literal(source_in(net, depth, group))
}

// The groups of clauses of a depth (RULES G3 to G14), each written into a borrowed slice.
#![tactic(auto)]

ghost use Rattle.std.specs.Prelude.{◌≡◌, ◌≤◌, true, length};
ghost use Rattle.model.specs.Netlist.{ports};
ghost use Rattle.model.specs.Acceptance.{Accepted};
ghost use Rattle.model.specs.Groups.{in_depth};
ghost use Rattle.model.specs.Numbers.{numbers_of};
ghost use Rattle.model.specs.Counts.{number_count};
ghost use Rattle.model.specs.Wrote.{Wrote};
ghost use Rattle.netlist.specs.NetOf.{net_of};

use model::Group;
use netlist::{Netlist, UnpackedList};

// Writes the clauses of a group of an accepted netlist, and answers how many numbers that is.
pub fn put_group(
    out: &mut [i32],
    net: Netlist,
    latches: &UnpackedList,
    gates: &UnpackedList,
    depth: u32,
    group: Group,
) -> usize
    requires { Accepted (net_of net latches.now gates.now) × (depth ≤ 255) × (in_depth (ports (net_of net latches.now gates.now)) depth group ≡ true)
        × (number_count (net_of net latches.now gates.now) depth group ≤ length out.old) }
    ensures { Wrote (numbers_of (net_of net latches.now gates.now) depth group) out.old out.new result
        × (result ≤ number_count (net_of net latches.now gates.now) depth group) }
{
    match group {
        Group::Wires(i) => group_wires::put_wires(out, net, latches, gates, i),
        Group::Pair(j, i, port) => group_pair::put_pair(
            out,
            net,
            clause_variables::port_of(net, port),
            j,
            i,
        ),
        Group::Closing(i, port) => group_closing::put_closing(
            out,
            net,
            clause_variables::port_of(net, port),
            i,
        ),
        Group::Property => group_property::put_property(out, net, depth),
    }
}

// The formula of a depth (RULES A2) in one slice, its groups one behind the other in the order of the whole; and how many numbers it has, whether
// there is room for it or not.
#![tactic(auto)]

ghost use Rattle.std.specs.Prelude.{◌≡◌, true, ◌≤◌, length};
ghost use Rattle.model.specs.Netlist.{ports};
ghost use Rattle.model.specs.Acceptance.{Accepted};
ghost use Rattle.model.specs.Groups.{in_depth};
ghost use Rattle.model.specs.Numbers.{numbers_of, formula};
ghost use Rattle.netlist.specs.NetOf.{net_of};
ghost use Rattle.refutation_formula.specs.WhereRoom.{PutWhereRoom};

use model::Group;
use netlist::{Netlist, UnpackedList};

// The smaller of two numbers.
fn smaller(a: usize, b: usize) -> usize
    ensures { (result ≤ b) × (a ≤ b → result ≡ a) }
{
    if a <= b {
        return a;
    }
    b
}

// Puts a group at the start of a slice that has room for it. It is written aside first: how many numbers it has shows then.
fn put_where_room(
    out: &mut [i32],
    numbers: &mut [i32],
    net: Netlist,
    latches: &UnpackedList,
    gates: &UnpackedList,
    depth: u32,
    group: Group,
) -> usize
    requires { Accepted (net_of net latches.now gates.now) × (depth ≤ 255) × (in_depth (ports (net_of net latches.now gates.now)) depth group ≡ true)
        × (5992 ≤ length numbers.old) }
    ensures put_where_room { PutWhereRoom (numbers_of (net_of net latches.now gates.now) depth group) out.old out.new result
        × (result ≤ 5992) }
    ensures scratch { length numbers.new ≡ length numbers.old }
{
    let count = groups::put_group(numbers, net, latches, gates, depth, group);
    if count <= out.len() {
        call_unpacked::copy_numbers(out, &numbers[..count]);
    }
    count
}

// Puts the formula of a depth at the start of a slice that has room for it, and answers how many numbers it has. A shorter slice is scratch.
pub fn put_formula(
    out: &mut [i32],
    net: Netlist,
    latches: &UnpackedList,
    gates: &UnpackedList,
    depth: u32,
) -> usize
    requires { Accepted (net_of net latches.now gates.now) × (depth ≤ 255) }
    ensures { PutWhereRoom (formula (net_of net latches.now gates.now) depth) out.old out.new result
        × (result ≤ 783867448) }
{
    let mut numbers = [0; 5992];
    let ports = netlist::port_count(net);
    let mut at = 0;
    let mut next = group_order::first_group(depth);
    while let Some(group) = next {
        let from = smaller(at, out.len());
        at = at
            + put_where_room(
                &mut out[from..],
                &mut numbers,
                net,
                latches,
                gates,
                depth,
                group,
            );
        next = group_order::next_group(ports, depth, group);
    }
    at
}

// How many numbers the formula of a depth has.
pub fn formula_length(
    net: Netlist,
    latches: &UnpackedList,
    gates: &UnpackedList,
    depth: u32,
) -> usize
    requires { Accepted (net_of net latches.now gates.now) × (depth ≤ 255) }
    ensures { (result ≡ length (formula (net_of net latches.now gates.now) depth)) × (result ≤ 783867448) }
{
    let mut none = [0; 1];
    put_formula(&mut none, net, latches, gates, depth)
}

// How many clauses of a depth are written (RULES G23, G28, G34 and G37): counted in what the groups' own writer writes, by one group of each
// class of groups that have equally many, at each port.
#![tactic(auto)]

ghost use Rattle.std.specs.Prelude.{◌≡◌, true, ◌+◌, ◌-◌, ◌*◌, ◌/◌, ◌≤◌, ◌<◌, length};
ghost use Rattle.model.specs.Netlist.{ports};
ghost use Rattle.model.specs.Acceptance.{Accepted};
ghost use Rattle.model.specs.Groups.{in_depth};
ghost use Rattle.model.specs.Numbers.{numbers_of, formula, clauses_in};
ghost use Rattle.model.specs.declared.Group.TheVariants.{Wires, Pair, Closing};
ghost use Rattle.netlist.specs.NetOf.{net_of};
ghost use Rattle.group_counts.specs.PairCounts.{group_count, ports_count, pair_counts};

use model::Group;
use netlist::{Netlist, UnpackedList};

// The clauses in a list of numbers: each ends with the end mark.
fn count_ends(numbers: &[i32]) -> usize
    ensures { (result ≡ length (clauses_in numbers.now)) × (result ≤ length numbers.now) }
{
    let mut ends = 0;
    for &z in numbers {
        ends += usize::from(z == 0);
    }
    ends
}

// The clauses of a group that are written. `numbers` is scratch: nothing is said of what it holds.
fn count_group(
    numbers: &mut [i32],
    net: Netlist,
    latches: &UnpackedList,
    gates: &UnpackedList,
    depth: u32,
    group: Group,
) -> u32
    requires { Accepted (net_of net latches.now gates.now) × (depth ≤ 255) × (in_depth (ports (net_of net latches.now gates.now)) depth group ≡ true)
        × (5992 ≤ length numbers.old) }
    ensures value { (result ≡ length (clauses_in (numbers_of (net_of net latches.now gates.now) depth group))) × (result ≤ 5992) }
    ensures scratch { length numbers.new ≡ length numbers.old }
{
    let count = groups::put_group(numbers, net, latches, gates, depth, group);
    count_ends(&numbers[..count]) as u32
}

// Those of pair (j, i) at each port.
fn count_pair(
    numbers: &mut [i32],
    net: Netlist,
    latches: &UnpackedList,
    gates: &UnpackedList,
    j: u32,
    i: u32,
) -> u32
    requires { Accepted (net_of net latches.now gates.now) × (j < i) × (i ≤ 255) × (5992 ≤ length numbers.old) }
    ensures value { (result ≡ ports_count (net_of net latches.now gates.now) (Pair j i)) × (result ≤ 11984) }
    ensures scratch { length numbers.new ≡ length numbers.old }
{
    let first = count_group(numbers, net, latches, gates, 255, Group::Pair(j, i, 1));
    if net.second_port == 0 {
        return first;
    }
    first + count_group(numbers, net, latches, gates, 255, Group::Pair(j, i, 2))
}

// Those of a frame's closing at each port.
fn count_closing(
    numbers: &mut [i32],
    net: Netlist,
    latches: &UnpackedList,
    gates: &UnpackedList,
    i: u32,
) -> u32
    requires { Accepted (net_of net latches.now gates.now) × (i ≤ 255) × (5992 ≤ length numbers.old) }
    ensures value { (result ≡ ports_count (net_of net latches.now gates.now) (Closing i)) × (result ≤ 11984) }
    ensures scratch { length numbers.new ≡ length numbers.old }
{
    let first = count_group(numbers, net, latches, gates, 255, Group::Closing(i, 1));
    if net.second_port == 0 {
        return first;
    }
    first + count_group(numbers, net, latches, gates, 255, Group::Closing(i, 2))
}

// Those of a frame's wires and closing.
fn count_frame(
    numbers: &mut [i32],
    net: Netlist,
    latches: &UnpackedList,
    gates: &UnpackedList,
    i: u32,
) -> u32
    requires { Accepted (net_of net latches.now gates.now) × (i ≤ 255) × (5992 ≤ length numbers.old) }
    ensures value { (result ≡ group_count (net_of net latches.now gates.now) (Wires i)
        + ports_count (net_of net latches.now gates.now) (Closing i)) × (result ≤ 17976) }
    ensures scratch { length numbers.new ≡ length numbers.old }
{
    let wires = count_group(numbers, net, latches, gates, 255, Group::Wires(i));
    wires + count_closing(numbers, net, latches, gates, i)
}

// A product with a bound, so that sums of it fit.
fn product(a: u32, b: u32) -> u32
    requires { (a ≤ 32640) × (b ≤ 23968) }
    ensures { (result ≡ a * b) × (result ≤ 782315520) }
{
    a * b
}

// How many pairs of frames 0 to k are not of neighbours.
fn other_pairs(k: u32) -> u32
    requires { k ≤ 255 }
    ensures { (result ≡ k * (k + 1) / 2 - k) × (result ≤ 32640) }
{
    k * (k + 1) / 2 - k
}

// Those of the pairs of a frame above 1 that are like no pair of frame 1: with the frame before it, and with frame 0.
fn count_later_pairs(
    numbers: &mut [i32],
    net: Netlist,
    latches: &UnpackedList,
    gates: &UnpackedList,
) -> u32
    requires { Accepted (net_of net latches.now gates.now) × (5992 ≤ length numbers.old) }
    ensures value { (result ≡ ports_count (net_of net latches.now gates.now) (Pair 1 2)
        + ports_count (net_of net latches.now gates.now) (Pair 0 2)) × (result ≤ 23968) }
    ensures scratch { length numbers.new ≡ length numbers.old }
{
    let near = count_pair(numbers, net, latches, gates, 1, 2);
    near + count_pair(numbers, net, latches, gates, 0, 2)
}

// The clauses of all pairs of a depth above 0. Those with frame 0, whose Z is RE and may be a constant, are classes of their own: of a given
// start they are like the others, and are counted alike.
fn count_some_pairs(
    numbers: &mut [i32],
    net: Netlist,
    latches: &UnpackedList,
    gates: &UnpackedList,
    depth: u32,
) -> u32
    requires { Accepted (net_of net latches.now gates.now) × (1 ≤ depth) × (depth ≤ 255) × (5992 ≤ length numbers.old) }
    ensures value { (result ≡ pair_counts (net_of net latches.now gates.now) depth) × (result ≤ 1564643024) }
    ensures scratch { length numbers.new ≡ length numbers.old }
{
    let first = count_pair(numbers, net, latches, gates, 0, 1);
    let later = count_later_pairs(numbers, net, latches, gates);
    let far = count_pair(numbers, net, latches, gates, 1, 3);
    let above = depth - 1;
    first + product(above, later) + product(other_pairs(above), far)
}

// The clauses of all pairs of a depth.
fn count_pairs(
    numbers: &mut [i32],
    net: Netlist,
    latches: &UnpackedList,
    gates: &UnpackedList,
    depth: u32,
) -> u32
    requires { Accepted (net_of net latches.now gates.now) × (depth ≤ 255) × (5992 ≤ length numbers.old) }
    ensures value { (result ≡ pair_counts (net_of net latches.now gates.now) depth) × (result ≤ 1564643024) }
    ensures scratch { length numbers.new ≡ length numbers.old }
{
    if depth == 0 {
        return 0;
    }
    count_some_pairs(numbers, net, latches, gates, depth)
}

// The clauses of all groups of a depth.
pub fn clause_count(net: Netlist, latches: &UnpackedList, gates: &UnpackedList, depth: u32) -> u32
    requires { Accepted (net_of net latches.now gates.now) × (depth ≤ 255) }
    ensures { result ≡ length (clauses_in (formula (net_of net latches.now gates.now) depth)) }
{
    let mut numbers = [0; 5992];
    let first = count_frame(&mut numbers, net, latches, gates, 0);
    let later = count_frame(&mut numbers, net, latches, gates, 1);
    let pairs = count_pairs(&mut numbers, net, latches, gates, depth);
    let property = count_group(&mut numbers, net, latches, gates, depth, Group::Property);
    first + product(depth, later) + pairs + property
}

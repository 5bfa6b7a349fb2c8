// The calls over a record and its lists in unpacked form: the work of the public calls (crate `calls`).
#![tactic(auto)]

ghost use Rattle.std.specs.Prelude.{◌≡◌, true, ◌≤◌, length};
ghost use Rattle.model.specs.Netlist.{ports};
ghost use Rattle.model.specs.Acceptance.{Accepted};
ghost use Rattle.model.specs.Groups.{in_depth};
ghost use Rattle.model.specs.Numbers.{numbers_of};
ghost use Rattle.model.specs.Wrote.{Wrote};
ghost use Rattle.refusals.specs.Tests.{◌then◌};
ghost use Rattle.refusals.specs.Slices.{count_reply, with_count, contents_after};
ghost use Rattle.netlist.specs.NetOf.{net_of};
ghost use Rattle.netlist_tests.specs.Record.{record_verdict};
ghost use Rattle.call_unpacked.specs.Calls.{test_depth, test_group, test_group_room, group_sent, group_leaves, heading_reply, heading_sent};

use model::Group;
use netlist::{Netlist, UnpackedList};
use refusals::{Refusal, Refused, Verdict, Written};

// A heading (RULES G23): the two counts of DIMACS' problem line. The line as text is the header (crate `dimacs`).
#[derive(Clone, Copy)]
pub struct ProblemLine {
    pub variables: u32,
    pub clauses: u32,
}

// What is sent back of a heading call: number and place (0 where it is not refused), and the heading.
#[repr(C)]
#[derive(Clone, Copy)]
pub struct HeadingReply {
    pub number: u32,
    pub place: u32,
    pub variables: u32,
    pub clauses: u32,
}

// The tests of the record with its lists, and of the depth: with these each call about a depth begins.
pub fn test_depth(
    net: Netlist,
    latches: &UnpackedList,
    latch_count: usize,
    gates: &UnpackedList,
    gate_count: usize,
    depth: u32,
) -> Verdict
    ensures { result ≡ (record_verdict (net_of net latches.now gates.now) latch_count gate_count then test_depth depth) }
{
    netlist_tests::test_record(net, latches, latch_count, gates, gate_count)?;
    if 255 < depth {
        return Err(Refused(Refusal::Depth, 0));
    }
    Ok(())
}

// The heading of a depth, RULES G23: "the variables that are numbered .. and the clauses that are really written".
pub fn heading(
    net: Netlist,
    latches: &UnpackedList,
    latch_count: usize,
    gates: &UnpackedList,
    gate_count: usize,
    depth: u32,
) -> Result<ProblemLine, Refused>
    ensures { heading_reply result ≡ heading_sent (net_of net latches.now gates.now) latch_count gate_count depth }
{
    test_depth(net, latches, latch_count, gates, gate_count, depth)?;
    let variables = clause_variables::frame_base(net, depth + 1);
    Ok(ProblemLine {
        variables,
        clauses: group_counts::clause_count(net, latches, gates, depth),
    })
}

// The tests of a group call up to that of the group.
pub fn test_group(
    net: Netlist,
    latches: &UnpackedList,
    latch_count: usize,
    gates: &UnpackedList,
    gate_count: usize,
    depth: u32,
    group: Group,
) -> Verdict
    ensures { result ≡ (record_verdict (net_of net latches.now gates.now) latch_count gate_count then test_depth depth then test_group (net_of net latches.now gates.now) depth group) }
{
    test_depth(net, latches, latch_count, gates, gate_count, depth)?;
    if !group_order::is_in_depth(netlist::port_count(net), depth, group) {
        return Err(Refused(Refusal::NoSuchGroup, 0));
    }
    Ok(())
}

// Copies numbers to the start of a slice that has room for them. By a loop: the library's copy is `memmove` where the two slices are lent, and the
// archive for C needs that name nowhere else.
pub fn copy_numbers(out: &mut [i32], numbers: &[i32]) -> usize
    requires { length numbers.now ≤ length out.old }
    ensures { Wrote numbers.now out.old out.new result }
{
    for (i, &z) in numbers.iter().enumerate() {
        out[i] = z;
    }
    numbers.len()
}

// Writes a group that is there, after the test of 9. How many numbers it has shows when it is written: into a slice without room
// for every group it is written aside first.
pub fn write_tested(
    net: Netlist,
    latches: &UnpackedList,
    gates: &UnpackedList,
    depth: u32,
    group: Group,
    out: &mut [i32],
) -> Written
    requires { Accepted (net_of net latches.now gates.now) × (depth ≤ 255) × (in_depth (ports (net_of net latches.now gates.now)) depth group ≡ true) }
    ensures answer { count_reply result ≡ with_count (test_group_room (net_of net latches.now gates.now) depth group (length out.old)) (length (numbers_of (net_of net latches.now gates.now) depth group)) }
    ensures borrowed { out.new ≡ contents_after (test_group_room (net_of net latches.now gates.now) depth group (length out.old)) (numbers_of (net_of net latches.now gates.now) depth group) out.old }
{
    if 5992 <= out.len() {
        return Ok(groups::put_group(out, net, latches, gates, depth, group));
    }
    let mut numbers = [0; 5992];
    let count = groups::put_group(&mut numbers, net, latches, gates, depth, group);
    if out.len() < count {
        return Err(Refused(Refusal::NoRoom, 0));
    }
    Ok(copy_numbers(out, &numbers[..count]))
}

// Writes one group's clauses at the start of a slice, in the order of RULES G3 to G14, and answers how many numbers that is; or refuses and
// writes nothing.
pub fn write_group(
    net: Netlist,
    latches: &UnpackedList,
    latch_count: usize,
    gates: &UnpackedList,
    gate_count: usize,
    depth: u32,
    group: Group,
    out: &mut [i32],
) -> Written
    ensures answer { count_reply result ≡ group_sent (net_of net latches.now gates.now) latch_count gate_count depth group (length out.old) }
    ensures borrowed { out.new ≡ group_leaves (net_of net latches.now gates.now) latch_count gate_count depth group out.old }
{
    test_group(net, latches, latch_count, gates, gate_count, depth, group)?;
    write_tested(net, latches, gates, depth, group, out)
}

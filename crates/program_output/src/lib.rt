// What `frames` prints (RULES P2 and P3): the header, and the text of all groups of a depth, piece by piece through buffers of fixed size.
#![tactic(auto)]

ghost use Rattle.std.specs.Prelude.{◌≡◌, List, ℕ, ◌≤◌, length};
ghost use Rattle.model.specs.Netlist.{ports};
ghost use Rattle.model.specs.Acceptance.{Accepted};
ghost use Rattle.model.specs.Numbers.{numbers_of};
ghost use Rattle.model.specs.Wrote.{Wrote};
ghost use Rattle.netlist.specs.NetOf.{net_of, alone};
ghost use Rattle.text_writer.specs.Table.{TableOrNone};
ghost use Rattle.dimacs.specs.Text.{header_text, clause_text};
ghost use Rattle.group_order.specs.Next.{remaining_after, remaining_from};
ghost use Rattle.program_output.specs.Printed.{formula_header};
ghost use Rattle.program_output.specs.Pieces.{TextDue, Continues};
ghost use Rattle.program_output.specs.Order.{OrderHas};

use model::Group;
use netlist::{Netlist, UnpackedList};

// The first `bytes` bytes of a buffer are text to be printed; the group after those printed.
#[derive(Clone, Copy)]
pub struct Piece {
    pub bytes: usize,
    pub next: Option<Group>,
}

// A header takes at most 28 bytes.
fn print_counts(text: &mut [u8], variables: u32, clauses: u32) -> usize
    requires { 28 ≤ length text.old }
    ensures { Wrote (header_text variables clauses) text.old text.new result × (result ≤ 28) }
{
    dimacs::write_header(text, variables, clauses)
}

// Prints the header: the variables and clauses of a depth.
pub fn print_header(
    text: &mut [u8],
    net: Netlist,
    latches: &UnpackedList,
    gates: &UnpackedList,
    depth: u32,
) -> usize
    requires { Accepted (net_of net latches.now gates.now) × (depth ≤ 255) × (28 ≤ length text.old) }
    ensures { Wrote (formula_header (net_of net latches.now gates.now) depth) text.old text.new result × (result ≤ 28) }
{
    let variables = clause_variables::frame_base(net, depth + 1);
    let clauses = group_counts::clause_count(net, latches, gates, depth);
    print_counts(text, variables, clauses)
}

// Prints a group of an accepted netlist: its numbers into scratch, and from them its text. No group has more than 5,992 numbers, and
// no number more than twelve bytes with the one behind it.
fn print_group(
    text: &mut [u8],
    numbers: &mut [i32],
    table: &[u8],
    net: Netlist,
    latches: &UnpackedList,
    gates: &UnpackedList,
    depth: u32,
    group: Group,
) -> usize
    requires { Accepted (net_of net latches.now gates.now) × (depth ≤ 255) × OrderHas (net_of net latches.now gates.now) depth group
        × TableOrNone table.now × (5992 ≤ length numbers.old) × (71904 ≤ length text.old) }
    ensures wrote { Wrote (clause_text (numbers_of (net_of net latches.now gates.now) depth group)) text.old text.new result × (result ≤ 71904) }
    ensures scratch { length numbers.new ≡ length numbers.old }
{
    let count = groups::put_group(numbers, net, latches, gates, depth, group);
    dimacs::write_numbers(text, &numbers[..count], table)
}

// Prints groups from `group` on, in the order of the whole, until the next might not fit. `numbers` is scratch, as it is for each
// group: nothing is said of what it holds.
pub fn print_groups(
    text: &mut [u8],
    numbers: &mut [i32],
    table: &[u8],
    net: Netlist,
    latches: &UnpackedList,
    gates: &UnpackedList,
    depth: u32,
    group: Group,
) -> Piece
    requires { Accepted (net_of net latches.now gates.now) × (depth ≤ 255) × OrderHas (net_of net latches.now gates.now) depth group
        × TableOrNone table.now × (5992 ≤ length numbers.old) × (71904 ≤ length text.old) }
    ensures text { (due : List ℕ) → TextDue (net_of net latches.now gates.now) depth (Some group) due
        → Continues (net_of net latches.now gates.now) depth due text.new result }
    ensures ends { remaining_from (ports (alone net)) depth result.next ≤ remaining_after (ports (alone net)) depth group }
    ensures within { result.bytes ≤ length text.old }
    ensures scratch { length numbers.new ≡ length numbers.old }
{
    let ports = netlist::port_count(net);
    let last = text.len() - 71904;
    let mut bytes = 0;
    let mut next = Some(group);
    while bytes <= last {
        let Some(due) = next else {
            break;
        };
        bytes = bytes
            + print_group(
                &mut text[bytes..],
                numbers,
                table,
                net,
                latches,
                gates,
                depth,
                due,
            );
        next = group_order::next_group(ports, depth, due);
    }
    Piece { bytes, next }
}

// One line more of a sheet (RULES S5, S7, S13 and S14): the line due at a place, its tests, and its numbers put into the record and
// the lists.
//
// The lists are unpacked and of full length: 600 records of two codes each.
#![tactic(auto)]

ghost use Rattle.std.specs.Prelude.{◌≡◌, ◌<◌, ltb};
ghost use Rattle.netlist.specs.NetOf.{net_of, alone};
ghost use Rattle.netlist.specs.Places.{line_at, control_line};
ghost use Rattle.sheet_lines.specs.Letters.{row_of};
ghost use Rattle.sheet_steps.specs.Due.{kind_due, is_due};
ghost use Rattle.sheet_steps.specs.LineIndex.{line_index, room_for};
ghost use Rattle.sheet_steps.specs.LineFaults.{faults_at};
ghost use Rattle.sheet_steps.specs.Records.{refused_at};
ghost use Rattle.sheet_steps.specs.Steps.{stored, StoredIn, Outcome, SizesKnown, step_net, step_verdict};
ghost use Rattle.sheet_steps.specs.Lists.{FullLength, Holds};

use netlist::{Line, Netlist, UnpackedList};
use refusals::{Refusal, Refused, Verdict};
use sheet_lines::Kind;

// What a sheet is read as: the verdict of its tests, and the record, all zeros at a refusal.
#[derive(Clone, Copy)]
pub struct SheetAnswer {
    pub verdict: Verdict,
    pub net: Netlist,
}

// A refusal, with a record that is all zeros.
pub fn refused(refusal: Refusal, place: u32) -> SheetAnswer
    ensures { result ≡ refused_at refusal place }
{
    SheetAnswer {
        verdict: Err(Refused(refusal, place)),
        net: netlist::empty_net(),
    }
}

// The row of the kind that a line due is of.
fn row_due(due: Line) -> usize
    ensures { result ≡ row_of (kind_due due) }
{
    match due {
        Line::Sizes => 0,
        Line::Memory => 1,
        Line::Latch(_) => 3,
        Line::Gate(_) => 4,
        Line::Address(_) => 5,
        Line::WriteData(_) => 6,
        Line::SecondAddress(_) => 7,
        Line::SecondEnable => 8,
        Line::Control => 9,
    }
}

// Whether a line of a kind is the line due. Line 2 may be M or T.
fn is_due(due: Line, kind: Kind) -> bool
    ensures { result ≡ is_due due kind }
{
    let wanted = row_due(due);
    let row = sheet_lines::row_of(kind);
    (row == wanted) | ((row == 2) & (wanted == 1))
}

// Puts the sizes of line N into the record.
fn store_sizes(net: Netlist, first: u32, second: u32, third: u32) -> Netlist
    ensures { StoredIn result net Line.Sizes Kind.Sizes first second third 0 }
{
    let mut next = net;
    next.inputs = first;
    next.latches = second;
    next.gates = third;
    next
}

// Puts the numbers of line M or T into the record, whether its third field is empty (the start is then unknown), and whether it is T.
fn store_memory(
    net: Netlist,
    kind: Kind,
    first: u32,
    second: u32,
    third: u32,
    empty: u32,
) -> Netlist
    ensures { StoredIn result net Line.Memory kind first second third empty }
{
    let mut next = net;
    next.m = first;
    next.n = second;
    next.initial_word = third;
    next.unknown_start = empty;
    next.second_port = sheet_lines::second_port_of(kind);
    next
}

// Puts an address code into the record.
fn store_address(net: Netlist, t: u32, first: u32) -> Netlist
    requires { t < 12 }
    ensures { StoredIn result net (Line.Address t) Kind.Address first 0 0 0 }
{
    let mut next = net;
    let at = t as usize;
    next.address[at].0 = first;
    next
}

// Puts a write-data code into the record.
fn store_data(net: Netlist, t: u32, first: u32) -> Netlist
    requires { t < 32 }
    ensures { StoredIn result net (Line.WriteData t) Kind.WriteData first 0 0 0 }
{
    let mut next = net;
    let at = t as usize;
    next.write_data[at].0 = first;
    next
}

// Puts an address code of the second port into the record.
fn store_second_address(net: Netlist, t: u32, first: u32) -> Netlist
    requires { t < 12 }
    ensures { StoredIn result net (Line.SecondAddress t) Kind.SecondAddress first 0 0 0 }
{
    let mut next = net;
    let at = t as usize;
    next.address2[at].0 = first;
    next
}

// Puts the second port's RE into the record.
fn store_second_enable(net: Netlist, first: u32) -> Netlist
    ensures { StoredIn result net Line.SecondEnable Kind.SecondEnable first 0 0 0 }
{
    let mut next = net;
    next.re2.0 = first;
    next
}

// Puts the codes of line C into the record.
fn store_control(net: Netlist, first: u32, second: u32, third: u32) -> Netlist
    ensures { StoredIn result net Line.Control Kind.Control first second third 0 }
{
    let mut next = net;
    next.we.0 = first;
    next.re.0 = second;
    next.p.0 = third;
    next
}

// Puts the numbers of a line where the line has them.
fn store(
    net: Netlist,
    latches: &mut UnpackedList,
    gates: &mut UnpackedList,
    due: Line,
    kind: Kind,
    first: u32,
    second: u32,
    third: u32,
    empty: u32,
) -> Netlist
    requires { FullLength net latches.old gates.old × (line_index due < room_for due) }
    ensures { Holds result latches.new gates.new (stored (net_of net latches.old gates.old) due kind first second third empty) }
{
    match due {
        Line::Sizes => store_sizes(net, first, second, third),
        Line::Memory => store_memory(net, kind, first, second, third, empty),
        Line::Latch(l) => {
            netlist::put_numbers(latches, l as usize, first, second);
            net
        }
        Line::Gate(g) => {
            netlist::put_numbers(gates, g as usize, first, second);
            net
        }
        Line::Address(t) => store_address(net, t, first),
        Line::WriteData(t) => store_data(net, t, first),
        Line::SecondAddress(t) => store_second_address(net, t, first),
        Line::SecondEnable => store_second_enable(net, first),
        Line::Control => store_control(net, first, second, third),
    }
}

// The line due at a place. Lines N and 2 are due before any size is known.
fn line_due(net: Netlist, place: u32) -> Line
    requires { SizesKnown (alone net) place }
    ensures { result ≡ line_at (alone net) place }
{
    if place <= 1 {
        return Line::Sizes;
    }
    if place <= 2 {
        return Line::Memory;
    }
    netlist::line_at(net, place)
}

// Whether a place is behind the last line.
fn is_past_last(net: Netlist, place: u32) -> bool
    requires { SizesKnown (alone net) place }
    ensures { result ≡ ltb (control_line (alone net)) place }
{
    if 3 <= place {
        return netlist::control_line(net) < place;
    }
    false
}

// Refusals 4 and 5 at the line just put into the record and the lists.
fn test_stored(
    net: Netlist,
    latches: &UnpackedList,
    gates: &UnpackedList,
    due: Line,
    place: u32,
) -> Verdict
    requires { SizesKnown (alone net) place × (due ≡ line_at (alone net) place) }
    ensures { result ≡ faults_at (net_of net latches.now gates.now) due place }
{
    if place < 2 {
        if netlist::sizes_fault(net) {
            return Err(Refused(Refusal::Size, place));
        }
        return Ok(());
    }
    if place < 3 {
        if netlist::memory_fault(net) {
            return Err(Refused(Refusal::Size, place));
        }
        return Ok(());
    }
    if netlist::code_fault(net, latches, gates, due) {
        return Err(Refused(Refusal::CodeOutside, place));
    }
    Ok(())
}

// A line that was read, taken for the line due: refusals 3, 4 and 5, and its numbers put into the record and the lists. After a
// refusal the lists are scratch: they may hold the refused line.
pub fn take_line(
    net: Netlist,
    latches: &mut UnpackedList,
    gates: &mut UnpackedList,
    place: u32,
    kind: Kind,
    first: u32,
    second: u32,
    third: u32,
    empty: u32,
) -> SheetAnswer
    requires { FullLength net latches.old gates.old × SizesKnown (alone net) place }
    ensures { Outcome result latches.new gates.new (step_verdict (net_of net latches.old gates.old) kind first second third empty place) (step_net (net_of net latches.old gates.old) kind first second third empty place) }
{
    let due = line_due(net, place);
    if is_past_last(net, place) | !is_due(due, kind) {
        return refused(Refusal::OutOfOrder, place);
    }
    let next = store(net, latches, gates, due, kind, first, second, third, empty);
    let verdict = test_stored(next, latches, gates, due, place);
    if let Err(Refused(refusal, at)) = verdict {
        return refused(refusal, at);
    }
    SheetAnswer { verdict, net: next }
}

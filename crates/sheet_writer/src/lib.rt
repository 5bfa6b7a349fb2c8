// The sheet written back from a record and unpacked lists (RULES B1 to B6): line by line, each by the table of letters.
#![tactic(auto)]

ghost use Rattle.std.specs.Prelude.{◌≡◌, cond, ℕ, ◌*◌, ◌≤◌, ◌<◌, length};
ghost use Rattle.model.specs.Acceptance.{SizesFit};
ghost use Rattle.model.specs.Wrote.{Wrote};
ghost use Rattle.refusals.specs.Slices.{count_reply};
ghost use Rattle.netlist.specs.NetOf.{net_of, alone};
ghost use Rattle.netlist.specs.Places.{control_line, line_at, HasLine};
ghost use Rattle.sheet_fields.specs.declared.Field.TheVariants.{Empty, Filled};
ghost use Rattle.sheet_lines.specs.Letters.{row_of, content_of};
ghost use Rattle.sheet_lines.specs.Lines.{printed_field, field_text};
ghost use Rattle.sheet_text.specs.SheetText.{sheet_text};
ghost use Rattle.sheet_text.specs.PrintedAt.{memory_kind, printed_at};
ghost use Rattle.sheet_writer.specs.Printed.{printed_line, printed_text};
ghost use Rattle.sheet_writer.specs.WriteCall.{write_sent, write_leaves, SheetWritten};

use decimal::put_field;
use netlist::{Line, Netlist, UnpackedList};
use refusals::{Refusal, Refused, Written};
use sheet_lines::{Kind, MAY_BE_EMPTY, MUST_BE_FILLED};
use text_writer::{write_byte, write_word};

// A line to be printed: its kind and three numbers, 0 where a field is always empty; and 1 where one that may be filled is to be left empty.
#[derive(Clone, Copy)]
pub struct PrintedLine {
    pub kind: Kind,
    pub first: u32,
    pub second: u32,
    pub third: u32,
    pub empty: u32,
}

// The kind of the second line: M, or T where there is a second port.
fn memory_kind(second_port: u32) -> Kind
    ensures { result ≡ memory_kind second_port }
{
    if second_port == 0 {
        return Kind::Memory;
    }
    Kind::TwoPorts
}

// The numbers of a line.
fn printed_line(
    net: Netlist,
    latches: &UnpackedList,
    gates: &UnpackedList,
    line: Line,
) -> PrintedLine
    requires { SizesFit (alone net) × HasLine (alone net) line }
    ensures { result ≡ printed_line (net_of net latches.now gates.now) line }
{
    match line {
        Line::Sizes => PrintedLine {
            kind: Kind::Sizes,
            first: net.inputs,
            second: net.latches,
            third: net.gates,
            empty: 0,
        },
        Line::Memory => PrintedLine {
            kind: memory_kind(net.second_port),
            first: net.m,
            second: net.n,
            third: net.initial_word,
            empty: net.unknown_start,
        },
        Line::Latch(l) => {
            let at = 2 * (l as usize);
            let next = latches[at];
            let reset = latches[at + 1];
            PrintedLine {
                kind: Kind::Latch,
                first: next,
                second: reset,
                third: 0,
                empty: 0,
            }
        }
        Line::Gate(g) => {
            let at = 2 * (g as usize);
            let left = gates[at];
            let right = gates[at + 1];
            PrintedLine {
                kind: Kind::Gate,
                first: left,
                second: right,
                third: 0,
                empty: 0,
            }
        }
        Line::Address(t) => {
            let at = t as usize;
            let code = net.address[at].0;
            PrintedLine {
                kind: Kind::Address,
                first: code,
                second: 0,
                third: 0,
                empty: 0,
            }
        }
        Line::WriteData(t) => {
            let at = t as usize;
            let code = net.write_data[at].0;
            PrintedLine {
                kind: Kind::WriteData,
                first: code,
                second: 0,
                third: 0,
                empty: 0,
            }
        }
        Line::SecondAddress(t) => {
            let at = t as usize;
            let code = net.address2[at].0;
            PrintedLine {
                kind: Kind::SecondAddress,
                first: code,
                second: 0,
                third: 0,
                empty: 0,
            }
        }
        Line::SecondEnable => PrintedLine {
            kind: Kind::SecondEnable,
            first: net.re2.0,
            second: 0,
            third: 0,
            empty: 0,
        },
        Line::Control => PrintedLine {
            kind: Kind::Control,
            first: net.we.0,
            second: net.re.0,
            third: net.p.0,
            empty: 0,
        },
    }
}

// Whether a column of a line is printed as a number: where the table says so, and where it leaves both open, unless it is to be empty.
fn is_printed(kind: Kind, column: usize, empty: u32) -> bool
    requires { (row_of kind < 10) × (column < 3) }
    ensures { (x : ℕ) → printed_field (content_of kind column) empty x ≡ cond result (Filled x) Empty }
{
    let content = sheet_lines::content_of(kind, column);
    (content == MUST_BE_FILLED) | ((content == MAY_BE_EMPTY) & (empty == 0))
}

// Writes ten columns: a number, or spaces.
fn put_column(out: &mut [u8], filled: bool, x: u32) -> usize
    requires { 10 ≤ length out.old }
    ensures { Wrote (field_text (cond filled (Filled x) Empty)) out.old out.new result × (result ≤ 10) }
{
    if filled {
        return put_field(out, x);
    }
    write_word(out, b"          ")
}

// Writes a line of 32 bytes: which fields have a number the table of letters says.
fn put_line(out: &mut [u8], line: PrintedLine) -> usize
    requires { (row_of line.kind < 10) × (32 ≤ length out.old) }
    ensures { Wrote (printed_text line) out.old out.new result × (result ≤ 32) }
{
    let kind = line.kind;
    let letter = write_byte(out, sheet_lines::letter_of(kind));
    let first = letter
        + put_column(
            &mut out[letter..],
            is_printed(kind, 0, line.empty),
            line.first,
        );
    let second = first
        + put_column(
            &mut out[first..],
            is_printed(kind, 1, line.empty),
            line.second,
        );
    let third = second
        + put_column(
            &mut out[second..],
            is_printed(kind, 2, line.empty),
            line.third,
        );
    third + write_byte(&mut out[third..], b'\n')
}

// Writes the line due at a place.
fn put_line_at(
    out: &mut [u8],
    net: Netlist,
    latches: &UnpackedList,
    gates: &UnpackedList,
    place: u32,
) -> usize
    requires { SizesFit (alone net) × (32 ≤ length out.old) }
    ensures { Wrote (printed_at (net_of net latches.now gates.now) (line_at (alone net) place)) out.old out.new result × (result ≤ 32) }
{
    let line = netlist::line_at(net, place);
    put_line(out, printed_line(net, latches, gates, line))
}

// Writes all lines, one behind the other.
pub fn put_sheet(
    out: &mut [u8],
    net: Netlist,
    latches: &UnpackedList,
    gates: &UnpackedList,
) -> usize
    requires { SizesFit (alone net) × (control_line (alone net) * 32 ≤ length out.old) }
    ensures { Wrote (sheet_text (net_of net latches.now gates.now)) out.old out.new result }
{
    let last = netlist::control_line(net);
    let mut at = 0;
    for place in 0..last {
        at += put_line_at(&mut out[at..], net, latches, gates, place + 1);
    }
    at
}

// Writes the one sheet that stands for a record, and answers its length; or refuses and writes nothing.
pub fn write_sheet(
    net: Netlist,
    latches: &UnpackedList,
    latch_count: usize,
    gates: &UnpackedList,
    gate_count: usize,
    out: &mut [u8],
) -> Written
    ensures answer { count_reply result ≡ write_sent (net_of net latches.now gates.now) latch_count gate_count (length out.old) }
    ensures borrowed { out.new ≡ write_leaves (net_of net latches.now gates.now) latch_count gate_count out.old }
    ensures written { SheetWritten }
{
    netlist_tests::test_record(net, latches, latch_count, gates, gate_count)?;
    if out.len() < 32 * (netlist::control_line(net) as usize) {
        return Err(Refused(Refusal::NoRoom, 0));
    }
    Ok(put_sheet(out, net, latches, gates))
}

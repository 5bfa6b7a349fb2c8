// A sheet with two ports of which nothing uses the second, converted to one with one port (RULES O1 to O5): read, tested, renumbered in
// place and written.
#![tactic(auto)]

ghost use Rattle.std.specs.Prelude.{◌≡◌, ℕ, ◌<◌, eqb, length};
ghost use Rattle.model.specs.Acceptance.{SizesFit};
ghost use Rattle.model.specs.OnePort.{names_second, one_code};
ghost use Rattle.refusals.specs.Slices.{count_reply};
ghost use Rattle.netlist.specs.NetOf.{code_of, net_of, alone};
ghost use Rattle.netlist.specs.Places.{HasLine};
ghost use Rattle.sheet_parse.specs.Progress.{no_codes};
ghost use Rattle.sheet_one_port.specs.SecondPort.{second_use, test_second};
ghost use Rattle.sheet_one_port.specs.OnePortCall.{one_port_sent, one_port_leaves, OnePortTheorem};
ghost use Rattle.sheet_one_port.specs.Renumbered.{RenumberedList, RenumberedRecord, ReadAsOne};

use literals::Code;
use netlist::{Line, Netlist, UnpackedList};
use refusals::{Refusal, Refused, Verdict, Written};
use sheet_steps::SheetAnswer;

// Whether a code is the constant false.
fn is_false(code: Code) -> bool
    ensures { result ≡ eqb code.0 0 }
{
    code.0 == 0
}

// Whether a code is of a read bit of the second port.
fn names_second(net: Netlist, code: Code) -> bool
    requires { SizesFit (alone net) }
    ensures { result ≡ names_second (alone net) code.0 }
{
    let second = netlist::first_read_wire(net).offset(net.n);
    !code.is_below(second) & code.is_below(netlist::first_gate_wire(net))
}

// Refusal 18 at a line.
fn second_use(net: Netlist, latches: &UnpackedList, gates: &UnpackedList, line: Line) -> bool
    requires { SizesFit (alone net) × HasLine (alone net) line }
    ensures { result ≡ second_use (net_of net latches.now gates.now) line }
{
    match line {
        Line::Sizes | Line::Memory => false,
        Line::Latch(l) => names_second(net, Code(latches[2 * (l as usize)])),
        Line::Gate(g) => {
            let at = 2 * (g as usize);
            names_second(net, Code(gates[at])) | names_second(net, Code(gates[at + 1]))
        }
        Line::Address(t) => names_second(net, net.address[t as usize]),
        Line::WriteData(t) => names_second(net, net.write_data[t as usize]),
        Line::SecondAddress(t) => names_second(net, net.address2[t as usize]),
        Line::SecondEnable => !is_false(net.re2),
        Line::Control => {
            names_second(net, net.we) | names_second(net, net.re) | names_second(net, net.p)
        }
    }
}

// Looks for the first line, in line order, that uses the second port.
fn test_second(net: Netlist, latches: &UnpackedList, gates: &UnpackedList) -> Verdict
    requires { SizesFit (alone net) }
    ensures { result ≡ test_second (net_of net latches.now gates.now) }
{
    for place in 1..=netlist::control_line(net) {
        let line = netlist::line_at(net, place);
        if second_use(net, latches, gates, line) {
            return Err(Refused(Refusal::SecondPort, place));
        }
    }
    Ok(())
}

// A code under the numbers of one port: the wires behind the second port's read bits move up.
fn one_code(net: Netlist, code: Code) -> Code
    requires { SizesFit (alone net) }
    ensures { result.0 ≡ one_code (alone net) code.0 }
{
    if code.is_below(netlist::first_gate_wire(net)) {
        return code;
    }
    Code(code.0 - 2 * (net.second_port * net.n))
}

// Renumbers a list. A latch's reset is 0 or 1, which as codes are no wire's and stay.
fn renumber(net: Netlist, codes: &mut UnpackedList)
    requires { SizesFit (alone net) }
    ensures { RenumberedList net codes.old codes.new }
{
    for i in 0..1200 {
        codes[i] = one_code(net, Code(codes[i])).0;
    }
}

// Renumbers codes in place.
fn renumber_codes(net: Netlist, codes: &mut [Code])
    requires { SizesFit (alone net) }
    ensures { (t : ℕ) → t < length codes.old → code_of codes.new t ≡ one_code (alone net) (code_of codes.old t) }
{
    for code in codes.iter_mut() {
        *code = one_code(net, *code);
    }
}

// The record without its second port.
fn one_record(net: Netlist) -> Netlist
    requires { SizesFit (alone net) }
    ensures { RenumberedRecord net result }
{
    let none = Code(0);
    let mut one = net;
    one.second_port = 0;
    renumber_codes(net, &mut one.address);
    renumber_codes(net, &mut one.write_data);
    one.we = one_code(net, net.we);
    one.re = one_code(net, net.re);
    one.p = one_code(net, net.p);
    one.address2 = [none; 12];
    one.re2 = none;
    one
}

// Reads a sheet, tests that nothing uses a second port, and takes it out of the record and the lists of no codes, which are scratch after a
// refusal.
fn read_one_port(file: &[u8], latches: &mut UnpackedList, gates: &mut UnpackedList) -> SheetAnswer
    requires { (latches.old ≡ no_codes) × (gates.old ≡ no_codes) }
    ensures { ReadAsOne file.now result latches.new gates.new }
{
    let sheet = sheet_tests::read_codes(file, 600, 600, latches, gates);
    let read = sheet.verdict;
    if let Err(_) = read {
        return sheet;
    }
    let net = sheet.net;
    let used = test_second(net, latches, gates);
    if let Err(Refused(refusal, place)) = used {
        return sheet_steps::refused(refusal, place);
    }
    renumber(net, latches);
    renumber(net, gates);
    SheetAnswer {
        verdict: Ok(()),
        net: one_record(net),
    }
}

// Writes the sheet with one port that has the runs of a sheet, and answers its length; or refuses and writes nothing.
pub fn convert(file: &[u8], out: &mut [u8]) -> Written
    ensures answer { count_reply result ≡ one_port_sent file.now (length out.old) }
    ensures borrowed { out.new ≡ one_port_leaves file.now out.old }
    ensures converted { OnePortTheorem }
{
    let mut latches = sheet_tests::no_codes();
    let mut gates = sheet_tests::no_codes();
    let sheet = read_one_port(file, &mut latches, &mut gates);
    sheet.verdict?;
    let net = sheet.net;
    if out.len() < 32 * (netlist::control_line(net) as usize) {
        return Err(Refused(Refusal::NoRoom, 0));
    }
    Ok(sheet_writer::put_sheet(out, net, &latches, &gates))
}

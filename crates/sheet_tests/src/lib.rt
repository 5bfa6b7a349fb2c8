// The tests of a sheet, a netlist file of fixed columns, and what it is read as, over unpacked lists (RULES S1 to S5, S7, S13, S14,
// T53 and T34 to T37).
#![tactic(auto)]

ghost use Rattle.std.specs.Prelude.{◌≡◌, [], ◌≤◌};
ghost use Rattle.netlist.specs.NetOf.{net_of};
ghost use Rattle.sheet_steps.specs.Steps.{Outcome};
ghost use Rattle.sheet_parse.specs.Files.{net_in};
ghost use Rattle.sheet_parse.specs.Progress.{no_codes};
ghost use Rattle.sheet_tests.specs.Sheet.{end_verdict, file_verdict};
ghost use Rattle.sheet_tests.specs.LinesPassed.{LinesPassed};
ghost use Rattle.sheet_tests.specs.Codes.{CodesRead};

use netlist::{Netlist, UnpackedList};
use refusals::{Refusal, Refused, Verdict};
use sheet_steps::SheetAnswer;

// 600 records of two codes, all 0.
pub fn no_codes() -> UnpackedList
    ensures { result ≡ no_codes }
{
    [0; 1200]
}

// The tests behind the last line: refusal 3 where one is missing, then 17 and 6.
fn test_end(net: Netlist, gates: &UnpackedList, count: u32) -> Verdict
    requires { (count ≤ 627) × LinesPassed (net_of net [] gates.now) count }
    ensures { result ≡ end_verdict (net_of net [] gates.now) count }
{
    if count < 3 {
        return Err(Refused(Refusal::OutOfOrder, count + 1));
    }
    if count < netlist::control_line(net) {
        return Err(Refused(Refusal::OutOfOrder, count + 1));
    }
    netlist_tests::test_ports(net, gates)
}

// The tests of a file, read into lists of no codes. Where it passes, its codes are in the lists and the rest in the record; after a
// refusal the lists are scratch.
fn test_file(file: &[u8], latches: &mut UnpackedList, gates: &mut UnpackedList) -> SheetAnswer
    requires { (latches.old ≡ no_codes) × (gates.old ≡ no_codes) }
    ensures { Outcome result latches.new gates.new (file_verdict file.now) (net_in file.now) }
{
    if sheet_parse::is_ragged(file) {
        return sheet_steps::refused(Refusal::Ragged, 0);
    }
    let sheet = sheet_loop::read_lines(file, latches, gates);
    let read = sheet.verdict;
    if let Err(_) = read {
        return sheet;
    }
    let net = sheet.net;
    let count = (file.len() / 32) as u32;
    let ended = test_end(net, gates, count);
    if let Err(Refused(refusal, place)) = ended {
        return sheet_steps::refused(refusal, place);
    }
    sheet
}

// Reads a sheet, for lists that have room for so many records: its record, and its codes into unpacked lists of no codes, which are
// scratch after a refusal.
pub fn read_codes(
    file: &[u8],
    latch_room: usize,
    gate_room: usize,
    latches: &mut UnpackedList,
    gates: &mut UnpackedList,
) -> SheetAnswer
    requires { (latches.old ≡ no_codes) × (gates.old ≡ no_codes) }
    ensures { CodesRead file.now latch_room gate_room result latches.new gates.new }
{
    let sheet = test_file(file, latches, gates);
    let tested = sheet.verdict;
    if let Err(_) = tested {
        return sheet;
    }
    let net = sheet.net;
    if (latch_room < net.latches as usize) | (gate_room < net.gates as usize) {
        return sheet_steps::refused(Refusal::NoRoom, 0);
    }
    sheet
}

// What `export_aig` prints (RULES P3 and P28): the binary AIGER file of a sheet's netlist, or a refusal.
#![tactic(auto)]

ghost use Rattle.std.specs.Prelude.{◌≤◌, length};
ghost use Rattle.model.specs.Wrote.{Wrote};
ghost use Rattle.refusals.specs.Refusal.{refusal_number};
ghost use Rattle.netlist.specs.NetOf.{net_of};
ghost use Rattle.dimacs.specs.Text.{refusal_text};
ghost use Rattle.aiger_export.specs.ExportCall.{export_text, test_export};
ghost use Rattle.aiger_export.specs.Exported.{ExportTheorem};
ghost use Rattle.program_input.specs.Input.{text_or_refusal};
ghost use Rattle.program_export.specs.Printed.{export_output, OnlyExportRefusals};

use netlist::{Netlist, UnpackedList};
use refusals::{Refusal, Refused};

// Writes the line of a refusal.
fn write_refused(out: &mut [u8], refusal: Refusal, place: u32) -> usize
    requires { 28 ≤ length out.old }
    ensures { Wrote (refusal_text (refusal_number refusal) place) out.old out.new result × (result ≤ 28) }
{
    dimacs::write_refusal(out, refusals::number(refusal), place)
}

// Tests a record that was read from a sheet for its export, and writes its file or the refusal.
fn write_export(out: &mut [u8], net: Netlist, latches: &UnpackedList, gates: &UnpackedList) -> usize
    requires { 4096 ≤ length out.old }
    ensures { Wrote (text_or_refusal (test_export (net_of net latches.now gates.now) 600 600) (export_text (net_of net latches.now gates.now))) out.old out.new result × (result ≤ 4096) }
{
    let tested = aiger_export::test_export(net, latches, 600, gates, 600);
    if let Err(Refused(refusal, place)) = tested {
        return write_refused(out, refusal, place);
    }
    aiger_writer::put_file(out, net, latches, gates)
}

// Reads a sheet, and writes its file or the refusal into a slice that has room for the longest.
pub fn write_output(out: &mut [u8], file: &[u8]) -> usize
    requires { 4096 ≤ length out.old }
    ensures text { Wrote (export_output file.now) out.old out.new result }
    ensures most { result ≤ 4096 }
    ensures exported { ExportTheorem }
    ensures refusals { OnlyExportRefusals }
{
    let mut latches = sheet_tests::no_codes();
    let mut gates = sheet_tests::no_codes();
    let sheet = sheet_tests::read_codes(file, 600, 600, &mut latches, &mut gates);
    let verdict = sheet.verdict;
    if let Err(Refused(refusal, place)) = verdict {
        return write_refused(out, refusal, place);
    }
    write_export(out, sheet.net, &latches, &gates)
}

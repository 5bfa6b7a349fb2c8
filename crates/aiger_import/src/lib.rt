// An ASCII AIGER text as a record and unpacked lists, or the refusal that it gets (RULES I1 to I8 and I10 to I12, T55).
#![tactic(auto)]

ghost use Rattle.std.specs.Prelude.{◌≡◌};
ghost use Rattle.aiger_lines.specs.Steps.{HeaderRead};
ghost use Rattle.aiger_netlist.specs.TextNetlist.{aag_net};
ghost use Rattle.aiger_netlist.specs.ImportVerdict.{import_verdict};
ghost use Rattle.sheet_steps.specs.Lists.{Holds};
ghost use Rattle.sheet_steps.specs.Steps.{Outcome};
ghost use Rattle.sheet_parse.specs.Progress.{no_codes};
ghost use Rattle.aiger_import.specs.ImportCall.{imported_word};
ghost use Rattle.aiger_import.specs.Tables.{TextReady, TableFor};

use aiger_codes::FirstNumbers;
use aiger_lines::HeaderLine;
use netlist::{Netlist, UnpackedList};
use refusals::{Refusal, Refused};
use sheet_steps::SheetAnswer;

// A table of a text's first numbers by wire, with its outputs behind; and where the lines of its latches and of its gates begin.
#[derive(Clone, Copy)]
struct TextTable {
    entries: FirstNumbers,
    latches: usize,
    gates: usize,
}

// Makes the table: inputs, read bits, latches, outputs and gates, in the order of their lines.
fn text_table(text: &[u8], header: HeaderLine, sizes: Netlist) -> TextTable
    requires { HeaderRead text.now header.counts header.next × TextReady text.now sizes }
    ensures { TableFor text.now sizes result.entries result.latches result.gates }
{
    let counts = header.counts;
    let read_bits = (sizes.second_port + 1) * sizes.n;
    let latch_wire = 1 + sizes.inputs as usize;
    let read_wire = latch_wire + sizes.latches as usize;
    let gate_wire = read_wire + read_bits as usize;
    let read_line = 1 + sizes.inputs as u64;
    let latch_line = 1 + counts.inputs as u64;
    let output_line = latch_line + counts.latches as u64;
    let gate_line = output_line + counts.outputs as u64;
    let mut entries: FirstNumbers = [0; 661];
    let reads = aiger_codes::put_firsts(text, 1, header.next, sizes.inputs, 1, &mut entries);
    let latches = aiger_codes::put_firsts(
        text,
        read_line,
        reads,
        read_bits,
        read_wire,
        &mut entries,
    );
    let outputs = aiger_codes::put_firsts(
        text,
        latch_line,
        latches,
        sizes.latches,
        latch_wire,
        &mut entries,
    );
    let gates = aiger_codes::put_firsts(
        text,
        output_line,
        outputs,
        counts.outputs,
        601,
        &mut entries,
    );
    aiger_codes::put_firsts(text, gate_line, gates, sizes.gates, gate_wire, &mut entries);
    TextTable {
        entries,
        latches,
        gates,
    }
}

// Fills the record and the lists with the codes of a text.
fn fill(
    text: &[u8],
    header: HeaderLine,
    sizes: Netlist,
    latches: &mut UnpackedList,
    gates: &mut UnpackedList,
) -> Netlist
    requires { HeaderRead text.now header.counts header.next × TextReady text.now sizes × (latches.old ≡ no_codes) × (gates.old ≡ no_codes) }
    ensures { Holds result latches.new gates.new (aag_net text.now sizes.m sizes.n sizes.initial_word sizes.unknown_start sizes.second_port) }
{
    let counts = header.counts;
    let table = text_table(text, header, sizes);
    let entries = table.entries;
    let latch_line = 1 + counts.inputs as u64;
    aiger_codes::put_codes(
        text,
        latch_line,
        table.latches,
        sizes.latches,
        &entries,
        latches,
    );
    let gate_line = latch_line + counts.latches as u64 + counts.outputs as u64;
    aiger_codes::put_codes(text, gate_line, table.gates, sizes.gates, &entries, gates);
    aiger_codes::put_outputs(sizes, &entries)
}

// Reads a text, for lists that have room for so many records: its record, and its codes into unpacked lists of no codes, which are
// scratch after a refusal. Where the start is unknown, the word handed over is left out of the record. No text that passes 13 meets 5, so
// that it need not be tested.
pub fn import_text(
    text: &[u8],
    m: u32,
    n: u32,
    word: u32,
    unknown: u32,
    second_port: u32,
    latch_room: usize,
    gate_room: usize,
    latches: &mut UnpackedList,
    gates: &mut UnpackedList,
) -> SheetAnswer
    requires { (latches.old ≡ no_codes) × (gates.old ≡ no_codes) }
    ensures { Outcome result latches.new gates.new (import_verdict text.now m n (imported_word word unknown) unknown second_port latch_room gate_room) (aag_net text.now m n (imported_word word unknown) unknown second_port) }
{
    let given = netlist::given_word(word, unknown);
    let header = aiger_lines::read_header(text);
    let tested = aiger_tests::test_text(text, header, m, n, second_port);
    if let Err(Refused(refusal, line)) = tested {
        return sheet_steps::refused(refusal, line);
    }
    let sizes = aiger_codes::text_sizes(header.counts, m, n, given, unknown, second_port);
    let sized = netlist_tests::test_sizes(sizes);
    if let Err(Refused(refusal, place)) = sized {
        return sheet_steps::refused(refusal, place);
    }
    let net = fill(text, header, sizes, latches, gates);
    let port = netlist_tests::test_ports(net, gates);
    if let Err(Refused(refusal, place)) = port {
        return sheet_steps::refused(refusal, place);
    }
    if (latch_room < net.latches as usize) | (gate_room < net.gates as usize) {
        return sheet_steps::refused(Refusal::NoRoom, 0);
    }
    SheetAnswer {
        verdict: Ok(()),
        net,
    }
}

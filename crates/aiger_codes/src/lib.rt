// The netlist of an ASCII AIGER text as tables, a record and unpacked lists (RULES I6 to I8): its sizes, and its codes under other numbers.
#![tactic(auto)]

ghost use Rattle.std.specs.Prelude.{◌≡◌, suc, ◌+◌, ◌*◌, ◌≤◌, length};
ghost use Rattle.model.specs.Network.{renamed};
ghost use Rattle.netlist.specs.RecordOf.{record_of};
ghost use Rattle.aiger_graph.specs.RecordAig.{control_output};
ghost use Rattle.aiger_netlist.specs.TextNetlist.{text_sizes};
ghost use Rattle.aiger_lines.specs.Steps.{Behind};
ghost use Rattle.aiger_codes.specs.WireTable.{wire_found};
ghost use Rattle.aiger_codes.specs.Filling.{LinesAhead, firsts_behind, entry_of, put_from, TableFilled, codes_behind, NoCodes, ListFilled};
ghost use Rattle.aiger_codes.specs.Outputs.{Coded, enable_code, control_put, AddressPut, DataPut, SecondPut, OutputsPut};

use aiger_lines::Counts;
use literals::{Code, Wire};
use netlist::{Netlist, UnpackedList};

// The first numbers of a text's lines: the constant's, then by wire, of which there are at most 600, and behind these at most 60 outputs.
pub type FirstNumbers = [u32; 661];

// The first wire at which a table has a variable; 601 where it has it at none.
fn wire_of(table: &FirstNumbers, variable: u32) -> Wire
    ensures { (result.0 ≡ wire_found table.now variable) × (result.0 ≤ 601) }
{
    for w in 0..601 {
        let at = w as usize;
        if table[at] / 2 == variable {
            return Wire(w);
        }
    }
    Wire(601)
}

// A literal of the text as a code: its variable's wire by a table, inverted or not as the literal.
fn code_of(table: &FirstNumbers, literal: u32) -> Code
    ensures { result.0 ≡ renamed (wire_found table.now) literal }
{
    let wire = wire_of(table, literal / 2);
    Code(2 * wire.0 + literal % 2)
}

// The record of a text's sizes, with no codes. The last inputs are the read bits of all ports.
pub fn text_sizes(
    counts: Counts,
    m: u32,
    n: u32,
    word: u32,
    unknown: u32,
    second_port: u32,
) -> Netlist
    requires { suc second_port * n ≤ counts.inputs }
    ensures { result ≡ record_of (text_sizes counts m n word unknown second_port) }
{
    let reads = (second_port as u64 + 1) * n as u64;
    let inputs = counts.inputs as u64 - reads;
    let none = Code(0);
    Netlist {
        inputs: inputs as u32,
        latches: counts.latches,
        gates: counts.gates,
        m,
        n,
        initial_word: word,
        unknown_start: unknown,
        second_port,
        address: [none; 12],
        write_data: [none; 32],
        we: none,
        re: none,
        p: none,
        address2: [none; 12],
        re2: none,
    }
}

// Puts the first numbers of `count` lines into a table, from entry `first` on. The lines stand behind the first `line` lines, and the
// first of them begins at byte `at`. Answers where the line behind them begins.
pub fn put_firsts(
    text: &[u8],
    line: u64,
    at: usize,
    count: u32,
    first: usize,
    table: &mut FirstNumbers,
) -> usize
    requires { LinesAhead text.now line at count × (first + count ≤ 661) × (length table.old ≡ 661) }
    ensures next { Behind text.now (line + count) result }
    ensures table { TableFilled 661 (put_from first count (firsts_behind text.now line) (entry_of table.old)) table.new }
{
    let mut next = at;
    for x in 0..count {
        let read = aiger_lines::next_line(text, line + x as u64, next);
        let numbers = read.numbers;
        let w = first + x as usize;
        table[w] = numbers.values[0];
        next = read.next;
    }
    next
}

// Puts the second and the third numbers of `count` lines, as codes by a table, into a list that holds no codes yet. A latch has no
// third number: 0, its reset.
pub fn put_codes(
    text: &[u8],
    line: u64,
    at: usize,
    count: u32,
    table: &FirstNumbers,
    list: &mut UnpackedList,
)
    requires { LinesAhead text.now line at count × (count ≤ 600) × NoCodes list.old }
    ensures { ListFilled count (codes_behind text.now line table.now 1) (codes_behind text.now line table.now 2) list.new }
{
    let mut next = at;
    for x in 0..count {
        let read = aiger_lines::next_line(text, line + x as u64, next);
        let numbers = read.numbers;
        let left = code_of(table, numbers.values[1]);
        let right = code_of(table, numbers.values[2]);
        netlist::put_numbers(list, x as usize, left.0, right.0);
        next = read.next;
    }
}

// Puts the first m outputs of a table into a record that has no address codes yet.
fn put_address(net: Netlist, table: &FirstNumbers) -> Netlist
    requires { (net.m ≤ 12) × Coded 12 0 (λ o. 0) net.address }
    ensures { AddressPut net table.now result }
{
    let mut next = net;
    for t in 0..net.m {
        let at = t as usize;
        next.address[at] = code_of(table, table[601 + at]);
    }
    next
}

// Puts the n outputs behind them into a record that has no write-data codes yet.
fn put_data(net: Netlist, table: &FirstNumbers) -> Netlist
    requires { (net.m ≤ 12) × (net.n ≤ 32) × Coded 32 0 (λ o. 0) net.write_data }
    ensures { DataPut net table.now result }
{
    let first = 601 + net.m as usize;
    let mut next = net;
    for t in 0..net.n {
        let at = t as usize;
        next.write_data[at] = code_of(table, table[first + at]);
    }
    next
}

// Puts the m outputs behind these into a record that has no address codes of a second port yet, where it has a second port.
fn put_second_address(net: Netlist, table: &FirstNumbers) -> Netlist
    requires { (net.m ≤ 12) × (net.n ≤ 32) × (net.second_port ≤ 1) × Coded 12 0 (λ o. 0) net.address2 }
    ensures { SecondPut net table.now result }
{
    let first = 601 + net.m as usize + net.n as usize;
    let count = net.second_port * net.m;
    let mut next = net;
    for t in 0..count {
        let at = t as usize;
        next.address2[at] = code_of(table, table[first + at]);
    }
    next
}

// RE of a second port, the output behind its address codes; code 0 where there is no second port.
fn second_enable(net: Netlist, table: &FirstNumbers) -> Code
    requires { (net.m ≤ 12) × (net.n ≤ 32) }
    ensures { result.0 ≡ enable_code net table.now }
{
    if 0 < net.second_port {
        let at = 601 + net.m as usize + net.n as usize + net.m as usize;
        return code_of(table, table[at]);
    }
    Code(0)
}

// Where a table has the output WE; RE and P follow it.
fn control_entry(net: Netlist) -> usize
    requires { (net.m ≤ 12) × (net.n ≤ 32) × (net.second_port ≤ 1) }
    ensures { (result ≡ 601 + control_output net.m net.n net.second_port) × (result ≤ 658) }
{
    let second = net.second_port * (net.m + 1);
    601 + net.m as usize + net.n as usize + second as usize
}

// Puts RE of a second port into a record, and the last three outputs: WE, RE and P.
fn put_control(net: Netlist, table: &FirstNumbers) -> Netlist
    requires { (net.m ≤ 12) × (net.n ≤ 32) × (net.second_port ≤ 1) }
    ensures { result ≡ control_put net table.now net }
{
    let first = control_entry(net);
    let mut next = net;
    next.re2 = second_enable(net, table);
    next.we = code_of(table, table[first]);
    next.re = code_of(table, table[first + 1]);
    next.p = code_of(table, table[first + 2]);
    next
}

// Puts all outputs of a table into a record that has no codes yet.
pub fn put_outputs(net: Netlist, table: &FirstNumbers) -> Netlist
    requires { (net.m ≤ 12) × (net.n ≤ 32) × (net.second_port ≤ 1) × Coded 12 0 (λ o. 0) net.address × Coded 32 0 (λ o. 0) net.write_data × Coded 12 0 (λ o. 0) net.address2 }
    ensures { OutputsPut net table.now result }
{
    let addressed = put_address(net, table);
    let with_data = put_data(addressed, table);
    let with_second = put_second_address(with_data, table);
    put_control(with_second, table)
}

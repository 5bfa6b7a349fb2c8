// A record and unpacked lists exported as a binary AIGER file (RULES X1 to X7).
#![tactic(auto)]

ghost use Rattle.std.specs.Prelude.{◌≡◌, ◌≤◌, eqb, length};
ghost use Rattle.model.specs.Search.{first_where};
ghost use Rattle.refusals.specs.Slices.{count_reply};
ghost use Rattle.netlist.specs.NetOf.{second_at, net_of};
ghost use Rattle.aiger_export.specs.ExportCall.{test_export, export_sent, export_leaves};
ghost use Rattle.aiger_export.specs.Exported.{ExportTheorem};

use netlist::{Netlist, UnpackedList};
use refusals::{Refusal, Refused, Verdict, Written};
use text_writer::write_word;

// The first latch with reset 1; `count` where there is none.
fn first_reset(latches: &UnpackedList, count: u32) -> u32
    requires { count ≤ 600 }
    ensures { result ≡ first_where (λ l. eqb (second_at latches.now l) 1) count }
{
    for l in 0..count {
        let at = 2 * (l as usize) + 1;
        if latches[at] == 1 {
            return l;
        }
    }
    count
}

// Tests the record with its lists, then that it has one port, then that its latches start at 0.
pub fn test_export(
    net: Netlist,
    latches: &UnpackedList,
    latch_count: usize,
    gates: &UnpackedList,
    gate_count: usize,
) -> Verdict
    ensures { result ≡ test_export (net_of net latches.now gates.now) latch_count gate_count }
{
    netlist_tests::test_record(net, latches, latch_count, gates, gate_count)?;
    if 0 < net.second_port {
        return Err(Refused(Refusal::OutOfOrder, 2));
    }
    let l = first_reset(latches, net.latches);
    if l < net.latches {
        return Err(Refused(Refusal::Reset, 3 + l));
    }
    Ok(())
}

// Writes the file of a record into a buffer, and answers its length; or refuses and writes nothing. The file is written aside first: how
// long it is shows when it is written.
pub fn export_binary(
    net: Netlist,
    latches: &UnpackedList,
    latch_count: usize,
    gates: &UnpackedList,
    gate_count: usize,
    out: &mut [u8],
) -> Written
    ensures answer { count_reply result ≡ export_sent (net_of net latches.now gates.now) latch_count gate_count (length out.old) }
    ensures borrowed { out.new ≡ export_leaves (net_of net latches.now gates.now) latch_count gate_count out.old }
    ensures exported { ExportTheorem }
{
    test_export(net, latches, latch_count, gates, gate_count)?;
    let mut bytes = [0; 4096];
    let count = aiger_writer::put_file(&mut bytes, net, latches, gates);
    if out.len() < count {
        return Err(Refused(Refusal::NoRoom, 0));
    }
    Ok(write_word(out, &bytes[..count]))
}

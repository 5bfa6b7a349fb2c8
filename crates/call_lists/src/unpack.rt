// From a lent list of records to the codes that everything else works on. The limits (RULES W7) leave no list that counts more than
// 600 records, so later ones are not looked at.
ghost use Rattle.std.specs.Prelude.{◌≡◌, ◌<◌, length, get_or};
ghost use Rattle.netlist.specs.NetOf.{put_numbers};
ghost use Rattle.call_lists.specs.Unpacked.{gate_codes, latch_codes};
ghost use Rattle.call_lists.specs.Unpacking.{no_gate, no_latch, span_of};
ghost use Rattle.model.specs.Wrote.{over};

use crate::{GateEntry, LatchEntry};
use netlist::UnpackedList;

// How many records of a list of this length are looked at.
pub(crate) fn span(count: usize) -> usize
    ensures { result ≡ span_of count }
{
    count.min(600)
}

// Reads gate g and hands its two codes on.
fn unpack_gate(codes: &mut UnpackedList, gates: &[GateEntry], g: usize)
    requires { (g < length gates.now) × (g < 600) }
    ensures { codes.new ≡ put_numbers g (get_or gates.now g no_gate).left.0 (get_or gates.now g no_gate).right.0 codes.old }
{
    let gate = gates[g];
    netlist::put_numbers(codes, g, gate.left.0, gate.right.0);
}

// Reads latch l and hands its next code and its reset on.
fn unpack_latch(codes: &mut UnpackedList, latches: &[LatchEntry], l: usize)
    requires { (l < length latches.now) × (l < 600) }
    ensures { codes.new ≡ put_numbers l (get_or latches.now l no_latch).next.0 (get_or latches.now l no_latch).reset codes.old }
{
    let latch = latches[l];
    netlist::put_numbers(codes, l, latch.next.0, latch.reset);
}

// Unpacks a list of gates, into the first numbers of `codes`.
pub fn unpack_gates(codes: &mut UnpackedList, gates: &[GateEntry])
    ensures { codes.new ≡ over (gate_codes gates.now) codes.old }
{
    for g in 0..span(gates.len()) {
        unpack_gate(codes, gates, g);
    }
}

// The same of a list of latches.
pub fn unpack_latches(codes: &mut UnpackedList, latches: &[LatchEntry])
    ensures { codes.new ≡ over (latch_codes latches.now) codes.old }
{
    for l in 0..span(latches.len()) {
        unpack_latch(codes, latches, l);
    }
}

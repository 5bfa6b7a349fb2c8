// Unpacked codes delivered into a lent list: its first records are written, and everything behind them stays as it was.
ghost use Rattle.std.specs.Prelude.{◌≡◌, ◌≤◌, ◌<◌, length};
ghost use Rattle.call_lists.specs.RecordAt.{latch_at, gate_at};
ghost use Rattle.call_lists.specs.Delivered.{delivered};

use crate::{GateEntry, LatchEntry};
use literals::Code;
use netlist::UnpackedList;

// A latch of unpacked codes.
fn latch_at(codes: &UnpackedList, l: usize) -> LatchEntry
    requires { l < 600 }
    ensures { result ≡ latch_at codes.now l }
{
    let at = 2 * l;
    LatchEntry {
        next: Code(codes[at]),
        reset: codes[at + 1],
    }
}

// A gate of unpacked codes.
fn gate_at(codes: &UnpackedList, g: usize) -> GateEntry
    requires { g < 600 }
    ensures { result ≡ gate_at codes.now g }
{
    let at = 2 * g;
    GateEntry {
        left: Code(codes[at]),
        right: Code(codes[at + 1]),
    }
}

// Writes the first latches of a lent list.
pub fn deliver_latches(codes: &UnpackedList, count: u32, list: &mut [LatchEntry])
    requires { (count ≤ 600) × (count ≤ length list.old) }
    ensures { list.new ≡ delivered count (latch_at codes.now) list.old }
{
    for l in 0..count as usize {
        list[l] = latch_at(codes, l);
    }
}

// Writes the first gates of a lent list.
pub fn deliver_gates(codes: &UnpackedList, count: u32, list: &mut [GateEntry])
    requires { (count ≤ 600) × (count ≤ length list.old) }
    ensures { list.new ≡ delivered count (gate_at codes.now) list.old }
{
    for g in 0..count as usize {
        list[g] = gate_at(codes, g);
    }
}

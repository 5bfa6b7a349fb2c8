// The replay of a solver's answer from its text, over a record and unpacked lists: the answer is read in one piece, and what it says is run
// (RULES Q1 to Q7, Y1, Y5 to Y8 and Y11 to Y14).
#![tactic(auto)]

ghost use Rattle.std.specs.Prelude.{◌≡◌, [], length};
ghost use Rattle.netlist.specs.NetOf.{net_of};
ghost use Rattle.answer_signs.specs.Signs.{SignsOf};
ghost use Rattle.answer_scan.specs.AnswerRead.{AnswerRead};
ghost use Rattle.replay_answer.specs.ReplayAnswer.{replay_for, memory_for, trace_for};

use answer_lines::AnswerKind;
use answer_signs::SignTable;
use netlist::{Netlist, UnpackedList};
use replay_call::ReplayReply;

// Reads an answer into a table of no signs.
fn read_answer(answer: &[u8], signs: &mut SignTable) -> AnswerKind
    requires { SignsOf [] signs.old }
    ensures { AnswerRead answer.now signs.new result }
{
    let start = answer_scan::scan_start();
    let scan = answer_scan::scan_bytes(start, signs, answer);
    answer_scan::scan_end(scan)
}

// Replays an answer: the first frame of the run that breaks the property, or why there is none; the run in the memory and the trace.
pub fn replay(
    net: Netlist,
    latches: &UnpackedList,
    latch_count: usize,
    gates: &UnpackedList,
    gate_count: usize,
    depth: u32,
    answer: &[u8],
    memory: &mut [u32],
    trace: &mut [u8],
) -> ReplayReply
    ensures answer { result ≡ replay_for (net_of net latches.now gates.now) latch_count gate_count depth answer.now (length memory.old) (length trace.old) }
    ensures memory { memory.new ≡ memory_for (net_of net latches.now gates.now) latch_count gate_count depth answer.now memory.old (length trace.old) }
    ensures trace { trace.new ≡ trace_for (net_of net latches.now gates.now) latch_count gate_count depth answer.now (length memory.old) trace.old }
{
    let mut signs = answer_signs::no_signs();
    let kind = read_answer(answer, &mut signs);
    replay_call::reply_of(replay_call::replay(
        net,
        latches,
        latch_count,
        gates,
        gate_count,
        depth,
        kind,
        &signs,
        memory,
        trace,
    ))
}

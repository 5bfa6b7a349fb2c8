// What `replay` prints (RULES P3 and P13 to P15): the first line, and the lines of all frames behind it.
#![tactic(auto)]

ghost use Rattle.std.specs.Prelude.{◌≡◌, cond, List, ◌++◌, ℕ, ◌+◌, ◌≤◌, length};
ghost use Rattle.model.specs.Wrote.{Wrote};
ghost use Rattle.model.specs.Acceptance.{SizesFit, Accepted};
ghost use Rattle.netlist.specs.NetOf.{net_of, alone};
ghost use Rattle.answer_scan.specs.AnswerRead.{AnswerRead};
ghost use Rattle.replay_frame.specs.Replay.{trace_length};
ghost use Rattle.replay_answer.specs.ReplayAnswer.{replay_for, memory_for, trace_for};
ghost use Rattle.program_replay.specs.Printed.{is_broken, answer_text, replayed_text};
ghost use Rattle.program_replay.specs.Room.{most_trace_bytes, ReplayRoomSuffices};

use answer_lines::AnswerKind;
use answer_signs::SignTable;
use netlist::{Netlist, UnpackedList};
use replay_call::ReplayReply;

// Replays an answer that was read, on lists of 600 records: what is answered and left in the trace is what the exported call answers and leaves,
// of the text that was read.
fn replay_read(
    net: Netlist,
    latches: &UnpackedList,
    gates: &UnpackedList,
    depth: u32,
    kind: AnswerKind,
    signs: &SignTable,
    memory: &mut [u32],
    trace: &mut [u8],
) -> ReplayReply
    ensures answer { (text : List ℕ) → AnswerRead text signs.now kind
        → result ≡ replay_for (net_of net latches.now gates.now) 600 600 depth text (length memory.old) (length trace.old) }
    ensures memory { (text : List ℕ) → AnswerRead text signs.now kind
        → memory.new ≡ memory_for (net_of net latches.now gates.now) 600 600 depth text memory.old (length trace.old) }
    ensures trace { (text : List ℕ) → AnswerRead text signs.now kind
        → trace.new ≡ trace_for (net_of net latches.now gates.now) 600 600 depth text (length memory.old) trace.old }
{
    replay_call::reply_of(replay_call::replay(
        net, latches, 600, gates, 600, depth, kind, signs, memory, trace,
    ))
}

// Whether a frame that breaks the property was found.
fn is_broken(reply: ReplayReply) -> bool
    ensures { result ≡ is_broken reply }
{
    if reply.number == 0 {
        return reply.claimed == 0;
    }
    false
}

// Writes the first line into a slice that has room for the longest.
fn write_answer(out: &mut [u8], reply: ReplayReply) -> usize
    requires { 28 ≤ length out.old }
    ensures text { Wrote (answer_text reply) out.old out.new result }
    ensures most { result ≤ 28 }
{
    if is_broken(reply) {
        return text_writer::write_ended(out, reply.first, b'\n');
    }
    if reply.number == 0 {
        return text_writer::write_word(out, b"claimed unsatisfiable\n");
    }
    dimacs::write_refusal(out, reply.number, reply.place)
}

// How many bytes of the trace follow it: the lines of all frames, or none.
fn trace_bytes(reply: ReplayReply, net: Netlist, depth: u32) -> usize
    requires { SizesFit (alone net) × (depth ≤ 255) }
    ensures bytes { result ≡ cond (is_broken reply) (trace_length (alone net) depth) 0 }
    ensures most { result ≤ most_trace_bytes }
{
    if is_broken(reply) {
        return replay_call::trace_length(net, depth);
    }
    0
}

// The memory: as many words as the longest address has.
fn no_words() -> [u32; 4096]
    ensures { length result ≡ 4096 }
{
    [0; 4096]
}

// Writes one text, and another behind it.
fn write_both(out: &mut [u8], first: &[u8], second: &[u8]) -> usize
    requires { length first.now + length second.now ≤ length out.old }
    ensures { Wrote (first.now ++ second.now) out.old out.new result }
{
    let count = text_writer::write_word(out, first);
    count + text_writer::write_word(&mut out[count..], second)
}

// Replays an answer that was read, and writes all that is printed of it into a slice that has room for the longest.
pub fn write_replay(
    out: &mut [u8],
    net: Netlist,
    latches: &UnpackedList,
    gates: &UnpackedList,
    depth: u32,
    kind: AnswerKind,
    signs: &SignTable,
) -> usize
    requires { Accepted (net_of net latches.now gates.now) × (depth ≤ 255) × (153884 ≤ length out.old) }
    ensures text { (text : List ℕ) → AnswerRead text signs.now kind
        → Wrote (replayed_text (net_of net latches.now gates.now) depth text) out.old out.new result }
    ensures most { result ≤ 153884 }
    ensures room { ReplayRoomSuffices }
{
    let mut memory = no_words();
    let mut trace = replay_call::no_lines();
    let reply = replay_read(
        net,
        latches,
        gates,
        depth,
        kind,
        signs,
        &mut memory,
        &mut trace,
    );
    let bytes = trace_bytes(reply, net, depth);
    let mut line = [0; 28];
    let first = write_answer(&mut line, reply);
    write_both(out, &line[..first], &trace[..bytes])
}

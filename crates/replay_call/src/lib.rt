// The replay of a solver's answer as a call over a record and unpacked lists: its tests in their order, what it answers, and what it leaves in
// the lent memory and the lent trace (RULES Y1, Y5 to Y8, Y11 to Y14, T14, T15 and T49).
#![tactic(auto)]

ghost use Rattle.std.specs.Prelude.{◌≡◌, ◌≤◌, length, Ok};
ghost use Rattle.model.specs.Acceptance.{SizesFit};
ghost use Rattle.netlist.specs.NetOf.{net_of, alone};
ghost use Rattle.replay_frame.specs.Replay.{said_in, OneRunTheorem, RoomTheorem, trace_length};
ghost use Rattle.replay_run.specs.Runs.{RunFits};
ghost use Rattle.replay_call.specs.ReplayCall.{replay_tests, replay_reply, replay_sent, replay_memory, replay_trace};
ghost use Rattle.replay_call.specs.Settled.{FaultsSettled};
ghost use Rattle.replay_call.specs.Table.{ReplaysValues, TableSuffices};
ghost use Rattle.replay_call.specs.RightAnswer.{RightAnswerTheorem};

use answer_lines::AnswerKind;
use answer_signs::SignTable;
use netlist::{Netlist, UnpackedList};
use refusals::{Refusal, Refused, Verdict};

// What a replay finds: the first frame that breaks the property, or that the answer claims there is none.
#[derive(Clone, Copy)]
pub enum Replayed {
    Broken(u32),
    ClaimedUnsatisfiable,
}

// What a replay answers: what it finds, or the refusal with its place.
pub type ReplayAnswer = Result<Replayed, Refused>;

// The same in numbers: number and place of a refusal, both 0 where nothing is refused; 1 where the answer claims that there is none; and
// the first frame that breaks the property.
#[repr(C)]
#[derive(Clone, Copy)]
pub struct ReplayReply {
    pub number: u32,
    pub place: u32,
    pub claimed: u32,
    pub first: u32,
}

// What a replay finds, in numbers.
fn found_reply(found: Replayed) -> ReplayReply
    ensures { result ≡ replay_reply (Ok found) }
{
    match found {
        Replayed::Broken(first) => ReplayReply {
            number: 0,
            place: 0,
            claimed: 0,
            first,
        },
        Replayed::ClaimedUnsatisfiable => ReplayReply {
            number: 0,
            place: 0,
            claimed: 1,
            first: 0,
        },
    }
}

// An answer in numbers.
pub fn reply_of(answer: ReplayAnswer) -> ReplayReply
    ensures { result ≡ replay_reply answer }
{
    match answer {
        Ok(found) => found_reply(found),
        Err(Refused(refusal, place)) => ReplayReply {
            number: refusals::number(refusal),
            place,
            claimed: 0,
            first: 0,
        },
    }
}

// How many bytes the lines of frames 0 to k have.
pub fn trace_length(net: Netlist, depth: u32) -> usize
    requires { SizesFit (alone net) × (depth ≤ 255) }
    ensures { result ≡ trace_length (alone net) depth }
{
    (depth as usize + 1) * (netlist::wire_count(net) as usize + 1)
}

// The tests before the answer counts, with a memory of `words` words and a trace of `room` bytes.
fn test_replay(
    net: Netlist,
    latches: &UnpackedList,
    latch_count: usize,
    gates: &UnpackedList,
    gate_count: usize,
    depth: u32,
    words: usize,
    room: usize,
) -> Verdict
    ensures { result ≡ replay_tests (net_of net latches.now gates.now) latch_count gate_count depth words room }
{
    call_unpacked::test_depth(net, latches, latch_count, gates, gate_count, depth)?;
    if words < replay_run::word_count(net) {
        return Err(Refused(Refusal::NoRoom, 0));
    }
    if room < trace_length(net, depth) {
        return Err(Refused(Refusal::NoRoom, 0));
    }
    Ok(())
}

// The lines of a run, to be filled: so many that every trace fits.
pub fn no_lines() -> [u8; 153856]
    ensures { length result ≡ 153856 }
{
    [0; 153856]
}

// Replays a satisfiable answer. The lines go into the trace where the property breaks, so that a refusal leaves it as it was.
fn replay_values(
    net: Netlist,
    latches: &UnpackedList,
    gates: &UnpackedList,
    depth: u32,
    signs: &SignTable,
    memory: &mut [u32],
    trace: &mut [u8],
) -> ReplayAnswer
    requires { RunFits (net_of net latches.now gates.now) depth memory.old trace.old }
    ensures { ReplaysValues (net_of net latches.now gates.now) (said_in signs.now) depth memory.old trace.old
        memory.new trace.new result }
{
    let mut lines = no_lines();
    let shown = replay_run::run(memory, &mut lines, net, latches, gates, signs, depth);
    if shown.fault {
        replay_run::fill_words(memory, replay_run::word_count(net), 0);
        return Err(Refused(Refusal::NoAnswer, 0));
    }
    let first = shown.first;
    if depth < first {
        return Err(Refused(Refusal::NoViolation, 0));
    }
    let length = trace_length(net, depth);
    let _ = text_writer::write_word(trace, &lines[..length]);
    Ok(Replayed::Broken(first))
}

// Replays an answer of a kind, whose numbers have the signs lent.
pub fn replay(
    net: Netlist,
    latches: &UnpackedList,
    latch_count: usize,
    gates: &UnpackedList,
    gate_count: usize,
    depth: u32,
    kind: AnswerKind,
    signs: &SignTable,
    memory: &mut [u32],
    trace: &mut [u8],
) -> ReplayAnswer
    ensures answer { replay_reply result ≡ replay_sent (net_of net latches.now gates.now) latch_count gate_count depth kind (said_in signs.now)
        (length memory.old) (length trace.old) }
    ensures memory { memory.new ≡ replay_memory (net_of net latches.now gates.now) latch_count gate_count depth kind (said_in signs.now)
        memory.old (length trace.old) }
    ensures trace { trace.new ≡ replay_trace (net_of net latches.now gates.now) latch_count gate_count depth kind (said_in signs.now)
        (length memory.old) trace.old }
    ensures settled { FaultsSettled × TableSuffices × OneRunTheorem × RoomTheorem × RightAnswerTheorem }
{
    let words = memory.len();
    let room = trace.len();
    test_replay(
        net,
        latches,
        latch_count,
        gates,
        gate_count,
        depth,
        words,
        room,
    )?;
    match kind {
        AnswerKind::Malformed => {
            replay_run::fill_words(memory, replay_run::word_count(net), 0);
            Err(Refused(Refusal::NoAnswer, 0))
        }
        AnswerKind::Unsatisfiable => Ok(Replayed::ClaimedUnsatisfiable),
        AnswerKind::Satisfiable => {
            replay_values(net, latches, gates, depth, signs, memory, trace)
        }
    }
}

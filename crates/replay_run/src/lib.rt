// The replay of an answer through all frames of a depth, from the initial state (RULES Y5 and Y11 to Y14).
#![tactic(auto)]

ghost use Rattle.std.specs.Prelude.{◌≡◌, ℕ, ◌+◌, ◌*◌, ◌^◌, ◌≤◌, ◌<◌, false, [], eqb, length, drop};
ghost use Rattle.model.specs.Wrote.{Wrote};
ghost use Rattle.model.specs.Netlist.{start, last_wire};
ghost use Rattle.model.specs.Agree.{given_word};
ghost use Rattle.model.specs.Acceptance.{SizesFit};
ghost use Rattle.netlist.specs.NetOf.{net_of, alone};
ghost use Rattle.call_lists.specs.Delivered.{delivered};
ghost use Rattle.netlist.specs.WireTable.{entry};
ghost use Rattle.circuit_step.specs.Held.{HoldsState};
ghost use Rattle.replay_frame.specs.Replay.{said_in, begun_from, replayed, frame_line};
ghost use Rattle.replay_frame.specs.Frames.{FrameBegins, FrameDone};
ghost use Rattle.replay_run.specs.Runs.{next_first, Shown, RunFits, RunDone};

use answer_signs::SignTable;
use circuit_values::{SourceValues, WireValues};
use netlist::{Netlist, UnpackedList};
use replay_frame::{FrameVerdict, TouchedWords};

// What a run shows: whether it is fed something unclear, and the first frame that breaks the property, one past the last if none does.
#[derive(Clone, Copy)]
pub struct RunVerdict {
    pub fault: bool,
    pub first: u32,
}

// One frame of a run: what it shows, and the words held behind it.
#[derive(Clone, Copy)]
pub struct FrameRun {
    pub shown: FrameVerdict,
    pub held: u64,
}

// A table of wires to be filled.
fn no_values() -> WireValues
    ensures { length result ≡ 601 }
{
    [false; 601]
}

// A table of inputs or latches to be filled.
fn no_sources() -> SourceValues
    ensures { length result ≡ 600 }
{
    [false; 600]
}

// A table in which no word is touched.
fn none_touched() -> TouchedWords
    ensures { (length result ≡ 4096) × ((x : ℕ) → x < 4096 → entry result x ≡ false) }
{
    [false; 4096]
}

// How many words a memory has.
pub fn word_count(net: Netlist) -> usize
    requires { SizesFit (alone net) }
    ensures { result ≡ 2 ^ net.m }
{
    circuit_values::with_bit(0, net.m, true) as usize
}

// Puts one word into the first `count` words of a memory.
pub fn fill_words(memory: &mut [u32], count: usize, word: u32)
    requires { count ≤ length memory.old }
    ensures { memory.new ≡ delivered count (λ _. word) memory.old }
{
    memory[..count].fill(word);
}

// Puts each latch at its reset.
fn put_resets(state: &mut SourceValues, net: Netlist, latches: &UnpackedList)
    requires { SizesFit (alone net) × (length state.old ≡ 600) }
    ensures { (length state.new ≡ 600)
        × ((l : ℕ) → l < net.latches → entry state.new l ≡ eqb ((net_of net latches.now []).reset l) 1) }
{
    for l in 0..net.latches as usize {
        state[l] = latches[2 * l + 1] == 1;
    }
}

// Puts latches and memory into the state in which frame 0 begins, and answers the words held there, the idle words.
fn put_initial(
    state: &mut SourceValues,
    memory: &mut [u32],
    net: Netlist,
    latches: &UnpackedList,
    signs: &SignTable,
) -> u64
    requires { SizesFit (alone net) × (length state.old ≡ 600) × (2 ^ net.m ≤ length memory.old) }
    ensures held { HoldsState (net_of net latches.now []) (begun_from (net_of net latches.now []) (said_in signs.now) (λ _. given_word (start (alone net))))
        state.new memory.new result }
    ensures behind { drop (2 ^ net.m) memory.new ≡ drop (2 ^ net.m) memory.old }
{
    fill_words(
        memory,
        word_count(net),
        netlist::given_word(net.initial_word, net.unknown_start),
    );
    put_resets(state, net, latches);
    replay_frame::idle_words(net, signs)
}

// The first frame that breaks the property, with frame i looked at too: i where none did before, else as it was.
fn next_first(first: u32, i: u32, broken: bool) -> u32
    requires { i < 256 }
    ensures { result ≡ next_first first i broken }
{
    if broken {
        return first;
    }
    if first == i {
        return first + 1;
    }
    first
}

// One frame: stepped, written as a line, and judged.
fn run_frame(
    values: &mut WireValues,
    inputs: &mut SourceValues,
    state: &mut SourceValues,
    touched: &mut TouchedWords,
    memory: &mut [u32],
    out: &mut [u8],
    net: Netlist,
    latches: &UnpackedList,
    gates: &UnpackedList,
    signs: &SignTable,
    i: u32,
    held: u64,
) -> FrameRun
    requires { FrameBegins (net_of net latches.now gates.now) (said_in signs.now) i values.old inputs.old state.old touched.old memory.old held
        × (last_wire (alone net) + 1 ≤ length out.old) }
    ensures done { FrameDone (net_of net latches.now gates.now) (said_in signs.now) i memory.old
        values.new inputs.new state.new touched.new memory.new result.held }
    ensures line { Wrote (frame_line (net_of net latches.now gates.now) (replayed (net_of net latches.now gates.now) (said_in signs.now) i))
        out.old out.new (last_wire (alone net) + 1) }
    ensures judged { Shown (net_of net latches.now gates.now) (said_in signs.now) i result.shown }
{
    let stepped = replay_frame::step_fed(
        values, inputs, state, touched, memory, net, latches, gates, signs, i, held,
    );
    let _ = replay_frame::put_line(out, values, net);
    let shown = replay_frame::judge_frame(values, net, signs, i, stepped.filled);
    FrameRun {
        shown,
        held: stepped.held,
    }
}

// Runs through the frames 0 to k from the initial state: a line for each in the trace, and in the memory the words that frame k leaves.
pub fn run(
    memory: &mut [u32],
    trace: &mut [u8],
    net: Netlist,
    latches: &UnpackedList,
    gates: &UnpackedList,
    signs: &SignTable,
    depth: u32,
) -> RunVerdict
    requires { RunFits (net_of net latches.now gates.now) depth memory.old trace.old }
    ensures { RunDone (net_of net latches.now gates.now) (said_in signs.now) depth memory.old trace.old
        memory.new trace.new result }
{
    let mut values = no_values();
    let mut inputs = no_sources();
    let mut state = no_sources();
    let mut touched = none_touched();
    let mut held = put_initial(&mut state, memory, net, latches, signs);
    let line = netlist::wire_count(net) as usize + 1;
    let mut fault = false;
    let mut first: u32 = 0;
    let mut at: usize = 0;
    for i in 0..=depth {
        let ran = run_frame(
            &mut values,
            &mut inputs,
            &mut state,
            &mut touched,
            memory,
            &mut trace[at..],
            net,
            latches,
            gates,
            signs,
            i,
            held,
        );
        held = ran.held;
        fault |= ran.shown.fault;
        first = next_first(first, i, ran.shown.broken);
        at += line;
    }
    RunVerdict { fault, first }
}

// The program (RULES P1 to P7): a depth line and a sheet on standard input, the formula as DIMACS text
// or one refusal on standard output. What is read and what is printed is in the crates below; here are only input and output.
#![tactic(auto)]

ghost use Rattle.std.specs.Prelude.{◌+◌, ◌^◌, ◌≤◌, ◌<◌, ◌≡◌, false, length, take, drop};
ghost use Rattle.netlist.specs.NetOf.{net_of};
ghost use Rattle.dimacs.specs.Text.{refusal_text};
ghost use Rattle.program_input.specs.Input.{InputTaken};
ghost use Rattle.program_output.specs.Printed.{formula_header, frames_text};
ghost use Rattle.frames.specs.Written.{Written};

use netlist::UnpackedList;
use program_input::Input;
use std::io::Write;

// Writes to standard output the text that is next, behind the `sent` bytes that it was given before, and counts it: nothing else writes there, and
// the input is lent only for what is asked of the text. Where writing fails, says so on standard error and writes nothing more, whatever it is given:
// the header's count of clauses tells that what came before is not whole.
fn write_next<W: Write, E: Write>(
    output: &mut W,
    errors: &mut E,
    input: &[u8],
    sent: &mut usize,
    failed: &mut bool,
    text: &[u8],
)
    requires { (text.now ≡ take (length text.now) (drop sent.old (frames_text input.now))) × (sent.old + length text.now < 2 ^ 64) }
    ensures sent { sent.new ≡ sent.old + length text.now }
    ensures written { Written failed.old failed.new (W.contents output.old) (W.contents output.new) text.now }
{
    *sent += text.len();
    if *failed {
        return;
    }
    *failed = !streams::write_or_say(
        output,
        errors,
        text,
        b"frames: writing failed, the output is not whole\n",
    );
}

// Prints a refusal, which is all.
fn print_refusal<W: Write, E: Write>(
    output: &mut W,
    errors: &mut E,
    input: &[u8],
    sent: &mut usize,
    failed: &mut bool,
    number: u32,
    place: u32,
)
    requires { (frames_text input.now ≡ refusal_text number place) × (sent.old ≡ 0) }
    ensures sent { sent.new ≡ length (frames_text input.now) }
    ensures written { Written failed.old failed.new (W.contents output.old) (W.contents output.new) (frames_text input.now) }
{
    let mut text = [0; 28];
    let bytes = dimacs::write_refusal(&mut text, number, place);
    write_next(output, errors, input, sent, failed, &text[..bytes]);
}

// Prints the header, with which the output begins.
fn print_header<W: Write, E: Write>(
    output: &mut W,
    errors: &mut E,
    input: &[u8],
    sent: &mut usize,
    failed: &mut bool,
    taken: Input,
    latches: &UnpackedList,
    gates: &UnpackedList,
)
    requires { InputTaken input.now taken latches.now gates.now × (sent.old ≡ 0) }
    ensures sent { (sent.new ≡ length (formula_header (net_of taken.net latches.now gates.now) taken.depth))
        × (sent.new ≤ 28) }
    ensures written { Written failed.old failed.new (W.contents output.old) (W.contents output.new) (take sent.new (frames_text input.now)) }
{
    let mut text = [0; 28];
    let bytes = program_output::print_header(&mut text, taken.net, latches, gates, taken.depth);
    write_next(output, errors, input, sent, failed, &text[..bytes]);
}

// Prints all groups in the order of the whole, behind the header: then all is printed.
fn print_clauses<W: Write, E: Write>(
    output: &mut W,
    errors: &mut E,
    input: &[u8],
    sent: &mut usize,
    failed: &mut bool,
    taken: Input,
    latches: &UnpackedList,
    gates: &UnpackedList,
)
    requires { InputTaken input.now taken latches.now gates.now
        × (sent.old ≡ length (formula_header (net_of taken.net latches.now gates.now) taken.depth)) × (sent.old ≤ 28) }
    ensures sent { sent.new ≡ length (frames_text input.now) }
    ensures written { Written failed.old failed.new (W.contents output.old) (W.contents output.new) (drop sent.old (frames_text input.now)) }
{
    let mut text = [0; 131072];
    let mut numbers = [0; 5992];
    let mut table = [0; 40000];
    text_writer::fill_table(&mut table);
    let net = taken.net;
    let depth = taken.depth;
    let mut next = group_order::first_group(depth);
    while let Some(group) = next {
        let piece = program_output::print_groups(
            &mut text,
            &mut numbers,
            &table,
            net,
            latches,
            gates,
            depth,
            group,
        );
        let bytes = piece.bytes;
        write_next(output, errors, input, sent, failed, &text[..bytes]);
        next = piece.next;
    }
}

// Prints the formula of an input that is not refused.
fn print_formula<W: Write, E: Write>(
    output: &mut W,
    errors: &mut E,
    input: &[u8],
    sent: &mut usize,
    failed: &mut bool,
    taken: Input,
    latches: &UnpackedList,
    gates: &UnpackedList,
)
    requires { InputTaken input.now taken latches.now gates.now × (sent.old ≡ 0) }
    ensures sent { sent.new ≡ length (frames_text input.now) }
    ensures written { Written failed.old failed.new (W.contents output.old) (W.contents output.new) (frames_text input.now) }
{
    print_header(output, errors, input, sent, failed, taken, latches, gates);
    print_clauses(output, errors, input, sent, failed, taken, latches, gates);
}

// Prints what is due for an input: all of it is handed to `write_next`.
fn print_answer<W: Write, E: Write>(
    output: &mut W,
    errors: &mut E,
    input: &[u8],
    sent: &mut usize,
    failed: &mut bool,
)
    requires { (sent.old ≡ 0) × (failed.old ≡ false) }
    ensures sent { sent.new ≡ length (frames_text input.now) }
    ensures written { Written failed.old failed.new (W.contents output.old) (W.contents output.new) (frames_text input.now) }
{
    let mut latches = sheet_tests::no_codes();
    let mut gates = sheet_tests::no_codes();
    let taken = program_input::read_input(input, &mut latches, &mut gates);
    if taken.number != 0 {
        print_refusal(
            output,
            errors,
            input,
            sent,
            failed,
            taken.number,
            taken.place,
        );
    } else {
        print_formula(output, errors, input, sent, failed, taken, &latches, &gates);
    }
}

// One byte more than the longest input that is accepted, so that a longer one is seen to be too long.
fn main(rt: HostRuntime) {
    let mut bytes = [0; 20076];
    let count = streams::read_full(&mut rt.stdin(), &mut bytes);
    let mut output = rt.stdout();
    let mut errors = rt.stderr();
    let mut sent = 0;
    let mut failed = false;
    print_answer(
        &mut output,
        &mut errors,
        &bytes[..count],
        &mut sent,
        &mut failed,
    );
}

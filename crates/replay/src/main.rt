// The program `replay` (RULES P11 to P15): a depth line and a sheet on standard input and a solver's answer in the file `answer`; on standard
// output the first frame that breaks the property and the lines of the run, or the answer's claim, or one refusal. What is read and what is
// printed is in the crates below; here are only input and output.
#![tactic(auto)]

ghost use Rattle.std.specs.Prelude.{ℕ, IfNone, ◌+◌, ◌^◌, ◌≤◌, ◌<◌, ◌≡◌, true, false, List, [], length};
ghost use Rattle.std.specs.Io.KnownBytes.{Appends};
ghost use Rattle.dimacs.specs.Text.{refusal_text};
ghost use Rattle.answer_signs.specs.Signs.{SignsOf};
ghost use Rattle.answer_scan.specs.AnswerRead.{AnswerRead};
ghost use Rattle.answer_scan.specs.Scan.{LineKept, ScanBehind};
ghost use Rattle.program_input.specs.Input.{InputTaken};
ghost use Rattle.program_replay.specs.Printed.{replay_text};
ghost use Rattle.replay.specs.SomeText.{SomeText, PrintedFor};

use answer_lines::AnswerKind;
use answer_scan::Scan;
use answer_signs::SignTable;
use netlist::UnpackedList;
use program_input::Input;
use std::fs;
use std::io::{Read, Write};
use std::rt::Files;

// Writes to standard output all that is printed for an input and its answer, in one piece, once: nothing else writes there. The input, how many bytes
// of the answer were read and whether there may be more are lent only for what is asked of the text. Where writing fails, says so on
// standard error. Answers whether all is written.
fn write_text<W: Write, E: Write>(
    output: &mut W,
    errors: &mut E,
    input: &[u8],
    got: &usize,
    more: &bool,
    printed: &mut bool,
    text: &[u8],
) -> bool
    requires { SomeText got.now (PrintedFor input.now more.now text.now) × (printed.old ≡ false) }
    ensures printed { printed.new ≡ true }
    ensures written { result ≡ true → Appends (W.contents output.old) (W.contents output.new) text.now }
{
    *printed = true;
    streams::write_or_say(
        output,
        errors,
        text,
        b"replay: writing failed, the output is not whole\n",
    )
}

// Prints the refusal of an input, whatever the answer.
fn print_refusal<W: Write, E: Write>(
    output: &mut W,
    errors: &mut E,
    input: &[u8],
    got: &usize,
    more: &bool,
    printed: &mut bool,
    number: u32,
    place: u32,
) -> bool
    requires { ((answer : List ℕ) → replay_text input.now answer ≡ refusal_text number place) × (got.now ≡ 0) × (printed.old ≡ false) }
    ensures printed { printed.new ≡ true }
    ensures written { result ≡ true → Appends (W.contents output.old) (W.contents output.new) (refusal_text number place) }
{
    let mut text = [0; 28];
    let bytes = dimacs::write_refusal(&mut text, number, place);
    write_text(output, errors, input, got, more, printed, &text[..bytes])
}

// Opens the file `answer`. One that can't be opened is empty.
fn open_answer<R: Files>(rt: &R, more: &mut bool) -> Option<R::File>
    ensures { IfNone result (more.new ≡ false) }
{
    let file = fs::open(rt, "answer").ok();
    *more = file.is_some();
    file
}

// Reads the next piece of an open file, until the buffer is full or the file ends, and counts its bytes: nothing else reads the file. A piece that is
// not full is the last: the file ends there, or a read has failed. A loop has to end, and nothing says that a file does, so there is no more behind
// 2^63 bytes: no file has so many.
fn read_piece<F: Read>(file: &mut F, piece: &mut [u8], got: &mut usize, more: &mut bool) -> usize
    requires { got.old + length piece.old < 2 ^ 64 }
    ensures within { result ≤ length piece.new }
    ensures counted { got.new ≡ got.old + result }
    ensures more { more.new ≡ true → (result ≡ length piece.new) × (got.new < 2 ^ 63) }
{
    let bytes = streams::read_full(file, piece);
    let count = *got + bytes;
    *got = count;
    *more = (bytes == piece.len()) & (count < 9223372036854775808);
    bytes
}

// As many bytes as are read at a time.
fn no_piece() -> [u8; 65536]
    ensures { length result ≡ 65536 }
{
    [0; 65536]
}

// Reads a file to its end, piece by piece, and scans all that is read into a table of no signs.
fn scan_file<F: Read>(file: &mut F, got: &mut usize, more: &mut bool, signs: &mut SignTable) -> Scan
    requires { SignsOf [] signs.old × (got.old ≡ 0) }
    ensures holds { LineKept result.position result.line }
    ensures behind { SomeText got.new (λ text. ScanBehind text result signs.new) }
    ensures ended { more.new ≡ false }
{
    let mut piece = no_piece();
    let mut scan = answer_scan::scan_start();
    while *more {
        let bytes = read_piece(file, &mut piece, got, more);
        if bytes < 65536 {
            return answer_scan::scan_bytes(scan, signs, &piece[..bytes]);
        }
        scan = answer_scan::scan_bytes(scan, signs, &piece);
    }
    scan
}

// Reads the file `answer` into a table of no signs.
fn read_answer<R: Files>(
    rt: &R,
    got: &mut usize,
    more: &mut bool,
    signs: &mut SignTable,
) -> AnswerKind
    requires { SignsOf [] signs.old × (got.old ≡ 0) }
    ensures read { SomeText got.new (λ text. AnswerRead text signs.new result) }
    ensures ended { more.new ≡ false }
{
    let Some(mut file) = open_answer(rt, more) else {
        return answer_scan::scan_end(answer_scan::scan_start());
    };
    answer_scan::scan_end(scan_file(&mut file, got, more, signs))
}

// The output: the first line has at most 28 bytes, the lines of all frames 153,856.
fn no_output() -> [u8; 153884]
    ensures { length result ≡ 153884 }
{
    [0; 153884]
}

// Replays an answer that was read to its end, and prints what comes of it.
fn print_replay<W: Write, E: Write>(
    output: &mut W,
    errors: &mut E,
    input: &[u8],
    got: &usize,
    more: &bool,
    printed: &mut bool,
    taken: Input,
    latches: &UnpackedList,
    gates: &UnpackedList,
    kind: AnswerKind,
    signs: &SignTable,
) -> bool
    requires { InputTaken input.now taken latches.now gates.now
        × SomeText got.now (λ text. AnswerRead text signs.now kind) × (more.now ≡ false) × (printed.old ≡ false) }
    ensures printed { printed.new ≡ true }
    ensures written { result ≡ true → SomeText got.now (λ answer. Appends (W.contents output.old) (W.contents output.new) (replay_text input.now answer)) }
{
    let mut text = no_output();
    let bytes = program_replay::write_replay(
        &mut text,
        taken.net,
        latches,
        gates,
        taken.depth,
        kind,
        signs,
    );
    write_text(output, errors, input, got, more, printed, &text[..bytes])
}

// Reads the answer, and replays it.
fn replay_file<R: Files, W: Write, E: Write>(
    rt: &R,
    output: &mut W,
    errors: &mut E,
    input: &[u8],
    got: &mut usize,
    more: &mut bool,
    printed: &mut bool,
    taken: Input,
    latches: &UnpackedList,
    gates: &UnpackedList,
) -> bool
    requires { InputTaken input.now taken latches.now gates.now × (got.old ≡ 0) × (printed.old ≡ false) }
    ensures printed { printed.new ≡ true }
    ensures written { result ≡ true → SomeText got.new (λ answer. Appends (W.contents output.old) (W.contents output.new) (replay_text input.now answer)) }
{
    let mut signs = answer_signs::no_signs();
    let kind = read_answer(rt, got, more, &mut signs);
    print_replay(
        output, errors, input, got, more, printed, taken, latches, gates, kind, &signs,
    )
}

// Prints what is due for an input and its answer, of which nothing was read.
fn print_answer<R: Files, W: Write, E: Write>(
    rt: &R,
    output: &mut W,
    errors: &mut E,
    input: &[u8],
    got: &mut usize,
    more: &mut bool,
    printed: &mut bool,
) -> bool
    requires { (got.old ≡ 0) × (printed.old ≡ false) }
    ensures printed { printed.new ≡ true }
    ensures written { result ≡ true → SomeText got.new (λ answer. Appends (W.contents output.old) (W.contents output.new) (replay_text input.now answer)) }
{
    let mut latches = sheet_tests::no_codes();
    let mut gates = sheet_tests::no_codes();
    let taken = program_input::read_input(input, &mut latches, &mut gates);
    if taken.number != 0 {
        print_refusal(
            output,
            errors,
            input,
            got,
            more,
            printed,
            taken.number,
            taken.place,
        )
    } else {
        replay_file(
            rt, output, errors, input, got, more, printed, taken, &latches, &gates,
        )
    }
}

// One byte more than the longest input that is accepted, so that a longer one is seen to be too long.
fn main(rt: HostRuntime) {
    let mut bytes = [0; 20076];
    let count = streams::read_full(&mut rt.stdin(), &mut bytes);
    let mut output = rt.stdout();
    let mut errors = rt.stderr();
    let mut got = 0;
    let mut more = true;
    let mut printed = false;
    print_answer(
        &rt,
        &mut output,
        &mut errors,
        &bytes[..count],
        &mut got,
        &mut more,
        &mut printed,
    );
}

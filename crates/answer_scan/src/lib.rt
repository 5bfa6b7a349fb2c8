// A solver's answer read in pieces (RULES Q1): a scan keeps the line that is begun, without the numbers on it that have ended, so that
// neither lines nor answers have a longest. The longest line or number that counts has 15 bytes.
#![tactic(auto)]

ghost use Rattle.std.specs.Prelude.{◌≡◌, true, [], ◌∷◌};
ghost use Rattle.answer_lines.specs.Answer.{is_marked};
ghost use Rattle.answer_lines.specs.Written.{AnswerAsWritten};
ghost use Rattle.answer_lines.specs.Progress.{OneNumber};
ghost use Rattle.answer_scan.specs.Scan.{line_begun, is_values, LineKept, SameAhead, Taken, NumberEnded, Addable, ReadsNothing, Reads, Ends};

use answer_lines::{AnswerKind, Progress};
use answer_signs::SignTable;

// How far the answer is read: by whole lines, and how many bytes are kept of the line that is begun.
#[derive(Clone, Copy)]
pub struct Position {
    pub progress: Progress,
    pub count: usize,
}

// A position, with the bytes that are kept.
#[derive(Clone, Copy)]
pub struct Scan {
    pub position: Position,
    pub line: [u8; 16],
}

// A scan of no text yet.
pub fn scan_start() -> Scan
    ensures holds { LineKept result.position result.line }
    ensures behind { ReadsNothing result }
{
    let position = Position {
        progress: Progress::NoStatus,
        count: 0,
    };
    Scan {
        position,
        line: [0; 16],
    }
}

// Whether value lines are read.
fn is_values(progress: Progress) -> bool
    ensures { result ≡ is_values progress }
{
    matches!(progress, Progress::Values)
}

// Reads a space that ends a number.
fn end_number(signs: &mut SignTable, progress: Progress, begun: &[u8]) -> Position
    requires { (is_marked begun.now ≡ true) × OneNumber begun.now }
    ensures { NumberEnded progress begun.now result signs.old signs.new }
{
    if is_values(progress) {
        let read = answer_lines::read_value(signs, &begun[2..]);
        if is_values(read) {
            return Position {
                progress: Progress::Values,
                count: 2,
            };
        }
    }
    Position {
        progress: Progress::Malformed,
        count: 0,
    }
}

// Reads a byte that ends nothing and stands in no comment.
fn put_byte(line: &mut [u8], at: Position, byte: u8) -> Position
    requires { LineKept at line.old × Addable (line_begun at line.old) byte }
    ensures holds { LineKept result line.new }
    ensures passed { SameAhead at.progress (line_begun at line.old) (byte ∷ []) result.progress (line_begun result line.new) }
{
    let count = at.count;
    if count < 16 {
        let progress = at.progress;
        line[count] = byte;
        return Position {
            progress,
            count: count + 1,
        };
    }
    Position {
        progress: Progress::Malformed,
        count: 0,
    }
}

// Reads one byte.
fn scan_byte(signs: &mut SignTable, line: &mut [u8], at: Position, byte: u8) -> Position
    requires { LineKept at line.old }
    ensures holds { LineKept result line.new }
    ensures taken { Taken at.progress (line_begun at line.old) (byte ∷ []) result.progress (line_begun result line.new) signs.old signs.new }
{
    let progress = at.progress;
    let count = at.count;
    if byte == b'\n' {
        let next = answer_lines::read_line(signs, progress, &line[..count]);
        return Position {
            progress: next,
            count: 0,
        };
    }
    if answer_lines::is_comment(&line[..count]) {
        return at;
    }
    if byte == b' ' && answer_lines::is_marked(&line[..count]) {
        return end_number(signs, progress, &line[..count]);
    }
    put_byte(line, at, byte)
}

// Reads one piece more of an answer.
pub fn scan_bytes(scan: Scan, signs: &mut SignTable, piece: &[u8]) -> Scan
    requires { LineKept scan.position scan.line }
    ensures holds { LineKept result.position result.line }
    ensures behind { Reads scan piece.now result signs.old signs.new }
{
    let mut line = scan.line;
    let mut position = scan.position;
    for &byte in piece {
        position = scan_byte(signs, &mut line, position, byte);
    }
    Scan { position, line }
}

// What the answer says, behind its last piece.
pub fn scan_end(scan: Scan) -> AnswerKind
    requires { LineKept scan.position scan.line }
    ensures answer { Ends scan result }
    ensures written { AnswerAsWritten }
{
    let position = scan.position;
    if 0 < position.count {
        return AnswerKind::Malformed;
    }
    let progress = position.progress;
    match progress {
        Progress::Complete => AnswerKind::Satisfiable,
        Progress::Unsatisfiable => AnswerKind::Unsatisfiable,
        Progress::NoStatus | Progress::Values | Progress::Malformed => AnswerKind::Malformed,
    }
}

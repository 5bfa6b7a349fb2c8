// Lines of 32 bytes: a letter, three fields of ten columns, a line feed (RULES S1); and the depth line (RULES P1).
#![tactic(auto)]

ghost use Rattle.std.specs.Prelude.{◌≡◌, ◌<◌};
ghost use Rattle.refusals.specs.Refusal.{reply_of};
ghost use Rattle.sheet_lines.specs.Letters.{letter_of, kind_of, row_of, second_port_of, content_of, ContentsAsPrinted};
ghost use Rattle.sheet_lines.specs.Lines.{as_wanted, value_of, left_empty, line_with, line_of, LinesAsWritten};
ghost use Rattle.sheet_lines.specs.Depth.{depth_field, field_verdict, depth_verdict, with_depth, depth_line};

use refusals::{Refusal, Refused, Verdict};
use sheet_fields::Field;

// Which line it is: the letters of RULES S5 in their order, and any other.
#[derive(Clone, Copy)]
pub enum Kind {
    Sizes,
    Memory,
    TwoPorts,
    Latch,
    Gate,
    Address,
    WriteData,
    SecondAddress,
    SecondEnable,
    Control,
    Unknown,
}

// A line as it is read: its kind, three numbers, 0 where a field is empty, and 1 where its third field may be filled and is empty.
#[derive(Clone, Copy)]
pub enum ParsedLine {
    Misprint,
    Read {
        kind: Kind,
        first: u32,
        second: u32,
        third: u32,
        empty: u32,
    },
}

// What the depth line is read as: the verdict of its tests, and the depth, 0 where one refuses.
#[derive(Clone, Copy)]
pub struct DepthLine {
    pub verdict: Verdict,
    pub depth: u32,
}

// What a field is to be (RULES S12).
const MUST_BE_EMPTY: u8 = 0;

pub const MUST_BE_FILLED: u8 = 1;

pub const MAY_BE_EMPTY: u8 = 2;

// Of each field, a row for each letter (RULES S8).
const CONTENTS: [[u8; 3]; 10] = [
    [MUST_BE_FILLED, MUST_BE_FILLED, MUST_BE_FILLED], // N
    [MUST_BE_FILLED, MUST_BE_FILLED, MAY_BE_EMPTY], // M
    [MUST_BE_FILLED, MUST_BE_FILLED, MAY_BE_EMPTY], // T
    [MUST_BE_FILLED, MUST_BE_FILLED, MUST_BE_EMPTY], // L
    [MUST_BE_FILLED, MUST_BE_FILLED, MUST_BE_EMPTY], // G
    [MUST_BE_FILLED, MUST_BE_EMPTY, MUST_BE_EMPTY], // A
    [MUST_BE_FILLED, MUST_BE_EMPTY, MUST_BE_EMPTY], // D
    [MUST_BE_FILLED, MUST_BE_EMPTY, MUST_BE_EMPTY], // B
    [MUST_BE_FILLED, MUST_BE_EMPTY, MUST_BE_EMPTY], // R
    [MUST_BE_FILLED, MUST_BE_FILLED, MUST_BE_FILLED], // C
];

// The letter decides which line it is.
fn kind_of(letter: u8) -> Kind
    ensures { result ≡ kind_of letter }
{
    match letter {
        b'N' => Kind::Sizes,
        b'M' => Kind::Memory,
        b'T' => Kind::TwoPorts,
        b'L' => Kind::Latch,
        b'G' => Kind::Gate,
        b'A' => Kind::Address,
        b'D' => Kind::WriteData,
        b'B' => Kind::SecondAddress,
        b'R' => Kind::SecondEnable,
        b'C' => Kind::Control,
        _ => Kind::Unknown,
    }
}

// The letter of a kind, and 0 where it is unknown.
pub fn letter_of(kind: Kind) -> u8
    ensures { result ≡ letter_of kind }
{
    match kind {
        Kind::Sizes => b'N',
        Kind::Memory => b'M',
        Kind::TwoPorts => b'T',
        Kind::Latch => b'L',
        Kind::Gate => b'G',
        Kind::Address => b'A',
        Kind::WriteData => b'D',
        Kind::SecondAddress => b'B',
        Kind::SecondEnable => b'R',
        Kind::Control => b'C',
        Kind::Unknown => 0,
    }
}

// The row of the table that a kind has, and 10 where the letter is unknown.
pub fn row_of(kind: Kind) -> usize
    ensures { result ≡ row_of kind }
{
    match kind {
        Kind::Sizes => 0,
        Kind::Memory => 1,
        Kind::TwoPorts => 2,
        Kind::Latch => 3,
        Kind::Gate => 4,
        Kind::Address => 5,
        Kind::WriteData => 6,
        Kind::SecondAddress => 7,
        Kind::SecondEnable => 8,
        Kind::Control => 9,
        Kind::Unknown => 10,
    }
}

// 1 where the letter says that there is a second read port, else 0.
pub fn second_port_of(kind: Kind) -> u32
    ensures { result ≡ second_port_of kind }
{
    if row_of(kind) == row_of(Kind::TwoPorts) {
        return 1;
    }
    0
}

// The table: at every row and column it says what RULES S5 and S11 say.
fn contents() -> [[u8; 3]; 10]
    ensures { ContentsAsPrinted result }
{
    CONTENTS
}

// What the table says of a column, 0 to 2.
pub fn content_of(kind: Kind, column: usize) -> u8
    requires { (row_of kind < 10) × (column < 3) }
    ensures { result ≡ content_of kind column }
{
    let row = row_of(kind);
    let table = contents();
    table[row][column]
}

// Whether a field is as its letter wants it.
fn is_wanted(kind: Kind, column: usize, field: Field) -> bool
    requires { (row_of kind < 10) × (column < 3) }
    ensures { result ≡ as_wanted (content_of kind column) field }
{
    let content = content_of(kind, column);
    match field {
        Field::Empty => (content == MUST_BE_EMPTY) | (content == MAY_BE_EMPTY),
        Field::Filled(_) => (content == MUST_BE_FILLED) | (content == MAY_BE_EMPTY),
        Field::Misprinted => false,
    }
}

// The number in a field, 0 where it has none.
fn value_of(field: Field) -> u32
    ensures { result ≡ value_of field }
{
    match field {
        Field::Empty => 0,
        Field::Filled(x) => x,
        Field::Misprinted => 0,
    }
}

// 1 where a third field that may be filled is empty, else 0.
fn left_empty(kind: Kind, third: Field) -> u32
    requires { row_of kind < 10 }
    ensures { result ≡ left_empty (content_of kind 2) third }
{
    if content_of(kind, 2) == MAY_BE_EMPTY {
        return match third {
            Field::Empty => 1,
            Field::Filled(_) => 0,
            Field::Misprinted => 0,
        };
    }
    0
}

// The line of a kind with three fields, or a misprint.
fn line_with(kind: Kind, first: Field, second: Field, third: Field) -> ParsedLine
    ensures { result ≡ line_with kind first second third }
{
    if 10 <= row_of(kind) {
        return ParsedLine::Misprint;
    }
    if !is_wanted(kind, 0, first) {
        return ParsedLine::Misprint;
    }
    if !is_wanted(kind, 1, second) {
        return ParsedLine::Misprint;
    }
    if !is_wanted(kind, 2, third) {
        return ParsedLine::Misprint;
    }
    ParsedLine::Read {
        kind,
        first: value_of(first),
        second: value_of(second),
        third: value_of(third),
        empty: left_empty(kind, third),
    }
}

// What 32 bytes are read as. The fields are held to the letter on the line, whichever line is due.
pub fn read_line(line: &[u8]) -> ParsedLine
    ensures line { result ≡ line_of line.now }
    ensures written { LinesAsWritten }
{
    if line.len() == 32 {
        if line[31] == b'\n' {
            let kind = kind_of(line[0]);
            let first = sheet_fields::read_field(&line[1..11]);
            let second = sheet_fields::read_field(&line[11..21]);
            let third = sheet_fields::read_field(&line[21..31]);
            return line_with(kind, first, second, third);
        }
    }
    ParsedLine::Misprint
}

// The field in which the depth stands: ten columns, and a line feed behind them.
fn depth_field(input: &[u8]) -> Field
    ensures { result ≡ depth_field input.now }
{
    if 11 <= input.len() {
        if input[10] == b'\n' {
            return sheet_fields::read_field(&input[..10]);
        }
    }
    Field::Misprinted
}

// Tests the form of a depth, then its value.
fn test_depth(field: Field) -> Verdict
    ensures { result ≡ field_verdict field }
{
    match field {
        Field::Empty => Err(Refused(Refusal::Misprint, 0)),
        Field::Filled(depth) => {
            if depth <= 255 {
                return Ok(());
            }
            Err(Refused(Refusal::Depth, 0))
        }
        Field::Misprinted => Err(Refused(Refusal::Misprint, 0)),
    }
}

// A verdict with the depth in a field beside it, 0 where it is refused.
fn with_depth(verdict: Verdict, field: Field) -> DepthLine
    ensures { result ≡ with_depth verdict field }
{
    let depth = match verdict {
        Ok(()) => value_of(field),
        Err(_) => 0,
    };
    DepthLine { verdict, depth }
}

// What the first eleven bytes of the input are read as.
pub fn read_depth(input: &[u8]) -> DepthLine
    ensures reply { reply_of result.verdict ≡ reply_of (depth_verdict input.now) }
    ensures depth { result.depth ≡ (depth_line input.now).depth }
{
    let field = depth_field(input);
    with_depth(test_depth(field), field)
}

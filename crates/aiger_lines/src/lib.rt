// The lines of an ASCII AIGER text (RULES I1 to I4): what each is by the header's counts, its numbers, and how many are well-formed.
#![tactic(auto)]

ghost use Rattle.std.specs.Prelude.{◌≡◌, ◌&&◌, [], ◌+◌, ◌*◌, ◌≤◌, ltb, length, drop};
ghost use Rattle.decimal.specs.TextValue.{same_text};
ghost use Rattle.text_words.specs.Words.{words_of};
ghost use Rattle.aiger_lines.specs.Numbers.{word_numbers};
ghost use Rattle.aiger_lines.specs.Parts.{aag, numbers_behind, counts_of, part_at, lines_due, width, defines, any_above, not_definable, malformed_line};
ghost use Rattle.aiger_lines.specs.Written.{TextAsWritten};
ghost use Rattle.aiger_lines.specs.Steps.{span_to, first_five, numbers_held, HoldsNumbers, Behind, NumbersRead, HeaderRead, SoundTo};

// The header's counts: the largest variable (the report's M), inputs, latches, outputs, gates.
#[derive(Clone, Copy)]
pub struct Counts {
    pub largest: u32,
    pub inputs: u32,
    pub latches: u32,
    pub outputs: u32,
    pub gates: u32,
}

// What a line is.
#[derive(Clone, Copy)]
pub enum Part {
    Header,
    Input,
    Latch,
    Output,
    Gate,
}

// The numbers on a line, 0 behind the last; none where there are more than five.
#[derive(Clone, Copy)]
pub struct Numbers {
    pub count: usize,
    pub values: [u32; 5],
}

// A line's numbers, and where the next line begins.
#[derive(Clone, Copy)]
pub struct NumberLine {
    pub numbers: Numbers,
    pub next: usize,
}

// The header's counts, and where the second line begins.
#[derive(Clone, Copy)]
pub struct HeaderLine {
    pub counts: Counts,
    pub next: usize,
}

// Where the first byte `end` stands from `at` on, the end of the text where there is none.
fn find(text: &[u8], at: usize, end: u8) -> usize
    requires { at ≤ length text.now }
    ensures { result ≡ at + span_to end (drop at text.now) }
{
    for i in at..text.len() {
        if text[i] == end {
            return i;
        }
    }
    text.len()
}

// No numbers.
fn no_numbers() -> Numbers
    ensures { result ≡ first_five [] }
{
    Numbers {
        count: 0,
        values: [0; 5],
    }
}

// The numbers that the words of a line are.
fn read_numbers(line: &[u8]) -> Numbers
    ensures numbers { result ≡ first_five (word_numbers (words_of line.now)) }
    ensures written { TextAsWritten }
{
    let mut values: [u32; 5] = [0; 5];
    let mut count: usize = 0;
    let mut at: usize = 0;
    loop {
        let end = find(line, at, b' ');
        let Some(x) = decimal::read_number(&line[at..end]) else {
            return no_numbers();
        };
        if 5 <= count {
            return no_numbers();
        }
        values[count] = x;
        count += 1;
        if line.len() <= end {
            return Numbers { count, values };
        }
        at = end + 1;
    }
}

// Whether a word is `aag`.
fn is_aag(word: &[u8]) -> bool
    ensures { result ≡ same_text word.now aag }
{
    word == b"aag".as_slice()
}

// The numbers behind the word `aag`.
fn header_numbers(line: &[u8]) -> Numbers
    ensures { result ≡ first_five (numbers_behind aag (words_of line.now)) }
{
    let end = find(line, 0, b' ');
    if end < line.len() && is_aag(&line[..end]) {
        let at = end + 1;
        return read_numbers(&line[at..]);
    }
    no_numbers()
}

// Line 1.
fn first_line(text: &[u8]) -> NumberLine
    ensures { NumbersRead text.now 0 result.numbers result.next }
{
    let length = find(text, 0, b'\n');
    if length < text.len() {
        return NumberLine {
            numbers: header_numbers(&text[..length]),
            next: length + 1,
        };
    }
    NumberLine {
        numbers: no_numbers(),
        next: length,
    }
}

// The line behind the first `line` lines, which begins at byte `at`; `line` is not 0.
pub fn next_line(text: &[u8], line: u64, at: usize) -> NumberLine
    requires { (1 ≤ line) × Behind text.now line at }
    ensures { NumbersRead text.now line result.numbers result.next }
{
    let end = find(text, at, b'\n');
    if end < text.len() {
        return NumberLine {
            numbers: read_numbers(&text[at..end]),
            next: end + 1,
        };
    }
    NumberLine {
        numbers: no_numbers(),
        next: end,
    }
}

// The counts that five numbers are, all 0 where there are not five.
fn counts_of(numbers: Numbers) -> Counts
    requires { HoldsNumbers numbers }
    ensures { result ≡ counts_of (numbers_held numbers) }
{
    if numbers.count == 5 {
        return Counts {
            largest: numbers.values[0],
            inputs: numbers.values[1],
            latches: numbers.values[2],
            outputs: numbers.values[3],
            gates: numbers.values[4],
        };
    }
    Counts {
        largest: 0,
        inputs: 0,
        latches: 0,
        outputs: 0,
        gates: 0,
    }
}

// The header's counts, all 0 where line 1 is no header.
pub fn read_header(text: &[u8]) -> HeaderLine
    ensures { HeaderRead text.now result.counts result.next }
{
    let first = first_line(text);
    let counts = counts_of(first.numbers);
    HeaderLine {
        counts,
        next: first.next,
    }
}

// What the line at a place is.
pub fn part_at(counts: Counts, place: u64) -> Part
    ensures { result ≡ part_at counts place }
{
    let latches = 2 + counts.inputs as u64;
    let outputs = latches + counts.latches as u64;
    let gates = outputs + counts.outputs as u64;
    if place < 2 {
        return Part::Header;
    }
    if place < latches {
        return Part::Input;
    }
    if place < outputs {
        return Part::Latch;
    }
    if place < gates {
        return Part::Output;
    }
    Part::Gate
}

// How many lines there are.
pub fn lines_due(counts: Counts) -> u64
    ensures { result ≡ lines_due counts }
{
    1 + counts.inputs as u64 + counts.latches as u64 + counts.outputs as u64 + counts.gates as u64
}

// How many numbers a line of a part has.
fn width(part: Part) -> usize
    ensures { result ≡ width part }
{
    match part {
        Part::Header => 5,
        Part::Input | Part::Output => 1,
        Part::Latch => 2,
        Part::Gate => 3,
    }
}

// Whether the first of its numbers is a literal that it defines.
fn defines(part: Part) -> bool
    ensures { result ≡ defines part }
{
    matches!(part, Part::Input | Part::Latch | Part::Gate)
}

// Whether any of the numbers is above a limit.
fn any_above(limit: u64, numbers: Numbers) -> bool
    requires { HoldsNumbers numbers }
    ensures { result ≡ any_above limit (numbers_held numbers) }
{
    for &x in &numbers.values[..numbers.count] {
        if limit < x as u64 {
            return true;
        }
    }
    false
}

// Whether a line of a part has a literal above 2M + 1. The header's five numbers are none.
fn has_high_literal(counts: Counts, part: Part, numbers: Numbers) -> bool
    requires { HoldsNumbers numbers }
    ensures { result ≡ (ltb (width part) 5 && any_above (2 * counts.largest + 1) (numbers_held numbers)) }
{
    width(part) < 5 && any_above(2 * (counts.largest as u64) + 1, numbers)
}

// Whether a line of a part defines a literal that may not be defined.
fn has_wrong_definition(part: Part, literal: u32) -> bool
    ensures { result ≡ (defines part && not_definable literal) }
{
    defines(part) && (literal < 2 || literal % 2 == 1)
}

// Whether a line of a part with these numbers is not well-formed.
fn is_malformed(counts: Counts, part: Part, numbers: Numbers) -> bool
    requires { HoldsNumbers numbers }
    ensures { result ≡ malformed_line counts part (numbers_held numbers) }
{
    numbers.count != width(part)
        || has_high_literal(counts, part, numbers)
        || has_wrong_definition(part, numbers.values[0])
}

// How many lines from the first on are well-formed, up to the last that is due. A line that the text does not have is not, so
// that no more lines are looked at than the text has.
pub fn sound_lines(text: &[u8], header: HeaderLine) -> u64
    requires { HeaderRead text.now header.counts header.next }
    ensures { SoundTo text.now result }
{
    let counts = header.counts;
    let first = first_line(text);
    if is_malformed(counts, Part::Header, first.numbers) {
        return 0;
    }
    let due = lines_due(counts);
    let mut at = header.next;
    for line in 1..due {
        let read = next_line(text, line, at);
        if is_malformed(counts, part_at(counts, line + 1), read.numbers) {
            return line;
        }
        at = read.next;
    }
    due
}

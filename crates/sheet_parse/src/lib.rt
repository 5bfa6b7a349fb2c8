// The sheet reader, which carries the file and its own line number (RULES S10 and L2), and what one answer of it more does to the record
// and the lists (RULES S5, S7, S13, S14 and T53). The loop over its answers is crate `sheet_loop`.
#![tactic(auto)]

ghost use Rattle.std.specs.Prelude.{◌≡◌, ◌+◌, ◌*◌, ◌≤◌, length};
ghost use Rattle.netlist.specs.NetOf.{net_of, alone};
ghost use Rattle.sheet_steps.specs.Steps.{Outcome, SizesKnown};
ghost use Rattle.sheet_steps.specs.Lists.{FullLength};
ghost use Rattle.sheet_parse.specs.Files.{line_in};
ghost use Rattle.sheet_parse.specs.LineAnswers.{has_line, answer_of, line_answer, line_sent, lines_read_of};
ghost use Rattle.sheet_parse.specs.NextLine.{next_line};
ghost use Rattle.sheet_parse.specs.FileTests.{ragged};
ghost use Rattle.sheet_parse.specs.Progress.{no_progress, progress_with, answer_verdict, answer_net, more_after, no_line_after, line_after};

use netlist::UnpackedList;
use refusals::{Refusal, Refused};
use sheet_lines::{Kind, ParsedLine};
use sheet_steps::SheetAnswer;

// What is sent back of a line: number and place (0 where it is not refused), its letter, its fields, whether the third is empty and may
// be filled, and how many lines are read with it. An empty field is 0; letter and fields are 0 beside a refusal, and where there is no line.
#[repr(C)]
#[derive(Clone, Copy)]
pub struct LineReply {
    pub number: u32,
    pub place: u32,
    pub letter: u8,
    pub first: u32,
    pub second: u32,
    pub third: u32,
    pub empty: u32,
    pub line: u32,
}

// What is answered of a line: its kind, three numbers, 0 where a field is empty, and 1 where its third field may be filled and is empty;
// a refusal with its place; or that there is none.
#[derive(Clone, Copy)]
pub enum LineAnswer {
    Line {
        kind: Kind,
        first: u32,
        second: u32,
        third: u32,
        empty: u32,
    },
    Refused(Refusal, u32),
    NoLine,
}

// An answer, and how many lines are read with it.
#[derive(Clone, Copy)]
struct LineAfter {
    line: LineAnswer,
    lines_read: u32,
}

// Refusal 1.
pub fn is_ragged(file: &[u8]) -> bool
    ensures { result ≡ ragged file.now }
{
    let size = file.len();
    (size == 0) | (size % 32 != 0) | (20064 < size)
}

// The line behind the first `line` lines, as it is read.
fn parse_line(file: &[u8], line: u32) -> ParsedLine
    requires { 32 * line + 32 ≤ length file.now }
    ensures { result ≡ line_in file.now (line + 1) }
{
    let start = 32 * (line as usize);
    let end = start + 32;
    sheet_lines::read_line(&file[start..end])
}

// Whether there is a line behind the first `line` lines: one that is missing or cut short is none, nor is one behind the 627 that a
// sheet has at most.
fn has_line(file: &[u8], line: u32) -> bool
    ensures { result ≡ has_line file.now line }
{
    let end = 32 * (line as usize) + 32;
    (line < 627) & (end <= file.len())
}

// Where there is no line, none is read.
fn no_line(line: u32) -> LineAfter
    ensures { result ≡ no_line_after line }
{
    LineAfter {
        line: LineAnswer::NoLine,
        lines_read: line,
    }
}

// A line at a place as an answer: a misprinted one is refused.
fn answer_of(line: ParsedLine, place: u32) -> LineAnswer
    ensures { result ≡ answer_of line place }
{
    match line {
        ParsedLine::Misprint => LineAnswer::Refused(Refusal::Misprint, place),
        ParsedLine::Read {
            kind,
            first,
            second,
            third,
            empty,
        } => LineAnswer::Line {
            kind,
            first,
            second,
            third,
            empty,
        },
    }
}

// What is answered of the line behind the first `line` lines. A misprinted line is read too: the next answer is of the line behind it.
fn line_after(file: &[u8], line: u32) -> LineAfter
    ensures { result ≡ line_after file.now line }
{
    if !has_line(file, line) {
        return no_line(line);
    }
    let place = line + 1;
    LineAfter {
        line: answer_of(parse_line(file, line), place),
        lines_read: place,
    }
}

// A file, and how many of its lines are read.
#[derive(Clone, Copy)]
pub struct SheetReader<'a> {
    pub file: &'a [u8],
    pub line: u32,
}

// What is answered of a line, and the reader behind it.
#[derive(Clone, Copy)]
pub struct NextLine<'a> {
    pub line: LineAnswer,
    pub reader: SheetReader<'a>,
}

impl<'a> SheetReader<'a> {
    // The next line, and the reader behind it: moved on where there is a line, be it misprinted or not, and else unmoved.
    pub fn next_line(self) -> NextLine<'a>
        ensures { (result ≡ next_line self.entry) × (line_sent result.line result.reader.line ≡ line_sent (line_answer self.entry.file.now self.entry.line) (lines_read_of self.entry.file.now self.entry.line)) }
    {
        let after = line_after(self.file, self.line);
        NextLine {
            line: after.line,
            reader: SheetReader {
                file: self.file,
                line: after.lines_read,
            },
        }
    }
}

// How far a sheet is read: whether there may be one line more, and what the lines so far are answered with.
#[derive(Clone, Copy)]
pub struct Progress {
    pub more: bool,
    pub sheet: SheetAnswer,
}

// Before the first line.
pub fn no_progress() -> Progress
    ensures { result ≡ no_progress }
{
    Progress {
        more: true,
        sheet: SheetAnswer {
            verdict: Ok(()),
            net: netlist::empty_net(),
        },
    }
}

// Behind a line: there may be one more where it has passed.
fn progress_with(sheet: SheetAnswer) -> Progress
    ensures { result ≡ progress_with sheet }
{
    let verdict = sheet.verdict;
    let more = match verdict {
        Ok(()) => true,
        Err(_) => false,
    };
    Progress { more, sheet }
}

// One answer more: refusal 2, or 3 to 5 with the line's numbers put into the record and the lists, or the end of the file. After a
// refusal the lists are scratch.
pub fn take_answer(
    progress: Progress,
    latches: &mut UnpackedList,
    gates: &mut UnpackedList,
    line: LineAnswer,
    place: u32,
) -> Progress
    requires { FullLength progress.sheet.net latches.old gates.old × SizesKnown (alone progress.sheet.net) place }
    ensures { Outcome result.sheet latches.new gates.new (answer_verdict (net_of progress.sheet.net latches.old gates.old) line place) (answer_net (net_of progress.sheet.net latches.old gates.old) line place) × (result.more ≡ more_after line result.sheet.verdict) }
{
    let sheet = progress.sheet;
    let net = sheet.net;
    match line {
        LineAnswer::Line {
            kind,
            first,
            second,
            third,
            empty,
        } => progress_with(sheet_steps::take_line(
            net, latches, gates, place, kind, first, second, third, empty,
        )),
        LineAnswer::Refused(refusal, at) => progress_with(sheet_steps::refused(refusal, at)),
        LineAnswer::NoLine => Progress {
            more: false,
            sheet: SheetAnswer {
                verdict: Ok(()),
                net,
            },
        },
    }
}

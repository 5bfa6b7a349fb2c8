// Groups and answers as numbers, for C and Rust: an exported function can neither take nor return an enum.
#![tactic(auto)]

ghost use Rattle.std.specs.Prelude.{◌≡◌};
ghost use Rattle.refusals.specs.Slices.{count_reply};
ghost use Rattle.call_unpacked.specs.Calls.{heading_reply};
ghost use Rattle.sheet_parse.specs.LineAnswers.{without_fields, line_sent};
ghost use Rattle.call_replies.specs.Replies.{group_of, group_numbers, next_numbers, sheet_numbers, header_version};

use call_unpacked::{HeadingReply, ProblemLine};
use model::Group;
use netlist::Netlist;
use refusals::{CountReply, Refused, Written};
use sheet_parse::{LineAnswer, LineReply};
use sheet_steps::SheetAnswer;

// The group that four numbers stand for. Another kind is no group: a pair of a frame with itself, which no depth has.
pub fn group_of(kind: u32, j: u32, i: u32, port: u32) -> Group
    ensures { result ≡ group_of kind j i port }
{
    match kind {
        0 => Group::Wires(i),
        1 => Group::Pair(j, i, port),
        2 => Group::Closing(i, port),
        3 => Group::Property,
        _ => Group::Pair(i, i, port),
    }
}

// What is sent back of the order of the groups: the group as four numbers, or that there is none (`end` is 1, and the numbers are 0).
#[repr(C)]
#[derive(Clone, Copy)]
pub struct GroupReply {
    pub end: u32,
    pub kind: u32,
    pub j: u32,
    pub i: u32,
    pub port: u32,
}

// A group as four numbers. What its kind does not have is 0.
fn numbers_of(group: Group) -> GroupReply
    ensures { result ≡ group_numbers group }
{
    match group {
        Group::Wires(i) => GroupReply {
            end: 0,
            kind: 0,
            j: 0,
            i,
            port: 0,
        },
        Group::Pair(j, i, port) => GroupReply {
            end: 0,
            kind: 1,
            j,
            i,
            port,
        },
        Group::Closing(i, port) => GroupReply {
            end: 0,
            kind: 2,
            j: 0,
            i,
            port,
        },
        Group::Property => GroupReply {
            end: 0,
            kind: 3,
            j: 0,
            i: 0,
            port: 0,
        },
    }
}

// What comes next in the order, in numbers.
pub fn next_numbers(next: Option<Group>) -> GroupReply
    ensures { result ≡ next_numbers next }
{
    match next {
        Some(group) => numbers_of(group),
        None => GroupReply {
            end: 1,
            kind: 0,
            j: 0,
            i: 0,
            port: 0,
        },
    }
}

// The version of the header for C that the library is built for.
#[repr(C)]
#[derive(Clone, Copy)]
pub struct VersionReply {
    pub major: u32,
    pub minor: u32,
}

pub fn version() -> VersionReply
    ensures { result ≡ header_version }
{
    VersionReply {
        major: 0,
        minor: 11,
    }
}

// What a call that writes into a slice answers, in numbers.
pub fn count_numbers(answer: Written) -> CountReply
    ensures { result ≡ count_reply answer }
{
    match answer {
        Ok(count) => CountReply {
            number: 0,
            place: 0,
            count,
        },
        Err(Refused(refusal, place)) => CountReply {
            number: refusals::number(refusal),
            place,
            count: 0,
        },
    }
}

// A heading call's.
pub fn heading_numbers(answer: Result<ProblemLine, Refused>) -> HeadingReply
    ensures { result ≡ heading_reply answer }
{
    match answer {
        Ok(ProblemLine { variables, clauses }) => HeadingReply {
            number: 0,
            place: 0,
            variables,
            clauses,
        },
        Err(Refused(refusal, place)) => HeadingReply {
            number: refusals::number(refusal),
            place,
            variables: 0,
            clauses: 0,
        },
    }
}

// What is sent back of a sheet: number (0 where it is not refused), place, and the record.
#[repr(C)]
#[derive(Clone, Copy)]
pub struct SheetReply {
    pub number: u32,
    pub place: u32,
    pub net: Netlist,
}

// A sheet's. The record is passed on: at a refusal `read` answers one that is all zeros.
pub fn sheet_numbers(sheet: SheetAnswer) -> SheetReply
    ensures { result ≡ sheet_numbers sheet.verdict sheet.net }
{
    let verdict = sheet.verdict;
    let net = sheet.net;
    let reply = refusals::reply_of(verdict);
    SheetReply {
        number: reply.number,
        place: reply.place,
        net,
    }
}

// What is sent back where no line is read.
fn without_fields(number: u32, place: u32, line: u32) -> LineReply
    ensures { result ≡ without_fields number place line }
{
    LineReply {
        number,
        place,
        letter: 0,
        first: 0,
        second: 0,
        third: 0,
        empty: 0,
        line,
    }
}

// A line's.
pub fn line_numbers(answer: LineAnswer, line: u32) -> LineReply
    ensures { result ≡ line_sent answer line }
{
    match answer {
        LineAnswer::Line {
            kind,
            first,
            second,
            third,
            empty,
        } => LineReply {
            number: 0,
            place: 0,
            letter: sheet_lines::letter_of(kind),
            first,
            second,
            third,
            empty,
            line,
        },
        LineAnswer::Refused(refusal, place) => without_fields(
            refusals::number(refusal),
            place,
            line,
        ),
        LineAnswer::NoLine => without_fields(0, 0, line),
    }
}

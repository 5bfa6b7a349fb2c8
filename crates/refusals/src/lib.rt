// The numbered errors (RULES T1 to T19), and what a chain of tests answers.
#![tactic(auto)]

ghost use Rattle.std.specs.Prelude.{◌≡◌};
ghost use Rattle.refusals.specs.Refusal.{refusal_number, reply_of};

// A case for each word of the table, in its order. 10 had no input left that meets it, and its number is not used again.
#[derive(Clone, Copy)]
pub enum Refusal {
    Ragged,
    Misprint,
    OutOfOrder,
    Size,
    CodeOutside,
    MemoryLoop,
    Depth,
    NoSuchGroup,
    NoRoom,
    NotAiger,
    Interface,
    Undefined,
    NoAnswer,
    NoViolation,
    WrongBase,
    TiedAddress,
    SecondPort,
    Reset,
}

// A refusal with its place (0: none).
#[derive(Clone, Copy)]
pub struct Refused(pub Refusal, pub u32);

// What a chain of tests answers: none refuses, or the first that does.
pub type Verdict = Result<(), Refused>;

// What a call that writes into a slice answers: how many numbers or bytes were written, or the refusal.
pub type Written = Result<usize, Refused>;

// A verdict in numbers (RULES N9), both 0 where no test refuses.
#[derive(Clone, Copy)]
pub struct Reply {
    pub number: u32,
    pub place: u32,
}

// What is sent back of a call that writes into a slice: number (0 where it is not refused), place, and how many numbers or bytes
// were written.
#[repr(C)]
#[derive(Clone, Copy)]
pub struct CountReply {
    pub number: u32,
    pub place: u32,
    pub count: usize,
}

// The number of a word of the table.
pub fn number(refusal: Refusal) -> u32
    ensures { result ≡ refusal_number refusal }
{
    match refusal {
        Refusal::Ragged => 1,
        Refusal::Misprint => 2,
        Refusal::OutOfOrder => 3,
        Refusal::Size => 4,
        Refusal::CodeOutside => 5,
        Refusal::MemoryLoop => 6,
        Refusal::Depth => 7,
        Refusal::NoSuchGroup => 8,
        Refusal::NoRoom => 9,
        Refusal::NotAiger => 11,
        Refusal::Interface => 12,
        Refusal::Undefined => 13,
        Refusal::NoAnswer => 14,
        Refusal::NoViolation => 15,
        Refusal::WrongBase => 16,
        Refusal::TiedAddress => 17,
        Refusal::SecondPort => 18,
        Refusal::Reset => 19,
    }
}

// What is sent back of a verdict.
pub fn reply_of(verdict: Verdict) -> Reply
    ensures { result ≡ reply_of verdict }
{
    match verdict {
        Ok(()) => Reply {
            number: 0,
            place: 0,
        },
        Err(Refused(refusal, place)) => Reply {
            number: number(refusal),
            place,
        },
    }
}

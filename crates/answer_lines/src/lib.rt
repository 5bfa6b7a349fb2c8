// The lines of a solver's answer (RULES Q1 to Q7): what each makes of the answer, with the signs of its numbers in a table.
#![tactic(auto)]

ghost use Rattle.std.specs.Prelude.{◌≡◌};
ghost use Rattle.decimal.specs.TextValue.{same_text};
ghost use Rattle.decimal.specs.SignedValue.{clause_number_in};
ghost use Rattle.answer_lines.specs.Answer.{is_comment, is_marked};
ghost use Rattle.answer_lines.specs.Progress.{status_in, NumberRead, OneNumber, LineRead};

use answer_signs::SignTable;

// What an answer says.
#[derive(Clone, Copy)]
pub enum AnswerKind {
    Malformed,
    Unsatisfiable,
    Satisfiable,
}

// How far an answer is read: its status line is missing; it is satisfiable, and the 0 behind the last value is missing; that 0 is read;
// it is unsatisfiable; it is malformed, whatever follows.
#[derive(Clone, Copy)]
pub enum Progress {
    NoStatus,
    Values,
    Complete,
    Unsatisfiable,
    Malformed,
}

// Whether two texts are the same.
fn same_text(text: &[u8], other: &[u8]) -> bool
    ensures { result ≡ same_text text.now other.now }
{
    text == other
}

// Whether a line that is begun is a comment.
pub fn is_comment(line: &[u8]) -> bool
    ensures { result ≡ is_comment line.now }
{
    0 < line.len() && line[0] == b'c'
}

// Whether a line that is begun has `v` and a space in front.
pub fn is_marked(line: &[u8]) -> bool
    ensures { result ≡ is_marked line.now }
{
    1 < line.len() && line[0] == b'v' && line[1] == b' '
}

// What a status line makes of the answer.
fn read_status(line: &[u8]) -> Progress
    ensures { result ≡ status_in line.now }
{
    if same_text(line, b"s SATISFIABLE") {
        return Progress::Values;
    }
    if same_text(line, b"s UNSATISFIABLE") {
        return Progress::Unsatisfiable;
    }
    Progress::Malformed
}

// Reads a number of a value line.
pub fn read_value(signs: &mut SignTable, word: &[u8]) -> Progress
    ensures { NumberRead (clause_number_in word.now) result signs.old signs.new }
{
    let Some(z) = decimal::read_clause_number(word) else {
        return Progress::Malformed;
    };
    if z == 0 {
        return Progress::Complete;
    }
    answer_signs::mark(signs, z);
    Progress::Values
}

// Reads a line that has ended.
pub fn read_line(signs: &mut SignTable, progress: Progress, line: &[u8]) -> Progress
    requires { OneNumber line.now }
    ensures { LineRead progress line.now result signs.old signs.new }
{
    if is_comment(line) {
        return progress;
    }
    match progress {
        Progress::NoStatus => read_status(line),
        Progress::Values => {
            if is_marked(line) {
                return read_value(signs, &line[2..]);
            }
            Progress::Malformed
        }
        Progress::Complete | Progress::Unsatisfiable | Progress::Malformed => Progress::Malformed,
    }
}

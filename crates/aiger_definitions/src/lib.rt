// What the lines of an ASCII AIGER text define and use: the first line that defines a variable again, and the first with a literal
// whose variable is not defined. Variables reach 2^31 and no memory is lent: a table of marks serves one block of variables, and the
// text is read again for the next block that a line names.
#![tactic(auto)]

ghost use Rattle.std.specs.Prelude.{◌≡◌, false, ℕ, suc, ◌+◌, ◌/◌, ◌≤◌, ◌<◌, length, get_or};
ghost use Rattle.model.specs.Search.{IsFirst};
ghost use Rattle.aiger_lines.specs.Parts.{counts_in, lines_due, malformed_at};
ghost use Rattle.aiger_lines.specs.Steps.{Behind, HeaderRead, SoundTo};
ghost use Rattle.aiger_definitions.specs.Definitions.{defined_at, defines_again, undefined_at};
ghost use Rattle.aiger_definitions.specs.Blocks.{variables_of, VariablesRead, SoundLines, uses_of, reach, fault_in, fault_of, Marks, with_mark, is_found, nearest, looked_at, Judged, JudgedBlock, BlockReady};

use aiger_lines::{Counts, HeaderLine, Numbers, Part};

// The variables on a line: the one that it defines, a gate's operands, and the one that any line may define; 0 where there is none.
#[derive(Clone, Copy)]
struct Variables {
    defined: u64,
    left: u64,
    right: u64,
    other: u64,
}

// A line's variables, and where the next line begins.
#[derive(Clone, Copy)]
struct VariableLine {
    variables: Variables,
    next: usize,
}

// What a pass over the lines looks for: a variable that is defined again, an operand that is not defined before its line, or another
// variable that is never defined.
#[derive(Clone, Copy)]
enum Look {
    Repeats,
    Operands,
    Others,
}

// What is looked for in all lines.
#[derive(Clone, Copy)]
enum Fault {
    Repeated,
    Undefined,
}

// The variables looked at in a line, and whether a mark or no mark is the fault.
#[derive(Clone, Copy)]
struct Uses {
    first: u64,
    second: u64,
    marked: bool,
}

// How many lines stand before the first fault, and the least variable behind the block.
#[derive(Clone, Copy)]
struct Found {
    first: u64,
    next: u64,
}

// The variable of a literal.
fn variable(literal: u32) -> u64
    ensures { result ≡ literal / 2 }
{
    (literal / 2) as u64
}

// The variables on a line of a part with these numbers.
fn variables_of(part: Part, numbers: Numbers) -> Variables
    requires { length numbers.values ≡ 5 }
    ensures { result ≡ variables_of part numbers.values }
{
    let first = variable(numbers.values[0]);
    let second = variable(numbers.values[1]);
    let third = variable(numbers.values[2]);
    match part {
        Part::Header => Variables {
            defined: 0,
            left: 0,
            right: 0,
            other: 0,
        },
        Part::Input => Variables {
            defined: first,
            left: 0,
            right: 0,
            other: 0,
        },
        Part::Latch => Variables {
            defined: first,
            left: 0,
            right: 0,
            other: second,
        },
        Part::Output => Variables {
            defined: 0,
            left: 0,
            right: 0,
            other: first,
        },
        Part::Gate => Variables {
            defined: first,
            left: second,
            right: third,
            other: 0,
        },
    }
}

// What a pass looks at in a line.
fn uses_of(look: Look, line: Variables) -> Uses
    ensures { result ≡ uses_of look line }
{
    match look {
        Look::Repeats => Uses {
            first: line.defined,
            second: line.defined,
            marked: true,
        },
        Look::Operands => Uses {
            first: line.left,
            second: line.right,
            marked: false,
        },
        Look::Others => Uses {
            first: line.other,
            second: line.other,
            marked: false,
        },
    }
}

// Takes all marks away.
fn clear(marks: &mut [bool])
    ensures { (length marks.new ≡ length marks.old)
        × ((x : ℕ) → x < length marks.old → get_or marks.new x false ≡ false) }
{
    marks.fill(false);
}

// Marks a variable that lies in the block from `base` on.
fn mark(marks: &mut [bool], base: u64, v: u64)
    ensures { marks.new ≡ with_mark base v marks.old }
{
    if base <= v {
        let x = (v - base) as usize;
        if x < marks.len() {
            marks[x] = true;
        }
    }
}

// Whether a variable lies in the block, with a mark or with none.
fn is_found(marks: &[bool], base: u64, v: u64, mark: bool) -> bool
    ensures { result ≡ is_found marks.now base v mark }
{
    if v < base {
        return false;
    }
    let x = (v - base) as usize;
    x < marks.len() && marks[x] == mark
}

// The smaller of `next` and a variable behind the block.
fn nearer(base: u64, size: usize, next: u64, v: u64) -> u64
    ensures { result ≡ nearest base size next v }
{
    if v < base || ((v - base) as usize) < size {
        return next;
    }
    next.min(v)
}

// Looks at one line.
fn look_at(marks: &[bool], base: u64, line: u64, uses: Uses, found: Found) -> Found
    ensures { result ≡ looked_at marks.now base line uses found }
{
    let next = nearer(
        base,
        marks.len(),
        nearer(base, marks.len(), found.next, uses.first),
        uses.second,
    );
    let fault = is_found(marks, base, uses.first, uses.marked)
        | is_found(marks, base, uses.second, uses.marked);
    if fault && line < found.first {
        return Found { first: line, next };
    }
    Found {
        first: found.first,
        next,
    }
}

// Reads the line behind the first `line` lines, a well-formed one.
fn next_variables(text: &[u8], counts: Counts, line: u64, at: usize) -> VariableLine
    requires { (1 ≤ line) × (line < 18446744073709551615) × (counts ≡ counts_in text.now) × Behind text.now line at
        × (malformed_at text.now (line + 1) ≡ false) }
    ensures { VariablesRead text.now line result.variables result.next }
{
    let read = aiger_lines::next_line(text, line, at);
    let numbers = read.numbers;
    VariableLine {
        variables: variables_of(aiger_lines::part_at(counts, line + 1), numbers),
        next: read.next,
    }
}

// Looks at the lines for one block of variables, each before its own definition is marked.
fn pass(
    text: &[u8],
    header: HeaderLine,
    lines: u64,
    base: u64,
    marks: &mut [bool],
    look: Look,
) -> Found
    requires { HeaderRead text.now header.counts header.next × SoundLines text.now lines
        × (1 ≤ base) × (base < 4294967296) × (0 < length marks.old) × Marks (defined_at text.now) (reach look lines 1) base marks.old }
    ensures judged { JudgedBlock (fault_in look text.now lines) lines base result }
    ensures all_marked { Marks (defined_at text.now) (lines + 1) base marks.new
        × (length marks.new ≡ length marks.old) }
{
    let counts = header.counts;
    let mut at = header.next;
    let mut found = Found {
        first: lines,
        next: 4294967296,
    };
    for line in 1..lines {
        let read = next_variables(text, counts, line, at);
        let variables = read.variables;
        found = look_at(marks, base, line, uses_of(look, variables), found);
        mark(marks, base, variables.defined);
        at = read.next;
    }
    found
}

// The repeats in one block.
fn repeat_in_block(
    text: &[u8],
    header: HeaderLine,
    lines: u64,
    base: u64,
    marks: &mut [bool],
) -> Found
    requires { BlockReady text.now header lines base marks.old }
    ensures judged { JudgedBlock (fault_of Fault.Repeated text.now lines) lines base result }
    ensures size { length marks.new ≡ length marks.old }
{
    clear(marks);
    pass(text, header, lines, base, marks, Look::Repeats)
}

// The undefined variables in one block: the second pass finds all definitions marked.
fn undefined_in_block(
    text: &[u8],
    header: HeaderLine,
    lines: u64,
    base: u64,
    marks: &mut [bool],
) -> Found
    requires { BlockReady text.now header lines base marks.old }
    ensures judged { JudgedBlock (fault_of Fault.Undefined text.now lines) lines base result }
    ensures size { length marks.new ≡ length marks.old }
{
    clear(marks);
    let operands = pass(text, header, lines, base, marks, Look::Operands);
    let others = pass(text, header, lines, base, marks, Look::Others);
    Found {
        first: operands.first.min(others.first),
        next: operands.next.min(others.next),
    }
}

// The faults in one block.
fn fault_in_block(
    text: &[u8],
    header: HeaderLine,
    lines: u64,
    base: u64,
    marks: &mut [bool],
    fault: Fault,
) -> Found
    requires { BlockReady text.now header lines base marks.old }
    ensures judged { JudgedBlock (fault_of fault text.now lines) lines base result }
    ensures size { length marks.new ≡ length marks.old }
{
    match fault {
        Fault::Repeated => repeat_in_block(text, header, lines, base, marks),
        Fault::Undefined => undefined_in_block(text, header, lines, base, marks),
    }
}

// A table of 262,144 marks.
fn no_marks() -> [bool; 262144]
    ensures { length result ≡ 262144 }
{
    [false; 262144]
}

// The first fault in any variable.
fn first_fault(text: &[u8], header: HeaderLine, lines: u64, fault: Fault) -> u64
    requires { HeaderRead text.now header.counts header.next × SoundLines text.now lines }
    ensures { Judged (fault_of fault text.now lines) lines 1 lines result 4294967296 }
{
    let mut marks = no_marks();
    let mut first = lines;
    let mut base = 1;
    while base < 4294967296 {
        let found = fault_in_block(text, header, lines, base, &mut marks, fault);
        first = first.min(found.first);
        base = found.next;
    }
    first
}

// How many of the well-formed lines stand before the first that defines a variable again.
pub fn first_repeat(text: &[u8], header: HeaderLine, sound: u64) -> u64
    requires { HeaderRead text.now header.counts header.next × SoundTo text.now sound }
    ensures { IsFirst (λ x. defines_again text.now (suc x)) sound result }
{
    if sound == 0 {
        return 0;
    }
    first_fault(text, header, sound, Fault::Repeated)
}

// How many lines of a well-formed text stand before the first with an undefined literal.
pub fn first_undefined(text: &[u8], header: HeaderLine) -> u64
    requires { HeaderRead text.now header.counts header.next × SoundTo text.now (lines_due header.counts) }
    ensures { IsFirst (λ x. undefined_at text.now (suc x)) (lines_due (counts_in text.now)) result }
{
    first_fault(
        text,
        header,
        aiger_lines::lines_due(header.counts),
        Fault::Undefined,
    )
}

// The program `import_aag` (RULES P18 to P20, P22, P23 and P29): m, n, the start word, which may be left out, and behind it the number of ports, as
// arguments and an ASCII AIGER text on standard input; on standard output the sheet of its netlist, or one refusal. What is printed is in the crates
// below; here are only arguments, input and output.
#![tactic(auto)]

ghost use Rattle.std.specs.Prelude.{◌≡◌, true, length};
ghost use Rattle.std.specs.Io.KnownBytes.{Appends};
ghost use Rattle.program_import.specs.Printed.{import_output};

use std::env::{Env, FillError};
use std::io::Write;

// Writes text to standard output. Where that fails, says so on standard error. Answers whether all is written.
fn write_text<W: Write, E: Write>(output: &mut W, errors: &mut E, text: &[u8]) -> bool
    ensures { result ≡ true → Appends (W.contents output.old) (W.contents output.new) text.now }
{
    streams::write_or_say(
        output,
        errors,
        text,
        b"import_aag: writing failed, the output is not whole\n",
    )
}

fn print_usage<E: Write>(errors: &mut E) {
    streams::say(
        errors,
        b"usage: import_aag m n [start [ports]] < text.aag > sheet\n  m, n: how many address and data bits; start: what every word starts as; left out: anything\n  ports: 1 or 2 read ports; left out: 1\n",
    );
}

// An argument as a number of at most ten digits; one that is missing or longer is none.
fn number_at<R: Env>(rt: &R, i: usize) -> Option<u32> {
    let mut word = [0; 10];
    match rt.arg(i, &mut word) {
        Ok(count) => decimal::read_number(&word[..count]),
        Err(_) => None,
    }
}

// How many arguments there are, the program's name among them; 6 stands for more than 5. A long one is there too.
fn argument_count<R: Env>(rt: &R) -> usize {
    let mut word = [0; 10];
    for i in 0..6 {
        if let Err(FillError::NotPresent) = rt.arg(i, &mut word) {
            return i;
        }
    }
    6
}

// One byte more than are judged of a text, so that a longer one is seen to be longer.
fn no_text() -> [u8; 4194305]
    ensures { length result ≡ 4194305 }
{
    [0; 4194305]
}

// As many bytes as the longest sheet has.
fn no_sheet() -> [u8; 20064]
    ensures { length result ≡ 20064 }
{
    [0; 20064]
}

// Prints what is made of the text read, and answers whether all of it is written. Where that is nothing, says so on standard error.
fn print_import<W: Write, E: Write>(
    output: &mut W,
    errors: &mut E,
    text: &[u8],
    m: u32,
    n: u32,
    word: u32,
    unknown: u32,
    second_port: u32,
) -> bool
    ensures { result ≡ true → Appends (W.contents output.old) (W.contents output.new)
        (import_output text.now m n word unknown second_port) }
{
    let mut sheet = no_sheet();
    let bytes = program_import::write_output(&mut sheet, text, m, n, word, unknown, second_port);
    if bytes == 0 {
        streams::say(
            errors,
            b"import_aag: not all lines of the text are within its first 4194304 bytes\n",
        );
        return true;
    }
    write_text(output, errors, &sheet[..bytes])
}

// Imports the text on standard input.
fn import(rt: &HostRuntime, m: u32, n: u32, word: u32, unknown: u32, second_port: u32) {
    let mut text = no_text();
    let count = streams::read_full(&mut rt.stdin(), &mut text);
    let mut output = rt.stdout();
    let mut errors = rt.stderr();
    print_import(
        &mut output,
        &mut errors,
        &text[..count],
        m,
        n,
        word,
        unknown,
        second_port,
    );
}

// Imports for a start word and so many ports.
fn import_ports(rt: &HostRuntime, m: u32, n: u32, word: u32, ports: u32) {
    if ports == 1 {
        import(rt, m, n, word, 0, 0);
        return;
    }
    if ports == 2 {
        import(rt, m, n, word, 0, 1);
        return;
    }
    print_usage(&mut rt.stderr());
}

// Imports for a start that is given as the third argument, or unknown where there is none; for as many ports as the fourth says, or one.
fn import_for(rt: &HostRuntime, m: u32, n: u32, count: usize) {
    if count == 3 {
        import(rt, m, n, 0, 1, 0);
        return;
    }
    let Some(word) = number_at(rt, 3) else {
        print_usage(&mut rt.stderr());
        return;
    };
    if count == 4 {
        import_ports(rt, m, n, word, 1);
        return;
    }
    let Some(ports) = number_at(rt, 4) else {
        print_usage(&mut rt.stderr());
        return;
    };
    import_ports(rt, m, n, word, ports);
}

fn main(rt: HostRuntime) {
    let count = argument_count(&rt);
    if (count < 3) | (5 < count) {
        print_usage(&mut rt.stderr());
        return;
    }
    let Some(m) = number_at(&rt, 1) else {
        print_usage(&mut rt.stderr());
        return;
    };
    let Some(n) = number_at(&rt, 2) else {
        print_usage(&mut rt.stderr());
        return;
    };
    import_for(&rt, m, n, count);
}

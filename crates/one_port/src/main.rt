// The program `one_port` (RULES P24 to P26): a sheet on standard input; on standard output the sheet with one port that has its runs, or one
// refusal. What is printed is in the crates below; here are only input and output.
#![tactic(auto)]

ghost use Rattle.std.specs.Prelude.{◌≡◌, true, false, length};
ghost use Rattle.std.specs.Io.KnownBytes.{Appends};
ghost use Rattle.program_one_port.specs.Printed.{one_port_output};

use std::io::Write;

// Writes to standard output all that is printed for a file, in one piece, once: nothing else writes there. The file is lent only for what is
// asked of the text. Where writing fails, says so on standard error. Answers whether all is written.
fn write_text<W: Write, E: Write>(
    output: &mut W,
    errors: &mut E,
    file: &[u8],
    printed: &mut bool,
    text: &[u8],
) -> bool
    requires { (text.now ≡ one_port_output file.now) × (printed.old ≡ false) }
    ensures printed { printed.new ≡ true }
    ensures written { result ≡ true → Appends (W.contents output.old) (W.contents output.new) (one_port_output file.now) }
{
    *printed = true;
    streams::write_or_say(
        output,
        errors,
        text,
        b"one_port: writing failed, the output is not whole\n",
    )
}

// As many bytes as the longest sheet has.
fn no_sheet() -> [u8; 20064]
    ensures { length result ≡ 20064 }
{
    [0; 20064]
}

// Prints what is due for a file, and answers whether all of it is written.
fn print_answer<W: Write, E: Write>(
    output: &mut W,
    errors: &mut E,
    file: &[u8],
    printed: &mut bool,
) -> bool
    requires { printed.old ≡ false }
    ensures printed { printed.new ≡ true }
    ensures written { result ≡ true → Appends (W.contents output.old) (W.contents output.new) (one_port_output file.now) }
{
    let mut sheet = no_sheet();
    let bytes = program_one_port::write_output(&mut sheet, file);
    write_text(output, errors, file, printed, &sheet[..bytes])
}

// One byte more than the longest sheet, so that a longer file is seen to be too long.
fn main(rt: HostRuntime) {
    let mut bytes = [0; 20065];
    let count = streams::read_full(&mut rt.stdin(), &mut bytes);
    let mut output = rt.stdout();
    let mut errors = rt.stderr();
    let mut printed = false;
    print_answer(&mut output, &mut errors, &bytes[..count], &mut printed);
}

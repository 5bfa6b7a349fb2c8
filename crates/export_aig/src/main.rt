// The program `export_aig` (RULES P27 and P28): a sheet on standard input; on standard output the binary AIGER file of its netlist, or one
// refusal. What is printed is in the crates below; here are only input and output.
#![tactic(auto)]

ghost use Rattle.std.specs.Prelude.{◌≡◌, true, false};
ghost use Rattle.std.specs.Io.KnownBytes.{Appends};
ghost use Rattle.program_export.specs.Printed.{export_output};

use std::io::Write;

// Writes to standard output all that is printed for a sheet, in one piece, once: nothing else writes there. The sheet is lent only for what is asked
// of the text. Where writing fails, says so on standard error. Answers whether all is written.
fn write_text<W: Write, E: Write>(
    output: &mut W,
    errors: &mut E,
    sheet: &[u8],
    printed: &mut bool,
    text: &[u8],
) -> bool
    requires { (text.now ≡ export_output sheet.now) × (printed.old ≡ false) }
    ensures printed { printed.new ≡ true }
    ensures written { result ≡ true → Appends (W.contents output.old) (W.contents output.new) (export_output sheet.now) }
{
    *printed = true;
    streams::write_or_say(
        output,
        errors,
        text,
        b"export_aig: writing failed, the output is not whole\n",
    )
}

// Prints what is made of the sheet, and answers whether all of it is written.
fn print_export<W: Write, E: Write>(
    output: &mut W,
    errors: &mut E,
    sheet: &[u8],
    printed: &mut bool,
) -> bool
    requires { printed.old ≡ false }
    ensures printed { printed.new ≡ true }
    ensures written { result ≡ true → Appends (W.contents output.old) (W.contents output.new) (export_output sheet.now) }
{
    let mut text = [0; 4096];
    let bytes = program_export::write_output(&mut text, sheet);
    write_text(output, errors, sheet, printed, &text[..bytes])
}

// One byte more than the longest sheet that is accepted, so that a longer one is seen to be too long.
fn main(rt: HostRuntime) {
    let mut bytes = [0; 20065];
    let count = streams::read_full(&mut rt.stdin(), &mut bytes);
    let mut output = rt.stdout();
    let mut errors = rt.stderr();
    let mut printed = false;
    print_export(&mut output, &mut errors, &bytes[..count], &mut printed);
}

// What `import_aag` prints (RULES P3, P20 and P23): the sheet of a text's netlist, or a refusal; nothing where a text is too long to be judged.
#![tactic(auto)]

ghost use Rattle.std.specs.Prelude.{◌≡◌, cond, ◌&&◌, [], ◌∷◌, ◌≤◌, ltb, eqb, length};
ghost use Rattle.model.specs.Wrote.{Wrote};
ghost use Rattle.dimacs.specs.Text.{refusal_text};
ghost use Rattle.text_words.specs.Words.{lines_of};
ghost use Rattle.program_import.specs.Printed.{import_text_cut, import_output, PrefixSuffices, ImportRoomSuffices, NoCodeOutside};

use refusals::Refused;

// One line more, where a byte is a line feed.
fn line_end(x: u8) -> usize
    ensures { (result ≡ length (lines_of (x ∷ []))) × (result ≤ 1) }
{
    if x == b'\n' {
        return 1;
    }
    0
}

// How many lines a text has.
fn line_count(text: &[u8]) -> usize
    ensures { result ≡ length (lines_of text.now) }
{
    let mut lines = 0;
    for &x in text {
        lines += line_end(x);
    }
    lines
}

// Whether an import stops at the end of a text that goes on behind it (`more`): 11 at a line that the text does not have whole.
fn is_cut(text: &[u8], more: bool, number: u32, place: u32) -> bool
    ensures { result ≡ (more && (eqb number 11 && ltb (length (lines_of text.now)) place)) }
{
    if !more {
        return false;
    }
    if number == 11 {
        return line_count(text) < place as usize;
    }
    false
}

// Writes the line of a refusal, or nothing where the text was cut there.
fn write_refused(out: &mut [u8], text: &[u8], more: bool, number: u32, place: u32) -> usize
    requires { 28 ≤ length out.old }
    ensures text { Wrote (cond (more && (eqb number 11 && ltb (length (lines_of text.now)) place)) [] (refusal_text number place)) out.old out.new result }
    ensures most { result ≤ 28 }
{
    if is_cut(text, more, number, place) {
        return 0;
    }
    dimacs::write_refusal(out, number, place)
}

// Imports a text for a start word, or for an unknown start where `unknown` is 1, and for two ports where `second` is 1, and writes its sheet or the
// refusal into a slice that has room for the longest. Where the text is the beginning of a longer one (`more`) and the import stops at its end,
// nothing is written.
fn write_import(
    out: &mut [u8],
    text: &[u8],
    more: bool,
    m: u32,
    n: u32,
    word: u32,
    unknown: u32,
    second: u32,
) -> usize
    requires { 20064 ≤ length out.old }
    ensures text { Wrote (import_text_cut more text.now m n word unknown second) out.old out.new result }
    ensures most { result ≤ 20064 }
{
    let mut latches = sheet_tests::no_codes();
    let mut gates = sheet_tests::no_codes();
    let sheet = aiger_import::import_text(
        text,
        m,
        n,
        word,
        unknown,
        second,
        600,
        600,
        &mut latches,
        &mut gates,
    );
    let verdict = sheet.verdict;
    if let Err(Refused(refusal, place)) = verdict {
        return write_refused(out, text, more, refusals::number(refusal), place);
    }
    sheet_writer::put_sheet(out, sheet.net, &latches, &gates)
}

// The same of what was read of a text: of more than 4 MiB only the first 4 MiB are looked at.
pub fn write_output(
    out: &mut [u8],
    read: &[u8],
    m: u32,
    n: u32,
    word: u32,
    unknown: u32,
    second: u32,
) -> usize
    requires { 20064 ≤ length out.old }
    ensures text { Wrote (import_output read.now m n word unknown second) out.old out.new result }
    ensures most { result ≤ 20064 }
    ensures room { ImportRoomSuffices }
    ensures codes { NoCodeOutside }
    ensures prefix { PrefixSuffices }
{
    if read.len() <= 4194304 {
        return write_import(out, read, false, m, n, word, unknown, second);
    }
    write_import(out, &read[..4194304], true, m, n, word, unknown, second)
}

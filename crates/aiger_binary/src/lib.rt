// The parts of a binary AIGER file: its header, its lines of one code, and its gates.
#![tactic(auto)]

ghost use Rattle.std.specs.Prelude.{[], ◌∷◌, ◌++◌, ◌+◌, ◌*◌, ◌≤◌, ◌<◌, length};
ghost use Rattle.decimal.specs.Digits.{digits, line_feed};
ghost use Rattle.model.specs.Wrote.{Wrote};
ghost use Rattle.aiger_lines.specs.Written.{numbers_text};
ghost use Rattle.aiger_difference.specs.Difference.{difference_bytes};
ghost use Rattle.aiger_binary.specs.BinaryText.{header_line, code_line, gate_text};

use aiger_difference::put_difference;
use literals::{Code, Wire};
use text_writer::{write_ended, write_word};

// What ends a line.
const LINE_FEED: u8 = b'\n';

// Writes a number of at most four digits, and a byte behind it.
fn put_number(out: &mut [u8], x: u32, byte: u8) -> usize
    requires { (x < 10000) × (5 ≤ length out.old) }
    ensures { Wrote (digits x ++ byte ∷ []) out.old out.new result × (result ≤ 5) }
{
    write_ended(out, x, byte)
}

// Writes the numbers of inputs, latches, outputs and gates, which end the header.
fn put_counts(out: &mut [u8], inputs: u32, latches: u32, outputs: u32, gates: u32) -> usize
    requires { (inputs + latches + gates < 10000) × (outputs < 10000) × (20 ≤ length out.old) }
    ensures { Wrote (numbers_text (inputs ∷ latches ∷ outputs ∷ gates ∷ []) ++ line_feed ∷ []) out.old out.new result × (result ≤ 20) }
{
    let first = put_number(out, inputs, b' ');
    let second = first + put_number(&mut out[first..], latches, b' ');
    let third = second + put_number(&mut out[second..], outputs, b' ');
    third + put_number(&mut out[third..], gates, b'\n')
}

// Writes the header: how many variables there are, inputs, latches, outputs and gates.
pub fn put_header(out: &mut [u8], inputs: u32, latches: u32, outputs: u32, gates: u32) -> usize
    requires { (inputs + latches + gates < 10000) × (outputs < 10000) × (29 ≤ length out.old) }
    ensures { Wrote (header_line ((inputs + latches + gates) ∷ inputs ∷ latches ∷ outputs ∷ gates ∷ [])) out.old out.new result × (result ≤ 29) }
{
    let word = write_word(out, b"aig ");
    let first = word + put_number(&mut out[word..], inputs + latches + gates, b' ');
    first + put_counts(&mut out[first..], inputs, latches, outputs, gates)
}

// Writes a code on a line of its own.
pub fn put_code(out: &mut [u8], code: Code) -> usize
    requires { (code.0 < 10000) × (5 ≤ length out.old) }
    ensures { Wrote (code_line code.0) out.old out.new result × (result ≤ 5) }
{
    put_number(out, code.0, LINE_FEED)
}

// Writes a difference of at most fourteen bits.
fn put_short(out: &mut [u8], x: u32) -> usize
    requires { (x < 16384) × (2 ≤ length out.old) }
    ensures { Wrote (difference_bytes x) out.old out.new result × (result ≤ 2) }
{
    put_difference(out, x)
}

// Writes a gate: how far its larger code is below its own variable's, and how far the other is below that.
pub fn put_gate(out: &mut [u8], own: Wire, larger: Code, smaller: Code) -> usize
    requires { (own.0 < 8192) × (larger.0 < 2 * own.0) × (smaller.0 ≤ larger.0) × (4 ≤ length out.old) }
    ensures { Wrote (gate_text own.0 larger.0 smaller.0) out.old out.new result × (result ≤ 4) }
{
    let first = put_short(out, 2 * own.0 - larger.0);
    first + put_short(&mut out[first..], larger.0 - smaller.0)
}

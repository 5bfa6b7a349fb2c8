// The tests of an ASCII AIGER text by itself (RULES T11 to T13).
#![tactic(auto)]

ghost use Rattle.std.specs.Prelude.{◌≡◌, not, suc, ◌+◌, ◌*◌, eqb, ltb};
ghost use Rattle.aiger_graph.specs.RecordAig.{control_output};
ghost use Rattle.aiger_lines.specs.Steps.{HeaderRead};
ghost use Rattle.aiger_netlist.specs.ImportVerdict.{place_of, wrong_interface, text_verdict};

use aiger_lines::{Counts, HeaderLine};
use refusals::{Refusal, Refused, Verdict};

// The place of a line.
fn place_of(line: u64) -> u32
    ensures { result ≡ place_of line }
{
    if line < 4294967295 {
        return line as u32;
    }
    4294967295
}

// Whether there are fewer inputs than read bits. The caller's numbers may be any yet: their product is taken where it fits.
fn lacks_inputs(inputs: u32, n: u32, second_port: u32) -> bool
    ensures { result ≡ ltb inputs (suc second_port * n) }
{
    let reads = (second_port as u64 + 1) * n as u64;
    (inputs as u64) < reads
}

// Whether there is another number of outputs than the memory and the property need. Those of a second port are compared by themselves, as not
// all sums fit.
fn has_other_outputs(outputs: u32, m: u32, n: u32, second_port: u32) -> bool
    ensures { result ≡ not (eqb outputs (control_output m n second_port + 3)) }
{
    let found = outputs as u64;
    let single = m as u64 + n as u64 + 3;
    if found < single {
        return true;
    }
    let second = second_port as u64 * (m as u64 + 1);
    found - single != second
}

// Refusal 12.
fn has_wrong_interface(counts: Counts, m: u32, n: u32, second_port: u32) -> bool
    ensures { result ≡ wrong_interface counts m n second_port }
{
    lacks_inputs(counts.inputs, n, second_port)
        | has_other_outputs(counts.outputs, m, n, second_port)
}

// Tests a text whose header was read: 11 at the first line concerned, then 12, then 13 at the first line concerned.
pub fn test_text(text: &[u8], header: HeaderLine, m: u32, n: u32, second_port: u32) -> Verdict
    requires { HeaderRead text.now header.counts header.next }
    ensures { result ≡ text_verdict text.now m n second_port }
{
    let counts = header.counts;
    let due = aiger_lines::lines_due(counts);
    let sound = aiger_lines::sound_lines(text, header);
    let first = aiger_definitions::first_repeat(text, header, sound);
    if first < due {
        return Err(Refused(Refusal::NotAiger, place_of(first + 1)));
    }
    if has_wrong_interface(counts, m, n, second_port) {
        return Err(Refused(Refusal::Interface, 0));
    }
    let undefined = aiger_definitions::first_undefined(text, header);
    if undefined < due {
        return Err(Refused(Refusal::Undefined, place_of(undefined + 1)));
    }
    Ok(())
}

// What `one_port` prints (RULES P3 and P25): the sheet with one port, or a refusal.
#![tactic(auto)]

ghost use Rattle.std.specs.Prelude.{◌≤◌, length};
ghost use Rattle.model.specs.Wrote.{Wrote};
ghost use Rattle.sheet_one_port.specs.OnePortCall.{OnePortTheorem};
ghost use Rattle.program_one_port.specs.Printed.{one_port_output, OnlyOnePortRefusals};

use refusals::Refused;

// Converts a sheet, and writes the sheet with one port or the refusal into a slice that has room for the longest.
pub fn write_output(out: &mut [u8], file: &[u8]) -> usize
    requires { 20064 ≤ length out.old }
    ensures text { Wrote (one_port_output file.now) out.old out.new result }
    ensures most { result ≤ 20064 }
    ensures converted { OnePortTheorem }
    ensures refusals { OnlyOnePortRefusals }
{
    let answer = sheet_one_port::convert(file, out);
    match answer {
        Ok(count) => count,
        Err(Refused(refusal, place)) => {
            dimacs::write_refusal(out, refusals::number(refusal), place)
        }
    }
}

// `read` into lent lists of records (RULES T45). It takes the lists apart and leaves the work to functions over plain slices.
#![tactic(auto)]

ghost use Rattle.std.specs.Prelude.{◌≡◌};
ghost use Rattle.model.specs.Acceptance.{PathTheorem};
ghost use Rattle.refusals.specs.Refusal.{reply_of};
ghost use Rattle.sheet_reader.specs.ReadCall.{read_verdict, read_record, latches_after, gates_after, SheetDelivered};

use call_lists::{GateEntry, LatchEntry};
use sheet_steps::SheetAnswer;

// Reads a sheet: its record, and its latches and gates into the lent lists. Nothing lent is written before the last test has passed:
// a refusal's record is all zeros, so nothing of it is delivered.
pub fn read(file: &[u8], latches: &mut [LatchEntry], gates: &mut [GateEntry]) -> SheetAnswer
    ensures reply { reply_of result.verdict ≡ reply_of (read_verdict file.now latches.old gates.old) }
    ensures record { result.net ≡ read_record file.now latches.old gates.old }
    ensures latches { latches.new ≡ latches_after file.now latches.old gates.old }
    ensures gates { gates.new ≡ gates_after file.now latches.old gates.old }
    ensures accepted { (reply_of result.verdict).number ≡ 0 → SheetDelivered file.now result.net latches.new gates.new }
    ensures paths { PathTheorem }
{
    let mut latch_codes = sheet_tests::no_codes();
    let mut gate_codes = sheet_tests::no_codes();
    let sheet = sheet_tests::read_codes(
        file,
        latches.len(),
        gates.len(),
        &mut latch_codes,
        &mut gate_codes,
    );
    call_lists::deliver::deliver_latches(&latch_codes, sheet.net.latches, latches);
    call_lists::deliver::deliver_gates(&gate_codes, sheet.net.gates, gates);
    sheet
}

// The loop by which a file is read line by line into the record and the lists (RULES S5, S7, S13, S14 and T53): a reader moves on, and each of
// its answers is taken. It is a crate of its own: no wrong version of what it calls checks it anew.
#![tactic(auto)]

ghost use Rattle.std.specs.Prelude.{◌≡◌, false};
ghost use Rattle.refusals.specs.Tests.{in_order};
ghost use Rattle.sheet_steps.specs.Steps.{Outcome};
ghost use Rattle.sheet_parse.specs.Files.{line_count, net_in};
ghost use Rattle.sheet_parse.specs.FileTests.{ragged, test_line_in};
ghost use Rattle.sheet_parse.specs.Progress.{no_codes};

use netlist::UnpackedList;
use sheet_parse::SheetReader;
use sheet_steps::SheetAnswer;

// Reads the lines of a file by a reader that moves on line by line: refusals 2 to 5. After a refusal the lists are scratch.
pub fn read_lines(file: &[u8], latches: &mut UnpackedList, gates: &mut UnpackedList) -> SheetAnswer
    requires { (ragged file.now ≡ false) × (latches.old ≡ no_codes) × (gates.old ≡ no_codes) }
    ensures { Outcome result latches.new gates.new (in_order (test_line_in (net_in file.now) file.now) (line_count file.now)) (net_in file.now) }
{
    let mut reader = SheetReader { file, line: 0 };
    let mut progress = sheet_parse::no_progress();
    while progress.more {
        let next = reader.next_line();
        progress = sheet_parse::take_answer(progress, latches, gates, next.line, next.reader.line);
        reader = next.reader;
    }
    progress.sheet
}

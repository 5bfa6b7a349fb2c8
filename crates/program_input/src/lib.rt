// The program's input: a depth line and a sheet (RULES P1 and P4 to P6).
#![tactic(auto)]

ghost use Rattle.std.specs.Prelude.{◌≡◌};
ghost use Rattle.refusals.specs.Tests.{if_passed};
ghost use Rattle.sheet_steps.specs.Lists.{ListsBeside};
ghost use Rattle.sheet_parse.specs.Files.{net_in};
ghost use Rattle.sheet_parse.specs.Progress.{no_codes};
ghost use Rattle.program_input.specs.Input.{sheet_in, with_depth_and_record, input_beside, input_answer, InputTaken, InputEncoded, OnlyInputRefusals};

use netlist::{Netlist, UnpackedList};
use refusals::Verdict;

// What an input is read as: a refusal's number and place (both 0 where it is taken), the depth, and the sheet's record. The depth and
// the record are all zeros at a refusal.
#[derive(Clone, Copy)]
pub struct Input {
    pub number: u32,
    pub place: u32,
    pub depth: u32,
    pub net: Netlist,
}

// The depth beside a verdict: 0 at a refusal.
fn depth_beside(verdict: Verdict, depth: u32) -> u32
    ensures { result ≡ if_passed verdict depth 0 }
{
    match verdict {
        Ok(()) => depth,
        Err(_) => 0,
    }
}

// A verdict as number and place, with the depth beside them, 0 at a refusal, and a record, which is passed on.
fn answer(verdict: Verdict, depth: u32, net: Netlist) -> Input
    ensures { result ≡ with_depth_and_record verdict depth net }
{
    let reply = refusals::reply_of(verdict);
    Input {
        number: reply.number,
        place: reply.place,
        depth: depth_beside(verdict, depth),
        net,
    }
}

// Reads the sheet behind an accepted depth line. After a refusal the lists are scratch.
fn read_sheet(
    file: &[u8],
    depth: u32,
    latches: &mut UnpackedList,
    gates: &mut UnpackedList,
) -> Input
    requires { (latches.old ≡ no_codes) × (gates.old ≡ no_codes) }
    ensures answer { result ≡ input_beside (sheet_in file.now) depth (net_in file.now) }
    ensures lists { ListsBeside (sheet_in file.now) result.net latches.new gates.new (net_in file.now) }
{
    let sheet = sheet_tests::read_codes(file, 600, 600, latches, gates);
    let verdict = sheet.verdict;
    let net = sheet.net;
    answer(verdict, depth, net)
}

// Reads an input: the depth is tested first. Where it is taken, the sheet's codes are in the lists; after a refusal the lists are
// scratch.
pub fn read_input(input: &[u8], latches: &mut UnpackedList, gates: &mut UnpackedList) -> Input
    requires { (latches.old ≡ no_codes) × (gates.old ≡ no_codes) }
    ensures answer { result ≡ input_answer input.now }
    ensures taken { result.number ≡ 0 → InputTaken input.now result latches.new gates.new }
    ensures refusals { OnlyInputRefusals }
    ensures encoded { result.number ≡ 0 → InputEncoded input.now result latches.new gates.new }
{
    let line = sheet_lines::read_depth(input);
    let verdict = line.verdict;
    if let Err(_) = verdict {
        return answer(verdict, 0, netlist::empty_net());
    }
    read_sheet(&input[11..], line.depth, latches, gates)
}

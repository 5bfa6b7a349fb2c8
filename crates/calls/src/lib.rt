// The public calls over a record and the lists that the caller lends (RULES T40 and T41). Each unpacks the lists and
// leaves the rest to a call over unpacked lists.
#![tactic(auto)]

ghost use Rattle.std.specs.Prelude.{◌≡◌, length};
ghost use Rattle.model.specs.Acceptance.{PathTheorem};
ghost use Rattle.model.specs.Claim.{EncodingTheorem, StatedTheorem};
ghost use Rattle.model.specs.Trace.{TraceTheorem};
ghost use Rattle.refusals.specs.Slices.{count_reply};
ghost use Rattle.calls.specs.Starred.{Starred};
ghost use Rattle.call_unpacked.specs.Calls.{heading_reply, group_sent, group_leaves, heading_sent, BoundTheorem};
ghost use Rattle.call_lists.specs.Lent.{net_lent};
ghost use Rattle.calls.specs.LentCalls.{HeadingClaim, AcceptedTheorem};

use call_lists::{GateEntry, LatchEntry};
use call_unpacked::ProblemLine;
use model::Group;
use netlist::Netlist;
use refusals::{Refused, Written};

// The heading of a depth, RULES G23: "the variables that are numbered .. and the clauses that are really written".
pub fn heading(
    net: Netlist,
    latches: &[LatchEntry],
    gates: &[GateEntry],
    depth: u32,
) -> Result<ProblemLine, Refused>
    ensures answer { heading_reply result ≡ heading_sent (net_lent net latches.now gates.now) (length latches.now) (length gates.now) depth }
    ensures claim { HeadingClaim net latches.now gates.now depth }
    ensures paths { PathTheorem }
    ensures accepted { AcceptedTheorem }
    ensures theorems { EncodingTheorem × StatedTheorem × TraceTheorem × BoundTheorem }
    ensures starred { Starred }
{
    let mut latch_codes = [0; 1200];
    call_lists::unpack::unpack_latches(&mut latch_codes, latches);
    let mut gate_codes = [0; 1200];
    call_lists::unpack::unpack_gates(&mut gate_codes, gates);
    call_unpacked::heading(
        net,
        &latch_codes,
        latches.len(),
        &gate_codes,
        gates.len(),
        depth,
    )
}

// Writes one group's clauses at the start of a slice, in the order of RULES G3 to G14, and answers how many numbers that is; or refuses and
// writes nothing.
pub fn write_group(
    net: Netlist,
    latches: &[LatchEntry],
    gates: &[GateEntry],
    depth: u32,
    group: Group,
    out: &mut [i32],
) -> Written
    ensures answer { count_reply result ≡ group_sent (net_lent net latches.now gates.now) (length latches.now) (length gates.now) depth group (length out.old) }
    ensures borrowed { out.new ≡ group_leaves (net_lent net latches.now gates.now) (length latches.now) (length gates.now) depth group out.old }
{
    let mut latch_codes = [0; 1200];
    call_lists::unpack::unpack_latches(&mut latch_codes, latches);
    let mut gate_codes = [0; 1200];
    call_lists::unpack::unpack_gates(&mut gate_codes, gates);
    call_unpacked::write_group(
        net,
        &latch_codes,
        latches.len(),
        &gate_codes,
        gates.len(),
        depth,
        group,
        out,
    )
}

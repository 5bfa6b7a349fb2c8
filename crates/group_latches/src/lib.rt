// The clauses of the latches of a frame (RULES G3 and G4): in frame 0 from their resets, later from the frame
// before. The list is unpacked as the netlist's is.
#![tactic(auto)]

ghost use Rattle.std.specs.Prelude.{◌+◌, ◌*◌, ◌/◌, ◌≤◌, cond, [], ◌∷◌, eqb, length};
ghost use Rattle.model.specs.Gather.{gather};
ghost use Rattle.model.specs.Clauses.{neg, same_clauses};
ghost use Rattle.model.specs.Variables.{wire_at, code_at};
ghost use Rattle.model.specs.Groups.{reset_clauses, latch_clauses};
ghost use Rattle.model.specs.Numbers.{written};
ghost use Rattle.literals.specs.Lit.{HasNumber};
ghost use Rattle.netlist.specs.NetOf.{net_of};
ghost use Rattle.clause_variables.specs.FrameFits.{FrameFits};
ghost use Rattle.model.specs.Wrote.{Wrote};

use literals::{Code, Wire};
use netlist::{Netlist, UnpackedList};

// A latch's own literal in frame 0, inverted if its reset is 0.
fn put_reset(out: &mut [i32], b: u32, q: Wire, reset: u32) -> usize
    requires { HasNumber b q.0 × (1 ≤ q.0) × (2 ≤ length out.old) }
    ensures { Wrote (written ((cond (eqb reset 1) (wire_at b q.0) (neg (wire_at b q.0)) ∷ []) ∷ []))
        out.old out.new result × (result ≤ 2) }
{
    let own = q.in_frame(b);
    if reset == 1 {
        return clause_writer::put_unit(out, own);
    }
    clause_writer::put_unit(out, own.negated())
}

// Each latch in frame 0.
#[tactic(auto, unfolding(netlist::specs::NetOf::net_of))]
pub fn put_resets(out: &mut [i32], net: Netlist, latches: &UnpackedList) -> usize
    requires { FrameFits (net_of net latches.now []) 0 × (net.latches * 2 ≤ length out.old) }
    ensures { Wrote (written (gather net.latches (reset_clauses (net_of net latches.now []))))
        out.old out.new result × (result ≤ net.latches * 2) }
{
    let b = clause_variables::frame_base(net, 0);
    let first = netlist::first_latch_wire(net);
    let mut at = 0;
    for l in 0..net.latches {
        let reset = latches[(2 * l + 1) as usize];
        at += put_reset(&mut out[at..], b, first.offset(l), reset);
    }
    at
}

// A latch `q` in a frame that starts after b is what its next code `d` was in the frame that starts after `before`.
fn put_latch(out: &mut [i32], b: u32, q: Wire, before: u32, d: Code) -> usize
    requires { HasNumber b q.0 × (1 ≤ q.0) × HasNumber before (d.0 / 2) × (6 ≤ length out.old) }
    ensures { Wrote (written (same_clauses (wire_at b q.0) (code_at before d.0)))
        out.old out.new result × (result ≤ 6) }
{
    clause_tseitin::put_same(out, q.in_frame(b), d.in_frame(before))
}

// Each latch in the frame after frame i.
#[tactic(auto, unfolding(netlist::specs::NetOf::net_of))]
pub fn put_latches(out: &mut [i32], net: Netlist, latches: &UnpackedList, i: u32) -> usize
    requires { FrameFits (net_of net latches.now []) (i + 1) × (net.latches * 6 ≤ length out.old) }
    ensures { Wrote (written (gather net.latches (latch_clauses (net_of net latches.now []) i)))
        out.old out.new result × (result ≤ net.latches * 6) }
{
    let before = clause_variables::frame_base(net, i);
    let b = clause_variables::frame_base(net, i + 1);
    let first = netlist::first_latch_wire(net);
    let mut at = 0;
    for l in 0..net.latches {
        let d = Code(latches[(2 * l) as usize]);
        at += put_latch(&mut out[at..], b, first.offset(l), before, d);
    }
    at
}

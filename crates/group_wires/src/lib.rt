// The clauses of the wires of a frame (RULES G3 to G5): its latches, then its gates. The lists are unpacked as
// the netlist's are.
#![tactic(auto)]

ghost use Rattle.std.specs.Prelude.{◌+◌, ◌*◌, ◌/◌, ◌≤◌, cond, [], eqb, length};
ghost use Rattle.model.specs.Gather.{gather};
ghost use Rattle.model.specs.Clauses.{and_clauses};
ghost use Rattle.model.specs.Variables.{wire_at, code_at};
ghost use Rattle.model.specs.Groups.{gate_clauses};
ghost use Rattle.model.specs.Numbers.{written, numbers_of};
ghost use Rattle.model.specs.declared.Group.TheVariants.{Wires};
ghost use Rattle.literals.specs.Lit.{HasNumber};
ghost use Rattle.netlist.specs.NetOf.{net_of};
ghost use Rattle.clause_variables.specs.FrameFits.{FrameFits};
ghost use Rattle.model.specs.Wrote.{Wrote};

use literals::{Code, Term, Wire};
use netlist::{Netlist, UnpackedList};

// A gate in a frame that starts after b.
fn put_gate(out: &mut [i32], b: u32, g: Wire, left: Code, right: Code) -> usize
    requires { HasNumber b g.0 × (1 ≤ g.0) × HasNumber b (left.0 / 2) × HasNumber b (right.0 / 2)
        × (10 ≤ length out.old) }
    ensures { Wrote (written (and_clauses (wire_at b g.0) (code_at b left.0) (code_at b right.0)))
        out.old out.new result × (result ≤ 10) }
{
    clause_tseitin::put_and(out, g.in_frame(b), left.in_frame(b), right.in_frame(b))
}

// Each gate in frame i, in wire order.
#[tactic(auto, unfolding(netlist::specs::NetOf::net_of))]
fn put_gates(out: &mut [i32], net: Netlist, gates: &UnpackedList, i: u32) -> usize
    requires { FrameFits (net_of net [] gates.now) i × (net.gates * 10 ≤ length out.old) }
    ensures { Wrote (written (gather net.gates (gate_clauses (net_of net [] gates.now) i)))
        out.old out.new result × (result ≤ net.gates * 10) }
{
    let b = clause_variables::frame_base(net, i);
    let first = netlist::first_gate_wire(net);
    let mut at = 0;
    for g in 0..net.gates {
        let left = Code(gates[(2 * g) as usize]);
        let right = Code(gates[(2 * g + 1) as usize]);
        at += put_gate(&mut out[at..], b, first.offset(g), left, right);
    }
    at
}

// The wires of frame 0: the clause (1), the latches, the gates.
fn put_first_wires(
    out: &mut [i32],
    net: Netlist,
    latches: &UnpackedList,
    gates: &UnpackedList,
) -> usize
    requires { FrameFits (net_of net latches.now gates.now) 0 × (net.latches * 2 + 2 + net.gates * 10 ≤ length out.old) }
    ensures { Wrote (numbers_of (net_of net latches.now gates.now) 0 (Wires 0))
        out.old out.new result × (result ≤ net.latches * 2 + 2 + net.gates * 10) }
{
    let a = clause_writer::put_unit(out, Term::first());
    let b = a + group_latches::put_resets(&mut out[a..], net, latches);
    b + put_gates(&mut out[b..], net, gates, 0)
}

// The wires of the frame after frame i: the latches, the gates.
fn put_later_wires(
    out: &mut [i32],
    net: Netlist,
    latches: &UnpackedList,
    gates: &UnpackedList,
    i: u32,
) -> usize
    requires { FrameFits (net_of net latches.now gates.now) (i + 1) × (net.latches * 6 + net.gates * 10 ≤ length out.old) }
    ensures { Wrote (numbers_of (net_of net latches.now gates.now) (i + 1) (Wires (i + 1)))
        out.old out.new result × (result ≤ net.latches * 6 + net.gates * 10) }
{
    let a = group_latches::put_latches(out, net, latches, i);
    a + put_gates(&mut out[a..], net, gates, i + 1)
}

// All clauses of the wires of frame i.
pub fn put_wires(
    out: &mut [i32],
    net: Netlist,
    latches: &UnpackedList,
    gates: &UnpackedList,
    i: u32,
) -> usize
    requires { FrameFits (net_of net latches.now gates.now) i
        × (cond (eqb i 0) (net.latches * 2 + 2) (net.latches * 6) + net.gates * 10 ≤ length out.old) }
    ensures { Wrote (numbers_of (net_of net latches.now gates.now) i (Wires i))
        out.old out.new result × (result ≤ cond (eqb i 0) (net.latches * 2 + 2) (net.latches * 6) + net.gates * 10) }
{
    if i == 0 {
        return put_first_wires(out, net, latches, gates);
    }
    put_later_wires(out, net, latches, gates, i - 1)
}

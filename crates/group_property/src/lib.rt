// The clause of the property (RULES G14): P is false in some frame from 0 to k.
#![tactic(auto)]

ghost use Rattle.std.specs.Prelude.{◌≡◌, ◌+◌, ◌≤◌, length};
ghost use Rattle.model.specs.Gather.{gather};
ghost use Rattle.model.specs.Acceptance.{WithinLimits};
ghost use Rattle.model.specs.Clauses.{neg};
ghost use Rattle.model.specs.Variables.{code_in};
ghost use Rattle.model.specs.Groups.{violation_of};
ghost use Rattle.model.specs.Numbers.{is_true, kept, numbers_of};
ghost use Rattle.model.specs.declared.Group.TheVariants.{Property};
ghost use Rattle.netlist.specs.NetOf.{alone};
ghost use Rattle.clause_variables.specs.FrameFits.{FrameFits};
ghost use Rattle.model.specs.Wrote.{Wrote};

use netlist::Netlist;

// ¬P of each frame from 0 to k.
#[tactic(auto, unfolding(netlist::specs::NetOf::net_of))]
fn put_violations(out: &mut [i32], net: Netlist, k: u32) -> usize
    requires { FrameFits (alone net) k × (k + 1 ≤ length out.old) }
    ensures { Wrote (kept (gather (k + 1) (violation_of (alone net))))
        out.old out.new result × (result ≤ k + 1) }
{
    let numbering = clause_variables::numbering(net);
    let p = net.p;
    let mut at = 0;
    for i in 0..k + 1 {
        let property = p.in_frame(numbering.base(i));
        at += clause_writer::put_literal(&mut out[at..], property.negated());
    }
    at
}

// Whether P is the constant false, and so ¬P true in every frame.
fn is_always_violated(net: Netlist) -> bool
    requires { WithinLimits (alone net) }
    ensures { result ≡ is_true (neg (code_in (alone net) 0 net.p.0)) }
{
    let property = net.p.in_frame(clause_variables::frame_base(net, 0));
    property.negated().is_true()
}

// The clause, with its end mark.
pub fn put_property(out: &mut [i32], net: Netlist, k: u32) -> usize
    requires { FrameFits (alone net) k × (k + 2 ≤ length out.old) }
    ensures { Wrote (numbers_of (alone net) k Property) out.old out.new result × (result ≤ k + 2) }
{
    if is_always_violated(net) {
        return 0;
    }
    let a = put_violations(out, net, k);
    a + clause_writer::put_end(&mut out[a..], a)
}

// The address comparison of a pair (j, i) at a port (RULES G6, G7 and G38): the clauses of each bit, and the clause that
// makes E true where all bits are equal. The address of the writing frame is the first port's at either port.
#![tactic(auto)]

ghost use Rattle.std.specs.Prelude.{◌+◌, ◌*◌, ◌/◌, ◌≤◌, [], ◌∷◌, length};
ghost use Rattle.model.specs.Gather.{gather};
ghost use Rattle.model.specs.Clauses.{plus, bit_clauses, address_bit_clauses, unequal_of, all_bits};
ghost use Rattle.model.specs.Variables.{code_at};
ghost use Rattle.model.specs.Numbers.{kept, written};
ghost use Rattle.literals.specs.Lit.{HasNumber};
ghost use Rattle.clause_variables.specs.OfPair.{of_pair, PairFits};
ghost use Rattle.model.specs.Wrote.{Wrote};

use clause_variables::Port;
use literals::{Code, Term};
use netlist::Netlist;

// The four clauses of address bit t, code `x` in the writing frame and code `y` in the reading one, at a pair that starts after q.
fn put_address_bit(
    out: &mut [i32],
    q: u32,
    t: u32,
    writing: u32,
    x: Code,
    reading: u32,
    y: Code,
) -> usize
    requires { HasNumber q (2 + t) × HasNumber writing (x.0 / 2) × HasNumber reading (y.0 / 2) × (16 ≤ length out.old) }
    ensures { Wrote (written (bit_clauses (plus (q + 1)) (plus (q + 2 + t)) (code_at writing x.0) (code_at reading y.0)))
        out.old out.new result × (result ≤ 16) }
{
    let address_equal = Term::in_pair(q, 1);
    let bit_equal = Term::in_pair(q, 2 + t);
    clause_tseitin::put_bit(
        out,
        address_equal,
        bit_equal,
        x.in_frame(writing),
        y.in_frame(reading),
    )
}

// The clauses of each address bit, in bit order.
#[tactic(auto, unfolding(netlist::specs::NetOf::net_of, clause_variables::specs::PortOf::port_of))]
pub fn put_address_bits(out: &mut [i32], net: Netlist, port: Port, j: u32, i: u32) -> usize
    requires { PairFits net port j i × (net.m * 16 ≤ length out.old) }
    ensures { Wrote (written (gather net.m (address_bit_clauses (of_pair net port j i))))
        out.old out.new result × (result ≤ net.m * 16) }
{
    let q = clause_variables::pair_base(net, port, j, i);
    let writing = clause_variables::frame_base(net, j);
    let reading = clause_variables::frame_base(net, i);
    let mut at = 0;
    for t in 0..net.m {
        let x = net.address[t as usize];
        let y = port.address[t as usize];
        at += put_address_bit(&mut out[at..], q, t, writing, x, reading, y);
    }
    at
}

// ¬e of each address bit, in bit order.
#[tactic(auto, unfolding(netlist::specs::NetOf::net_of, clause_variables::specs::PortOf::port_of))]
fn put_unequal_bits(out: &mut [i32], net: Netlist, port: Port, j: u32, i: u32) -> usize
    requires { PairFits net port j i × (net.m ≤ length out.old) }
    ensures { Wrote (kept (gather net.m (unequal_of (of_pair net port j i))))
        out.old out.new result × (result ≤ net.m) }
{
    let q = clause_variables::pair_base(net, port, j, i);
    let mut at = 0;
    for t in 0..net.m {
        let bit_equal = Term::in_pair(q, 2 + t);
        at += clause_writer::put_literal(&mut out[at..], bit_equal.negated());
    }
    at
}

// The clause (¬e of all address bits, E).
pub fn put_all_bits(out: &mut [i32], net: Netlist, port: Port, j: u32, i: u32) -> usize
    requires { PairFits net port j i × (net.m + 2 ≤ length out.old) }
    ensures { Wrote (written (all_bits net.m (of_pair net port j i) ∷ []))
        out.old out.new result × (result ≤ net.m + 2) }
{
    let address_equal = Term::in_pair(clause_variables::pair_base(net, port, j, i), 1);
    let a = put_unequal_bits(out, net, port, j, i);
    let b = a + clause_writer::put_literal(&mut out[a..], address_equal);
    b + clause_writer::put_end(&mut out[b..], b)
}

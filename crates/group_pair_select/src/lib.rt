// The three gates of a pair (j, i) at a port (RULES G8 and G9): which earlier write a read takes.
#![tactic(auto)]

ghost use Rattle.std.specs.Prelude.{◌++◌, ◌≤◌, length};
ghost use Rattle.model.specs.Clauses.{neg, and_clauses};
ghost use Rattle.model.specs.Numbers.{written};
ghost use Rattle.literals.specs.Lit.{literal_of, IsTerm};
ghost use Rattle.clause_variables.specs.OfPair.{of_pair, PairFits};
ghost use Rattle.model.specs.Wrote.{Wrote};
ghost use Rattle.group_pair_select.specs.SelectClauses.{select_clauses, pair_select_clauses};

use clause_variables::Port;
use literals::Term;
use netlist::Netlist;

// The gates PS = ¬s ∧ N, S = s ∧ N, from their literals: `valid` is s, `none_since` PS, `selected` S, `none_after` N.
fn put_chain(
    out: &mut [i32],
    valid: Term,
    none_since: Term,
    selected: Term,
    none_after: Term,
) -> usize
    requires { IsTerm valid × IsTerm none_since × IsTerm selected × IsTerm none_after × (20 ≤ length out.old) }
    ensures { Wrote (written (and_clauses (literal_of none_since) (neg (literal_of valid)) (literal_of none_after)
        ++ and_clauses (literal_of selected) (literal_of valid) (literal_of none_after)))
        out.old out.new result × (result ≤ 20) }
{
    let a = clause_tseitin::put_and(out, none_since, valid.negated(), none_after);
    a + clause_tseitin::put_and(&mut out[a..], selected, valid, none_after)
}

// The gate s = E ∧ WE, and those two.
fn put_select_gates(
    out: &mut [i32],
    valid: Term,
    address_equal: Term,
    write_enable: Term,
    none_since: Term,
    selected: Term,
    none_after: Term,
) -> usize
    requires { IsTerm valid × IsTerm address_equal × IsTerm write_enable × IsTerm none_since × IsTerm selected × IsTerm none_after
        × (30 ≤ length out.old) }
    ensures { Wrote (written (select_clauses (literal_of valid) (literal_of address_equal) (literal_of write_enable)
        (literal_of none_since) (literal_of selected) (literal_of none_after))) out.old out.new result × (result ≤ 30) }
{
    let a = clause_tseitin::put_and(out, valid, address_equal, write_enable);
    a + put_chain(&mut out[a..], valid, none_since, selected, none_after)
}

// The gates of the pair: valid read, none since, exclusive valid read. WE is of the writing frame, N of the pair after it.
pub fn put_select(out: &mut [i32], net: Netlist, port: Port, j: u32, i: u32) -> usize
    requires { PairFits net port j i × (30 ≤ length out.old) }
    ensures { Wrote (written (pair_select_clauses (of_pair net port j i))) out.old out.new result × (result ≤ 30) }
{
    let q = clause_variables::pair_base(net, port, j, i);
    let address_equal = Term::in_pair(q, 1);
    let valid = Term::in_pair(q, net.m + 2);
    let write_enable = net.we.in_frame(clause_variables::frame_base(net, j));
    let none_since = clause_variables::none_since(net, port, j, i);
    let selected = clause_variables::selected(net, port, j, i);
    let none_after = clause_variables::none_since(net, port, j + 1, i);
    put_select_gates(
        out,
        valid,
        address_equal,
        write_enable,
        none_since,
        selected,
        none_after,
    )
}

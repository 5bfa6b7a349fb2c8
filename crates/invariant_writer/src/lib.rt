// The clauses of the laws that requests ask for, written into a slice: five numbers each.
#![tactic(auto)]

ghost use Rattle.std.specs.Prelude.{◌≡◌, [], ◌∷◌, ◌*◌, ◌/◌, ◌≤◌, ◌<◌, pos, length};
ghost use Rattle.model.specs.Acceptance.{SizesFit};
ghost use Rattle.model.specs.Gather.{gather};
ghost use Rattle.model.specs.Wrote.{Wrote};
ghost use Rattle.netlist.specs.NetOf.{net_of, alone};
ghost use Rattle.invariant_terms.specs.Terms.{opposite, number_of};
ghost use Rattle.invariant_laws.specs.LawForms.{law_fits, clause_of};
ghost use Rattle.invariant_formula.specs.Formula.{requested_clause};

use invariant_laws::Law;
use netlist::{Netlist, UnpackedList};

// A clause of four terms.
fn put_terms(out: &mut [i32], a: u64, b: u64, c: u64, d: u64) -> usize
    requires { (5 ≤ length out.old) × (a < 4294967294) × (b < 4294967294) × (c < 4294967294) × (d < 4294967294) }
    ensures { Wrote (number_of a ∷ number_of b ∷ number_of c ∷ number_of d ∷ pos 0 ∷ []) out.old out.new result × (result ≤ 5) }
{
    out[0] = invariant_terms::number_of(a);
    out[1] = invariant_terms::number_of(b);
    out[2] = invariant_terms::number_of(c);
    out[3] = invariant_terms::number_of(d);
    out[4] = 0;
    5
}

// Whether the terms of a law have clause numbers.
fn fits(law: Law) -> bool
    ensures { result ≡ law_fits law }
{
    (law.guard < 4294967294)
        & (law.second < 4294967294)
        & (law.left < 4294967292)
        & (law.right < 4294967292)
}

// One direction of a law, as a clause.
fn put_clause(out: &mut [i32], direction: u32, law: Law) -> usize
    requires { 5 ≤ length out.old }
    ensures { Wrote (clause_of direction law) out.old out.new result × (result ≤ 5) }
{
    if fits(law) {
        if direction == 0 {
            return put_terms(
                out,
                law.guard,
                law.second,
                invariant_terms::opposite(law.left),
                law.right,
            );
        }
        return put_terms(
            out,
            law.guard,
            law.second,
            law.left,
            invariant_terms::opposite(law.right),
        );
    }
    put_terms(out, 0, 0, 1, 1)
}

// The clauses of all requests.
pub fn put_requests(
    out: &mut [i32],
    net: Netlist,
    latches: &UnpackedList,
    gates: &UnpackedList,
    invariant: &[i32],
    requests: &[u32],
) -> usize
    requires { SizesFit (alone net) × (length requests.now / 3 * 5 ≤ length out.old) }
    ensures { Wrote (gather (length requests.now / 3) (requested_clause (net_of net latches.now gates.now) invariant.now requests.now))
        out.old out.new result × (result ≤ length requests.now / 3 * 5) }
{
    let b = invariant_terms::state_count(net);
    let mut at = 0;
    for x in 0..requests.len() / 3 {
        let request = requests[3 * x];
        let law = invariant_requests::requested(
            net,
            latches,
            gates,
            b,
            invariant,
            request,
            requests[3 * x + 1],
            requests[3 * x + 2],
        );
        at += put_clause(&mut out[at..], request % 2, law);
    }
    at
}

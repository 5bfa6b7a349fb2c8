// That the property holds for ever, as an answer that is proved (RULES H1 to H6): an inductive invariant is tested at the start, the clauses of one
// step under it go into a lent store, the lemmas of a refutation behind them, and these are checked by their hints. Nothing that is lent is believed.
#![tactic(auto)]

ghost use Rattle.std.specs.Prelude.{◌≡◌, ◌++◌, ◌+◌, ◌*◌, ◌/◌, ◌≤◌, length};
ghost use Rattle.model.specs.Acceptance.{SizesFit};
ghost use Rattle.model.specs.Wrote.{over};
ghost use Rattle.refusals.specs.Slices.{test_room, contents_after};
ghost use Rattle.netlist.specs.NetOf.{net_of, alone};
ghost use Rattle.refutation_depth.specs.Certificate.{certificate_reply, scratch_after, KeptBehind};
ghost use Rattle.invariant_formula.specs.Formula.{step_formula};
ghost use Rattle.invariant_check.specs.CertifiedForever.{CertifiedForever};
ghost use Rattle.invariant_check.specs.ForeverCall.{store_need, step_found, forever_sent, forever_store, step_scratch, forever_scratch};

use netlist::{Netlist, UnpackedList};
use refusals::{Refusal, Refused};
use refutation_depth::CertificateReply;
use refutation_lemmas::Checked;

// Puts the clauses of the step at the start of the store and the lemmas behind them, and answers where these begin.
fn lay(
    store: &mut [i32],
    net: Netlist,
    latches: &UnpackedList,
    gates: &UnpackedList,
    invariant: &[i32],
    requests: &[u32],
    lemmas: &[i32],
) -> usize
    requires { SizesFit (alone net) × (store_need (length invariant.now) (length requests.now) (length lemmas.now) ≤ length store.old) }
    ensures front { result ≡ length (step_formula (net_of net latches.now gates.now) invariant.now requests.now) }
    ensures store { store.new ≡ over (step_formula (net_of net latches.now gates.now) invariant.now requests.now ++ lemmas.now) store.old }
{
    let at = invariant_writer::put_requests(store, net, latches, gates, invariant, requests);
    let front = at + call_unpacked::copy_numbers(&mut store[at..], invariant);
    call_unpacked::copy_numbers(&mut store[front..], lemmas);
    front
}

// Checks a refutation of the step, with room for it. Where the invariant passes the test of the start, the marks are scratch.
fn check_step(
    net: Netlist,
    latches: &UnpackedList,
    gates: &UnpackedList,
    invariant: &[i32],
    requests: &[u32],
    lemmas: &[i32],
    hints: &[u32],
    store: &mut [i32],
    marks: &mut [u32],
) -> Checked
    requires { SizesFit (alone net) × (store_need (length invariant.now) (length requests.now) (length lemmas.now) ≤ length store.old) }
    ensures found { result ≡ step_found (net_of net latches.now gates.now) invariant.now requests.now lemmas.now hints.now (length marks.old) }
    ensures store { store.new ≡ over (step_formula (net_of net latches.now gates.now) invariant.now requests.now ++ lemmas.now) store.old }
    ensures marks { KeptBehind (step_scratch (net_of net latches.now gates.now) invariant.now (length marks.old)) marks.old marks.new }
{
    let front = lay(store, net, latches, gates, invariant, requests, lemmas);
    if invariant_start::holds_at_start(net, latches, invariant) {
        let end = front + lemmas.len();
        return refutation_lemmas::check(&store[..end], front, hints, marks);
    }
    Checked::Unjustified(0)
}

// Tests the room, and checks a refutation of the step. At a refusal store and marks are as they were.
fn certify_net(
    net: Netlist,
    latches: &UnpackedList,
    gates: &UnpackedList,
    invariant: &[i32],
    requests: &[u32],
    lemmas: &[i32],
    hints: &[u32],
    store: &mut [i32],
    marks: &mut [u32],
) -> CertificateReply
    requires { SizesFit (alone net) }
    ensures answer { result ≡ certificate_reply (test_room (store_need (length invariant.now) (length requests.now) (length lemmas.now)) (length store.old))
        (step_found (net_of net latches.now gates.now) invariant.now requests.now lemmas.now hints.now (length marks.old)) }
    ensures store { store.new ≡ contents_after (test_room (store_need (length invariant.now) (length requests.now) (length lemmas.now)) (length store.old))
        (step_formula (net_of net latches.now gates.now) invariant.now requests.now ++ lemmas.now) store.old }
    ensures marks { KeptBehind (scratch_after (test_room (store_need (length invariant.now) (length requests.now) (length lemmas.now)) (length store.old))
        (step_scratch (net_of net latches.now gates.now) invariant.now (length marks.old))) marks.old marks.new }
{
    let need = requests.len() / 3 * 5 + invariant.len() + lemmas.len();
    if store.len() < need {
        return refutation_depth::refused(refusals::number(Refusal::NoRoom), 0);
    }
    refutation_depth::reply_of(check_step(
        net, latches, gates, invariant, requests, lemmas, hints, store, marks,
    ))
}

// Checks a certificate that the property of a sheet holds for ever: an inductive invariant, the laws of a step that are asked for, and a refutation.
pub fn certify_forever(
    file: &[u8],
    invariant: &[i32],
    requests: &[u32],
    lemmas: &[i32],
    hints: &[u32],
    store: &mut [i32],
    marks: &mut [u32],
) -> CertificateReply
    ensures answer { result ≡ forever_sent file.now invariant.now requests.now lemmas.now hints.now (length store.old) (length marks.old) }
    ensures certified { result.certified ≡ 1 → CertifiedForever file.now }
    ensures store { store.new ≡ forever_store file.now invariant.now requests.now lemmas.now store.old }
    ensures marks { KeptBehind (forever_scratch file.now invariant.now (length requests.now) (length lemmas.now) (length store.old) (length marks.old)) marks.old marks.new }
{
    let mut latches = sheet_tests::no_codes();
    let mut gates = sheet_tests::no_codes();
    let sheet = sheet_tests::read_codes(file, 600, 600, &mut latches, &mut gates);
    let verdict = sheet.verdict;
    if let Err(Refused(refusal, place)) = verdict {
        return refutation_depth::refused(refusals::number(refusal), place);
    }
    certify_net(
        sheet.net, &latches, &gates, invariant, requests, lemmas, hints, store, marks,
    )
}

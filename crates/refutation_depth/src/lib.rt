// No run to depth k, as an answer that is proved (RULES U1 to U8): the formula of an input's depth goes into a lent store, the lemmas of a refutation
// behind it, and these are checked by their hints. Nothing that is lent is believed.
#![tactic(auto)]

ghost use Rattle.std.specs.Prelude.{◌≡◌, ◌++◌, ◌+◌, ◌≤◌, length};
ghost use Rattle.model.specs.Acceptance.{SizesFit, Accepted};
ghost use Rattle.model.specs.Numbers.{formula};
ghost use Rattle.model.specs.Wrote.{over};
ghost use Rattle.refusals.specs.Verdict.{Passed};
ghost use Rattle.refusals.specs.Slices.{contents_after};
ghost use Rattle.netlist.specs.NetOf.{net_of, alone};
ghost use Rattle.refutation_depth.specs.Certified.{CertifiedInput};
ghost use Rattle.refutation_depth.specs.Certificate.{marks_need, room_verdict, found_of, refused_with, certificate_reply, certificate_sent, store_after, scratch_after, marks_scratch, KeptBehind};

use netlist::{Netlist, UnpackedList};
use refusals::{Refusal, Refused, Verdict};
use refutation_lemmas::Checked;

// What a check of a certificate answers: number and place (0 where it is not refused); 1 where the depth is certified; where it is not, the first lemma
// that does not follow by its hints, counted from 0.
#[repr(C)]
#[derive(Clone, Copy)]
pub struct CertificateReply {
    pub number: u32,
    pub place: u32,
    pub certified: u32,
    pub lemma: usize,
}

// The need of marks: two for each variable, and two for the end mark.
fn marks_need(net: Netlist, depth: u32) -> usize
    requires { SizesFit (alone net) × (depth ≤ 255) }
    ensures { result ≡ marks_need (alone net) depth }
{
    (clause_variables::frame_base(net, depth + 1) as usize) * 2 + 2
}

// Whether there is room, of which nothing is written yet.
fn test_room(
    net: Netlist,
    latches: &UnpackedList,
    gates: &UnpackedList,
    depth: u32,
    lemmas: usize,
    store: usize,
    marks: usize,
) -> Verdict
    requires { Accepted (net_of net latches.now gates.now) × (depth ≤ 255) }
    ensures { result ≡ room_verdict (net_of net latches.now gates.now) depth lemmas store marks }
{
    let front = refutation_formula::formula_length(net, latches, gates, depth);
    if store < front {
        return Err(Refused(Refusal::NoRoom, 0));
    }
    if store - front < lemmas {
        return Err(Refused(Refusal::NoRoom, 0));
    }
    if marks < marks_need(net, depth) {
        return Err(Refused(Refusal::NoRoom, 0));
    }
    Ok(())
}

// Puts the formula at the start of the store and the lemmas behind it, and answers where these begin.
fn lay(
    store: &mut [i32],
    lemmas: &[i32],
    net: Netlist,
    latches: &UnpackedList,
    gates: &UnpackedList,
    depth: u32,
) -> usize
    requires { Accepted (net_of net latches.now gates.now) × (depth ≤ 255)
        × (length (formula (net_of net latches.now gates.now) depth) + length lemmas.now ≤ length store.old) }
    ensures front { result ≡ length (formula (net_of net latches.now gates.now) depth) }
    ensures store { store.new ≡ over (formula (net_of net latches.now gates.now) depth ++ lemmas.now) store.old }
{
    let front = refutation_formula::put_formula(store, net, latches, gates, depth);
    call_unpacked::copy_numbers(&mut store[front..], lemmas);
    front
}

// Checks a refutation of the formula, with room for it. The marks that are needed are scratch.
fn check_depth(
    net: Netlist,
    latches: &UnpackedList,
    gates: &UnpackedList,
    depth: u32,
    lemmas: &[i32],
    hints: &[u32],
    store: &mut [i32],
    marks: &mut [u32],
) -> Checked
    requires { Accepted (net_of net latches.now gates.now) × (depth ≤ 255)
        × (length (formula (net_of net latches.now gates.now) depth) + length lemmas.now ≤ length store.old)
        × (marks_need (net_of net latches.now gates.now) depth ≤ length marks.old) }
    ensures found { result ≡ found_of (net_of net latches.now gates.now) depth lemmas.now hints.now }
    ensures store { store.new ≡ over (formula (net_of net latches.now gates.now) depth ++ lemmas.now) store.old }
    ensures marks { KeptBehind (marks_need (net_of net latches.now gates.now) depth) marks.old marks.new }
{
    let front = lay(store, lemmas, net, latches, gates, depth);
    let end = front + lemmas.len();
    let need = marks_need(net, depth);
    refutation_lemmas::check(&store[..end], front, hints, &mut marks[..need])
}

// What is sent back of a refusal.
pub fn refused(number: u32, place: u32) -> CertificateReply
    ensures { result ≡ refused_with number place }
{
    CertificateReply {
        number,
        place,
        certified: 0,
        lemma: 0,
    }
}

// What is sent back of a check.
pub fn reply_of(found: Checked) -> CertificateReply
    ensures { result ≡ certificate_reply Passed found }
{
    match found {
        Checked::Refuted => CertificateReply {
            number: 0,
            place: 0,
            certified: 1,
            lemma: 0,
        },
        Checked::Unjustified(lemma) => CertificateReply {
            number: 0,
            place: 0,
            certified: 0,
            lemma,
        },
    }
}

// Tests the room, and checks a refutation of the formula. At a refusal store and marks are as they were; else the marks that are needed are scratch.
fn certify_net(
    net: Netlist,
    latches: &UnpackedList,
    gates: &UnpackedList,
    depth: u32,
    lemmas: &[i32],
    hints: &[u32],
    store: &mut [i32],
    marks: &mut [u32],
) -> CertificateReply
    requires { Accepted (net_of net latches.now gates.now) × (depth ≤ 255) }
    ensures answer { result ≡ certificate_reply (room_verdict (net_of net latches.now gates.now) depth (length lemmas.now) (length store.old) (length marks.old))
        (found_of (net_of net latches.now gates.now) depth lemmas.now hints.now) }
    ensures store { store.new ≡ contents_after (room_verdict (net_of net latches.now gates.now) depth (length lemmas.now) (length store.old) (length marks.old))
        (formula (net_of net latches.now gates.now) depth ++ lemmas.now) store.old }
    ensures marks { KeptBehind (scratch_after (room_verdict (net_of net latches.now gates.now) depth (length lemmas.now) (length store.old) (length marks.old))
        (marks_need (net_of net latches.now gates.now) depth)) marks.old marks.new }
{
    if let Err(Refused(refusal, place)) = test_room(
        net,
        latches,
        gates,
        depth,
        lemmas.len(),
        store.len(),
        marks.len(),
    ) {
        return refused(refusals::number(refusal), place);
    }
    reply_of(check_depth(net, latches, gates, depth, lemmas, hints, store, marks))
}

// Checks a certificate: a refutation of the formula of the depth and the sheet in an input, which is read as `frames` reads it.
pub fn certify(
    input: &[u8],
    lemmas: &[i32],
    hints: &[u32],
    store: &mut [i32],
    marks: &mut [u32],
) -> CertificateReply
    ensures answer { result ≡ certificate_sent input.now lemmas.now hints.now (length store.old) (length marks.old) }
    ensures certified { result.certified ≡ 1 → CertifiedInput input.now }
    ensures store { store.new ≡ store_after input.now lemmas.now store.old (length marks.old) }
    ensures marks { KeptBehind (marks_scratch input.now (length lemmas.now) (length store.old) (length marks.old)) marks.old marks.new }
{
    let mut latches = sheet_tests::no_codes();
    let mut gates = sheet_tests::no_codes();
    let taken = program_input::read_input(input, &mut latches, &mut gates);
    if taken.number != 0 {
        return refused(taken.number, taken.place);
    }
    certify_net(
        taken.net,
        &latches,
        &gates,
        taken.depth,
        lemmas,
        hints,
        store,
        marks,
    )
}

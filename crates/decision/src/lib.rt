// What a leaf gives an access: the order of steps 6 to 8, the answer, and the updates that are due.
// The regime, the access and the leaf come from three places at each call, so they are no struct.
#![tactic(auto)]

ghost use Rattle.std.specs.Prelude.{◌≡◌, ◌≤◌, ◌<◌, None, Some};
ghost use Rattle.vmsa.specs.Answers.{view};
ghost use Rattle.decision.specs.Decision.{flag_due, dirty_due, updated as updated_to, output_of, failing as failing_at, passing as passing_at, leaf_tests, first_failing as first_failing_of, decision, hit_kind, seen};

use vmsa::{Access, Answer, Fault, FaultKind, Leaf, PhysAddr, Regime, Success};

// How a held leaf answers an access: with a success, with a fault, or not at all, so that the access walks.
// Three cases of equal standing: an Option of a Result would hide the miss in a None.
#[derive(Clone, Copy)]
pub enum HitKind {
    Success,
    Fault(FaultKind),
    Miss,
}

// What a leaf gives an access: the answer, whether the leaf changes, and its value then.
// The value is no Option in place of update: it is the leaf's in both cases, and a TLB entry keeps it.
#[derive(Clone, Copy)]
pub struct Verdict {
    pub answer: Answer,
    pub update: bool,
    pub value: u64,
}

// Whether the access sets the Access flag of the leaf.
#[tactic(auto, unfolding(crate::specs::Decision::flag_due))]
pub fn flag_due(r: Regime, a: Access, l: Leaf) -> bool
    ensures { result ≡ flag_due r a l }
{
    if descriptor::bit(l.value, vmsa::AF) {
        return false;
    }
    let kind = a.kind;
    r.ha & !kind.is_probe()
}

// Whether the access makes the leaf dirty.
#[tactic(auto, unfolding(crate::specs::Decision::dirty_due))]
pub fn dirty_due(r: Regime, a: Access, l: Leaf) -> bool
    ensures { result ≡ dirty_due r a l }
{
    let kind = a.kind;
    if kind.writes() {
        return permission::clean(r, l);
    }
    false
}

// The value with the Access flag set where flag, and AP[2] cleared where dirty.
#[tactic(auto, unfolding(crate::specs::Decision::updated))]
pub fn updated(flag: bool, dirty: bool, v: u64) -> u64
    ensures { result ≡ updated_to flag dirty v }
{
    let flagged = descriptor::select(flag, descriptor::set_bit(v, vmsa::AF), v);
    descriptor::select(dirty, descriptor::clear_bit(flagged, vmsa::AP2), flagged)
}

#[tactic(auto, unfolding(crate::specs::Decision::output_of))]
fn output_of(r: Regime, a: Access, l: Leaf) -> u64
    requires { l.left ≤ 3 }
    ensures { result ≡ output_of r a l }
{
    let granule = r.granule;
    let p = granule.page_bits();
    geometry::output_in(p, l.left, l.value) + a.address.0 % geometry::span(p, l.left)
}

// The fault of an access that a step stops at a leaf.
#[tactic(auto, unfolding(crate::specs::Decision::failing))]
pub fn fault(l: Leaf, reads: u8, kind: FaultKind) -> Fault
    requires { l.left ≤ 3 }
    ensures { view (Answer.Fault result) ≡ (failing_at l reads kind).result }
{
    Fault {
        kind: kind,
        level: geometry::level(l.left),
        cacheable: descriptor::bit(l.value, vmsa::AF),
        reads: reads,
    }
}

#[tactic(auto, unfolding(crate::specs::Decision::failing))]
fn failing(l: Leaf, reads: u8, kind: FaultKind) -> Verdict
    requires { l.left ≤ 3 }
    ensures { seen result ≡ failing_at l reads kind }
{
    let fault = fault(l, reads, kind);
    Verdict {
        answer: Answer::Fault(fault),
        update: false,
        value: l.value,
    }
}

// The success of an access that steps 6 to 8 let pass; dirty: it makes the leaf dirty.
#[tactic(auto, unfolding(crate::specs::Decision::passing, crate::specs::Decision::cacheable))]
fn success(r: Regime, a: Access, l: Leaf, dirty: bool, reads: u8) -> Success
    requires { (l.left ≤ 3) × (dirty ≡ dirty_due r a l) }
    ensures { view (Answer.Success result) ≡ (passing_at r a l reads).result }
{
    let flag = flag_due(r, a, l);
    Success {
        output: PhysAddr(output_of(r, a, l)),
        attribute: permission::attribute_of(r, l),
        shareability: descriptor::field(l.value, 8, 2) as u8,
        nonglobal: descriptor::bit(l.value, vmsa::NG),
        level: geometry::level(l.left),
        accessed: flag,
        dirtied: dirty,
        cacheable: descriptor::bit(l.value, vmsa::AF) | flag,
        reads: reads,
    }
}

#[tactic(auto, unfolding(crate::specs::Decision::passing))]
fn passing(r: Regime, a: Access, l: Leaf, reads: u8) -> Verdict
    requires { l.left ≤ 3 }
    ensures { seen result ≡ passing_at r a l reads }
{
    let flag = flag_due(r, a, l);
    let dirty = dirty_due(r, a, l);
    let success = success(r, a, l, dirty, reads);
    Verdict {
        answer: Answer::Success(success),
        update: flag | dirty,
        value: updated(flag, dirty, l.value),
    }
}

// The fault of the first of steps 6 to 8 that fails.
// HELD has no say: by it each caller has a copy of its own, which is inlined. With one for both a hit took 1.5 times the plain version's time, where at most 1.3 is wanted (docs/PERFORMANCE.md).
fn first_failing<const HELD: bool>(r: Regime, a: Access, l: Leaf) -> Option<FaultKind>
    requires { 0 < a.size }
    ensures { result ≡ first_failing_of (leaf_tests r a l) Some None }
{
    if permission::flag_fails(r, l) {
        return Some(FaultKind::AccessFlag);
    }
    if permission::alignment_fails(r, a, l) {
        return Some(FaultKind::Alignment);
    }
    if permission::permission_fails(r, a, l) {
        return Some(FaultKind::Permission);
    }
    None
}

// Steps 6 to 8 of a leaf that was found with so many reads.
#[tactic(auto, unfolding(crate::specs::Decision::decision))]
pub fn judge(r: Regime, a: Access, l: Leaf, reads: u8) -> Verdict
    requires { (0 < a.size) × (l.left ≤ 3) }
    ensures { seen result ≡ decision r a l reads }
{
    if let Some(kind) = first_failing::<false>(r, a, l) {
        return failing(l, reads, kind);
    }
    passing(r, a, l, reads)
}

// How a held leaf answers an access; one that would make it dirty misses.
#[tactic(auto, unfolding(crate::specs::Decision::hit_kind))]
pub fn hit_kind(r: Regime, a: Access, l: Leaf) -> HitKind
    requires { 0 < a.size }
    ensures { result ≡ hit_kind r a l }
{
    if let Some(kind) = first_failing::<true>(r, a, l) {
        return HitKind::Fault(kind);
    }
    if dirty_due(r, a, l) {
        return HitKind::Miss;
    }
    HitKind::Success
}

// The success of an access that a held leaf answers with one, no descriptor being read: it does not make the leaf dirty.
#[tactic(auto, unfolding(crate::specs::Decision::hit_kind, crate::specs::Decision::decision))]
pub fn hit_success(r: Regime, a: Access, l: Leaf) -> Success
    requires { (l.left ≤ 3) × (hit_kind r a l ≡ HitKind.Success) }
    ensures { view (Answer.Success result) ≡ (decision r a l 0).result }
{
    success(r, a, l, false, 0)
}

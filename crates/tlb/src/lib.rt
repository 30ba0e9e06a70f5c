// A TLB entry: what it holds, what it answers an access, and what an access leaves of it.
#![tactic(auto)]

ghost use Rattle.std.specs.Prelude.{◌≡◌, ◌+◌, ◌≤◌, ◌<◌, length, Some};
ghost use Rattle.vmsa.specs.Answers.{view};
ghost use Rattle.vmsa.specs.Words.{regime_of};
ghost use Rattle.decision.specs.Decision.{failing};
ghost use Rattle.tlb.specs.Replies.{reply_of};
ghost use Rattle.tlb.specs.Walker.{entry_count, held_in, walked as walked_of, access_held};
ghost use Rattle.tlb.specs.Ours.{usable as usable_of, ours};
ghost use Rattle.tlb.specs.Entries.{no_entry, entry_view, page_for, entry_for, walked_view, kept_entry, filling, filled_by, accessed_entry, entry_answer, asked_reply, leaf_in, entry_kind};

use decision::HitKind;
use vmsa::{Access, Answer, Fault, FaultKind, Leaf, Refusal, Regime, RegimeWords, Success};

// How many entries a session has; specs/Walker.antt has the same number.
pub const ENTRIES: usize = 64;

// A TLB entry: the leaf that it holds of a page, with the sum of the tables above it, where held is not 0. The C interface: all numbers, so that any bytes are an entry; the spare ones have no say.
#[repr(C)]
#[derive(Clone, Copy)]
pub struct Entry {
    pub page: u64,
    pub value: u64,
    pub left: u8,
    pub held: u8,
    pub tables: u8,
    pub spare8: u8,
    pub spare32: u32,
}

// What an access leaves of its page's entry, and its answer in whatever form.
#[derive(Clone, Copy)]
pub struct Filled<A> {
    pub entry: Entry,
    pub answer: A,
}

impl Entry {
    // The empty entry.
    pub fn empty() -> Self
        ensures { result ≡ no_entry }
    {
        Entry {
            page: 0,
            value: 0,
            left: 0,
            held: 0,
            tables: 0,
            spare8: 0,
            spare32: 0,
        }
    }

    // The leaf in it.
    fn leaf(self) -> Leaf
        ensures { result ≡ leaf_in self }
    {
        Leaf {
            value: self.value,
            left: self.left,
            tables: self.tables,
        }
    }

    // The leaf that it holds of a page.
    pub fn held_of(self, page: u64) -> Option<Leaf>
        ensures { result ≡ held_in (entry_view self) page }
    {
        if self.page == page && self.held != 0 && self.left <= 3 {
            return Some(self.leaf());
        }
        None
    }

    // What it answers an access, where it does: the held leaf's answer with 0 reads, unless the page would become dirty.
    #[tactic(auto, using(crate::proofs::Deciding::reply_decision), unfolding(crate::specs::Ours::judged))]
    pub fn ask(self, r: Regime, a: Access) -> Option<Answer>
        requires { 0 < a.size }
        ensures { asked_reply result ≡ entry_answer ours r a (entry_view self) }
    {
        let page = page_of(r, a);
        let Some(leaf) = self.held_of(page) else {
            return None;
        };
        let verdict = decision::judge(r, a, leaf, 0);
        let answer = verdict.answer;
        if answer.dirtied() {
            return None;
        }
        Some(answer)
    }

    // How it answers an access: one of another page, or one that would make the page dirty, misses.
    pub fn hit_kind(self, r: Regime, a: Access) -> HitKind
        requires { 0 < a.size }
        ensures { result ≡ entry_kind r a (entry_view self) }
    {
        let page = page_of(r, a);
        let Some(leaf) = self.held_of(page) else {
            return HitKind::Miss;
        };
        decision::hit_kind(r, a, leaf)
    }

    // The fault of this kind at its leaf.
    pub fn fault(self, kind: FaultKind) -> Fault
        requires { self.left ≤ 3 }
        ensures { view (Answer.Fault result) ≡ (failing (leaf_in self) 0 kind).result }
    {
        decision::fault(self.leaf(), 0, kind)
    }

    // The success that it answers with, where it does.
    #[tactic(auto, using(crate::proofs::Entries::success_answers))]
    pub fn success(self, r: Regime, a: Access) -> Success
        requires { entry_kind r a (entry_view self) ≡ HitKind.Success }
        ensures { Some (reply_of (view (Answer.Success result))) ≡ entry_answer ours r a (entry_view self) }
    {
        decision::hit_success(r, a, self.leaf())
    }

    // The entry with a leaf that may be remembered of a page.
    fn keep(self, page: u64, kept: Option<Leaf>) -> Self
        ensures { result ≡ kept_entry self page kept }
    {
        let Some(leaf) = kept else {
            return self;
        };
        Entry {
            page: page,
            value: leaf.value,
            left: leaf.left,
            held: 1,
            tables: leaf.tables,
            spare8: 0,
            spare32: 0,
        }
    }
}

// Whether rows 3 and 4 let a regime through.
fn usable(r: Regime) -> bool
    ensures { result ≡ usable_of r }
{
    !(refusals::sizes_bad(r) | refusals::roots_bad(r))
}

// The walk of an access that no entry answers, in the pool's part of the memory. That the pool lies in it, and that the size
// is not 0, the caller has from the checks of the same call.
#[tactic(auto, using(crate::proofs::Walking::usable_sized, crate::proofs::Walking::usable_root, crate::proofs::Access::miss_outcome, crate::proofs::Access::unusable_outcome))]
pub fn miss(memory: &mut [u8], r: Regime, a: Access) -> walk::Walked
    requires { (r.pool.start + r.pool.length ≤ length memory.old) × (0 < a.size) }
    ensures { walked_view result memory.new ≡ walked_of ours r memory.old a }
{
    if usable(r) {
        let start = r.pool.start;
        let end = start + r.pool.length;
        return walk::walk_leaf(&mut memory[start..end], r, a);
    }
    walk::Walked {
        answer: Answer::Fault(Fault::of_lookup(FaultKind::Translation, 0, 0)),
        kept: None,
    }
}

// The page of an access: its address bits from the granule's page bits up.
fn page_of(r: Regime, a: Access) -> u64
    ensures { result ≡ page_for r a }
{
    let granule = r.granule;
    let p = granule.page_bits();
    geometry::page_of(p, a.address)
}

// The number of the entry of an access's page, in a session with this regime.
pub fn entry_of(regime: RegimeWords, a: Access) -> usize
    ensures { (result ≡ entry_for (regime_of regime) a) × (result < entry_count) }
{
    (page_of(Regime::from(regime), a) as usize) % ENTRIES
}

// An access that walks: its answer, and its page's entry with the walk's leaf kept.
pub fn walk_entry(entry: Entry, memory: &mut [u8], r: Regime, a: Access) -> Filled<Answer>
    requires { (r.pool.start + r.pool.length ≤ length memory.old) × (0 < a.size) }
    ensures { filling result.entry memory.new (reply_of (view result.answer)) ≡ filled_by entry r a (walked_of ours r memory.old a) }
{
    let missed = miss(memory, r, a);
    let kept = missed.kept;
    let answer = missed.answer;
    let page = page_of(r, a);
    Filled {
        entry: entry.keep(page, kept),
        answer: answer,
    }
}

// An access past its checks: its page's entry answers, or else the walk.
fn answer_entry(entry: Entry, memory: &mut [u8], r: Regime, a: Access) -> Filled<Answer>
    requires { (r.pool.start + r.pool.length ≤ length memory.old) × (0 < a.size) }
    ensures { filling result.entry memory.new (reply_of (view result.answer)) ≡ filled_by entry r a (access_held ours r memory.old a (held_in (entry_view entry) (ours.page r a))) }
{
    let Some(answer) = entry.ask(r, a) else {
        return walk_entry(entry, memory, r, a);
    };
    Filled {
        entry: entry,
        answer: answer,
    }
}

// An access in every session that has this regime, if any, and this entry for the access's page.
#[tactic(auto, using(crate::proofs::Access::access_accepted, crate::proofs::Access::access_refused, crate::proofs::Access::access_let))]
pub fn access_entry(
    regime: Option<Regime>,
    entry: Entry,
    memory: &mut [u8],
    a: Access,
) -> Filled<Answer>
    ensures { filling result.entry memory.new (reply_of (view result.answer)) ≡ accessed_entry regime entry memory.old a }
{
    let Some(r) = regime else {
        return Filled {
            entry: entry,
            answer: Answer::Refused(Refusal::NoRegime),
        };
    };
    match checks::check_session_access(memory.len(), r, a) {
        Err(refusal) => Filled {
            entry: entry,
            answer: Answer::Refused(refusal),
        },
        Ok(()) => answer_entry(entry, memory, r, a),
    }
}

// An access and an answer as structs of numbers, and the calls of a monitor over them.
#![tactic(auto)]

ghost use Rattle.std.specs.Prelude.{◌≡◌, ◌+◌, ◌≤◌, ◌<◌, length};
ghost use Rattle.vmsa.specs.Answers.{refused, view};
ghost use Rattle.vmsa.specs.declared.Answer.TheVariants as answers;
ghost use Rattle.vmsa.specs.Words.{regime_of};
ghost use Rattle.tlb.specs.Replies.{told, reply_to};
ghost use Rattle.tlb.specs.Walker.{entry_count, walked as walked_of};
ghost use Rattle.tlb.specs.Ours.{ours};
ghost use Rattle.tlb.specs.Entries.{entry_view, entry_for, filling, filled_by, entry_answer, entry_reply};
ghost use Rattle.harvest.specs.Harvest.{harvested, harvest as harvest_of};
ghost use Rattle.session.specs.Model.{store_in};
ghost use Rattle.words.specs.Words.{access_kind, access_of, words_of, walk_words, refusal_byte, entry_replied, set_words, hit_of};

use decision::HitKind;
use tlb::{Entry, Filled};
use vmsa::{
    Access, AccessKind, Answer, Fault, PhysAddr, Refusal, Regime, RegimeWords, Success, VirtAddr,
};

// An access, the C interface. kind: 0 read, 1 write, 2 update, 3 fetch, 4 probe-read, 5 probe-write; a number above is taken as an update. The spare numbers have no say.
#[repr(C)]
#[derive(Clone, Copy)]
pub struct AccessWords {
    pub address: u64,
    pub size: u64,
    pub el0: u8,
    pub kind: u8,
    pub spare16: u16,
    pub spare32: u32,
}

// An answer, the C interface. tag: 0 success, 1 fault, 2 refused; what an answer does not hold is 0, and so is spare.
#[repr(C)]
#[derive(Clone, Copy)]
pub struct AnswerWords {
    pub output: u64,
    pub tag: u8,
    pub refusal: u8,
    pub code: u16,
    pub level: u8,
    pub attribute: u8,
    pub shareability: u8,
    pub nonglobal: u8,
    pub accessed: u8,
    pub dirtied: u8,
    pub cacheable: u8,
    pub reads: u8,
    pub spare: u32,
}

// The kind of a number: C's, of a type of another crate, so it is no From.
fn access_kind(n: u8) -> AccessKind
    ensures { result ≡ access_kind n }
{
    match n {
        0 => AccessKind::Read,
        1 => AccessKind::Write,
        2 => AccessKind::Update,
        3 => AccessKind::Fetch,
        4 => AccessKind::ProbeRead,
        5 => AccessKind::ProbeWrite,
        _ => AccessKind::Update,
    }
}

// The access that the numbers stand for.
impl From<AccessWords> for Access {
    ghost from_gives = { λ words access. access ≡ access_of words };

    #[tactic(auto, unfolding(crate::specs::Words::access_of))]
    fn from(words: AccessWords) -> Access {
        Access {
            address: VirtAddr(words.address),
            size: words.size,
            el0: words.el0 != 0,
            kind: access_kind(words.kind),
        }
    }
}

// No answer: refused, with no number.
#[tactic(auto, unfolding(crate::specs::Words::words_of))]
pub fn no_answer() -> AnswerWords
    ensures { result ≡ words_of (refused 0) }
{
    AnswerWords {
        output: 0,
        tag: 2,
        refusal: 0,
        code: 0,
        level: 0,
        attribute: 0,
        shareability: 0,
        nonglobal: 0,
        accessed: 0,
        dirtied: 0,
        cacheable: 0,
        reads: 0,
        spare: 0,
    }
}

impl From<Success> for AnswerWords {
    ghost from_gives = { λ s words. words ≡ words_of (view (answers.Success s)) };

    #[tactic(auto, unfolding(crate::specs::Words::words_of))]
    fn from(s: Success) -> AnswerWords {
        AnswerWords {
            output: s.output.0,
            tag: 0,
            level: s.level,
            attribute: s.attribute,
            shareability: s.shareability,
            nonglobal: u8::from(s.nonglobal),
            accessed: u8::from(s.accessed),
            dirtied: u8::from(s.dirtied),
            cacheable: u8::from(s.cacheable),
            reads: s.reads,
            ..no_answer()
        }
    }
}

impl From<Fault> for AnswerWords {
    ghost from_gives = { λ f words. words ≡ words_of (view (answers.Fault f)) };

    #[tactic(auto, unfolding(crate::specs::Words::words_of))]
    fn from(f: Fault) -> AnswerWords {
        AnswerWords {
            tag: 1,
            code: f.code(),
            level: f.level,
            cacheable: u8::from(f.cacheable),
            reads: f.reads,
            ..no_answer()
        }
    }
}

impl From<Refusal> for AnswerWords {
    ghost from_gives = { λ refusal words. words ≡ words_of (view (answers.Refused refusal)) };

    #[tactic(auto, unfolding(crate::specs::Words::words_of))]
    fn from(refusal: Refusal) -> AnswerWords {
        AnswerWords {
            refusal: refusal.number(),
            ..no_answer()
        }
    }
}

// An answer as numbers.
impl From<Answer> for AnswerWords {
    ghost from_gives = { λ answer words. words ≡ words_of (view answer) };

    fn from(answer: Answer) -> AnswerWords {
        match answer {
            Answer::Success(s) => AnswerWords::from(s),
            Answer::Fault(f) => AnswerWords::from(f),
            Answer::Refused(refusal) => AnswerWords::from(refusal),
        }
    }
}

// The plain walk of an access in the lent memory.
pub fn walk_words(memory: &mut [u8], regime: RegimeWords, access: AccessWords) -> AnswerWords
    ensures { told result memory.new ≡ walk_words (regime_of regime) (access_of access) memory.old }
{
    let r = Regime::from(regime);
    let a = Access::from(access);
    AnswerWords::from(walk::walk(memory, r, a))
}

// 0 where a call is accepted, or else the number of its refusal: the C interface.
pub fn refusal_byte(x: Result<(), Refusal>) -> u8
    ensures { result ≡ refusal_byte (reply_to x) }
{
    match x {
        Ok(()) => 0,
        Err(refusal) => refusal.number(),
    }
}

// A regime to be set over n bytes of memory, as a session holds it: or else the refusal.
pub fn set_words(n: usize, regime: RegimeWords) -> Result<RegimeWords, Refusal>
    ensures { result ≡ set_words n (regime_of regime) }
{
    let r = Regime::from(regime);
    checks::check_regime(n, r)?;
    Ok(RegimeWords::from(r))
}

// The number of the entry of an access's page, in a session with this regime.
pub fn entry_of(regime: RegimeWords, access: AccessWords) -> usize
    ensures { (result ≡ entry_for (regime_of regime) (access_of access)) × (result < entry_count) }
{
    tlb::entry_of(regime, Access::from(access))
}

// What the entry of an access's page answers, where it does.
#[tactic(auto, using(crate::proofs::Reply::hit_success, crate::proofs::Reply::hit_fault, crate::proofs::Reply::no_hit, tlb::proofs::Entries::miss_answers))]
fn hit_words(r: Regime, entry: Entry, a: Access) -> Option<AnswerWords>
    requires { 0 < a.size }
    ensures { result ≡ hit_of (entry_answer ours r a (entry_view entry)) }
{
    match entry.hit_kind(r, a) {
        HitKind::Success => Some(AnswerWords::from(entry.success(r, a))),
        HitKind::Fault(kind) => Some(AnswerWords::from(entry.fault(kind))),
        HitKind::Miss => None,
    }
}

// What is said of an access at once, a refusal or its entry's answer, over n bytes of memory, in every session that has this regime, if any, and this entry for the access's page.
#[tactic(auto, using(tlb::proofs::Access::access_accepted), unfolding(crate::specs::Words::hit_of))]
pub fn hit_entry(
    regime: Option<Regime>,
    entry: Entry,
    n: usize,
    access: AccessWords,
) -> Option<AnswerWords>
    ensures { result ≡ hit_of (entry_reply n (access_of access) (entry_view entry) regime) }
{
    let Some(r) = regime else {
        return Some(AnswerWords::from(Refusal::NoRegime));
    };
    let a = Access::from(access);
    match checks::check_session_access(n, r, a) {
        Err(refusal) => Some(AnswerWords::from(refusal)),
        Ok(()) => hit_words(r, entry, a),
    }
}

// An access that walks, under this regime and with this entry for its page.
#[tactic(auto, using(crate::proofs::Reply::reply_words_lem))]
pub fn walk_entry(
    regime: RegimeWords,
    entry: Entry,
    memory: &mut [u8],
    access: AccessWords,
) -> Filled<AnswerWords>
    requires { ((regime_of regime).pool.start + (regime_of regime).pool.length ≤ length memory.old) × (0 < (access_of access).size) }
    ensures { filling result.entry memory.new result.answer ≡ entry_replied (filled_by entry (regime_of regime) (access_of access) (walked_of ours (regime_of regime) memory.old (access_of access))) }
{
    let a = Access::from(access);
    let r = Regime::from(regime);
    let filled = tlb::walk_entry(entry, memory, r, a);
    let after = filled.entry;
    let answer = filled.answer;
    Filled {
        entry: after,
        answer: AnswerWords::from(answer),
    }
}

// A store of one descriptor in every session that has this regime, if any: refused, or else done.
pub fn store_words(
    regime: Option<Regime>,
    memory: &mut [u8],
    address: u64,
    value: u64,
) -> Result<(), Refusal>
    ensures { told (reply_to result) memory.new ≡ store_in ours regime memory.old address value }
{
    session::store_in(regime, memory, PhysAddr(address), value)
}

// A harvest of count pages from page first on: refused, or else done.
pub fn harvest_words(
    memory: &mut [u8],
    regime: RegimeWords,
    first: u64,
    count: u64,
    map: &mut [u8],
) -> Result<(), Refusal>
    ensures { harvested result memory.new map.new ≡ harvest_of (regime_of regime) first count memory.old map.old }
{
    harvest::harvest(memory, Regime::from(regime), first, count, map)
}

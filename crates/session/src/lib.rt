// The session: a regime and 64 TLB entries, and the five calls. Each takes the session by value and hands it back.
#![tactic(auto)]

ghost use Rattle.std.specs.Prelude.{◌≡◌};
ghost use Rattle.vmsa.specs.Answers.{view};
ghost use Rattle.tlb.specs.Replies.{told, reply_of, reply_to};
ghost use Rattle.tlb.specs.Ours.{ours};
ghost use Rattle.harvest.specs.Harvest.{harvested};
ghost use Rattle.session.specs.Model.{handed, set_regime, access, store, store_in, harvest_in};
ghost use Rattle.session.specs.View.{regime_held, empty_session, emptied, leaves, harvest_leaves};

use tlb::{ENTRIES, Entry};
use vmsa::{Access, Answer, PhysAddr, Refusal, Regime, RegimeWords};

// A session: the regime last accepted, where set is not 0, and the entries, in fixed memory. The C interface: all numbers, so that any bytes are a session; the spare ones have no say.
#[repr(C)]
#[derive(Clone, Copy)]
pub struct Session {
    pub regime: RegimeWords,
    pub entries: [Entry; ENTRIES],
    pub set: u8,
    pub spare8: u8,
    pub spare16: u16,
    pub spare32: u32,
}

// What a call hands back: the session, and its reply.
#[derive(Clone, Copy)]
pub struct HandedBack<T> {
    pub session: Session,
    pub reply: T,
}

impl<T> HandedBack<T> {
    // Stores the session where the old one lies, and leaves the reply.
    pub fn put_back(self, session: &mut Session) -> T
        ensures session { session.new ≡ self.session }
        ensures reply { result ≡ self.reply }
    {
        *session = self.session;
        self.reply
    }
}

// A store in every session that has this regime, if any, which stays as it was: refused, or else done.
#[tactic(auto, using(crate::proofs::Calls::store_accepted, crate::proofs::Calls::store_room, crate::proofs::Calls::store_refused, crate::proofs::Calls::store_done))]
pub fn store_in(
    regime: Option<Regime>,
    memory: &mut [u8],
    address: PhysAddr,
    value: u64,
) -> Result<(), Refusal>
    ensures { told (reply_to result) memory.new ≡ store_in ours regime memory.old address.0 value }
{
    let r = regime.ok_or(Refusal::NoRegime)?;
    let pool = r.pool;
    checks::check_session_store(memory.len(), r, address)?;
    let start = pool.start;
    let end = start + pool.length;
    let offset = (address.0 - pool.address.0) as usize;
    descriptor::store(&mut memory[start..end], offset, value, r.ee);
    Ok(())
}

// A harvest in every session that has this regime, if any: refused, or else done.
pub fn harvest_in(
    regime: Option<Regime>,
    memory: &mut [u8],
    first: u64,
    count: u64,
    map: &mut [u8],
) -> Result<(), Refusal>
    ensures { harvested result memory.new map.new ≡ harvest_in ours regime first count memory.old map.old }
{
    harvest::harvest(memory, regime.ok_or(Refusal::NoRegime)?, first, count, map)
}

impl Session {
    // The fresh session: no regime, and every entry empty.
    pub fn empty() -> Self
        ensures { result ≡ empty_session }
    {
        let entry = Entry::empty();
        Session {
            regime: RegimeWords::from(Regime::new()),
            entries: [entry; ENTRIES],
            set: 0,
            spare8: 0,
            spare16: 0,
            spare32: 0,
        }
    }

    // The regime that it holds, where one is set.
    pub fn regime_held(&self) -> Option<Regime>
        ensures { result ≡ regime_held self.now }
    {
        if self.set == 0 {
            return None;
        }
        Some(Regime::from(self.regime))
    }

    // Sets the regime and empties every entry, where the checks let it through.
    #[tactic(auto, using(crate::proofs::Calls::set_refused, crate::proofs::Calls::set_accepted))]
    pub fn set_regime(self, memory: &[u8], r: Regime) -> HandedBack<Result<(), Refusal>>
        ensures { handed result.session memory.now (reply_to result.reply) ≡ leaves self memory.now (set_regime r) }
    {
        match checks::check_regime(memory.len(), r) {
            Err(refusal) => HandedBack {
                session: self,
                reply: Err(refusal),
            },
            Ok(()) => {
                let entry = Entry::empty();
                let words = RegimeWords::from(r);
                let session = Session {
                    regime: words,
                    entries: [entry; ENTRIES],
                    set: 1,
                    spare8: 0,
                    spare16: 0,
                    spare32: 0,
                };
                HandedBack {
                    session: session,
                    reply: Ok(()),
                }
            }
        }
    }

    // Empties every entry ("drop all").
    pub fn invalidate_all(mut self) -> Self
        ensures { result ≡ emptied self }
    {
        let entry = Entry::empty();
        self.entries = [entry; ENTRIES];
        self
    }

    // An access: refused, or else answered.
    pub fn access(mut self, memory: &mut [u8], a: Access) -> HandedBack<Answer>
        ensures { handed result.session memory.new (reply_of (view result.reply)) ≡ leaves self memory.old (access a) }
    {
        let i = tlb::entry_of(self.regime, a);
        let entries = self.entries;
        let filled = tlb::access_entry(self.regime_held(), entries[i], memory, a);
        let entry = filled.entry;
        let answer = filled.answer;
        self.entries[i] = entry;
        HandedBack {
            session: self,
            reply: answer,
        }
    }

    // Stores one descriptor at a physical address in the pool, in the byte order of the regime: refused, or else done.
    pub fn store(
        self,
        memory: &mut [u8],
        address: PhysAddr,
        value: u64,
    ) -> HandedBack<Result<(), Refusal>>
        ensures { handed result.session memory.new (reply_to result.reply) ≡ leaves self memory.old (store address.0 value) }
    {
        let reply = store_in(self.regime_held(), memory, address, value);
        HandedBack {
            session: self,
            reply: reply,
        }
    }

    // Harvests count pages from page first on into the lent map, and empties every entry: refused, or else done.
    pub fn harvest(
        self,
        memory: &mut [u8],
        first: u64,
        count: u64,
        map: &mut [u8],
    ) -> HandedBack<Result<(), Refusal>>
        ensures { (result.session, harvested result.reply memory.new map.new) ≡ harvest_leaves self first count memory.old map.old }
    {
        match harvest_in(self.regime_held(), memory, first, count, map) {
            Err(refused) => HandedBack {
                session: self,
                reply: Err(refused),
            },
            Ok(()) => {
                let dropped = self.invalidate_all();
                HandedBack {
                    session: dropped,
                    reply: Ok(()),
                }
            }
        }
    }
}

// The lent session: for each call a thin function that takes the session out, makes the call by value, and puts the session handed back where the old one lies.
// Every decision is in the functions by value, and each contract here is theirs, of what lies behind the reference.
#![tactic(auto)]

ghost use Rattle.std.specs.Prelude.{◌≡◌};
ghost use Rattle.vmsa.specs.Answers.{view};
ghost use Rattle.tlb.specs.Replies.{reply_of, reply_to};
ghost use Rattle.session.specs.Model.{handed, set_regime, access, store};
ghost use Rattle.harvest.specs.Harvest.{harvested};
ghost use Rattle.session.specs.View.{emptied, leaves, harvest_leaves};

use session::Session;
use vmsa::{Access, Answer, PhysAddr, Refusal, Regime};

// Sets the regime of the lent session and empties every entry, where the checks let it through.
pub fn set_regime(session: &mut Session, memory: &[u8], r: Regime) -> Result<(), Refusal>
    ensures { handed session.new memory.now (reply_to result) ≡ leaves session.old memory.now (set_regime r) }
{
    session.set_regime(memory, r).put_back(session)
}

// An access in the lent session: refused, or else answered.
pub fn access(session: &mut Session, memory: &mut [u8], a: Access) -> Answer
    ensures { handed session.new memory.new (reply_of (view result)) ≡ leaves session.old memory.old (access a) }
{
    session.access(memory, a).put_back(session)
}

// Stores one descriptor at a physical address in the pool: refused, or else done.
pub fn store(
    session: &mut Session,
    memory: &mut [u8],
    address: PhysAddr,
    value: u64,
) -> Result<(), Refusal>
    ensures { handed session.new memory.new (reply_to result) ≡ leaves session.old memory.old (store address.0 value) }
{
    session.store(memory, address, value).put_back(session)
}

// Empties every entry of the lent session ("drop all").
pub fn invalidate_all(session: &mut Session)
    ensures { session.new ≡ emptied session.old }
{
    *session = session.invalidate_all();
}

// Harvests count pages from page first on into the lent map, and empties every entry of the lent session: refused, or else done.
pub fn harvest(
    session: &mut Session,
    memory: &mut [u8],
    first: u64,
    count: u64,
    map: &mut [u8],
) -> Result<(), Refusal>
    ensures { (session.new, harvested result memory.new map.new) ≡ harvest_leaves session.old first count memory.old map.old }
{
    session.harvest(memory, first, count, map).put_back(session)
}

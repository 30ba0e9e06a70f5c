// The C interface, the harvest of dirty pages: the regime and the session as structs of numbers, memory and map as a pointer and a length each.
// Nothing that a caller passes is out of contract but a bad pointer, or two that overlap.
#![tactic(auto)]

ghost use Rattle.std.specs.Prelude.{◌≡◌};
ghost use Rattle.vmsa.specs.Words.{regime_of};
ghost use Rattle.harvest.specs.Harvest.{harvested, harvest as harvest_of};
ghost use Rattle.words.specs.Words.{harvest_numbered, harvest_replied};
ghost use Rattle.session.specs.View.{harvest_leaves};

use session::Session;
use tlb::{ENTRIES, Entry};
use vmsa::RegimeWords;

// The harvest of count pages from page first on, in the lent memory and the lent map: 0, or the number of the refusal.
#[unsafe(no_mangle)]
pub extern "C" fn vmsa_harvest(
    memory: &mut [u8],
    regime: &RegimeWords,
    first: u64,
    count: u64,
    map: &mut [u8],
) -> u8
    ensures { harvested result memory.new map.new ≡ harvest_numbered (harvest_of (regime_of regime.now) first count memory.old map.old) }
{
    words::refusal_byte(words::harvest_words(memory, *regime, first, count, map))
}

// The same in the lent session, whose entries are emptied: 0, or the number of the refusal.
#[unsafe(no_mangle)]
pub extern "C" fn vmsa_session_harvest(
    session: &mut Session,
    memory: &mut [u8],
    first: u64,
    count: u64,
    map: &mut [u8],
) -> u8
    ensures { (session.new, harvested result memory.new map.new) ≡ harvest_replied (harvest_leaves session.old first count memory.old map.old) }
{
    if let Err(refusal) = session::harvest_in(session.regime_held(), memory, first, count, map) {
        return refusal.number();
    }
    let entry = Entry::empty();
    session.entries = [entry; ENTRIES];
    0
}

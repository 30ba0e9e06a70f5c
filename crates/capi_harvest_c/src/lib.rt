// The static library of capi_harvest: its functions, exported to C with their contracts.
#![tactic(auto)]

ghost use Rattle.std.specs.Prelude.{◌≡◌};
ghost use Rattle.vmsa.specs.Words.{regime_of};
ghost use Rattle.harvest.specs.Harvest.{harvested, harvest as harvest_of};
ghost use Rattle.words.specs.Words.{harvest_numbered, harvest_replied};
ghost use Rattle.session.specs.View.{harvest_leaves};

use session::Session;
use vmsa::RegimeWords;

// The harvest of count pages from page first on, in the lent memory and the lent map: 0, or the number of the refusal.
#[unsafe(no_mangle)]
pub extern "C" fn vmsa_harvest(
    memory: &mut [u8],
    regime: &RegimeWords,
    first: u64,
    count: u64,
    map: &mut [u8],
) -> u8
    ensures { harvested result memory.new map.new ≡ harvest_numbered (harvest_of (regime_of regime.now) first count memory.old map.old) }
{
    capi_harvest::vmsa_harvest(memory, regime, first, count, map)
}

// The same in the lent session, whose entries are emptied: 0, or the number of the refusal.
#[unsafe(no_mangle)]
pub extern "C" fn vmsa_session_harvest(
    session: &mut Session,
    memory: &mut [u8],
    first: u64,
    count: u64,
    map: &mut [u8],
) -> u8
    ensures { (session.new, harvested result memory.new map.new) ≡ harvest_replied (harvest_leaves session.old first count memory.old map.old) }
{
    capi_harvest::vmsa_session_harvest(session, memory, first, count, map)
}

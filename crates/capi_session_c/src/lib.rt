// The static library of capi_session: its functions, exported to C with their contracts.
#![tactic(auto)]

ghost use Rattle.std.specs.Prelude.{◌≡◌};
ghost use Rattle.vmsa.specs.Words.{regime_of};
ghost use Rattle.session.specs.Model.{handed, set_regime, access as accessing, store};
ghost use Rattle.session.specs.View.{empty_session, emptied, leaves};
ghost use Rattle.words.specs.Words.{access_of, refusal_byte, reply_words, replied};

use session::Session;
use vmsa::RegimeWords;
use words::{AccessWords, AnswerWords};

// Makes the lent session the fresh one: no regime, and every entry empty.
#[unsafe(no_mangle)]
pub extern "C" fn vmsa_session_empty(session: &mut Session)
    ensures { session.new ≡ empty_session }
{
    capi_session::vmsa_session_empty(session);
}

// Sets the regime of the lent session: 0, or the number of the refusal.
#[unsafe(no_mangle)]
pub extern "C" fn vmsa_session_set_regime(
    session: &mut Session,
    memory: &[u8],
    regime: &RegimeWords,
) -> u8
    ensures { handed session.new memory.now result ≡ replied refusal_byte (leaves session.old memory.now (set_regime (regime_of regime.now))) }
{
    capi_session::vmsa_session_set_regime(session, memory, regime)
}

// An access in the lent session and memory; its answer is written to the lent struct.
#[unsafe(no_mangle)]
pub extern "C" fn vmsa_session_access(
    session: &mut Session,
    memory: &mut [u8],
    access: &AccessWords,
    answer: &mut AnswerWords,
)
    ensures { handed session.new memory.new answer.new ≡ replied reply_words (leaves session.old memory.old (accessing (access_of access.now))) }
{
    capi_session::vmsa_session_access(session, memory, access, answer);
}

// Stores one descriptor at a physical address: 0, or the number of the refusal.
#[unsafe(no_mangle)]
pub extern "C" fn vmsa_session_store(
    session: &mut Session,
    memory: &mut [u8],
    address: u64,
    value: u64,
) -> u8
    ensures { handed session.new memory.new result ≡ replied refusal_byte (leaves session.old memory.old (store address value)) }
{
    capi_session::vmsa_session_store(session, memory, address, value)
}

// Empties every entry of the lent session.
#[unsafe(no_mangle)]
pub extern "C" fn vmsa_session_invalidate_all(session: &mut Session)
    ensures { session.new ≡ emptied session.old }
{
    capi_session::vmsa_session_invalidate_all(session);
}

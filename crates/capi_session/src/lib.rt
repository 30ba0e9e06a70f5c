// The C interface, a session's calls over the lent session: structs of numbers, the memory as a pointer and a length; only integers and pointers cross.
// Nothing that a caller passes is out of contract but a bad pointer, or two that overlap.
#![tactic(auto)]

ghost use Rattle.std.specs.Prelude.{◌≡◌};
ghost use Rattle.vmsa.specs.Words.{regime_of};
ghost use Rattle.session.specs.Model.{handed, set_regime, access as accessing, store};
ghost use Rattle.session.specs.View.{empty_session, emptied, leaves};
ghost use Rattle.words.specs.Words.{access_of, refusal_byte, reply_words, replied};

use session::Session;
use tlb::{ENTRIES, Entry};
use vmsa::RegimeWords;
use words::{AccessWords, AnswerWords};

// Makes the lent session the fresh one: no regime, and every entry empty.
#[unsafe(no_mangle)]
pub extern "C" fn vmsa_session_empty(session: &mut Session)
    ensures { session.new ≡ empty_session }
{
    *session = Session::empty();
}

// Sets the regime of the lent session: 0, or the number of the refusal.
#[tactic(auto, using(words::proofs::Reply::set_refused, words::proofs::Reply::set_accepted))]
#[unsafe(no_mangle)]
pub extern "C" fn vmsa_session_set_regime(
    session: &mut Session,
    memory: &[u8],
    regime: &RegimeWords,
) -> u8
    ensures { handed session.new memory.now result ≡ replied refusal_byte (leaves session.old memory.now (set_regime (regime_of regime.now))) }
{
    let regime = *regime;
    let regime = match words::set_words(memory.len(), regime) {
        Err(refusal) => return refusal.number(),
        Ok(regime) => regime,
    };
    let entry = Entry::empty();
    session.regime = regime;
    session.entries = [entry; ENTRIES];
    session.set = 1;
    session.spare8 = 0;
    session.spare16 = 0;
    session.spare32 = 0;
    0
}

// An access in the lent session and memory; its answer is written to the lent struct.
#[tactic(auto, using(words::proofs::Reply::hit_at, words::proofs::Reply::walk_free, words::proofs::Reply::walk_at))]
#[unsafe(no_mangle)]
pub extern "C" fn vmsa_session_access(
    session: &mut Session,
    memory: &mut [u8],
    access: &AccessWords,
    answer: &mut AnswerWords,
)
    ensures { handed session.new memory.new answer.new ≡ replied reply_words (leaves session.old memory.old (accessing (access_of access.now))) }
{
    let access = *access;
    let i = words::entry_of(session.regime, access);
    let entry = session.entries[i];
    if let Some(hit) = words::hit_entry(session.regime_held(), entry, memory.len(), access) {
        *answer = hit;
        return;
    }
    // read again, so that a hit does not pay for what only the longer way needs
    let entry = session.entries[i];
    let filled = words::walk_entry(session.regime, entry, memory, access);
    session.entries[i] = filled.entry;
    *answer = filled.answer;
}

// Stores one descriptor at a physical address: 0, or the number of the refusal.
#[unsafe(no_mangle)]
pub extern "C" fn vmsa_session_store(
    session: &mut Session,
    memory: &mut [u8],
    address: u64,
    value: u64,
) -> u8
    ensures { handed session.new memory.new result ≡ replied refusal_byte (leaves session.old memory.old (store address value)) }
{
    words::refusal_byte(words::store_words(session.regime_held(), memory, address, value))
}

// Empties every entry of the lent session.
#[unsafe(no_mangle)]
pub extern "C" fn vmsa_session_invalidate_all(session: &mut Session)
    ensures { session.new ≡ emptied session.old }
{
    let entry = Entry::empty();
    session.entries = [entry; ENTRIES];
}

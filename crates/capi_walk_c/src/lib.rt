// The static library of capi_walk: its functions, exported to C with their contracts.
#![tactic(auto)]

ghost use Rattle.std.specs.Prelude.{◌≡◌};
ghost use Rattle.vmsa.specs.Words.{regime_of};
ghost use Rattle.tlb.specs.Replies.{told};
ghost use Rattle.words.specs.Words.{access_of, walk_words};

use vmsa::RegimeWords;
use words::{AccessWords, AnswerWords};

#[unsafe(no_mangle)]
pub extern "C" fn vmsa_version() -> u32
    ensures { result ≡ 11 }
{
    capi_walk::vmsa_version()
}

// The plain walk of an access in the lent memory; its answer is written to the lent struct.
#[unsafe(no_mangle)]
pub extern "C" fn vmsa_walk(
    memory: &mut [u8],
    regime: &RegimeWords,
    access: &AccessWords,
    answer: &mut AnswerWords,
)
    ensures { told answer.new memory.new ≡ walk_words (regime_of regime.now) (access_of access.now) memory.old }
{
    capi_walk::vmsa_walk(memory, regime, access, answer);
}

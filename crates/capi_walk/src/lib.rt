// The C interface, the plain walk: structs of numbers, the memory as a pointer and a length; only integers and pointers cross.
// Nothing that a caller passes is out of contract but a bad pointer, or two that overlap.
#![tactic(auto)]

ghost use Rattle.std.specs.Prelude.{◌≡◌};
ghost use Rattle.vmsa.specs.Words.{regime_of};
ghost use Rattle.tlb.specs.Replies.{told};
ghost use Rattle.words.specs.Words.{access_of, walk_words};

use vmsa::RegimeWords;
use words::{AccessWords, AnswerWords};

// The version of this interface.
pub const VERSION: u32 = 11;

#[unsafe(no_mangle)]
pub extern "C" fn vmsa_version() -> u32
    ensures { result ≡ 11 }
{
    VERSION
}

// The plain walk of an access in the lent memory; its answer is written to the lent struct.
#[unsafe(no_mangle)]
pub extern "C" fn vmsa_walk(
    memory: &mut [u8],
    regime: &RegimeWords,
    access: &AccessWords,
    answer: &mut AnswerWords,
)
    ensures { told answer.new memory.new ≡ walk_words (regime_of regime.now) (access_of access.now) memory.old }
{
    let regime = *regime;
    let access = *access;
    *answer = words::walk_words(memory, regime, access);
}

// The C interface, the walk a descriptor at a time, but for the offer of a value (capi_value): structs of numbers; only integers and pointers cross.
// Nothing that a caller passes is out of contract but a bad pointer, or two that overlap.
#![tactic(auto)]

ghost use Rattle.std.specs.Prelude.{◌≡◌, None};
ghost use Rattle.step_words.specs.Words.{start_words, offer_words, offer_gives};

use step_words::StepwiseWords;
use vmsa::RegimeWords;
use words::AccessWords;

// Starts a walk: the lent struct is written, and holds the address of the descriptor that is wanted, or the end.
#[unsafe(no_mangle)]
pub extern "C" fn vmsa_stepwise_start(
    regime: &RegimeWords,
    access: &AccessWords,
    walk: &mut StepwiseWords,
)
    ensures { walk.new ≡ start_words regime.now access.now }
{
    let regime = *regime;
    let access = *access;
    *walk = step_words::start_words(regime, access);
}

// Says that the descriptor that the lent walk wants is not reachable: 0, or 12 after the end.
#[unsafe(no_mangle)]
pub extern "C" fn vmsa_stepwise_unreachable(walk: &mut StepwiseWords) -> u8
    ensures { offer_gives result walk.new ≡ offer_words walk.old None }
{
    let before = *walk;
    match step_words::offer_words(before, None) {
        Err(refusal) => refusal.number(),
        Ok(after) => {
            *walk = after;
            0
        }
    }
}

// The C interface, the walk a descriptor at a time, the offer of a value: a struct of numbers; only integers and pointers cross.
// Nothing that a caller passes is out of contract but a bad pointer. It is a crate of its own so that all that it calls is compiled into the one function.
#![tactic(auto)]

ghost use Rattle.std.specs.Prelude.{◌≡◌, Some};
ghost use Rattle.step_words.specs.Words.{offer_gives, offer_words};

use step_words::StepwiseWords;

// Offers the value of the descriptor that the lent walk wants: 0, or 12 after the end.
#[unsafe(no_mangle)]
pub extern "C" fn vmsa_stepwise_value(walk: &mut StepwiseWords, value: u64) -> u8
    ensures { offer_gives result walk.new ≡ offer_words walk.old (Some value) }
{
    let before = *walk;
    match step_words::offer_words(before, Some(value)) {
        Err(refusal) => refusal.number(),
        Ok(after) => {
            *walk = after;
            0
        }
    }
}

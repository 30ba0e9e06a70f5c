// The static library of capi_value: its function, exported to C with its contract. All that it calls is compiled into the one function.
#![tactic(auto)]

ghost use Rattle.std.specs.Prelude.{◌≡◌, Some};
ghost use Rattle.step_words.specs.Words.{offer_gives, offer_words};

use step_words::StepwiseWords;

// Offers the value of the descriptor that the lent walk wants: 0, or 12 after the end.
#[unsafe(no_mangle)]
pub extern "C" fn vmsa_stepwise_value(walk: &mut StepwiseWords, value: u64) -> u8
    ensures { offer_gives result walk.new ≡ offer_words walk.old (Some value) }
{
    capi_value::vmsa_stepwise_value(walk, value)
}

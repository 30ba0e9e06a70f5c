// A walk a descriptor at a time as a struct of numbers, and its start and offers over it.
#![tactic(auto)]

ghost use Rattle.std.specs.Prelude.{◌≡◌, Some, None};
ghost use Rattle.stepwise.specs.Stepwise.{wanting as wanting_walk, ended as ended_walk, seen_end, seen};
ghost use Rattle.step_words.specs.Words.{wanting_of, progress_words, start_words, offer_told, offer_words};

use stepwise::{Conclusion, Stepwise, Update, Wanting};
use vmsa::{Access, PhysAddr, Refusal, Regime, RegimeWords};
use words::{AccessWords, AnswerWords};

// How many sums of tables there are; vmsa/specs/Fields.antt has the same number.
const SUMS: u8 = 16;

// A walk a descriptor at a time, the C interface. Until it has ended, address is that of the descriptor that it wants, and the answer is none: tag 2 and refusal 0.
// Once it has: the answer, and where update is 1 the update that is due, at address, from expected to value.
// left and tables: the levels left below the descriptor that is wanted, and the sum of the tables on the way. The spare number is 0.
#[repr(C)]
#[derive(Clone, Copy)]
pub struct StepwiseWords {
    pub regime: RegimeWords,
    pub access: AccessWords,
    pub answer: AnswerWords,
    pub address: u64,
    pub expected: u64,
    pub value: u64,
    pub ended: u8,
    pub update: u8,
    pub left: u8,
    pub tables: u8,
    pub spare32: u32,
}

#[tactic(auto, unfolding(crate::specs::Words::progress_words))]
fn wanting_words(regime: RegimeWords, access: AccessWords, w: Wanting) -> StepwiseWords
    ensures { result ≡ progress_words regime access (wanting_walk w) }
{
    StepwiseWords {
        regime: regime,
        access: access,
        answer: words::no_answer(),
        address: w.address.0,
        expected: 0,
        value: 0,
        ended: 0,
        update: 0,
        left: w.left,
        tables: w.tables,
        spare32: 0,
    }
}

// The end of a walk, with the update that is due, or else zeros for it.
#[tactic(auto, unfolding(crate::specs::Words::progress_words))]
fn ended_words(regime: RegimeWords, access: AccessWords, c: Conclusion) -> StepwiseWords
    ensures { result ≡ progress_words regime access (ended_walk (seen_end c)) }
{
    let none = Update {
        address: PhysAddr(0),
        expected: 0,
        value: 0,
    };
    let update = c.due.unwrap_or(none);
    StepwiseWords {
        regime: regime,
        access: access,
        answer: AnswerWords::from(c.answer),
        address: update.address.0,
        expected: update.expected,
        value: update.value,
        ended: 1,
        update: u8::from(c.due.is_some()),
        left: 0,
        tables: 0,
        spare32: 0,
    }
}

// A walk as numbers, with the regime and the access that it was started with: they make it, and the two above, no From.
fn walk_words(regime: RegimeWords, access: AccessWords, walk: Stepwise) -> StepwiseWords
    ensures { result ≡ progress_words regime access (seen walk) }
{
    match walk {
        Stepwise::Wanting(w) => wanting_words(regime, access, w),
        Stepwise::Ended(c) => ended_words(regime, access, c),
    }
}

// The start of a walk.
pub fn start_words(mut regime: RegimeWords, mut access: AccessWords) -> StepwiseWords
    ensures { result ≡ start_words regime access }
{
    let walk = Stepwise::start(Regime::from(regime), Access::from(access));
    regime.spare32 = 0;
    access.spare16 = 0;
    access.spare32 = 0;
    walk_words(regime, access, walk)
}

// The walk that the numbers stand for where it has not ended.
impl From<StepwiseWords> for Wanting {
    ghost from_gives = { λ words wanting. wanting ≡ wanting_of words };

    #[tactic(auto, unfolding(crate::specs::Words::wanting_of))]
    fn from(words: StepwiseWords) -> Wanting {
        Wanting {
            regime: Regime::from(words.regime),
            access: Access::from(words.access),
            address: PhysAddr(words.address),
            left: words.left,
            tables: words.tables % SUMS,
        }
    }
}

// What stands at the address that a walk wants is offered, the value or that it is not reachable: the walk that this leaves.
// After its end the offer is refused, and the walk stays as it was.
pub fn offer_words(w: StepwiseWords, word: Option<u64>) -> Result<StepwiseWords, Refusal>
    ensures { offer_told w result ≡ offer_words w word }
{
    if w.ended != 0 {
        return Err(Refusal::WalkEnded);
    }
    let walk = Wanting::from(w).offer(word);
    Ok(walk_words(w.regime, w.access, walk))
}

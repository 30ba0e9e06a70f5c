// The plain walk: the checks, the pool as a part of the lent memory, the lookup, the permission, the updates.
#![tactic(auto)]

ghost use Rattle.std.specs.Prelude.{◌≡◌, ◌<◌, ◌%◌, None, Some};
ghost use Rattle.descriptor.specs.Bits.{pick};
ghost use Rattle.vmsa.specs.Limits.{Sized};
ghost use Rattle.vmsa.specs.Answers.{view, cacheable_in};
ghost use Rattle.lookup.specs.Steps.{range_of};
ghost use Rattle.walk.specs.Walk.{outcome, walk_pool, revalued, kept_pool, walk as walk_of};

use vmsa::{Access, Answer, Fault, Leaf, Regime};

// What a walk over the pool gives: the answer, and the leaf as it was left where it may be remembered.
#[derive(Clone, Copy)]
pub struct Walked {
    pub answer: Answer,
    pub kept: Option<Leaf>,
}

// The leaf that a walk lets a TLB entry hold.
fn keep(answer: Answer, value: u64, l: Leaf) -> Option<Leaf>
    ensures { result ≡ pick (cacheable_in (view answer)) (Some (revalued l value)) None }
{
    if answer.cacheable() {
        return Some(Leaf {
            value: value,
            left: l.left,
            tables: l.tables,
        });
    }
    None
}

// The walk over the pool.
pub fn walk_leaf(pool: &mut [u8], r: Regime, a: Access) -> Walked
    requires { Sized r × ((range_of r a.address.0).root.0 % 8 ≡ 0) × (0 < a.size) }
    ensures { (outcome result.answer pool.new ≡ walk_pool r a pool.old) × (result.kept ≡ kept_pool r a pool.old) }
{
    let located = lookup::locate(pool, r, a.address);
    match located.end {
        Err(fault) => Walked {
            answer: Answer::Fault(Fault::of_lookup(fault.kind, fault.level, located.reads)),
            kept: None,
        },
        Ok(found) => {
            let verdict = decision::judge(r, a, found.leaf, located.reads);
            let answer = verdict.answer;
            let kept = keep(answer, verdict.value, found.leaf);
            if verdict.update {
                let offset = (found.address.0 - r.pool.address.0) as usize;
                descriptor::store(pool, offset, verdict.value, r.ee);
            }
            Walked {
                answer: answer,
                kept: kept,
            }
        }
    }
}

// The plain walk of an access in the lent memory.
#[tactic(auto, using(crate::proofs::Ends::ready, crate::proofs::Ends::memory_outcome), unfolding(crate::specs::Walk::walk))]
pub fn walk(memory: &mut [u8], r: Regime, a: Access) -> Answer
    ensures { outcome result memory.new ≡ walk_of r a memory.old }
{
    match checks::check_walk(memory.len(), r, a) {
        Err(refusal) => Answer::Refused(refusal),
        Ok(()) => {
            let start = r.pool.start;
            let end = start + r.pool.length;
            let walked = walk_leaf(&mut memory[start..end], r, a);
            walked.answer
        }
    }
}

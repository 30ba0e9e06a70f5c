// The harvest of dirty pages: a lent map of them, and their leaves set again.
#![tactic(auto)]

ghost use Rattle.std.specs.Prelude.{◌≡◌, ℕ, length, Ok};
ghost use Rattle.bitmap.specs.Map.{mapped};
ghost use Rattle.checks.specs.Order.{regime_check, asked_check};
ghost use Rattle.harvest.specs.Harvest.{reports, clean_pool, harvested, harvest as harvest_of};

use clean::Cleaning;
use gather::Search;
use vmsa::{Refusal, Regime, VirtAddr};

// The harvest over the pool: first the map, by the pool as it is at entry, then the leaves.
#[tactic(auto, using(crate::proofs::Pool::sized_of, crate::proofs::Pool::room_of, crate::proofs::Pool::most_of))]
fn harvest_pool(pool: &mut [u8], r: Regime, first: u64, count: u64, map: &mut [u8])
    requires { ((n : ℕ) × (regime_check n r ≡ Ok tt)) × (asked_check r first count (length map.old) ≡ Ok tt) }
    ensures { (map.new ≡ mapped (reports r pool.old first) count map.old) × (pool.new ≡ clean_pool r first count pool.old) }
{
    bitmap::clear(map, ((count + 7) / 8) as usize);
    let granule = r.granule;
    let page = granule.page_bits();
    let a = VirtAddr(first * geometry::page_size(page));
    let range = lookup::range_of(r, a);
    let Ok(root) = lookup::first_table(r, range, a) else {
        return;
    };
    let c = lookup::context_of(r, range, a);
    let from = c.input.0 / geometry::page_size(c.page);
    let to = from + count;
    let left = geometry::first_left(c.page, range.tsz);
    let search = Search {
        base: c.base,
        limit: c.limit,
        page: c.page,
        ee: r.ee,
        from,
    };
    search.gather(pool, map, root, left, from, to);
    Cleaning { search, to }.clean(pool, root, left, from, to);
}

// The harvest of count pages from page first on, in the lent memory and the lent map. The pages are two numbers, as the C interface passes them.
#[tactic(auto, using(crate::proofs::Pool::ready, crate::proofs::Pool::memory_harvest), unfolding(crate::specs::Harvest::harvest))]
pub fn harvest(
    memory: &mut [u8],
    r: Regime,
    first: u64,
    count: u64,
    map: &mut [u8],
) -> Result<(), Refusal>
    ensures { harvested result memory.new map.new ≡ harvest_of r first count memory.old map.old }
{
    checks::check_harvest(memory.len(), r, first, count, map.len())?;
    let start = r.pool.start;
    let end = start + r.pool.length;
    harvest_pool(&mut memory[start..end], r, first, count, map);
    Ok(())
}

// The search for dirty leaves: a table is gone through entry by entry, and an entry that points to a table sends the search back in, one level down.
// Pages are counted within their range; page from has bit 0 of the map. Page bits and the levels left are numbers, as geometry takes them.
#![tactic(auto)]

ghost use Rattle.std.specs.Prelude.{◌↔◌, ◌≡◌, true, ◌&&◌, ◌+◌, ◌*◌, ◌-◌, ◌<◌, ◌≤◌, ◌^◌, eqb, length};
ghost use Rattle.vmsa.specs.Limits.{address_limit};
ghost use Rattle.vmsa.specs.Granules.{Paged};
ghost use Rattle.lookup.specs.Steps.{decoded};
ghost use Rattle.bitmap.specs.Map.{Raises};
ghost use Rattle.gather.specs.Ends.{dirty as dirty_of, leaf_dirty, pages_in, pages_most, noted, Searched, Room, Stops, entry_for, Limited, OneRun};

use lookup::Next;
use vmsa::PhysAddr;

// Bits 0, 1, 7, 10 and 51; and all of them but bit 7.
const TELLING: u64 = 0x8000000000483;

const DIRTY_PAGE: u64 = 0x8000000000403;

// What the levels of a search share: the pool's address, the end of the output addresses, the page bits of the granule,
// whether descriptors are big-endian, and the page of the map's bit 0.
#[derive(Clone, Copy)]
pub struct Search {
    pub base: PhysAddr,
    pub limit: PhysAddr,
    pub page: u8,
    pub ee: bool,
    pub from: u64,
    pub ghost paged: { Paged page },
    pub ghost limited: { ∥ Limited limit.0 ∥₁ },
}

// Whether a leaf says dirty: AF and DBM set, AP[2] clear.
#[tactic(auto, unfolding(crate::specs::Ends::dirty))]
pub fn dirty(v: u64) -> bool
    ensures { result ≡ dirty_of v }
{
    descriptor::bit(v, vmsa::AF) & descriptor::bit(v, vmsa::DBM) & !descriptor::bit(v, vmsa::AP2)
}

// Where the pages of the entry of page at end, w pages to an entry: there, or at hi.
pub fn stop(w: u64, at: u64, hi: u64) -> u64
    requires { (0 < w) × (w ≤ 2 ^ 39) × (at < hi) × (hi ≤ pages_most) }
    ensures { Stops w at hi result }
{
    let end = at - at % w + w;
    if end < hi { end } else { hi }
}

// Whether a descriptor of the last level is the page's leaf, and says dirty: bits 0, 1, 10 and 51 set, bit 7 and those from the output size up to 47 clear.
pub fn page_dirty(page: u8, limit: PhysAddr, v: u64) -> bool
    requires { Paged page × ∥ Limited limit.0 ∥₁ }
    ensures { result ≡ leaf_dirty v (decoded page limit.0 0 v) }
{
    v & (vmsa::ADDRESS_LIMIT - limit.0 + TELLING) == DIRTY_PAGE
}

// How many pages an entry maps.
pub fn pages_in(page: u8, left: u8) -> u64
    requires { Paged page × (left ≤ 3) }
    ensures { (result ≡ pages_in page left) × (0 < result) × (result ≤ 2 ^ 39) }
{
    descriptor::power((page - 3) * left)
}

// The address of page x's entry in a table.
pub fn entry_of(page: u8, left: u8, table: PhysAddr, x: u64) -> PhysAddr
    requires { Paged page × (left ≤ 3) × (table.0 < address_limit) × (x < pages_most) }
    ensures { (result.0 ≡ entry_for page left table.0 x) × (result.0 < 2 ^ 49) }
{
    PhysAddr(table.0 + 8 * (x / pages_in(page, left) % geometry::entries(page)))
}

// Whether the entries of the pages from lo on, below hi, of a table of the last level lie one after another in the pool.
pub fn one_run(pool: &[u8], base: PhysAddr, table: PhysAddr, page: u8, lo: u64, hi: u64) -> bool
    requires { Searched page 0 lo hi × (table.0 < address_limit) }
    ensures { (result ≡ true) ↔ OneRun page table.0 base.0 (length pool.now) lo hi }
{
    let entries = geometry::entries(page);
    if hi <= lo {
        return false;
    }
    if entries < lo % entries + (hi - lo) {
        return false;
    }
    let entry = entry_of(page, 0, table, lo);
    if entry.0 < base.0 {
        return false;
    }
    entry.0 - base.0 + 8 * (hi - lo) <= pool.len() as u64
}

// The table, its level and the pages, from lo on and below hi, are arguments: they differ at each step.
impl Search {
    ghost use Rattle.gather.specs.Search.{table_ends, entry_ends};

    // Notes page x where its descriptor of the last level says dirty.
    fn note(&self, map: &mut [u8], x: u64, v: u64)
        requires { Room self.now.from x (x + 1) (length map.old) }
        ensures { Raises (λ i. eqb i (x - self.now.from) && leaf_dirty v (decoded self.now.page self.now.limit.0 0 v)) map.old map.new }
    {
        if page_dirty(self.page, self.limit, v) {
            bitmap::raise(map, (x - self.from) as usize);
        }
    }

    // Goes through a table of the last level, entry by entry.
    fn gather_each(&self, pool: &[u8], map: &mut [u8], table: PhysAddr, lo: u64, hi: u64)
        requires { Searched self.now.page 0 lo hi × Room self.now.from lo hi (length map.old) × (table.0 < address_limit) }
        ensures { Raises (noted (table_ends self.now 0 table.0 pool.now) self.now.from lo hi) map.old map.new }
    {
        for x in lo..hi {
            let entry = entry_of(self.page, 0, table, x);
            let Some(v) = lookup::fetch(pool, self.base, entry, self.ee) else {
                continue;
            };
            self.note(map, x, v);
        }
    }

    // The same where the entries lie one after another in the pool.
    fn gather_run(&self, pool: &[u8], map: &mut [u8], table: PhysAddr, lo: u64, hi: u64)
        requires { Searched self.now.page 0 lo hi × Room self.now.from lo hi (length map.old) × (table.0 < address_limit) × OneRun self.now.page table.0 self.now.base.0 (length pool.now) lo hi }
        ensures { Raises (noted (table_ends self.now 0 table.0 pool.now) self.now.from lo hi) map.old map.new }
    {
        let start = entry_of(self.page, 0, table, lo).0 - self.base.0;
        for x in lo..hi {
            let v = descriptor::load(pool, (start + 8 * (x - lo)) as usize, self.ee);
            self.note(map, x, v);
        }
    }

    // Goes through a table of the last level. Loops of its own, since most entries are here.
    fn gather_pages(&self, pool: &[u8], map: &mut [u8], table: PhysAddr, lo: u64, hi: u64)
        requires { Searched self.now.page 0 lo hi × Room self.now.from lo hi (length map.old) × (table.0 < address_limit) }
        ensures { Raises (noted (table_ends self.now 0 table.0 pool.now) self.now.from lo hi) map.old map.new }
    {
        if one_run(pool, self.base, table, self.page, lo, hi) {
            return self.gather_run(pool, map, table, lo, hi);
        }
        self.gather_each(pool, map, table, lo, hi)
    }

    // Goes through a table entry by entry. The step is uneven, up to the end of an entry's pages: so no `for`.
    #[cycle(gather_gather_entry)]
    pub fn gather(&self, pool: &[u8], map: &mut [u8], table: PhysAddr, left: u8, lo: u64, hi: u64)
        requires { Searched self.now.page left lo hi × Room self.now.from lo hi (length map.old) × (table.0 < address_limit) }
        ensures { Raises (noted (table_ends self.now left table.0 pool.now) self.now.from lo hi) map.old map.new }
    {
        // A copy of its own: a store into the map may lie anywhere, and behind the reference the search would be read again after each.
        let search = *self;
        if left == 0 {
            return search.gather_pages(pool, map, table, lo, hi);
        }
        let w = pages_in(search.page, left);
        let mut at = lo;
        while at < hi {
            let next = stop(w, at, hi);
            let entry = entry_of(search.page, left, table, at);
            search.gather_entry(pool, map, entry, left, at, next);
            at = next;
        }
    }

    // Notes the pages of an entry above the last level: all at once, or, at a table, one level down.
    #[cycle(gather_gather_entry)]
    fn gather_entry(&self, pool: &[u8], map: &mut [u8], entry: PhysAddr, left: u8, lo: u64, hi: u64)
        requires { Searched self.now.page left lo hi × Room self.now.from lo hi (length map.old) × (entry.0 < 2 ^ 49) }
        ensures { Raises (noted (entry_ends self.now left entry.0 pool.now) self.now.from lo hi) map.old map.new }
    {
        let Some(v) = lookup::fetch(pool, self.base, entry, self.ee) else {
            return;
        };
        match lookup::decode(self.page, self.limit, left, v) {
            Next::Fault(_) => {}
            Next::Table(table) => self.gather(pool, map, table, left - 1, lo, hi),
            Next::Leaf => {
                if dirty(v) {
                    bitmap::raise_run(map, (lo - self.from) as usize, (hi - self.from) as usize);
                }
            }
        }
    }
}

// The cleaning of dirty leaves: AP[2] is set again in each that is reached with all its pages among those asked for.
// Tables are gone through as by the search; pages are counted within their range. The two ways through the tables are not one, generic in what is done at a leaf:
// the search reads a pool and raises bits of a map, the cleaning writes the pool that it walks, and `Raises` and `Cleans` compose by other laws.
#![tactic(auto)]

ghost use Rattle.std.specs.Prelude.{◌≡◌, ◌+◌, ◌-◌, ◌<◌, ◌≤◌, ◌^◌, length};
ghost use Rattle.descriptor.specs.Bytes.{desc};
ghost use Rattle.vmsa.specs.Limits.{address_limit};
ghost use Rattle.gather.specs.Ends.{pages_most, Searched, OneEntry, pages_in, OneRun};
ghost use Rattle.gather.specs.Search.{table_ends, entry_ends};
ghost use Rattle.clean.specs.Clean.{whole_in, cleaned_at, Cleans, Cleanable};

use gather::Search;
use lookup::Next;
use vmsa::PhysAddr;

// The pages asked for: from the search's first page on, below to.
#[derive(Clone, Copy)]
pub struct Cleaning {
    pub search: Search,
    pub to: u64,
    pub ghost forward: { search.from ≤ to },
}

impl Cleaning {
    ghost use Rattle.clean.specs.Cleaning.{asked_by};

    // Whether the w pages around page x lie whole among those asked for.
    fn whole_in(&self, w: u64, x: u64) -> bool
        requires { (0 < w) × (w ≤ 2 ^ 39) × (x < pages_most) }
        ensures { result ≡ whole_in self.now.search.from (self.now.to - self.now.search.from) w x }
    {
        let begin = x / w * w;
        (self.search.from <= begin) & (begin + w <= self.to)
    }

    // Cleans the page of a descriptor of the last level, v, which stands at an offset of the pool.
    fn clean_at(&self, pool: &mut [u8], at: usize, v: u64)
        requires { (at + 8 ≤ length pool.old) × (v ≡ desc self.now.search.ee pool.old at) }
        ensures { pool.new ≡ cleaned_at self.now.search.ee self.now.search.page self.now.search.limit.0 at pool.old }
    {
        let search = self.search;
        if gather::page_dirty(search.page, search.limit, v) {
            descriptor::store(pool, at, descriptor::set_bit(v, vmsa::AP2), search.ee);
        }
    }

    // Goes through a table of the last level, entry by entry.
    #[tactic(auto, using(crate::proofs::Entries::cleans_none, crate::proofs::Entries::in_pool))]
    fn clean_each(&self, pool: &mut [u8], table: PhysAddr, lo: u64, hi: u64)
        requires { Searched self.now.search.page 0 lo hi × Cleanable (asked_by self.now) table.0 lo hi × (table.0 < address_limit) }
        ensures { Cleans (asked_by self.now) (table_ends self.now.search 0 table.0) lo hi pool.old pool.new }
    {
        let search = self.search;
        for x in lo..hi {
            let entry = gather::entry_of(search.page, 0, table, x);
            let Some(v) = lookup::fetch(pool, search.base, entry, search.ee) else {
                continue;
            };
            self.clean_at(pool, (entry.0 - search.base.0) as usize, v);
        }
    }

    // The same where the entries lie one after another in the pool.
    #[tactic(auto, using(crate::proofs::Entries::cleans_none))]
    fn clean_run(&self, pool: &mut [u8], table: PhysAddr, lo: u64, hi: u64)
        requires { Searched self.now.search.page 0 lo hi × Cleanable (asked_by self.now) table.0 lo hi × (table.0 < address_limit) × OneRun self.now.search.page table.0 self.now.search.base.0 (length pool.old) lo hi }
        ensures { Cleans (asked_by self.now) (table_ends self.now.search 0 table.0) lo hi pool.old pool.new }
    {
        let search = self.search;
        let start = gather::entry_of(search.page, 0, table, lo).0 - search.base.0;
        for x in lo..hi {
            let at = (start + 8 * (x - lo)) as usize;
            let v = descriptor::load(pool, at, search.ee);
            self.clean_at(pool, at, v);
        }
    }

    // Goes through a table of the last level. Loops of its own, since most entries are here.
    fn clean_pages(&self, pool: &mut [u8], table: PhysAddr, lo: u64, hi: u64)
        requires { Searched self.now.search.page 0 lo hi × Cleanable (asked_by self.now) table.0 lo hi × (table.0 < address_limit) }
        ensures { Cleans (asked_by self.now) (table_ends self.now.search 0 table.0) lo hi pool.old pool.new }
    {
        if gather::one_run(pool, self.search.base, table, self.search.page, lo, hi) {
            return self.clean_run(pool, table, lo, hi);
        }
        self.clean_each(pool, table, lo, hi)
    }

    // Goes through a table entry by entry. The step is uneven, up to the end of an entry's pages: so no `for`.
    #[cycle(clean_clean_entry)]
    #[tactic(auto, using(crate::proofs::Entries::cleans_none))]
    pub fn clean(&self, pool: &mut [u8], table: PhysAddr, left: u8, lo: u64, hi: u64)
        requires { Searched self.now.search.page left lo hi × Cleanable (asked_by self.now) table.0 lo hi × (table.0 < address_limit) }
        ensures { Cleans (asked_by self.now) (table_ends self.now.search left table.0) lo hi pool.old pool.new }
    {
        // A copy of its own: a store into the pool may lie anywhere, and behind the reference the cleaning would be read again after each.
        let cleaning = *self;
        if left == 0 {
            return cleaning.clean_pages(pool, table, lo, hi);
        }
        let w = gather::pages_in(cleaning.search.page, left);
        let mut at = lo;
        while at < hi {
            let next = gather::stop(w, at, hi);
            let entry = gather::entry_of(cleaning.search.page, left, table, at);
            cleaning.clean_entry(pool, entry, left, at, next);
            at = next;
        }
    }

    // Cleans the pages of an entry above the last level: its leaf, or, at a table, one level down.
    #[cycle(clean_clean_entry)]
    #[tactic(auto, using(crate::proofs::Entries::in_pool))]
    fn clean_entry(&self, pool: &mut [u8], entry: PhysAddr, left: u8, lo: u64, hi: u64)
        requires { Searched self.now.search.page left lo hi × Cleanable (asked_by self.now) entry.0 lo hi × OneEntry (pages_in self.now.search.page left) lo hi × (entry.0 < 2 ^ 49) }
        ensures { Cleans (asked_by self.now) (entry_ends self.now.search left entry.0) lo hi pool.old pool.new }
    {
        let search = self.search;
        let Some(v) = lookup::fetch(pool, search.base, entry, search.ee) else {
            return;
        };
        match lookup::decode(search.page, search.limit, left, v) {
            Next::Fault(_) => {}
            Next::Table(table) => self.clean(pool, table, left - 1, lo, hi),
            Next::Leaf => {
                if gather::dirty(v) & self.whole_in(gather::pages_in(search.page, left), lo) {
                    descriptor::store(
                        pool,
                        (entry.0 - search.base.0) as usize,
                        descriptor::set_bit(v, vmsa::AP2),
                        search.ee,
                    );
                }
            }
        }
    }
}

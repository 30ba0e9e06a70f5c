// When a call is refused: one test for each row of the table. Page bits and T are numbers here, as geometry takes them.
#![tactic(auto)]

ghost use Rattle.std.specs.Prelude.{◌≡◌, ◌+◌, ◌-◌, ◌^◌, ◌<◌, ◌≤◌, nat_lt};
ghost use Rattle.vmsa.specs.Granules.{Paged};
ghost use Rattle.vmsa.specs.Limits.{tsz_least, tsz_most, harvest_limit, Sized};
ghost use Rattle.refusals.specs.Tests.{memory_pool_bad, pool_address_bad, tsz_bad, sizes_bad, root_bad, roots_bad, attributes_bad, dirty_state_bad, access_size_bad, last_byte, crossing, store_address_bad, range_pages, in_range0, in_range1, page_range_bad, map_length_bad};

use vmsa::{Access, PhysAddr, Pool, Regime, VirtAddr};

// The lowest bit of each byte of a u64.
const LOWEST_BITS: u64 = 0x0101010101010101;

// Bits 1, 2, 4, 8 and 16: the sizes of an access.
const SIZES: u64 = 0x10116;

// Whether start + length is above n.
fn passes(n: usize, start: usize, length: usize) -> bool
    ensures { result ≡ nat_lt n (start + length) }
{
    if n < start {
        return true;
    }
    n - start < length
}

// 1: of the memory and the pool's part of it.
#[tactic(auto, unfolding(crate::specs::Tests::memory_pool_bad))]
pub fn memory_pool_bad(n: usize, r: Regime) -> bool
    ensures { result ≡ memory_pool_bad n r }
{
    let granule = r.granule;
    let p = granule.page_bits();
    let pool = r.pool;
    (vmsa::MEMORY_LIMIT < n)
        | geometry::unaligned(p, pool.start as u64)
        | geometry::unaligned(p, pool.length as u64)
        | (pool.length == 0)
        | (vmsa::POOL_LIMIT < pool.length)
        | passes(n, pool.start, pool.length)
}

// 2: of the pool's address.
#[tactic(auto, using(descriptor::proofs::Tests::ltb_same, descriptor::proofs::Tests::or_true), unfolding(crate::specs::Tests::pool_address_bad))]
pub fn pool_address_bad(r: Regime) -> bool
    ensures { result ≡ pool_address_bad r }
{
    let granule = r.granule;
    let p = granule.page_bits();
    let pool = r.pool;
    let address = pool.address.0;
    if vmsa::ADDRESS_LIMIT < address {
        return true;
    }
    geometry::unaligned(p, address) | (vmsa::ADDRESS_LIMIT - address < (pool.length as u64))
}

#[tactic(auto, unfolding(crate::specs::Tests::tsz_bad))]
fn tsz_bad(t: u8) -> bool
    ensures { result ≡ tsz_bad t }
{
    (t < vmsa::TSZ_LEAST) | (vmsa::TSZ_MOST < t)
}

// 3: of the sizes.
#[tactic(auto, unfolding(crate::specs::Tests::sizes_bad))]
pub fn sizes_bad(r: Regime) -> bool
    ensures { result ≡ sizes_bad r }
{
    tsz_bad(r.range0.tsz) | tsz_bad(r.range1.tsz) | (vmsa::OUTPUT_MOST < r.output)
}

#[tactic(auto, unfolding(crate::specs::Tests::root_bad))]
fn root_bad(p: u8, root: PhysAddr) -> bool
    requires { Paged p }
    ensures { result ≡ root_bad p root.0 }
{
    geometry::unaligned(p, root.0) | (vmsa::ADDRESS_LIMIT <= root.0)
}

// 4: of the roots.
#[tactic(auto, unfolding(crate::specs::Tests::roots_bad))]
pub fn roots_bad(r: Regime) -> bool
    ensures { result ≡ roots_bad r }
{
    let granule = r.granule;
    let p = granule.page_bits();
    root_bad(p, r.range0.root) | root_bad(p, r.range1.root)
}

// 5: of the attribute bytes, all eight together. The lowest bit of a byte of each number below tells of that byte:
// one of its bits 1 and 0 is set; its low half is nonzero; its high half is; it is no Device byte; it is a Normal byte.
#[tactic(auto, using(crate::proofs::Bytes::bad_of, crate::proofs::Bytes::attributes_together), unfolding(crate::proofs::Bytes::bad_of))]
pub fn attributes_bad(attributes: u64) -> bool
    ensures { result ≡ attributes_bad attributes }
{
    let pair = attributes | (attributes >> 1);
    let low = pair | (pair >> 2);
    let high = low >> 4;
    let no_device = pair | high;
    let normal = low & high;
    (no_device ^ (no_device & normal)) & LOWEST_BITS != 0
}

// 13: of the hardware's management of Access flag and dirty state.
#[tactic(auto, unfolding(crate::specs::Tests::dirty_state_bad))]
pub fn dirty_state_bad(r: Regime) -> bool
    ensures { result ≡ dirty_state_bad r }
{
    r.hd & !r.ha
}

// 6: of the access's size.
#[tactic(auto, using(descriptor::proofs::Tests::clash, descriptor::proofs::Tests::or_false, descriptor::proofs::Tests::or_none, crate::proofs::Sizes::size_bits, crate::proofs::Sizes::size_above, crate::proofs::Sizes::size_within), unfolding(crate::specs::Tests::access_size_bad))]
pub fn access_size_bad(a: Access) -> bool
    ensures { result ≡ access_size_bad a }
{
    let kind = a.kind;
    let size = a.size;
    if 16 < size {
        return true;
    }
    if !descriptor::bit(SIZES, size as u8) {
        return true;
    }
    if !(kind.is_fetch() | kind.is_probe()) {
        return false;
    }
    if kind.is_fetch() {
        return !(size == 4) | !(a.address.0 % 4 == 0);
    }
    !(size == 1)
}

// The address of the last byte, modulo 2^64.
#[tactic(auto, unfolding(crate::specs::Tests::last_byte))]
fn last_byte(a: Access) -> u64
    ensures { result ≡ last_byte a }
{
    a.address.0.wrapping_add(a.size.saturating_sub(1))
}

// 7: of the pages of the first and the last byte.
#[tactic(auto, unfolding(crate::specs::Tests::crossing))]
pub fn crosses(r: Regime, a: Access) -> bool
    ensures { result ≡ crossing r a }
{
    let granule = r.granule;
    let p = granule.page_bits();
    let last = VirtAddr(last_byte(a));
    let first_page = geometry::page_of(p, a.address);
    let last_page = geometry::page_of(p, last);
    first_page != last_page
}

// 8: of a store's address. Where the address is not below the pool's, both ends are counted from there.
#[tactic(auto, using(descriptor::proofs::Tests::ltb_same, descriptor::proofs::Tests::or_true, descriptor::proofs::Tests::or_none), unfolding(crate::specs::Tests::store_address_bad))]
pub fn store_address_bad(pool: Pool, address: PhysAddr) -> bool
    ensures { result ≡ store_address_bad pool address.0 }
{
    let at = address.0;
    let base = pool.address.0;
    if at < base {
        return true;
    }
    let length = pool.length as u64;
    if length < 8 {
        return true;
    }
    !(at % 8 == 0) | (length - 8 < at - base)
}

// How many pages a range of size field t has; with 0 for t, how many there are.
fn range_pages(p: u8, t: u8) -> u64
    requires { Paged p × (t ≤ tsz_most) }
    ensures { (result ≡ range_pages p t) × (result ≤ 2 ^ 52) }
{
    descriptor::power(64 - t - p)
}

// Whether the pages, no more than a harvest may have, are all in range 0, and in range 1: the one at the bottom has an end to keep, the other a beginning and an end.
#[tactic(auto, unfolding(crate::specs::Tests::in_range0))]
fn in_range0(p: u8, t: u8, first: u64, count: u64) -> bool
    requires { Paged p × (tsz_least ≤ t) × (t ≤ tsz_most) × (first ≤ 2 ^ 52) × (count ≤ harvest_limit) }
    ensures { result ≡ in_range0 p t first count }
{
    first + count <= range_pages(p, t)
}

#[tactic(auto, using(crate::proofs::Pages::range_most), unfolding(crate::specs::Tests::in_range1))]
fn in_range1(p: u8, t: u8, first: u64, count: u64) -> bool
    requires { Paged p × (tsz_least ≤ t) × (t ≤ tsz_most) × (first ≤ 2 ^ 52) × (count ≤ harvest_limit) }
    ensures { result ≡ in_range1 p t first count }
{
    let all = range_pages(p, 0);
    (all - range_pages(p, t) <= first) & (first + count <= all)
}

// 10: of the pages of a harvest.
#[tactic(auto, using(crate::proofs::Pages::bad_none, crate::proofs::Pages::bad_many, crate::proofs::Pages::bad_beyond, crate::proofs::Pages::bad_ranges))]
pub fn page_range_bad(r: Regime, first: u64, count: u64) -> bool
    requires { Sized r }
    ensures { result ≡ page_range_bad r first count }
{
    let granule = r.granule;
    let p = granule.page_bits();
    if count == 0 {
        return true;
    }
    if vmsa::HARVEST_LIMIT < count {
        return true;
    }
    if range_pages(p, 0) < first {
        return true;
    }
    !(in_range0(p, r.range0.tsz, first, count) | in_range1(p, r.range1.tsz, first, count))
}

// 11: of the map of a harvest.
#[tactic(auto, unfolding(crate::specs::Tests::map_length_bad))]
pub fn map_length_bad(count: u64, bytes: usize) -> bool
    requires { count ≤ harvest_limit }
    ensures { result ≡ map_length_bad count bytes }
{
    (bytes as u64) < (count + 7) / 8
}

// Steps 1 to 5 of the walk: from a guest address to a leaf descriptor, or a fault. Page bits and the levels left are numbers, as
// geometry takes them.
#![tactic(auto)]

ghost use Rattle.std.specs.Prelude.{◌≡◌, suc, ◌+◌, ◌*◌, ◌≤◌, ◌<◌, ◌^◌};
ghost use Rattle.vmsa.specs.Limits.{address_limit, tsz_least, tsz_most, output_most, Sized};
ghost use Rattle.vmsa.specs.Fields.{table_bits, sum_count};
ghost use Rattle.vmsa.specs.Granules.{Paged};
ghost use Rattle.geometry.specs.Geometry.{level_of};
ghost use Rattle.lookup.specs.Trace.{fault, ended, under_hpd, shown};
ghost use Rattle.lookup.specs.Steps.{is_table, decoded, Sound, fetched, pool_reader, context, entry_at, followed, descend, upper as upper_at, range_of, outside as outside_at, context_of, first_table, Below, locate as locate_at};
ghost use Rattle.lookup.specs.Packing.{kind_number, kind_numbered, joined, packed, Packs};

use vmsa::{FaultKind, Leaf, PhysAddr, Range, Regime, VirtAddr};

// How many values the digits of a packed lookup have, and the number of a leaf; specs/Packing.antt has the same numbers.
const LEVELS: u64 = 4;

const ENDINGS: u64 = 8;

const SUMS: u64 = 16;

const LEAF: u64 = 6;

// What the levels of one lookup share: the pool's address, the end of the output addresses,
// the guest address below its range's size, and the page bits of the granule.
#[derive(Clone, Copy)]
pub struct Context {
    pub base: PhysAddr,
    pub limit: PhysAddr,
    pub input: VirtAddr,
    pub page: u8,
}

// What a descriptor says. Three cases of equal standing: a Result of an Option would hide the leaf in a None.
#[derive(Clone, Copy)]
pub enum Next {
    Fault(FaultKind),
    Table(PhysAddr),
    Leaf,
}

// The leaf that a lookup finds: its descriptor's address, and the leaf.
#[derive(Clone, Copy)]
pub struct LeafAt {
    pub address: PhysAddr,
    pub leaf: Leaf,
}

// The fault that a lookup ends in, and its level.
#[derive(Clone, Copy)]
pub struct FaultAt {
    pub kind: FaultKind,
    pub level: u8,
}

// How a lookup ends, after so many reads.
#[derive(Clone, Copy)]
pub struct Located {
    pub end: Result<LeafAt, FaultAt>,
    pub reads: u8,
}

#[tactic(auto, unfolding(crate::specs::Trace::shown))]
// A lookup that ends in a fault.
fn failed(kind: FaultKind, level: u8, reads: u8) -> Located
    ensures { result ≡ shown reads (ended (fault kind level)) }
{
    Located {
        end: Err(FaultAt {
            kind: kind,
            level: level,
        }),
        reads: reads,
    }
}

// The number of a fault kind.
fn kind_number(kind: FaultKind) -> u64
    ensures { (result ≡ kind_number kind) × (result ≤ 5) }
{
    match kind {
        FaultKind::AddressSize => 0,
        FaultKind::Translation => 1,
        FaultKind::AccessFlag => 2,
        FaultKind::Permission => 3,
        FaultKind::ExternalAbort => 4,
        FaultKind::Alignment => 5,
    }
}

// The fault kind of a number.
#[tactic(auto, unfolding(crate::specs::Packing::kind_numbered))]
fn kind_numbered(number: u64) -> FaultKind
    ensures { result ≡ kind_numbered number }
{
    match number {
        0 => FaultKind::AddressSize,
        1 => FaultKind::Translation,
        2 => FaultKind::AccessFlag,
        3 => FaultKind::Permission,
        4 => FaultKind::ExternalAbort,
        _ => FaultKind::Alignment,
    }
}

// How a lookup ends, in one number and not a Result: a struct handed up the levels took 3.7 times the plain version's time, where at most 3 is wanted (docs/PERFORMANCE.md).
// number is that of the fault kind or of a leaf; sum and address are the tables' sum and the descriptor's address of a leaf, or 0.
#[tactic(auto, unfolding(crate::specs::Packing::joined))]
fn pack(left: u8, number: u64, sum: u64, address: PhysAddr) -> u64
    requires { (left ≤ 3) × (number ≤ 6) × (sum < sum_count) × (address.0 < 2 ^ 49) }
    ensures { result ≡ joined (level_of left) number sum address.0 }
{
    let end = number + ENDINGS * (sum + SUMS * address.0);
    geometry::level(left) as u64 + LEVELS * end
}

#[tactic(auto, unfolding(crate::specs::Steps::is_table))]
fn is_table(left: u8, v: u64) -> bool
    ensures { result ≡ is_table left v }
{
    descriptor::bit(v, 1) & !(left == 0)
}

// Steps 4 and 5: what the descriptor v says at a level. A table is asked for first, since most descriptors on a way are tables.
#[tactic(auto, unfolding(crate::specs::Steps::decoded, crate::specs::Steps::invalid, crate::specs::Steps::is_table, crate::specs::Steps::address_in))]
pub fn decode(p: u8, limit: PhysAddr, left: u8, v: u64) -> Next
    requires { Paged p × (left ≤ 3) }
    ensures { (result ≡ decoded p limit.0 left v) × Sound left result }
{
    if !descriptor::bit(v, 0) {
        return Next::Fault(FaultKind::Translation);
    }
    if is_table(left, v) {
        let table = PhysAddr(geometry::table_in(p, v));
        if limit.0 <= table.0 {
            return Next::Fault(FaultKind::AddressSize);
        }
        return Next::Table(table);
    }
    if !descriptor::bit(v, 1) & !geometry::block_at(p, left) {
        return Next::Fault(FaultKind::Translation);
    }
    if limit.0 <= geometry::output_in(p, left, v) {
        return Next::Fault(FaultKind::AddressSize);
    }
    Next::Leaf
}

// Step 3: the descriptor at an address, where it lies in the pool, whose first byte has the address base; big-endian where ee holds.
#[tactic(auto, unfolding(crate::specs::Steps::fetched))]
pub fn fetch(pool: &[u8], base: PhysAddr, at: PhysAddr, ee: bool) -> Option<u64>
    requires { at.0 < 2 ^ 49 }
    ensures { result ≡ fetched ee pool.now base.0 at.0 }
{
    if at.0 < base.0 {
        return None;
    }
    let offset = (at.0 - base.0) as usize;
    if pool.len() < offset + 8 {
        return None;
    }
    Some(descriptor::load(pool, offset, ee))
}

// The address of a table's entry at a level.
#[tactic(auto, unfolding(crate::specs::Steps::entry_at))]
pub fn entry_at(c: Context, left: u8, table: PhysAddr) -> PhysAddr
    requires { Paged c.page × (left ≤ 3) × (table.0 < address_limit) }
    ensures { (result.0 ≡ entry_at c left table.0) × (result.0 < 2 ^ 49) }
{
    let p = c.page;
    PhysAddr(table.0 + 8 * (c.input.0 / geometry::span(p, left) % geometry::entries(p)))
}

// Bits 62 to 59 of a table descriptor.
#[tactic(auto, unfolding(vmsa::specs::Fields::table_bits))]
pub fn table_bits(v: u64) -> u64
    ensures { (result ≡ table_bits v) × (result < sum_count) }
{
    descriptor::field(v, vmsa::TABLE_START, vmsa::TABLE_WIDTH)
}

// Reads the entry of a table, and follows it. met is the descriptors of the tables on the way, or-ed: its bits 62 to 59 are their sum, the others have no say.
// The pool and the byte order are the same at every level and yet beside the Context, which is what the definition context_of has; the others differ.
#[cycle(enter_follow)]
fn enter(pool: &[u8], ee: bool, c: &Context, table: PhysAddr, left: u8, met: u64) -> u64
    requires { Paged c.now.page × (left ≤ 3) × (table.0 < address_limit) }
    ensures { result ≡ packed (descend c.now (fetched ee pool.now c.now.base.0) (suc left) (table_bits met) table.0) }
{
    let at = entry_at(*c, left, table);
    let Some(v) = fetch(pool, c.base, at, ee) else {
        return pack(left, kind_number(FaultKind::ExternalAbort), 0, PhysAddr(0));
    };
    follow(pool, ee, c, at, left, met, v)
}

// Decodes the descriptor v at an address, and descends at a table.
#[cycle(enter_follow)]
fn follow(pool: &[u8], ee: bool, c: &Context, at: PhysAddr, left: u8, met: u64, v: u64) -> u64
    requires { Paged c.now.page × (left ≤ 3) × (at.0 < 2 ^ 49) }
    ensures { result ≡ packed (followed c.now (descend c.now (fetched ee pool.now c.now.base.0) left) (table_bits met) left at.0 v) }
{
    match decode(c.page, c.limit, left, v) {
        Next::Fault(kind) => pack(left, kind_number(kind), 0, PhysAddr(0)),
        Next::Table(table) => enter(pool, ee, c, table, left - 1, met | v),
        Next::Leaf => pack(left, LEAF, table_bits(met), at),
    }
}

// A packed lookup over the pool, taken apart: a read for each level from the first on, the leaf read again, and the tables' sum where HPD is off.
fn unpack(pool: &[u8], ee: bool, base: PhysAddr, hpd: bool, first: u8, n: u64) -> Located
    requires { Packs ee pool.now base.0 first n }
    ensures { (p : Packs ee pool.now base.0 first n) → result ≡ shown 0 (under_hpd hpd p.trace) }
{
    let level = (n % LEVELS) as u8;
    let reads = level + 1 - first;
    let end = n / LEVELS;
    let number = end % ENDINGS;
    if number != LEAF {
        return failed(kind_numbered(number), level, reads);
    }
    let sum = end / ENDINGS % SUMS;
    let address = end / ENDINGS / SUMS;
    Located {
        end: Ok(LeafAt {
            address: PhysAddr(address),
            leaf: Leaf {
                value: descriptor::load(pool, (address - base.0) as usize, ee),
                left: geometry::level(level),
                tables: descriptor::select(hpd, 0, sum) as u8,
            },
        }),
        reads: reads,
    }
}

#[tactic(auto, unfolding(crate::specs::Steps::upper))]
fn upper(a: VirtAddr) -> bool
    ensures { result ≡ upper_at a.0 }
{
    descriptor::bit(a.0, 55)
}

// The range of an address. That a regime is Sized, its callers have from the checks; a type for it would be built again at each entry point.
#[tactic(auto, unfolding(crate::specs::Steps::range_of))]
pub fn range_of(r: Regime, a: VirtAddr) -> Range
    requires { Sized r }
    ensures { (result ≡ range_of r a.0) × (tsz_least ≤ result.tsz) × (result.tsz ≤ tsz_most) }
{
    if upper(a) { r.range1 } else { r.range0 }
}

// Whether an address lies outside a range of size field t.
#[tactic(auto, unfolding(crate::specs::Steps::outside))]
pub fn outside(t: u8, a: VirtAddr) -> bool
    requires { (tsz_least ≤ t) × (t ≤ tsz_most) }
    ensures { result ≡ outside_at t a.0 }
{
    a.0 / descriptor::power(64 - t) != descriptor::select(upper(a), descriptor::power(t) - 1, 0)
}

// Where steps 1 and 2 lead, range being that of the address: to the table of the first level, or to a fault before any descriptor is read.
#[tactic(auto, unfolding(crate::specs::Steps::first_table))]
pub fn first_table(r: Regime, range: Range, a: VirtAddr) -> Result<PhysAddr, FaultKind>
    requires { (range ≡ range_of r a.0) × (tsz_least ≤ range.tsz) × (range.tsz ≤ tsz_most) × (r.output ≤ output_most) }
    ensures { (result ≡ first_table r a.0) × Below result }
{
    if range.disabled | outside(range.tsz, a) {
        return Err(FaultKind::Translation);
    }
    let root = range.root;
    if geometry::output_limit(r.output) <= root.0 {
        return Err(FaultKind::AddressSize);
    }
    Ok(root)
}

// What the levels of a lookup share, range being that of the address.
#[tactic(auto, unfolding(crate::specs::Steps::context_of))]
pub fn context_of(r: Regime, range: Range, a: VirtAddr) -> Context
    requires { (range ≡ range_of r a.0) × (tsz_least ≤ range.tsz) × (range.tsz ≤ tsz_most) × (r.output ≤ output_most) }
    ensures { (result ≡ context_of r a.0) × Paged result.page }
{
    let base = r.pool.address;
    let granule = r.granule;
    Context {
        base: base,
        limit: PhysAddr(geometry::output_limit(r.output)),
        input: VirtAddr(a.0 % descriptor::power(64 - range.tsz)),
        page: granule.page_bits(),
    }
}

// Steps 1 to 5.
pub fn locate(pool: &[u8], r: Regime, a: VirtAddr) -> Located
    requires { Sized r }
    ensures { result ≡ shown 0 (locate_at r (pool_reader r pool.now) a.0) }
{
    let range = range_of(r, a);
    match first_table(r, range, a) {
        Err(kind) => failed(kind, 0, 0),
        Ok(root) => {
            let c = context_of(r, range, a);
            let left = geometry::first_left(c.page, range.tsz);
            let n = enter(pool, r.ee, &c, root, left, 0);
            unpack(pool, r.ee, c.base, range.hpd, geometry::level(left), n)
        }
    }
}

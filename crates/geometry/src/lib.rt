// The geometry of the tables, for any granule: pages, levels, what an entry maps, the addresses in a descriptor.
// Page bits and the levels left are numbers, and some steps take any page bits up to 16: a Granule in their place would ask more of a caller.
#![tactic(auto)]

ghost use Rattle.std.specs.Prelude.{◌≡◌, ◌≤◌, ◌<◌, ◌^◌};
ghost use Rattle.vmsa.specs.Granules.{Paged};
ghost use Rattle.vmsa.specs.Limits.{tsz_least, tsz_most, output_most, address_limit};
ghost use Rattle.geometry.specs.Geometry.{page_size as page_size_of, unaligned as unaligned_at, page_of, level_of, stride_bits, shift_of, span as span_of, block_at, first_left, cut as cut_at, output_limit};

use vmsa::VirtAddr;

// The bytes of a page, and of a table.
#[tactic(auto, unfolding(crate::specs::Geometry::page_size))]
pub fn page_size(p: u8) -> u64
    requires { p ≤ 16 }
    ensures { (result ≡ page_size_of p) × (0 < result) }
{
    descriptor::power(p)
}

#[tactic(auto, unfolding(crate::specs::Geometry::unaligned))]
pub fn unaligned(p: u8, x: u64) -> bool
    requires { p ≤ 16 }
    ensures { result ≡ unaligned_at p x }
{
    x % page_size(p) != 0
}

// The page number of an address.
#[tactic(auto, unfolding(crate::specs::Geometry::page_of))]
pub fn page_of(p: u8, a: VirtAddr) -> u64
    requires { p ≤ 16 }
    ensures { result ≡ page_of p a.0 }
{
    a.0 / page_size(p)
}

// How many entries a table has.
pub fn entries(p: u8) -> u64
    requires { Paged p }
    ensures { (result ≡ 2 ^ stride_bits p) × (0 < result) × (result ≤ 8192) }
{
    descriptor::power(p - 3)
}

// The level, from the levels left below it.
#[tactic(auto, unfolding(crate::specs::Geometry::level_of))]
pub fn level(left: u8) -> u8
    requires { left ≤ 3 }
    ensures { result ≡ level_of left }
{
    3 - left
}

// The lowest address bit of a level's index.
#[tactic(auto, using(crate::proofs::Geometry::stride_le), unfolding(crate::specs::Geometry::shift_of))]
fn shift_of(p: u8, left: u8) -> u64
    requires { Paged p × (left ≤ 3) }
    ensures { (result ≡ shift_of p left) × (result ≤ 55) }
{
    let bits = p as u64;
    bits + (bits - 3) * (left as u64)
}

// How many bytes an entry of a level maps.
#[tactic(auto, using(crate::proofs::Geometry::span_le, crate::proofs::Geometry::span_pos), unfolding(crate::specs::Geometry::span))]
pub fn span(p: u8, left: u8) -> u64
    requires { Paged p × (left ≤ 3) }
    ensures { (result ≡ span_of p left) × (0 < result) × (result ≤ 2 ^ 55) }
{
    1u64 << shift_of(p, left)
}

// Whether a level has blocks.
#[tactic(auto, unfolding(crate::specs::Geometry::block_at))]
pub fn block_at(p: u8, left: u8) -> bool
    requires { Paged p × (left ≤ 3) }
    ensures { result ≡ block_at p left }
{
    (1 <= left) & (shift_of(p, left) <= 30)
}

// The levels left at the first level of a range.
#[tactic(auto, using(crate::proofs::Geometry::in_level), unfolding(crate::specs::Geometry::first_left))]
pub fn first_left(p: u8, t: u8) -> u8
    requires { Paged p × (tsz_least ≤ t) × (t ≤ tsz_most) }
    ensures { (result ≡ first_left p t) × (result ≤ 3) }
{
    let stride = p - 3;
    let bits = 63 - t - p;
    if bits < stride {
        return 0;
    }
    if bits < 2 * stride {
        return 1;
    }
    if bits < 3 * stride {
        return 2;
    }
    3
}

// The address in bits 47 down to n.
#[tactic(auto, using(crate::proofs::Geometry::cut_lt), unfolding(crate::specs::Geometry::cut))]
fn cut(v: u64, n: u64) -> u64
    requires { n < 64 }
    ensures { (result ≡ cut_at v (2 ^ n)) × (result < address_limit) }
{
    v % vmsa::ADDRESS_LIMIT >> n << n
}

// The address of a table in its descriptor.
#[tactic(auto, unfolding(crate::specs::Geometry::page_size))]
pub fn table_in(p: u8, v: u64) -> u64
    requires { p ≤ 16 }
    ensures { (result ≡ cut_at v (page_size_of p)) × (result < address_limit) }
{
    cut(v, p as u64)
}

// The output address in the descriptor of a block or page.
#[tactic(auto, unfolding(crate::specs::Geometry::span))]
pub fn output_in(p: u8, left: u8, v: u64) -> u64
    requires { Paged p × (left ≤ 3) }
    ensures { (result ≡ cut_at v (span_of p left)) × (result < address_limit) }
{
    cut(v, shift_of(p, left))
}

// The end of the output addresses, by the code that a regime has: a table of the rules.
#[tactic(auto, unfolding(crate::specs::Geometry::output_limit, crate::specs::Geometry::output_bits))]
pub fn output_limit(code: u8) -> u64
    requires { code ≤ output_most }
    ensures { (result ≡ output_limit code) × (result ≤ address_limit) }
{
    match code {
        0 => 4294967296,
        1 => 68719476736,
        2 => 1099511627776,
        3 => 4398046511104,
        4 => 17592186044416,
        _ => 281474976710656,
    }
}

// The order in which a call is checked: the first row of the table that applies gives the refusal.
#![tactic(auto)]

ghost use Rattle.std.specs.Prelude.{◌≡◌};
ghost use Rattle.vmsa.specs.Limits.{Sized};
ghost use Rattle.checks.specs.Order.{and_then, tables_check, regime_check, access_check, walk_check, start_check, asked_check, harvest_check, session_access_check, session_store_check};

use refusals::{
    access_size_bad, attributes_bad, crosses, dirty_state_bad, map_length_bad, memory_pool_bad,
    page_range_bad, pool_address_bad, roots_bad, sizes_bad, store_address_bad,
};
use vmsa::{Access, PhysAddr, Refusal, Regime};

// The settings of a regime that do not speak of its pool.
#[tactic(auto, unfolding(crate::specs::Order::tables_check))]
fn check_tables(r: Regime) -> Result<(), Refusal>
    ensures { result ≡ tables_check r }
{
    if sizes_bad(r) {
        return Err(Refusal::Sizes);
    }
    if roots_bad(r) {
        return Err(Refusal::Root);
    }
    if attributes_bad(r.attributes) {
        return Err(Refusal::Attributes);
    }
    if dirty_state_bad(r) {
        return Err(Refusal::DirtyState);
    }
    Ok(())
}

// Setting a regime over a memory of n bytes.
#[tactic(auto, unfolding(crate::specs::Order::regime_check, crate::specs::Order::tables_check))]
pub fn check_regime(n: usize, r: Regime) -> Result<(), Refusal>
    ensures { result ≡ regime_check n r }
{
    if memory_pool_bad(n, r) {
        return Err(Refusal::MemoryPool);
    }
    if pool_address_bad(r) {
        return Err(Refusal::PoolAddress);
    }
    check_tables(r)
}

// An access by itself, under a regime.
#[tactic(auto, unfolding(crate::specs::Order::access_check))]
pub fn check_access(r: Regime, a: Access) -> Result<(), Refusal>
    ensures { result ≡ access_check r a }
{
    if access_size_bad(a) {
        return Err(Refusal::AccessSize);
    }
    if crosses(r, a) {
        return Err(Refusal::PageCrossing);
    }
    Ok(())
}

// One check, and then an access by itself.
fn then_access(first: Result<(), Refusal>, r: Regime, a: Access) -> Result<(), Refusal>
    ensures { result ≡ and_then first (access_check r a) }
{
    first?;
    check_access(r, a)
}

// A plain walk over a memory of n bytes.
#[tactic(auto, using(crate::proofs::Rows::walk_apart))]
pub fn check_walk(n: usize, r: Regime, a: Access) -> Result<(), Refusal>
    ensures { result ≡ walk_check n r a }
{
    then_access(check_regime(n, r), r, a)
}

// A walk a descriptor at a time.
#[tactic(auto, using(crate::proofs::Rows::start_apart))]
pub fn check_start(r: Regime, a: Access) -> Result<(), Refusal>
    ensures { result ≡ start_check r a }
{
    then_access(check_tables(r), r, a)
}

// The pages of a harvest, under a regime, and its map of so many bytes.
#[tactic(auto, unfolding(crate::specs::Order::asked_check))]
fn check_asked(r: Regime, first: u64, count: u64, bytes: usize) -> Result<(), Refusal>
    requires { Sized r }
    ensures { result ≡ asked_check r first count bytes }
{
    if page_range_bad(r, first, count) {
        return Err(Refusal::PageRange);
    }
    if map_length_bad(count, bytes) {
        return Err(Refusal::MapLength);
    }
    Ok(())
}

// A harvest over a memory of n bytes, with a map of so many bytes.
#[tactic(auto, using(crate::proofs::Rows::harvest_apart, crate::proofs::Accept::settled))]
pub fn check_harvest(
    n: usize,
    r: Regime,
    first: u64,
    count: u64,
    bytes: usize,
) -> Result<(), Refusal>
    ensures { result ≡ harvest_check n r first count bytes }
{
    check_regime(n, r)?;
    check_asked(r, first, count, bytes)
}

// An access in a session that has a regime, over a memory of n bytes.
#[tactic(auto, unfolding(crate::specs::Order::session_access_check, crate::specs::Order::access_check))]
pub fn check_session_access(n: usize, r: Regime, a: Access) -> Result<(), Refusal>
    ensures { result ≡ session_access_check n r a }
{
    if memory_pool_bad(n, r) {
        return Err(Refusal::MemoryPool);
    }
    check_access(r, a)
}

// A store in a session that has a regime, over a memory of n bytes.
#[tactic(auto, unfolding(crate::specs::Order::session_store_check))]
pub fn check_session_store(n: usize, r: Regime, address: PhysAddr) -> Result<(), Refusal>
    ensures { result ≡ session_store_check n r address.0 }
{
    if memory_pool_bad(n, r) {
        return Err(Refusal::MemoryPool);
    }
    if store_address_bad(r.pool, address) {
        return Err(Refusal::StoreAddress);
    }
    Ok(())
}

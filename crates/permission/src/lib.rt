// What a leaf permits under the tables above it: the tests of steps 6 to 8 of the walk.
#![tactic(auto)]

ghost use Rattle.std.specs.Prelude.{◌≡◌, ◌<◌};
ghost use Rattle.descriptor.specs.Bits.{bit as bit_of};
ghost use Rattle.permission.specs.Permission.{attribute_of, writable as writable_of, clean as clean_of, user as user_of, uxn as uxn_of, pxn as pxn_of, may_read, may_fetch_with, permitted as permitted_of, misaligned as misaligned_of, flag_fails, alignment_fails, permission_fails};

use vmsa::{Access, Leaf, Regime};

// The attribute byte of a leaf.
#[tactic(auto, unfolding(crate::specs::Permission::attribute_of))]
pub fn attribute_of(r: Regime, l: Leaf) -> u8
    ensures { result ≡ attribute_of r l }
{
    let index = descriptor::field(l.value, 2, 3) as u8;
    vmsa::attribute(r.attributes, index)
}

// Whether the tables above a leaf have a bit.
fn below(l: Leaf, n: u8) -> bool
    requires { n < 8 }
    ensures { result ≡ bit_of n l.tables }
{
    descriptor::bit(l.tables as u64, n)
}

// W (RULES 7.1): writable, clean or dirty.
#[tactic(auto, unfolding(crate::specs::Permission::writable))]
pub fn writable(r: Regime, l: Leaf) -> bool
    ensures { result ≡ writable_of r l }
{
    !below(l, vmsa::NO_WRITE_BELOW)
        & (!descriptor::bit(l.value, vmsa::AP2) | descriptor::bit(l.value, vmsa::DBM) & r.ha & r.hd)
}

// Writable-clean: a write would make it dirty.
#[tactic(auto, unfolding(crate::specs::Permission::clean))]
pub fn clean(r: Regime, l: Leaf) -> bool
    ensures { result ≡ clean_of r l }
{
    descriptor::bit(l.value, vmsa::AP2) & writable(r, l)
}

// AP[1], UXN and PXN as they count under the tables above.
#[tactic(auto, unfolding(crate::specs::Permission::user))]
fn user(l: Leaf) -> bool
    ensures { result ≡ user_of l }
{
    if descriptor::bit(l.value, vmsa::AP1) {
        return !below(l, vmsa::NO_USER_BELOW);
    }
    false
}

#[tactic(auto, unfolding(crate::specs::Permission::uxn))]
fn uxn(l: Leaf) -> bool
    ensures { result ≡ uxn_of l }
{
    descriptor::bit(l.value, vmsa::UXN) | below(l, vmsa::UXN_BELOW)
}

#[tactic(auto, unfolding(crate::specs::Permission::pxn))]
fn pxn(l: Leaf) -> bool
    ensures { result ≡ pxn_of l }
{
    descriptor::bit(l.value, vmsa::PXN) | below(l, vmsa::PXN_BELOW)
}

#[tactic(auto, unfolding(crate::specs::Permission::may_read))]
fn may_read(el0: bool, l: Leaf) -> bool
    ensures { result ≡ may_read el0 l }
{
    !el0 | user(l)
}

// w is W, worked out once; the regime is not handed on. Both keep a hit short (DECISIONS 68).
#[tactic(auto, unfolding(crate::specs::Permission::may_fetch_with))]
fn may_fetch(wxn: bool, el0: bool, w: bool, l: Leaf) -> bool
    ensures { result ≡ may_fetch_with wxn el0 w l }
{
    let u = user(l);
    let from_el0 = !(uxn(l) | wxn & u & w);
    let from_el1 = !(pxn(l) | u & w | wxn & w);
    descriptor::select(el0, from_el0, from_el1)
}

// Whether a leaf permits an access; a read asks nothing of W.
#[tactic(auto, unfolding(crate::specs::Permission::permitted, crate::specs::Permission::may_write, crate::specs::Permission::may_fetch))]
pub fn permitted(r: Regime, a: Access, l: Leaf) -> bool
    ensures { result ≡ permitted_of r a l }
{
    let kind = a.kind;
    let fetch = kind.is_fetch();
    if fetch | kind.asks_write() {
        let w = writable(r, l);
        if fetch {
            return may_fetch(r.wxn, a.el0, w, l);
        }
        return may_read(a.el0, l) & w;
    }
    may_read(a.el0, l)
}

// A read, write or update whose address is not a multiple of its size. The size is not 0, since row 6 let it through; an Access has any.
#[tactic(auto, unfolding(crate::specs::Permission::misaligned))]
pub fn misaligned(a: Access) -> bool
    requires { 0 < a.size }
    ensures { result ≡ misaligned_of a }
{
    let kind = a.kind;
    !(kind.is_fetch() | kind.is_probe()) & !(a.address.0 % a.size == 0)
}

// Step 6: the Access flag is clear, and nothing sets it.
#[tactic(auto, unfolding(crate::specs::Permission::flag_fails))]
pub fn flag_fails(r: Regime, l: Leaf) -> bool
    ensures { result ≡ flag_fails r l }
{
    !descriptor::bit(l.value, vmsa::AF) & !r.ha
}

// Step 7: misaligned, on Device memory.
#[tactic(auto, unfolding(crate::specs::Permission::alignment_fails))]
pub fn alignment_fails(r: Regime, a: Access, l: Leaf) -> bool
    requires { 0 < a.size }
    ensures { result ≡ alignment_fails r a l }
{
    if vmsa::device(attribute_of(r, l)) {
        return misaligned(a);
    }
    false
}

// Step 8: not permitted, or a fetch from Device memory.
#[tactic(auto, unfolding(crate::specs::Permission::permission_fails))]
pub fn permission_fails(r: Regime, a: Access, l: Leaf) -> bool
    ensures { result ≡ permission_fails r a l }
{
    if permitted(r, a, l) {
        let kind = a.kind;
        if kind.is_fetch() {
            return vmsa::device(attribute_of(r, l));
        }
        return false;
    }
    true
}

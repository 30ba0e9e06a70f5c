// A descriptor of 8 bytes in lent memory, and the bits of a descriptor.
#![tactic(auto)]

ghost use Rattle.std.specs.Prelude.{◌≡◌, ◌+◌, ◌≤◌, ◌<◌, ◌^◌, length};
ghost use Rattle.descriptor.specs.Bytes.{desc, put};
ghost use Rattle.descriptor.specs.Bits.{pick, bit as bit_of, field as field_of, set_bit, clear_bit};

// The descriptor at an offset, big-endian where ee holds. Both orders and a select become one load and a byte swap.
// Byte by byte and not as a part of 8: of a part the compiler makes vectors in the cleaning of a harvest, which misses its bar (docs/PERFORMANCE.md).
pub fn load(memory: &[u8], at: usize, ee: bool) -> u64
    requires { at + 8 ≤ length memory.now }
    ensures { result ≡ desc ee memory.now at }
{
    let bytes = [
        memory[at],
        memory[at + 1],
        memory[at + 2],
        memory[at + 3],
        memory[at + 4],
        memory[at + 5],
        memory[at + 6],
        memory[at + 7],
    ];
    select(ee, u64::from_be_bytes(bytes), u64::from_le_bytes(bytes))
}

// Writes a descriptor at an offset, big-endian where ee holds, and no other byte.
pub fn store(memory: &mut [u8], at: usize, value: u64, ee: bool)
    requires { at + 8 ≤ length memory.old }
    ensures { memory.new ≡ put ee memory.old at value }
{
    let bytes = select(ee, value.to_be_bytes(), value.to_le_bytes());
    memory[at..at + 8].copy_from_slice(&bytes);
}

// x where b holds, or else y.
pub fn select<T: Copy>(b: bool, x: T, y: T) -> T
    ensures { result ≡ pick b x y }
{
    if b { x } else { y }
}

// 2 to the k, which divides and multiplies as a shift.
pub fn power(k: u8) -> u64
    requires { k < 64 }
    ensures { (result ≡ 2 ^ k) × (0 < result) }
{
    1u64 << k
}

// Whether bit n of v is 1. n is a number and no type of its own, since each use has a constant.
pub fn bit(v: u64, n: u8) -> bool
    requires { n < 64 }
    ensures { result ≡ bit_of n v }
{
    (v >> n) % 2 == 1
}

// The field of v that is w bits wide and starts at bit n.
pub fn field(v: u64, n: u8, w: u8) -> u64
    requires { (n < 64) × (w < 64) }
    ensures { (result ≡ field_of n w v) × (result < 2 ^ w) }
{
    (v >> n) % power(w)
}

// v with bit n set.
#[tactic(auto, unfolding(crate::specs::Bits::set_bit))]
pub fn set_bit(v: u64, n: u8) -> u64
    requires { n < 64 }
    ensures { result ≡ set_bit n v }
{
    if bit(v, n) {
        return v;
    }
    v + power(n)
}

// v with bit n cleared.
#[tactic(auto, unfolding(crate::specs::Bits::clear_bit))]
pub fn clear_bit(v: u64, n: u8) -> u64
    requires { n < 64 }
    ensures { result ≡ clear_bit n v }
{
    if bit(v, n) {
        return v - power(n);
    }
    v
}

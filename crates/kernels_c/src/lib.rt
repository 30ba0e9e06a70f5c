// The static library of kernels: its functions, exported to C with their contracts.
#![tactic(auto)]

ghost use Rattle.std.specs.Prelude.{◌≡◌, ◌+◌, not, eqb, ltb, length};
ghost use Rattle.descriptor.specs.Bytes.{desc, put};
ghost use Rattle.descriptor.specs.Bits.{pick};

// The descriptor at an offset, big-endian where ee is not 0; 0 where it does not lie wholly in the memory.
#[unsafe(no_mangle)]
pub extern "C" fn vmsa_descriptor_load(memory: &[u8], at: usize, ee: u8) -> u64
    ensures { result ≡ pick (ltb (length memory.now) (at + 8)) 0 (desc (not (eqb ee 0)) memory.now at) }
{
    kernels::vmsa_descriptor_load(memory, at, ee)
}

// Writes a descriptor at an offset, big-endian where ee is not 0, and no other byte; nothing where it does not lie wholly in the memory.
#[unsafe(no_mangle)]
pub extern "C" fn vmsa_descriptor_store(memory: &mut [u8], at: usize, value: u64, ee: u8)
    ensures { memory.new ≡ pick (ltb (length memory.old) (at + 8)) memory.old (put (not (eqb ee 0)) memory.old at value) }
{
    kernels::vmsa_descriptor_store(memory, at, value, ee);
}

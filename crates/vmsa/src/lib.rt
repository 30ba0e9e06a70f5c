// VMSAv8-64: addresses, the translation regime, an access, its answer.
#![tactic(auto)]

ghost use Rattle.std.specs.Prelude.{◌≡◌, ◌<◌, false};
ghost use Rattle.vmsa.specs.Kinds.{is_fetch, is_probe, asks_write, writes as writes_of};
ghost use Rattle.vmsa.specs.Attributes.{attribute as attribute_of, device as device_of};
ghost use Rattle.vmsa.specs.Answers.{number_of, code_of, view, cacheable_in, dirtied_in};
ghost use Rattle.vmsa.specs.Granules.{page_bits, Paged};
ghost use Rattle.vmsa.specs.Words.{granule_number, granule_numbered, regime_of, regime_words};
ghost use Rattle.vmsa.specs.Settings.{initial, with_pool, with_range0, with_range1, with_hpd0, with_hpd1, with_output, with_ha, with_hd, with_wxn, with_ee, with_granule, with_attributes};

// The limits of the pool, the memory and the regime; specs/Limits.antt has the same numbers.
pub const MEMORY_LIMIT: usize = 16777216;

pub const POOL_LIMIT: usize = 1048576;

pub const ADDRESS_LIMIT: u64 = 281474976710656;

pub const TSZ_LEAST: u8 = 16;

pub const TSZ_MOST: u8 = 39;

pub const OUTPUT_MOST: u8 = 5;

pub const HARVEST_LIMIT: u64 = 65536;

// Bits of a leaf descriptor; specs/Fields.antt has the same numbers.
pub const AP1: u8 = 6;

pub const AP2: u8 = 7;

pub const AF: u8 = 10;

pub const NG: u8 = 11;

pub const DBM: u8 = 51;

pub const PXN: u8 = 53;

pub const UXN: u8 = 54;

// The bits of a table descriptor that count below it: where they start, and how many; and the bits of their sum.
pub const TABLE_START: u8 = 59;

pub const TABLE_WIDTH: u8 = 4;

pub const PXN_BELOW: u8 = 0;

pub const UXN_BELOW: u8 = 1;

pub const NO_USER_BELOW: u8 = 2;

pub const NO_WRITE_BELOW: u8 = 3;

// A physical address: any number, since a caller's may be. What one is below is said where it is needed.
#[derive(Clone, Copy, PartialEq, Eq, Debug)]
pub struct PhysAddr(pub u64);

// An address of the guest.
#[derive(Clone, Copy, PartialEq, Eq, Debug)]
pub struct VirtAddr(pub u64);

// The table pool: its part of the lent memory, and the physical address of its first byte. The part is two numbers, as a caller
// names it; whatever uses it has it as a slice.
#[derive(Clone, Copy)]
pub struct Pool {
    pub start: usize,
    pub length: usize,
    pub address: PhysAddr,
}

// One of the two ranges of guest addresses: its root table, its size field T, its disabled bit,
// and HPD, with which bits of its tables do not count. T is any number: row 3 refuses those that are no size.
#[derive(Clone, Copy)]
pub struct Range {
    pub root: PhysAddr,
    pub tsz: u8,
    pub disabled: bool,
    pub hpd: bool,
}

// The translation granule: the size of a page and of a table.
#[derive(Clone, Copy, PartialEq, Eq, Debug)]
pub enum Granule {
    Kib4,
    Kib16,
    Kib64,
}

// A translation regime: stage 1 of EL1&0. output: Arm's code of the output size, as any number: row 3 refuses those that are no code.
// ee: its descriptors are big-endian.
#[derive(Clone, Copy)]
pub struct Regime {
    pub pool: Pool,
    pub range0: Range,
    pub range1: Range,
    pub output: u8,
    pub ha: bool,
    pub hd: bool,
    pub wxn: bool,
    pub ee: bool,
    pub granule: Granule,
    pub attributes: u64,
}

// A regime as numbers, for where any bytes may stand (the C interface): a flag is true where its byte is not 0; granule as in Arm's field TG0, 0 for 4, 1 for 64, 2 for 16 KiB, and any other number is taken as 4 KiB. The spare ones have no say, and are 0 in what we return.
#[repr(C)]
#[derive(Clone, Copy)]
pub struct RegimeWords {
    pub start: usize,
    pub length: usize,
    pub address: u64,
    pub root0: u64,
    pub root1: u64,
    pub attributes: u64,
    pub tsz0: u8,
    pub tsz1: u8,
    pub disabled0: u8,
    pub disabled1: u8,
    pub output: u8,
    pub ha: u8,
    pub hd: u8,
    pub wxn: u8,
    pub hpd0: u8,
    pub hpd1: u8,
    pub ee: u8,
    pub granule: u8,
    pub spare32: u32,
}

#[derive(Clone, Copy, PartialEq, Eq, Debug)]
pub enum AccessKind {
    Read,
    Write,
    Update,
    Fetch,
    ProbeRead,
    ProbeWrite,
}

// An access of size bytes at an address, from EL0 or else EL1. The size is any number: row 6 refuses those that are none.
#[derive(Clone, Copy)]
pub struct Access {
    pub address: VirtAddr,
    pub size: u64,
    pub el0: bool,
    pub kind: AccessKind,
}

// What an access that succeeds is told. accessed and dirtied: this access set the Access flag, cleared AP[2].
// cacheable: it may be remembered. reads: the count of descriptor reads.
#[derive(Clone, Copy)]
pub struct Success {
    pub output: PhysAddr,
    pub attribute: u8,
    pub shareability: u8,
    pub nonglobal: bool,
    pub level: u8,
    pub accessed: bool,
    pub dirtied: bool,
    pub cacheable: bool,
    pub reads: u8,
}

#[derive(Clone, Copy, PartialEq, Eq, Debug)]
pub enum FaultKind {
    AddressSize,
    Translation,
    AccessFlag,
    Permission,
    ExternalAbort,
    Alignment,
}

#[derive(Clone, Copy)]
pub struct Fault {
    pub kind: FaultKind,
    pub level: u8,
    pub cacheable: bool,
    pub reads: u8,
}

// Why a call is refused, and the number of that (RULES 5.1).
#[derive(Clone, Copy, PartialEq, Eq, Debug)]
pub enum Refusal {
    MemoryPool = 1,
    PoolAddress = 2,
    Sizes = 3,
    Root = 4,
    Attributes = 5,
    AccessSize = 6,
    PageCrossing = 7,
    StoreAddress = 8,
    NoRegime = 9,
    PageRange = 10,
    MapLength = 11,
    WalkEnded = 12,
    DirtyState = 13,
}

#[derive(Clone, Copy)]
pub enum Answer {
    Success(Success),
    Fault(Fault),
    Refused(Refusal),
}

// The block or page descriptor that a walk ends in: its value, the levels left below it,
// and what the tables on the way to it take away, as the sum of their bits. The levels are any number, since any bytes of a
// TLB entry are a leaf (the C interface): that they are at most 3 is asked where it is needed.
#[derive(Clone, Copy)]
pub struct Leaf {
    pub value: u64,
    pub left: u8,
    pub tables: u8,
}

impl Regime {
    // No pool yet, both ranges disabled, 48 bits of output, no updates, little-endian descriptors, granules of 4 KiB, Device memory only.
    pub fn new() -> Self
        ensures { result ≡ initial }
    {
        let range = Range {
            root: PhysAddr(0),
            tsz: TSZ_LEAST,
            disabled: true,
            hpd: false,
        };
        Regime {
            pool: Pool {
                start: 0,
                length: 0,
                address: PhysAddr(0),
            },
            range0: range,
            range1: range,
            output: OUTPUT_MOST,
            ha: false,
            hd: false,
            wxn: false,
            ee: false,
            granule: Granule::Kib4,
            attributes: 0,
        }
    }

    pub fn with_pool(mut self, pool: Pool) -> Self
        ensures { result ≡ with_pool self pool }
    {
        self.pool = pool;
        self
    }

    // Two ranges, two names for each of their settings: these are the names that the documents give a caller.
    pub fn with_range0(mut self, range0: Range) -> Self
        ensures { result ≡ with_range0 self range0 }
    {
        self.range0 = range0;
        self
    }

    pub fn with_range1(mut self, range1: Range) -> Self
        ensures { result ≡ with_range1 self range1 }
    {
        self.range1 = range1;
        self
    }

    pub fn with_hpd0(mut self, hpd: bool) -> Self
        ensures { result ≡ with_hpd0 self hpd }
    {
        self.range0.hpd = hpd;
        self
    }

    pub fn with_hpd1(mut self, hpd: bool) -> Self
        ensures { result ≡ with_hpd1 self hpd }
    {
        self.range1.hpd = hpd;
        self
    }

    pub fn with_output(mut self, output: u8) -> Self
        ensures { result ≡ with_output self output }
    {
        self.output = output;
        self
    }

    pub fn with_ha(mut self, ha: bool) -> Self
        ensures { result ≡ with_ha self ha }
    {
        self.ha = ha;
        self
    }

    pub fn with_hd(mut self, hd: bool) -> Self
        ensures { result ≡ with_hd self hd }
    {
        self.hd = hd;
        self
    }

    pub fn with_wxn(mut self, wxn: bool) -> Self
        ensures { result ≡ with_wxn self wxn }
    {
        self.wxn = wxn;
        self
    }

    pub fn with_ee(mut self, ee: bool) -> Self
        ensures { result ≡ with_ee self ee }
    {
        self.ee = ee;
        self
    }

    pub fn with_granule(mut self, granule: Granule) -> Self
        ensures { result ≡ with_granule self granule }
    {
        self.granule = granule;
        self
    }

    pub fn with_attributes(mut self, attributes: u64) -> Self
        ensures { result ≡ with_attributes self attributes }
    {
        self.attributes = attributes;
        self
    }
}

impl Granule {
    // How many low bits of an address lie within a page: no conversion, but a table of the rules.
    pub fn page_bits(self) -> u8
        ensures { (result ≡ page_bits self) × Paged result }
    {
        match self {
            Granule::Kib4 => 12,
            Granule::Kib16 => 14,
            Granule::Kib64 => 16,
        }
    }
}

// Its number, as in Arm's field TG0.
impl From<Granule> for u8 {
    ghost from_gives = { λ granule n. n ≡ granule_number granule };

    fn from(granule: Granule) -> u8 {
        match granule {
            Granule::Kib4 => 0,
            Granule::Kib64 => 1,
            Granule::Kib16 => 2,
        }
    }
}

// The granule of a number; any other number is taken as 4 KiB.
impl From<u8> for Granule {
    ghost from_gives = { λ n granule. granule ≡ granule_numbered n };

    #[tactic(auto, unfolding(crate::specs::Words::granule_numbered))]
    fn from(n: u8) -> Granule {
        match n {
            0 => Granule::Kib4,
            1 => Granule::Kib64,
            2 => Granule::Kib16,
            _ => Granule::Kib4,
        }
    }
}

// The regime that the numbers stand for.
impl From<RegimeWords> for Regime {
    ghost from_gives = { λ words regime. regime ≡ regime_of words };

    #[tactic(auto, unfolding(crate::specs::Words::regime_of))]
    fn from(words: RegimeWords) -> Regime {
        let pool = Pool {
            start: words.start,
            length: words.length,
            address: PhysAddr(words.address),
        };
        let range0 = Range {
            root: PhysAddr(words.root0),
            tsz: words.tsz0,
            disabled: words.disabled0 != 0,
            hpd: words.hpd0 != 0,
        };
        let range1 = Range {
            root: PhysAddr(words.root1),
            tsz: words.tsz1,
            disabled: words.disabled1 != 0,
            hpd: words.hpd1 != 0,
        };
        Regime {
            pool,
            range0,
            range1,
            output: words.output,
            ha: words.ha != 0,
            hd: words.hd != 0,
            wxn: words.wxn != 0,
            ee: words.ee != 0,
            granule: Granule::from(words.granule),
            attributes: words.attributes,
        }
    }
}

// A regime as numbers.
impl From<Regime> for RegimeWords {
    ghost from_gives = { λ regime words. words ≡ regime_words regime };

    #[tactic(auto, unfolding(crate::specs::Words::regime_words))]
    fn from(regime: Regime) -> RegimeWords {
        RegimeWords {
            start: regime.pool.start,
            length: regime.pool.length,
            address: regime.pool.address.0,
            root0: regime.range0.root.0,
            root1: regime.range1.root.0,
            attributes: regime.attributes,
            tsz0: regime.range0.tsz,
            tsz1: regime.range1.tsz,
            disabled0: u8::from(regime.range0.disabled),
            disabled1: u8::from(regime.range1.disabled),
            output: regime.output,
            ha: u8::from(regime.ha),
            hd: u8::from(regime.hd),
            wxn: u8::from(regime.wxn),
            hpd0: u8::from(regime.range0.hpd),
            hpd1: u8::from(regime.range1.hpd),
            ee: u8::from(regime.ee),
            granule: u8::from(regime.granule),
            spare32: 0,
        }
    }
}

impl AccessKind {
    pub fn is_fetch(self) -> bool
        ensures { result ≡ is_fetch self }
    {
        matches!(self, AccessKind::Fetch)
    }

    pub fn is_probe(self) -> bool
        ensures { result ≡ is_probe self }
    {
        matches!(self, AccessKind::ProbeRead | AccessKind::ProbeWrite)
    }

    // Whether it asks for permission to write.
    pub fn asks_write(self) -> bool
        ensures { result ≡ asks_write self }
    {
        matches!(
            self,
            AccessKind::Write | AccessKind::Update | AccessKind::ProbeWrite
        )
    }

    // Whether it writes, and so makes a page dirty.
    pub fn writes(self) -> bool
        ensures { result ≡ writes_of self }
    {
        matches!(self, AccessKind::Write | AccessKind::Update)
    }
}

impl Refusal {
    // Its number (RULES 5.1), by the name that the documents give a caller.
    pub fn number(self) -> u8
        ensures { result ≡ number_of self }
    {
        self as u8
    }
}

impl Fault {
    // The fault of a lookup that ends at a level, after so many reads. Nothing of it may be remembered.
    pub fn of_lookup(kind: FaultKind, level: u8, reads: u8) -> Self
        ensures { result ≡ record { kind = kind; level = level; cacheable = false; reads = reads } }
    {
        Fault {
            kind: kind,
            level: level,
            cacheable: false,
            reads: reads,
        }
    }

    // The fault status code: a table of the rules, which asks for the level too.
    pub fn code(self) -> u16
        ensures { result ≡ code_of self.kind self.level }
    {
        let kind = self.kind;
        let level = self.level as u16;
        match kind {
            FaultKind::AddressSize => level,
            FaultKind::Translation => 4 + level,
            FaultKind::AccessFlag => 8 + level,
            FaultKind::Permission => 12 + level,
            FaultKind::ExternalAbort => 20 + level,
            FaultKind::Alignment => 33,
        }
    }
}

impl Answer {
    // Whether it may be remembered.
    pub fn cacheable(self) -> bool
        ensures { result ≡ cacheable_in (view self) }
    {
        match self {
            Answer::Success(s) => s.cacheable,
            Answer::Fault(f) => f.cacheable,
            Answer::Refused(_) => false,
        }
    }

    // Whether this access made the page dirty.
    pub fn dirtied(self) -> bool
        ensures { result ≡ dirtied_in (view self) }
    {
        match self {
            Answer::Success(s) => s.dirtied,
            Answer::Fault(_) | Answer::Refused(_) => false,
        }
    }
}

// Attribute byte i.
#[tactic(auto, unfolding(crate::specs::Attributes::attribute))]
pub fn attribute(attributes: u64, i: u8) -> u8
    requires { i < 8 }
    ensures { result ≡ attribute_of attributes i }
{
    descriptor::field(attributes, 8 * i, 8) as u8
}

// Whether an attribute byte says Device memory.
#[tactic(auto, unfolding(crate::specs::Attributes::device))]
pub fn device(b: u8) -> bool
    ensures { result ≡ device_of b }
{
    matches!(b, 0x00 | 0x04 | 0x08 | 0x0c)
}

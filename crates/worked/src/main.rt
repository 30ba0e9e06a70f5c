// Runs the worked cases P1 to P12, a way through tables of 16 and of 64 KiB, and a session, and prints a line for each access: its answer, and the leaf descriptor afterwards; and one for each harvest.
#![tactic(auto)]

ghost use Rattle.std.specs.Prelude.{◌≡◌, ◌+◌, ◌≤◌};
ghost use Rattle.vmsa.specs.Settings.{with_pool};
ghost use Rattle.walk.specs.Walk.{outcome, walk as walk_of};
ghost use Rattle.cases.specs.Cases.{base as base_of, worked_pool, eight as eight_of, access as access_of, usual as usual_of, puts, tables_with};
ghost use Rattle.worked.specs.Room.{Roomy};

use session::Session;
use std::{fmt, io};
use vmsa::{Access, AccessKind, Answer, Granule, PhysAddr, Pool, Range, Refusal, Regime, VirtAddr};

// The physical address of the pool's first byte; the root table stands there.
const POOL_ADDRESS: u64 = 0x40000000;

// The pool's length, and P12's two.
const LENGTH: usize = 65536;

const LONGEST: usize = 1048576;

const TOO_LONG: usize = 1052672;

// The third descriptor and the leaf that the cases start from, and the leaf's offset in the pool.
const THIRD: u64 = 0x40003003;

// The third with bit 62: nothing may be written below it.
const NO_WRITE_BELOW: u64 = 0x4000000040003003;

const LEAF: u64 = 0x00080000800053C3;

const LEAF_OFFSET: usize = 0x3018;

const LEAF_ADDRESS: u64 = 0x40003018;

// The first page that is harvested; the leaf is that of page 0x403.
const FIRST_PAGE: u64 = 0x400;

// The length of the map that a harvest is lent.
const MAP: usize = 2;

// ---- what the cases start from

// Eight attribute bytes, all alike.
fn eight(attribute: u8) -> u64
    ensures { result ≡ eight_of attribute }
{
    0x0101010101010101 * (attribute as u64)
}

// The regime, with a pool of this length from the memory's first byte on.
fn base(length: usize) -> Regime
    ensures { result ≡ with_pool base_of (worked_pool length) }
{
    let root = PhysAddr(POOL_ADDRESS);
    let pool = Pool {
        start: 0,
        length: length,
        address: root,
    };
    let range = Range {
        root: root,
        tsz: 16,
        disabled: false,
        hpd: false,
    };
    Regime::new()
        .with_pool(pool)
        .with_range0(range)
        .with_range1(range)
        .with_output(5)
        .with_ha(true)
        .with_hd(true)
        .with_attributes(eight(0xFF))
}

// An access from EL0, and the one at 0x403ABC of size 4.
fn access(address: u64, size: u64, kind: AccessKind) -> Access
    ensures { result ≡ access_of address size kind }
{
    Access {
        address: VirtAddr(address),
        size: size,
        el0: true,
        kind: kind,
    }
}

fn usual(kind: AccessKind) -> Access
    ensures { result ≡ usual_of kind }
{
    access(0x403ABC, 4, kind)
}

// Puts the four descriptors into the memory, big-endian where ee holds.
#[tactic(auto, unfolding(cases::specs::Cases::puts))]
fn fill(memory: &mut [u8], third: u64, leaf: u64, ee: bool)
    requires { Roomy memory.old }
    ensures { memory.new ≡ puts ee memory.old (tables_with third leaf) }
{
    descriptor::store(memory, 0, 0x40001003, ee);
    descriptor::store(memory, 0x1000, 0x40002003, ee);
    descriptor::store(memory, 0x2010, third, ee);
    descriptor::store(memory, LEAF_OFFSET, leaf, ee);
}

// ---- what is printed

// An answer, and the leaf descriptor afterwards: the end of a line.
#[derive(Clone, Copy)]
struct Answered {
    answer: Answer,
    leaf: u64,
}

impl fmt::Display for Answered {
    fn fmt<W: fmt::Write>(&self, f: &mut fmt::Formatter<W>) -> fmt::Result {
        let leaf = self.leaf;
        match self.answer {
            Answer::Success(s) => {
                let output = s.output.0;
                let reads = s.reads;
                let accessed = word_if(s.accessed, " accessed");
                let dirtied = word_if(s.dirtied, " dirtied");
                let cacheable = word_if(s.cacheable, " cacheable");
                write!(
                    f,
                    " ok {output:016x} reads {reads} leaf {leaf:016x}{accessed}{dirtied}{cacheable}"
                )
            }
            Answer::Fault(fault) => {
                let code = fault.code();
                let reads = fault.reads;
                let cacheable = word_if(fault.cacheable, " cacheable");
                write!(f, " fault {code} reads {reads} leaf {leaf:016x}{cacheable}")
            }
            Answer::Refused(refusal) => write!(f, " refused {}", refusal.number()),
        }
    }
}

// What a harvest hands back, its map, and the leaf descriptor afterwards.
#[derive(Clone, Copy)]
struct Harvested {
    reply: Result<(), Refusal>,
    map: [u8; MAP],
    leaf: u64,
}

impl fmt::Display for Harvested {
    fn fmt<W: fmt::Write>(&self, f: &mut fmt::Formatter<W>) -> fmt::Result {
        let [first, second] = self.map;
        let leaf = self.leaf;
        match self.reply {
            Ok(()) => write!(f, " map {first:02x} {second:02x} leaf {leaf:016x}"),
            Err(refusal) => write!(f, " refused {}", refusal.number()),
        }
    }
}

// The word where the flag holds, and nothing else.
fn word_if(holds: bool, word: &'static str) -> &'static str {
    if holds { word } else { "" }
}

// ---- the cases

// A worked case: its name, an access in a regime, and the third descriptor and the leaf that it finds.
#[derive(Clone, Copy)]
struct Case {
    name: &'static str,
    regime: Regime,
    access: Access,
    third: u64,
    leaf: u64,
}

impl Case {
    fn new(name: &'static str, regime: Regime, access: Access) -> Self {
        Case {
            name,
            regime,
            access,
            third: THIRD,
            leaf: LEAF,
        }
    }

    fn with_third(self, third: u64) -> Self {
        Case { third, ..self }
    }

    fn with_leaf(self, leaf: u64) -> Self {
        Case { leaf, ..self }
    }
}

// The walk of a case in the memory with the four descriptors put in.
fn walk_filled(memory: &mut [u8], case: Case) -> Answer
    requires { Roomy memory.old }
    ensures { outcome result memory.new ≡ walk_of case.regime case.access (puts case.regime.ee memory.old (tables_with case.third case.leaf)) }
{
    fill(memory, case.third, case.leaf, case.regime.ee);
    walk::walk(memory, case.regime, case.access)
}

// Runs a case in this memory.
fn run_in(rt: &impl Print, memory: &mut [u8], case: Case) -> io::Result<()>
    requires { Roomy memory.old }
{
    let name = case.name;
    let answer = walk_filled(memory, case);
    let leaf = descriptor::load(memory, LEAF_OFFSET, case.regime.ee);
    let answered = Answered { answer, leaf };
    println!(rt; "{name}{answered}")
}

// Runs each case of 64 KiB in a memory of zeros that is exactly the pool.
fn run_cases(rt: &impl Print) -> io::Result<()> {
    let r = base(LENGTH);
    let read = usual(AccessKind::Read);
    let write = usual(AccessKind::Write);
    let probe = access(0x403ABC, 1, AccessKind::ProbeWrite);
    let odd = access(0x403ABD, 2, AccessKind::Read);
    let last = access(0x403FFC, 4, AccessKind::Read);
    let across = access(0x403FFD, 4, AccessKind::Read);
    let cases = [
        Case::new("P1", r, read),
        Case::new("P2", r, write),
        Case::new("P3", r, probe),
        Case::new("P4", r.with_hd(false), write),
        Case::new("P5", r.with_ha(false).with_hd(false), write),
        Case::new("P5", r.with_ha(false), write),
        Case::new("P6", r, read).with_third(0x4000F003),
        Case::new("P7", r, read).with_third(0x40010003),
        Case::new("P8", r.with_output(0), read).with_leaf(0x00080001000003C3),
        Case::new("P9", r, read).with_leaf(0x00080000800053C1),
        Case::new("P10", r.with_attributes(eight(0x00)), odd),
        Case::new("P11", r, last),
        Case::new("P11", r, across),
        Case::new("under bit 62: P2", r, write).with_third(NO_WRITE_BELOW),
        Case::new("with HPD: P2", r.with_hpd0(true), write).with_third(NO_WRITE_BELOW),
        Case::new("with EE: P2", r.with_ee(true), write),
    ];
    for case in cases {
        run_in(rt, &mut [0u8; LENGTH], case)?;
    }
    Ok(())
}

// Runs P2, and prints the bytes of the leaf's descriptor from the lowest offset on: as a number they are big-endian.
fn run_bytes(rt: &impl Print, case: Case) -> io::Result<()> {
    let memory = &mut [0u8; LENGTH];
    walk_filled(memory, case);
    let name = case.name;
    let bytes = descriptor::load(memory, LEAF_OFFSET, true);
    println!(rt; "{name} leaves the bytes {bytes:016x}")
}

// Runs P12 in one memory with the longest pool, and with one page more. (Made and lent as a slice in one function, all its bytes are written out in the proof, which then does not close.)
fn run_long(rt: &impl Print, memory: &mut [u8; TOO_LONG], a: Access) -> io::Result<()> {
    run_in(rt, memory, Case::new("P12", base(LONGEST), a))?;
    run_in(rt, memory, Case::new("P12", base(TOO_LONG), a))
}

// ---- granules

// An access in a session, and the leaf descriptor at an offset afterwards.
fn step_at(session: &mut Session, memory: &mut [u8; LENGTH], a: Access, leaf: usize) -> Answered
    requires { leaf + 8 ≤ 65536 }
{
    let x = session.access(memory, a);
    *session = x.session;
    Answered {
        answer: x.reply,
        leaf: descriptor::load(memory, leaf, false),
    }
}

// A read through four tables of 16 KiB, and one of the same page across a multiple of 4,096. The table addresses are cut at bit 14.
fn run_kib16(rt: &impl Print, r: Regime) -> io::Result<()> {
    let memory = &mut [0u8; LENGTH];
    descriptor::store(memory, 0x0008, 0x40007003, false);
    descriptor::store(memory, 0x6028, 0x4000B003, false);
    descriptor::store(memory, 0xA030, 0x4000F003, false);
    descriptor::store(memory, 0xE038, 0x00080000800073C3, false);
    let read = access(0xC0580D01DABC, 4, AccessKind::Read);
    let across = access(0xC0580D01EFFD, 4, AccessKind::Read);
    let granuled = r.with_granule(Granule::Kib16);
    let mut session = Session::empty().set_regime(memory, granuled).session;
    let first = step_at(&mut session, memory, read, 0xE038);
    println!(rt; "16 KiB:{first}")?;
    let second = step_at(&mut session, memory, across, 0xE038);
    println!(rt; "16 KiB, the same page:{second}")
}

// The same through one table of 64 KiB, the first level being the last.
fn run_kib64(rt: &impl Print, r: Regime) -> io::Result<()> {
    let memory = &mut [0u8; LENGTH];
    descriptor::store(memory, 0x8030, 0x000800008001F3C3, false);
    let range = Range {
        root: PhysAddr(POOL_ADDRESS),
        tsz: 35,
        disabled: false,
        hpd: false,
    };
    let read = access(0x10065ABC, 4, AccessKind::Read);
    let across = access(0x10067FFD, 4, AccessKind::Read);
    let granuled = r.with_granule(Granule::Kib64).with_range0(range);
    let mut session = Session::empty().set_regime(memory, granuled).session;
    let first = step_at(&mut session, memory, read, 0x8030);
    println!(rt; "64 KiB:{first}")?;
    let second = step_at(&mut session, memory, across, 0x8030);
    println!(rt; "64 KiB, the same page:{second}")
}

// ---- a session

// One with the leaf of the worked cases.
fn step(session: &mut Session, memory: &mut [u8; LENGTH], a: Access) -> Answered {
    step_at(session, memory, a, LEAF_OFFSET)
}

// A harvest into a map whose bits are all set.
fn harvest_step(session: &mut Session, memory: &mut [u8; LENGTH], count: u64) -> Harvested {
    let mut map = [0xFFu8; MAP];
    let x = session.harvest(memory, FIRST_PAGE, count, &mut map);
    *session = x.session;
    Harvested {
        reply: x.reply,
        map,
        leaf: descriptor::load(memory, LEAF_OFFSET, false),
    }
}

// Harvests of a dirty page: it is reported once, and again after the next write, which walks. A refused one keeps what is remembered.
fn run_harvests(
    rt: &impl Print,
    session: &mut Session,
    memory: &mut [u8; LENGTH],
    write: Access,
) -> io::Result<()> {
    println!(rt; "harvest:{}", harvest_step(session, memory, 8))?;
    println!(rt; "harvest again:{}", harvest_step(session, memory, 8))?;
    println!(rt; "write after a harvest:{}", step(session, memory, write))?;
    println!(rt; "harvest of no pages:{}", harvest_step(session, memory, 0))
}

// The session of the README: a miss, hits, the first write, harvests, a store without and with a drop.
fn run_session(rt: &impl Print, r: Regime) -> io::Result<()> {
    let memory = &mut [0u8; LENGTH];
    let read = usual(AccessKind::Read);
    let write = usual(AccessKind::Write);
    fill(memory, THIRD, LEAF, false);
    let mut session = Session::empty();
    println!(rt; "no regime:{}", step(&mut session, memory, read))?;
    session = session.set_regime(memory, r).session;
    println!(rt; "first read:{}", step(&mut session, memory, read))?;
    println!(rt; "second read:{}", step(&mut session, memory, read))?;
    println!(rt; "first write:{}", step(&mut session, memory, write))?;
    println!(rt; "second write:{}", step(&mut session, memory, write))?;
    run_harvests(rt, &mut session, memory, write)?;
    session = session.store(memory, PhysAddr(LEAF_ADDRESS), 0).session;
    println!(rt; "after a store:{}", step(&mut session, memory, read))?;
    session = session.invalidate_all();
    println!(rt; "after a drop:{}", step(&mut session, memory, read))?;
    println!(rt; "and again:{}", step(&mut session, memory, read))
}

fn main(rt: HostRuntime) -> io::Result<()> {
    let r = base(LENGTH);
    let write = usual(AccessKind::Write);
    run_cases(&rt)?;
    run_bytes(&rt, Case::new("P2", r, write))?;
    run_bytes(&rt, Case::new("with EE: P2", r.with_ee(true), write))?;
    run_kib16(&rt, r)?;
    run_kib64(&rt, r)?;
    run_long(&rt, &mut [0u8; TOO_LONG], usual(AccessKind::Read))?;
    run_session(&rt, r)
}

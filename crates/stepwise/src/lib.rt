// The walk a descriptor at a time: it names the address of the descriptor that it wants next, is offered what stands there, and goes on, until it ends.
#![tactic(auto)]

ghost use Rattle.std.specs.Prelude.{◌≡◌, ◌≤◌, ◌<◌};
ghost use Rattle.vmsa.specs.Limits.{address_limit, Sized};
ghost use Rattle.vmsa.specs.Granules.{Paged};
ghost use Rattle.lookup.specs.Trace.{leaf};
ghost use Rattle.lookup.specs.Steps.{context_of, first_table};
ghost use Rattle.stepwise.specs.Stepwise.{left_at, reads_at, lookup_fault, conclusion, declined, wanting, ended, wanting_entry, begun, start as start_of, taken, offered, seen_end, seen, Takes};

use lookup::{Context, Next};
use vmsa::{Access, Answer, Fault, FaultKind, Leaf, PhysAddr, Refusal, Regime};

// A walk that wants a descriptor: what it was started with, the descriptor's address, the levels left below it, and the sum of the tables on the way.
#[derive(Clone, Copy)]
pub struct Wanting {
    pub regime: Regime,
    pub access: Access,
    pub address: PhysAddr,
    pub left: u8,
    pub tables: u8,
}

// An update of one descriptor: from the value that was read at its address to another.
#[derive(Clone, Copy)]
pub struct Update {
    pub address: PhysAddr,
    pub expected: u64,
    pub value: u64,
}

// How a walk ends: its answer, and the update that is due, which is the caller's to make.
#[derive(Clone, Copy)]
pub struct Conclusion {
    pub answer: Answer,
    pub due: Option<Update>,
}

// A walk in one of its two states, each with what it carries.
#[derive(Clone, Copy)]
pub enum Stepwise {
    Wanting(Wanting),
    Ended(Conclusion),
}

// What an offer leaves of a walk, and whether it was taken.
#[derive(Clone, Copy)]
pub struct Offered {
    pub walk: Stepwise,
    pub reply: Result<(), Refusal>,
}

// The levels left below the descriptor that a walk wants, and the count of reads with it.
#[derive(Clone, Copy)]
struct Depth {
    left: u8,
    reads: u8,
}

fn decline(refusal: Refusal) -> Stepwise
    ensures { seen result ≡ ended (declined refusal) }
{
    Stepwise::Ended(Conclusion {
        answer: Answer::Refused(refusal),
        due: None,
    })
}

// A fault of steps 1 to 5.
fn fail(kind: FaultKind, level: u8, reads: u8) -> Stepwise
    ensures { seen result ≡ ended (lookup_fault kind level reads) }
{
    Stepwise::Ended(Conclusion {
        answer: Answer::Fault(Fault::of_lookup(kind, level, reads)),
        due: None,
    })
}

// Steps 6 to 8 of the leaf whose descriptor was read at an address.
fn judge(r: Regime, a: Access, at: PhysAddr, l: Leaf, reads: u8) -> Stepwise
    requires { (0 < a.size) × (l.left ≤ 3) }
    ensures { seen result ≡ ended (conclusion r a reads (leaf at.0 l)) }
{
    let verdict = decision::judge(r, a, l, reads);
    let answer = verdict.answer;
    if verdict.update {
        return Stepwise::Ended(Conclusion {
            answer: answer,
            due: Some(Update {
                address: at,
                expected: l.value,
                value: verdict.value,
            }),
        });
    }
    Stepwise::Ended(Conclusion {
        answer: answer,
        due: None,
    })
}

// A walk that wants the entry of a table.
fn want(r: Regime, a: Access, c: Context, left: u8, tables: u8, table: PhysAddr) -> Stepwise
    requires { (c ≡ context_of r a.address.0) × Paged c.page × (left ≤ 3) × (table.0 < address_limit) }
    ensures { seen result ≡ wanting (wanting_entry r a left tables table.0) }
{
    Stepwise::Wanting(Wanting {
        regime: r,
        access: a,
        address: lookup::entry_at(c, left, table),
        left: left,
        tables: tables,
    })
}

// A walk whose start is not refused.
#[tactic(auto, unfolding(lookup::specs::Steps::context_of))]
fn begin(r: Regime, a: Access) -> Stepwise
    requires { Sized r }
    ensures { seen result ≡ begun r a (first_table r a.address.0) }
{
    let range = lookup::range_of(r, a.address);
    match lookup::first_table(r, range, a.address) {
        Err(kind) => fail(kind, 0, 0),
        Ok(root) => {
            let c = lookup::context_of(r, range, a.address);
            want(r, a, c, geometry::first_left(c.page, range.tsz), 0, root)
        }
    }
}

#[tactic(auto, unfolding(crate::specs::Stepwise::left_at, crate::specs::Stepwise::reads_at))]
fn depth_of(w: Wanting) -> Depth
    requires { Sized w.regime }
    ensures { (result.left ≡ left_at w) × (result.reads ≡ reads_at w) × (result.left ≤ 3) }
{
    let r = w.regime;
    let a = w.access;
    let range = lookup::range_of(r, a.address);
    let granule = r.granule;
    let first = geometry::first_left(granule.page_bits(), range.tsz);
    if first < w.left {
        return Depth {
            left: first,
            reads: 1,
        };
    }
    Depth {
        left: w.left,
        reads: first - w.left + 1,
    }
}

// Goes on with the value of the descriptor that it wants.
#[tactic(auto, unfolding(vmsa::specs::Fields::with_table))]
fn take(w: Wanting, v: u64) -> Stepwise
    requires { Sized w.regime × (0 < w.access.size) }
    ensures { seen result ≡ taken w (Some v) }
{
    let r = w.regime;
    let a = w.access;
    let at = w.address;
    let range = lookup::range_of(r, a.address);
    let c = lookup::context_of(r, range, a.address);
    let depth = depth_of(w);
    let left = depth.left;
    match lookup::decode(c.page, c.limit, left, v) {
        Next::Fault(kind) => fail(kind, geometry::level(left), depth.reads),
        Next::Table(table) => {
            let sum = w.tables | lookup::table_bits(v) as u8;
            want(r, a, c, left - 1, sum, table)
        }
        Next::Leaf => {
            let l = Leaf {
                value: v,
                left: left,
                tables: descriptor::select(range.hpd, 0, w.tables),
            };
            judge(r, a, at, l, depth.reads)
        }
    }
}

// Ends, the descriptor that it wants being out of reach.
fn abort(w: Wanting) -> Stepwise
    requires { Sized w.regime }
    ensures { seen result ≡ taken w None }
{
    let depth = depth_of(w);
    fail(
        FaultKind::ExternalAbort,
        geometry::level(depth.left),
        depth.reads,
    )
}

impl Wanting {
    // What is left of the walk once what stands at its address is offered: the value, or nothing where that is not reachable.
    #[tactic(auto, using(crate::proofs::Laws::startable), unfolding(crate::specs::Stepwise::offered))]
    pub fn offer(self, word: Option<u64>) -> Stepwise
        ensures { seen result ≡ offered self word }
    {
        match checks::check_start(self.regime, self.access) {
            Err(refusal) => decline(refusal),
            Ok(()) => match word {
                Some(v) => take(self, v),
                None => abort(self),
            },
        }
    }

    // What is left of the walk once the value of the descriptor that it wants is offered.
    pub fn value(self, v: u64) -> Stepwise
        ensures { seen result ≡ offered self (Some v) }
    {
        self.offer(Some(v))
    }

    // The same once it is said that the descriptor is not reachable.
    pub fn unreachable(self) -> Stepwise
        ensures { seen result ≡ offered self None }
    {
        self.offer(None)
    }
}

impl Stepwise {
    // The start of a walk.
    #[tactic(auto, using(crate::proofs::Laws::startable), unfolding(crate::specs::Stepwise::start))]
    pub fn start(r: Regime, a: Access) -> Self
        ensures { seen result ≡ start_of r a }
    {
        match checks::check_start(r, a) {
            Err(refusal) => decline(refusal),
            Ok(()) => begin(r, a),
        }
    }

    // What stands at the address that it wants is offered; after its end that is refused, and changes nothing.
    pub fn offer(self, word: Option<u64>) -> Offered
        ensures { Takes self word result }
    {
        match self {
            Stepwise::Wanting(w) => Offered {
                walk: w.offer(word),
                reply: Ok(()),
            },
            Stepwise::Ended(_) => Offered {
                walk: self,
                reply: Err(Refusal::WalkEnded),
            },
        }
    }

    // The value of the descriptor that it wants is offered.
    pub fn value(self, v: u64) -> Offered
        ensures { Takes self (Some v) result }
    {
        self.offer(Some(v))
    }

    // The same where the descriptor is said to be not reachable.
    pub fn unreachable(self) -> Offered
        ensures { Takes self None result }
    {
        self.offer(None)
    }
}

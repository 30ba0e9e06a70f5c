// A lent map of bits: bit n stands in byte n / 8, at place n mod 8 from the lowest.
#![tactic(auto)]

ghost use Rattle.std.specs.Prelude.{◌≡◌, ◌*◌, ◌≤◌, ◌<◌, eqb, length};
ghost use Rattle.bitmap.specs.Map.{cleared, Raises, between};

// Puts the first n bytes to zero.
#[tactic(auto, unfolding(crate::specs::Map::cleared))]
pub fn clear(map: &mut [u8], n: usize)
    requires { n ≤ length map.old }
    ensures { map.new ≡ cleared n map.old }
{
    map[..n].fill(0);
}

// Raises bit n.
pub fn raise(map: &mut [u8], n: usize)
    requires { n < 8 * length map.old }
    ensures { Raises (λ i. eqb i n) map.old map.new }
{
    let i = n / 8;
    map[i] = map[i] | (1u8 << ((n % 8) as u8));
}

// Raises the bits from lo on, below hi, one by one. That lo is not past hi is asked here and below: std's Range does not promise it.
fn raise_each(map: &mut [u8], lo: usize, hi: usize)
    requires { (lo ≤ hi) × (hi ≤ 8 * length map.old) }
    ensures { Raises (between lo hi) map.old map.new }
{
    for n in lo..hi {
        raise(map, n);
    }
}

// Raises every bit of the bytes from lo on, below hi. Not by a slice's `fill`, which stores the last byte by itself: a harvest of dirty blocks would take 8% more instructions.
fn fill(map: &mut [u8], lo: usize, hi: usize)
    requires { (lo ≤ hi) × (hi ≤ length map.old) }
    ensures { Raises (between (8 * lo) (8 * hi)) map.old map.new }
{
    for byte in &mut map[lo..hi] {
        *byte = 255;
    }
}

// Raises the bits from lo on, below hi: whole bytes at once, and what is left at either end one by one.
pub fn raise_run(map: &mut [u8], lo: usize, hi: usize)
    requires { (lo ≤ hi) × (hi ≤ 8 * length map.old) }
    ensures { Raises (between lo hi) map.old map.new }
{
    let begin = lo / 8 + (lo % 8 + 7) / 8;
    let end = hi / 8;
    if end <= begin {
        return raise_each(map, lo, hi);
    }
    raise_each(map, lo, 8 * begin);
    fill(map, begin, end);
    raise_each(map, 8 * end, hi);
}

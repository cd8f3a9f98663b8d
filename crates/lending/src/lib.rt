// Lent memory: numbers of two bytes read from bytes and written to them, the high byte first; lent numbers read, cleared, and copied; one of two by a test.
#![tactic(auto)]

ghost use Rattle.std.specs.Prelude.{◌≡◌, ◌+◌, ◌/◌, ◌%◌, ◌<◌, ◌≤◌, length, set};
ghost use Rattle.counting.specs.Lists.{at};
ghost use Rattle.counting.specs.Least.{pick};
ghost use Rattle.lending.specs.Pairs.{pair_at};
ghost use Rattle.lending.specs.Memory.{cleared};

// The number of two bytes that stands at a place.
#[tactic(auto, unfolding(crate::specs::Pairs::pair_at))]
pub fn pair_at(s: &[u8], i: usize) -> usize
    requires { i + 1 < length s.now }
    ensures value { result ≡ pair_at s.now i }
    ensures small { result < 65536 }
{
    usize::from(u16::from_be_bytes([s[i], s[i + 1]]))
}

// The number that stands at a place of lent numbers.
pub fn number_at(s: &[u16], i: usize) -> usize
    requires { i < length s.now }
    ensures value { result ≡ at s.now i }
    ensures small { result < 65536 }
{
    s[i] as usize
}

// Clears the first m numbers.
#[tactic(auto, unfolding(crate::specs::Memory::cleared))]
pub fn clear(work: &mut [u16], m: usize)
    requires { m ≤ length work.old }
    ensures { work.new ≡ cleared m work.old }
{
    work[..m].fill(0);
}

// Copies numbers over others, one by one: std's own copy asks whoever links the static library for a function of C's more. Kept out of line, since four copies in line cost a run on a small table more than
// the calls.
#[inline(never)]
pub fn copy_over(from: &[u16], to: &mut [u16])
    requires { length from.now ≡ length to.old }
    ensures { to.new ≡ from.now }
{
    for i in 0..to.len() {
        to[i] = from[i];
    }
}

// Writes a number of two bytes at a place, the high byte first.
pub fn put_pair(out: &mut [u8], place: usize, value: usize)
    requires { (place + 1 < length out.old) × (value < 65536) }
    ensures { out.new ≡ set (set out.old place (value / 256)) (place + 1) (value % 256) }
{
    let pair = (value as u16).to_be_bytes();
    out[place..place + 2].copy_from_slice(&pair);
}

// One of two numbers, by a test: a function of its own, since what a branch says is lost to the calls behind it where it joins.
pub fn one_of(test: bool, x: usize, y: usize) -> usize
    ensures { result ≡ pick test x y }
{
    if test { x } else { y }
}

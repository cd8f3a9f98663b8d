// Lists copied into the work slice, and back: the first n numbers of a list that may be longer, at a place, as `PutIn` says.
ghost use Rattle.std.specs.Prelude.{◌≡◌, ◌+◌, ◌≤◌, length, take, drop};
ghost use Rattle.lending.specs.Memory.{written};
ghost use Rattle.splitting.specs.Running.{PutIn};

use lending::copy_over;

// Copies the first n numbers of a list into the work slice, from a place on.
pub fn copy_in(list: &[u16], work: &mut [u16], place: usize, n: usize)
    requires { (n ≤ length list.now) × (place + n ≤ length work.old) }
    ensures { PutIn list.now place n work.old work.new }
{
    let end = place + n;
    copy_over(&list[..n], &mut work[place..end]);
}

// Copies n numbers of the work slice, from a place on, to the front of a list.
#[tactic(auto, unfolding(lending::specs::Memory::written))]
pub fn copy_out(work: &[u16], place: usize, list: &mut [u16], n: usize)
    requires { (n ≤ length list.old) × (place + n ≤ length work.now) }
    ensures { list.new ≡ written (take n (drop place work.now)) list.old }
{
    let end = place + n;
    copy_over(&work[place..end], &mut list[..n]);
}

// The class and pending lists judged: the first state where one of the four rules fails; of each list, which may be longer, the first n numbers.
ghost use Rattle.std.specs.Prelude.{◌≡◌, not, ◌<◌, ◌≤◌, length};
ghost use Rattle.counting.specs.Least.{IsFirst};
ghost use Rattle.refining.specs.Lists.{formed};
ghost use Rattle.splitting.specs.Work.{lists};

use lending::number_at;

// The four rules at one state.
#[tactic(auto, unfolding(refining::specs::Lists::formed))]
fn is_formed(class: &[u16], pending: &[u16], n: usize, signs: usize, q: usize) -> bool
    requires room { (n ≤ length class.now) × (n ≤ length pending.now) }
    requires state { q < n }
    ensures { result ≡ formed signs (lists n class.now pending.now) q }
{
    let c = number_at(class, q);
    if q < c {
        return false;
    }
    if number_at(class, c) != c {
        return false;
    }
    let waiting = number_at(pending, q);
    if signs < waiting {
        return false;
    }
    if waiting == 0 {
        return true;
    }
    c == q
}

// The first state where a rule fails.
pub fn ill_formed(class: &[u16], pending: &[u16], n: usize, signs: usize) -> Option<usize>
    requires { (n ≤ length class.now) × (n ≤ length pending.now) }
    ensures { IsFirst n (λ q. not (formed signs (lists n class.now pending.now) q)) result }
{
    for q in 0..n {
        if !is_formed(class, pending, n, signs, q) {
            return Some(q);
        }
    }
    None
}

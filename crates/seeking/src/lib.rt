// Theory: the shortest word that leads to a goal, first in sign order, found by a search that goes through its nodes and signs in order. A crate has at least one function: this is it.
#![tactic(auto)]

ghost use Rattle.std.specs.Prelude.{◌≡◌};

pub fn zero() -> usize
    ensures { result ≡ 0 }
{
    0
}

// Numbers and lists, as definitions (specs/) and laws (proofs/). A crate has at least one function: this is it.
#![tactic(auto)]

ghost use Rattle.std.specs.Prelude.{◌≡◌};

pub fn zero() -> usize
    ensures { result ≡ 0 }
{
    0
}

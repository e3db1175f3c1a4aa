// Refusal 21: the bound of a run.
ghost use Rattle.std.specs.Prelude.{◌≡◌};
ghost use Rattle.rules.specs.Bounded.{good_bound, and_bound};

use crate::lent::Lent;
use rules::answer::{Fault, Refusal};

// 02, R-9: from 2 to 256, or 0 for none, as C lends it.
fn good(bound: usize) -> bool
    ensures { result ≡ good_bound bound }
{
    bound == 0 || (2 <= bound && bound <= 256)
}

// Anything lent with a bound.
#[derive(Clone, Copy)]
pub struct Bounded<L> {
    pub lent: L,
    pub bound: usize,
}

impl<L: Lent> Lent for Bounded<L> {
    ghost checked = { λ b. and_bound (L.checked b.lent) b.bound };

    fn check(&self) -> Result<(), Fault> {
        self.lent.check()?;
        if good(self.bound) {
            Ok(())
        } else {
            Err(Refusal::BadBound.at(0))
        }
    }
}

// What a run is lent beside its graph and its named arrays, by the lengths in bytes. The kinds of run differ in it.
ghost use Rattle.std.specs.Prelude.{◌≡◌};
ghost use Rattle.rules.specs.Check.{Checked};

use rules::answer::Fault;

pub trait Lent {
    ghost checked: { Self → Checked };

    // What refuses it.
    fn check(&self) -> Result<(), Fault>
        ensures { result ≡ checked self.now };
}

// A verdict that is known by then.
impl Lent for Result<(), Fault> {
    ghost checked = { λ verdict. verdict };

    fn check(&self) -> Result<(), Fault> {
        *self
    }
}

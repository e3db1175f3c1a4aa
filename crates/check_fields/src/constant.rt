// The constant of a record.
ghost use Rattle.std.specs.Prelude.{◌≡◌, ℕ, ◌<◌, pos, SomeIff};
ghost use Rattle.arithmetic.specs.Arithmetic.{eq_z};
ghost use Rattle.record.specs.GraphRecords.{operation_of, names_array};
ghost use Rattle.check_fields.specs.Sites.{small_of};

use record::operation::Operation;

pub fn is_zero(constant: i32) -> bool
    ensures { result ≡ eq_z constant (pos 0) }
{
    constant == 0
}

// FETCH and STORE: "The constant of FETCH and STORE [..] names an array".
pub fn names_array(operation: Operation) -> bool
    ensures { (code : ℕ) → operation_of code ≡ operation → result ≡ names_array code }
{
    matches!(operation, Operation::Fetch | Operation::Store)
}

// A constant of 0 to 255.
pub fn small(constant: i32) -> Option<u8>
    ensures { SomeIff result (small_of constant < 256) (small_of constant) }
{
    u8::try_from(constant).ok()
}

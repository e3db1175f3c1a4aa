// Signed arithmetic over ranges (02, R-11): the smallest range that holds every outcome; None where one is out of range.
#![tactic(auto)]

mod outcomes;

ghost use Rattle.std.specs.Prelude.{◌≡◌, ◌&&◌, cond, ℕ, ◌-◌, max, pos, neg_ℤ, nat_abs};
ghost use Rattle.std.specs.Int.Signed.{lt_z, le_z};
ghost use Rattle.arithmetic.specs.Arithmetic.{eq_z};
ghost use Rattle.arithmetic.specs.Ranges.{corners, outcome, in_bits, range_of};
ghost use Rattle.arithmetic.specs.Ranges as Ranges;

use arithmetic::Range;
use record::operation::Arithmetic;

// The range between two numbers, where both fit 32 bits.
fn narrowed(low: i64, high: i64) -> Option<Range>
    ensures { result ≡ in_bits (record { low = low; high = high }) }
{
    let low = arithmetic::narrowed(low)?;
    let high = arithmetic::narrowed(high)?;
    Some(Range { low, high })
}

// The least and the most of four corners.
fn at_corners(op: Arithmetic, a: Range, b: Range) -> Option<Range>
    ensures { result ≡ in_bits (corners (outcome op) a b) }
{
    let ll = outcomes::outcome(op, a.low, b.low);
    let lh = outcomes::outcome(op, a.low, b.high);
    let hl = outcomes::outcome(op, a.high, b.low);
    let hh = outcomes::outcome(op, a.high, b.high);
    let low = outcomes::smaller(outcomes::smaller(ll, lh), outcomes::smaller(hl, hh));
    let high = outcomes::larger(outcomes::larger(ll, lh), outcomes::larger(hl, hh));
    narrowed(low, high)
}

pub fn is_single(r: Range) -> bool
    ensures { result ≡ Ranges.is_single r }
{
    r.low == r.high
}

pub fn may_be_zero(r: Range) -> bool
    ensures { result ≡ Ranges.may_be_zero r }
{
    r.low <= 0 && 0 <= r.high
}

// Both are one value, the same.
fn surely_equal(a: Range, b: Range) -> bool
    ensures { result ≡ (Ranges.is_single a && (Ranges.is_single b && eq_z a.low b.low)) }
{
    is_single(a) && (is_single(b) && a.low == b.low)
}

// They overlap.
fn maybe_equal(a: Range, b: Range) -> bool
    ensures { result ≡ (le_z a.low b.high && le_z b.low a.high) }
{
    a.low <= b.high && b.low <= a.high
}

#[tactic(auto, unfolding(arithmetic::specs::Ranges::equalities))]
fn equalities(a: Range, b: Range) -> Option<Range>
    ensures { result ≡ in_bits (Ranges.equalities a b) }
{
    narrowed(
        outcomes::truth(surely_equal(a, b)),
        outcomes::truth(maybe_equal(a, b)),
    )
}

// One less than the divisor's largest magnitude.
fn most_remainder(b: Range) -> i64
    ensures { result ≡ pos (max (nat_abs b.low) (nat_abs b.high) - 1) }
{
    let most = b.low.unsigned_abs().max(b.high.unsigned_abs());
    i64::from(most.saturating_sub(1))
}

fn both_single(a: Range, b: Range) -> bool
    ensures { result ≡ (Ranges.is_single a && Ranges.is_single b) }
{
    is_single(a) && is_single(b)
}

// Exact of two single values; else by the dividend's signs and the divisor's largest magnitude.
#[tactic(auto, unfolding(arithmetic::specs::Ranges::remainders, arithmetic::specs::Ranges::outcome))]
fn remainders(a: Range, b: Range) -> Option<Range>
    ensures { result ≡ in_bits (Ranges.remainders a b) }
{
    if both_single(a, b) {
        let r = outcomes::outcome(Arithmetic::Rem, a.low, b.low);
        return narrowed(r, r);
    }
    let m = most_remainder(b);
    narrowed(down_to(a.low, m), up_to(a.high, m))
}

// 0 if the dividend can't be negative.
fn down_to(low: i32, m: i64) -> i64
    requires { (n : ℕ) × (m ≡ pos n) }
    ensures { result ≡ cond (lt_z low (pos 0)) (neg_ℤ m) (pos 0) }
{
    if low < 0 {
        return 0 - m;
    }
    0
}

// 0 if it can't be positive.
fn up_to(high: i32, m: i64) -> i64
    ensures { result ≡ cond (lt_z (pos 0) high) m (pos 0) }
{
    if 0 < high { m } else { 0 }
}

fn divides(op: Arithmetic) -> bool
    ensures { result ≡ Ranges.divides op }
{
    matches!(op, Arithmetic::Div | Arithmetic::Rem)
}

// The divisor may be 0.
fn by_zero(op: Arithmetic, b: Range) -> bool
    ensures { result ≡ (Ranges.divides op && Ranges.may_be_zero b) }
{
    divides(op) && may_be_zero(b)
}

fn of_outcomes(op: Arithmetic, a: Range, b: Range) -> Option<Range>
    ensures { result ≡ in_bits (Ranges.outcomes op a b) }
{
    // The operation is data of the graph: a match, and no table of functions, which would hand out function pointers.
    match op {
        Arithmetic::Rem => remainders(a, b),
        Arithmetic::Eq => equalities(a, b),
        _ => at_corners(op, a, b),
    }
}

// What an operation gives of two ranges: None (refusal 12) if an outcome is out of range or the divisor may be 0.
#[tactic(auto, unfolding(arithmetic::specs::Ranges::range_of))]
pub fn range(op: Arithmetic, a: Range, b: Range) -> Option<Range>
    ensures { result ≡ range_of op a b }
{
    if by_zero(op, b) {
        return None;
    }
    of_outcomes(op, a, b)
}

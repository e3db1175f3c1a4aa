// The table of a range run (02, R-11). A token's value is the number of its range in the table, its handle; ranges are never changed, so
// that a handle keeps its meaning.
#![tactic(auto)]

ghost use Rattle.std.specs.Prelude.{◌<◌, ◌≡◌, [], ◌∷◌, ◌++◌, length, pos};
ghost use Rattle.rules.specs.RangeHandles as Handles;

use arithmetic::Range;
use std::marker::Model;

// Room for a range of each token, one for the value 0, and one of a firing that is refused.
pub const ROOM: usize = 2050;

// The ranges of a new table.
const ZEROS: [Range; ROOM] = [Range { low: 0, high: 0 }; ROOM];

// Clauses see the list of the ranges.
#[derive(Drop)]
pub struct RangeTable {
    ranges: [Range; ROOM],
    count: usize,
}

impl Model for RangeTable {
    ghost use Rattle.std.specs.Prelude.{List, length, take, ◌≤◌, ◌≡◌};
    ghost use Rattle.arithmetic.specs.declared.Range.{Range};

    ghost Value = { List Range };

    ghost view = { λ t. take t.count t.ranges };

    ghost invariant = { λ t. (t.count ≤ 2050) × (length t.ranges ≡ 2050) };
}

impl RangeTable {
    pub fn new() -> RangeTable
        ensures { result ≡ [] }
    {
        RangeTable {
            ranges: ZEROS,
            count: 0,
        }
    }

    // Takes all ranges away.
    pub fn clear(&mut self)
        ensures { self.new ≡ [] }
    {
        self.count = 0;
    }

    pub fn as_slice(&self) -> &[Range]
        ensures { result.now ≡ self.now }
    {
        &self.ranges[..self.count]
    }

    // The range for which a handle stands; past the table stands the single value 0.
    pub fn meaning(&self, handle: i32) -> Range
        ensures { result ≡ Handles.meaning self.now handle }
    {
        let n = handle.unsigned_abs() as usize;
        match self.as_slice().get(n) {
            Some(r) => *r,
            None => Range { low: 0, high: 0 },
        }
    }

    // A new range at the end, and its handle.
    pub fn add(&mut self, r: Range) -> i32
        requires { length self.old < 2050 }
        ensures { (self.new ≡ self.old ++ r ∷ []) × (result ≡ pos (length self.old)) }
    {
        let handle = self.count as i32;
        self.ranges[self.count] = r;
        self.count += 1;
        handle
    }
}

// The outputs of a firing: keys, each a port of a tag.
ghost use Rattle.std.specs.Prelude.{◌≡◌, [], ◌∷◌};
ghost use Rattle.rules.specs.InstructionSet.{key_under, all_under};
ghost use Rattle.fire_effect.specs.Effects.{key_held, Sends};

use record::instruction::{Destination, Instruction};
use record::tag::Tag;

// A port of a tag. It is a number, as in the records of the lent ledger (`Token`).
#[derive(Clone, Copy, PartialEq, Eq)]
pub struct Key {
    pub tag: Tag,
    pub port: u8,
}

// No, one or two outputs, destination 1 first: `count` says how many of the two keys are meant.
// No optional keys: both are given in any case (docs/DECISIONS.md, 208).
#[derive(Clone, Copy)]
pub struct Outputs {
    pub count: u8,
    pub first: Key,
    pub second: Key,
}

// A port of an instruction under a tag's path and iteration.
pub fn key_under(tag: Tag, d: Destination) -> Key
    ensures { key_held result ≡ key_under tag d }
{
    Key {
        tag: tag.to(d.instruction),
        port: d.port,
    }
}

// No output: the keys are ignored.
pub fn none(tag: Tag) -> Outputs
    ensures { Sends result [] }
{
    let key = Key { tag, port: 0 };
    Outputs {
        count: 0,
        first: key,
        second: key,
    }
}

pub fn one(key: Key) -> Outputs
    ensures { Sends result (key_held key ∷ []) }
{
    Outputs {
        count: 1,
        first: key,
        second: key,
    }
}

// Each destination in use, under a tag's path and iteration. A fan-out past 2, which the check of the
// graph refuses, counts as 2. Both keys are given in any case: to choose between them would cost more.
pub fn under(tag: Tag, r: Instruction) -> Outputs
    ensures { Sends result (all_under tag r) }
{
    let fanout = r.fanout;
    let d = r.first;
    let e = r.second;
    let first = key_under(tag, d);
    let second = key_under(tag, e);
    if fanout < 2 {
        return Outputs {
            count: fanout,
            first,
            second,
        };
    }
    Outputs {
        count: 2,
        first,
        second,
    }
}

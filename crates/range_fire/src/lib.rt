// What an instruction of a range run (02, R-11) does, over handles: its operation is the one over ranges, and the table of them is what is kept from
// one firing to the next. The new tags are given the low value of a SWITCH's control, which is decided by then.
#![tactic(auto)]

ghost use Rattle.std.specs.Prelude.{◌+◌, ◌≤◌, ◌++◌, length};
ghost use Rattle.rules.specs.RangeHandles.{meaning, step_in};
ghost use Rattle.range_effect.specs.Asked.{ask_of};
ghost use Rattle.range_fire.specs.Ranges.{ranges_ask, ranges_keep, ranges_in_turn, ranges_sound, ranges_fit};

use fire::Operate;
use fire_effect::operate::Action;
use range_table::RangeTable;
use record::operation::Operation;
use rules::answer::Refusal;
use std::marker::Model;
use store_enabled::Tables;

// The operation over ranges, which keeps their table. Clauses see the list of the ranges.
#[derive(Drop)]
pub struct OverRanges {
    pub table: RangeTable,
}

impl Model for OverRanges {
    ghost use Rattle.std.specs.Prelude.{List};
    ghost use Rattle.arithmetic.specs.declared.Range.{Range};

    ghost Value = { List Range };

    ghost view = { λ o. o.table };
}

impl Operate for OverRanges {
    // One range for the value 0, and at most one of each token.
    ghost fits = { λ t used. length t ≤ used + 1 };

    ghost operated = { λ t o named k cells a b. (ask_of o named k cells t a b).operated };

    ghost after = { λ t o named k cells a b. t ++ (ask_of o named k cells t a b).added };

    ghost control = { λ t b. (meaning t b).low };

    ghost asks = { ranges_ask };

    ghost keeps = { ranges_keep };

    fn control(&self, b: i32) -> i32 {
        self.table.meaning(b).low
    }

    fn operate(
        &mut self,
        tables: &Tables,
        o: Operation,
        k: i32,
        cells: usize,
        a: i32,
        b: i32,
    ) -> Result<Action, Refusal> {
        range_effect::operate(tables, &mut self.table, o, k, cells, a, b)
    }

    ghost in_turn = { ranges_in_turn };

    ghost sound = { ranges_sound };

    ghost fits_after = { ranges_fit };
}

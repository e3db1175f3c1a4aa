// Refusal 5: the sites of ENTER and the constants of LEAVE.
ghost use Rattle.std.specs.Prelude.{◌≡◌, ◌<◌, not, ◌&&◌, List, get_or, replicate, eqb, Some, None, SomeIff, is_some};
ghost use Rattle.record.specs.declared.instruction.Instruction.{Instruction};
ghost use Rattle.rules.specs.Check.{within, good_site};
ghost use Rattle.check_fields.specs.Sites.{small_of, is_other, Sites, at_site};

use crate::constant;
use record::instruction::{Destination, Instruction};
use record::operation::Operation;
use std::marker::Model;

// The site of an ENTER whose constant can be one.
pub fn site_of(r: Instruction) -> Option<u8>
    ensures { SomeIff result ((r.code ≡ 8) × (small_of r.constant < 256)) (small_of r.constant) }
{
    match Operation::from(r.code) {
        Operation::Enter => constant::small(r.constant),
        _ => None,
    }
}

// The returns that the records so far gave, by site. Clauses see the list of them.
#[derive(Drop)]
pub struct Entered {
    returns: [Option<u16>; 256],
}

impl Model for Entered {
    ghost use Rattle.std.specs.Prelude.{List, ℕ, Option};

    ghost Value = { List (Option ℕ) };

    ghost view = { λ s. s.returns };
}

// Whether a return that is known is another one.
fn other(known: Option<u16>, i: u16) -> bool
    ensures { result ≡ is_other known i }
{
    known.is_some_and(|j| j != i)
}

impl Entered {
    pub fn none() -> Entered
        ensures { result ≡ replicate 256 None }
    {
        Entered {
            returns: [None; 256],
        }
    }

    // Whether a record entered the site.
    pub fn has(&self, site: u8) -> bool
        ensures { result ≡ is_some (get_or self.now site None) }
    {
        self.returns[site as usize].is_some()
    }

    // Of an ENTER: the site, the return's port, and the returns of the records before.
    fn good_enter(&self, constant: i32, back: Destination) -> bool
        ensures { result ≡ (within 1 255 constant && (eqb back.port 0 && not (is_other (get_or self.now (small_of constant) None) back.instruction))) }
    {
        let Some(site) = constant::small(constant) else {
            return false;
        };
        1 <= site && (back.port == 0 && !other(self.returns[site as usize], back.instruction))
    }

    pub fn good(&self, r: Instruction) -> bool
        ensures { (earlier : List Instruction) → Sites earlier self.now → result ≡ good_site earlier r }
    {
        match Operation::from(r.code) {
            Operation::Enter => self.good_enter(r.constant, r.second),
            Operation::Leave => constant::small(r.constant).is_some(),
            _ => true,
        }
    }

    // Puts the return of an ENTER into the table.
    pub fn note(&mut self, r: Instruction)
        ensures { self.new ≡ at_site self.old r (Some r.second.instruction) }
    {
        if let Some(site) = site_of(r) {
            self.returns[site as usize] = Some(r.second.instruction);
        }
    }
}

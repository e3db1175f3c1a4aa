// Matching: the operands of an enabled tag.
#![tactic(auto)]

ghost use Rattle.std.specs.Prelude.{◌≡◌};
ghost use Rattle.record.specs.TokensAndTags.{tokens, token_at, value_in};
ghost use Rattle.store_enabled.specs.Store.{Known};
ghost use Rattle.fire_operands.specs.Operands.{both_at, Earliest, matched_at};

use record::codec::Decode;
use record::tag::Tag;
use record::token::{Content, Token};
use store_chains::Links;

// The operands of an enabled activity: one stands at its place, the other here, and the values are by ports. Where one is waited for,
// it stands for both: no Option, since `states_spent`, by which `store::spend_operands` promises what it does, is of two places, and one
// that is given twice is spent once.
#[derive(Clone, Copy)]
pub struct Operands {
    pub other: usize,
    pub left: i32,
    pub right: i32,
}

// The bits of a content as a value, whatever its state: a live token's is known to be live where this is asked for.
fn value_in(content: Content) -> i32
    ensures { result ≡ value_in content }
{
    match content {
        Content::Live(v) => v,
        Content::Spent(v) => v,
        Content::Deferred(cell) => number::signed(cell),
    }
}

// All operands of a tag, which are live. The token at the tag's place is one of them: the other is its partner, where there is
// one. The arity is a number, as `store_enabled::arity` gives it.
// The caller lends the ledger's bytes, so the number of its tokens goes beside them.
pub fn operands_of(
    links: &Links,
    ledger: &[u8],
    used: usize,
    tag: Tag,
    arity: u16,
    place: usize,
) -> Operands
    requires { Known links.now ledger.now used × Earliest arity (tokens used ledger.now) tag place }
    ensures { both_at (token_at ledger.now place).port place result.other result.left result.right ≡ matched_at arity (tokens used ledger.now) tag }
{
    let t = Token::read(ledger, place);
    let content = t.content;
    let own = value_in(content);
    if arity != 2 {
        return Operands {
            other: place,
            left: own,
            right: own,
        };
    }
    let other = store::partner(links, place).unwrap_or(place);
    let u = Token::read(ledger, other);
    let found = u.content;
    let value = value_in(found);
    if t.port == 0 {
        Operands {
            other,
            left: own,
            right: value,
        }
    } else {
        Operands {
            other,
            left: value,
            right: own,
        }
    }
}

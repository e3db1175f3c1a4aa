// Chains through the tokens of a ledger: by tag, and by the cell that a token is deferred on. A walk along
// one finds what a scan of the ledger finds. All chains stand in one array, `links`, by these parts.
#![tactic(auto)]

ghost use Rattle.std.specs.Prelude.{◌≡◌, List, [], ◌∷◌, ◌++◌, ◌+◌, ◌/◌, ◌≤◌, ◌<◌, length, get_or, set};
ghost use Rattle.buffer.specs.Rows.{All};
ghost use Rattle.record.specs.TokensAndTags.{tokens, stands_at};
ghost use Rattle.record.specs.Widths.{token_width};
ghost use Rattle.store_chains.specs.Search.{first_from, found_of, FoundWithin, Single};
ghost use Rattle.store_chains.specs.Chains.{mix, bucket_of, Indexed};
ghost use Rattle.store_chains.specs.Slots.{SoughtAt};
ghost use Rattle.store_chains.specs.Partners.{partner_at, Partnered, paired, Beside};
ghost use Rattle.store_chains.specs.Deferred.{LowCell, Waiting};

use record::codec::Decode;
use record::tag::Tag;
use record::token;
use record::token::{Content, Token};

// All chains of a ledger.
pub const LENGTH: usize = 11264;

// Each number is a place + 1, and 0 is none. No Option in the array: one of a place would take more than two bytes, of 11,264 entries that
// each run clears. `place_at` reads it.
pub type Links = [u16; LENGTH];

// Heads by tag from 0 on, and for each place the link to the one before it.
const NEXT: usize = 4096;

// Heads by cell, and for each place the link to the one before it that is deferred on the cell.
pub const WAITING: usize = 6144;

pub const LATER: usize = 7168;

// For each place that of its partner, as place + 1 and 0 for none.
const PARTNER: usize = 9216;

// Where a token may arrive: the chain of its tag, and its partner, which stands on the other port of the tag. A slot is right for one ledger,
// tag and port, so the clauses say that it is (`Open`), and no invariant does.
#[derive(Clone, Copy)]
pub struct Slot {
    pub bucket: usize,
    pub partner: Option<usize>,
}

// A product spreads what stands in each half over the bits from 2^20 on.
#[tactic(auto, unfolding(crate::specs::Chains::mix))]
fn mixed(calls: u64) -> u64
    ensures { (result ≡ mix calls) × (result < 9223372036854775808) }
{
    calls % 4294967296 * 668265261 + calls / 4294967296 * 374761393
}

#[tactic(auto, unfolding(crate::specs::Chains::bucket_of))]
fn bucket(tag: Tag) -> usize
    ensures { (result ≡ bucket_of tag) × (result < 4096) }
{
    let path = tag.path;
    let spread = mixed(path.folded());
    let sum = spread / 1048576 + (tag.iteration as u64) * 1259 + (tag.instruction as u64) * 341;
    (sum % 4096) as usize
}

// The place at an index of the chains, where it stands as place + 1, and 0 for none.
pub fn place_at(links: &Links, index: usize) -> Option<usize>
    requires { index < 11264 }
    ensures { result ≡ found_of (get_or links.now index 0) }
{
    (links[index] as usize).checked_sub(1)
}

// The used record that stands at a port of a tag. No two do, so the walk along the tag's chain ends with the first that it meets.
// The caller lends the ledger's bytes, so the number of its tokens goes beside them.
// A port is a number, as in the records of the lent ledger (`Token`).
// No `for`: a link says which place comes next.
pub fn find(links: &Links, ledger: &[u8], used: usize, tag: Tag, port: u8) -> Option<usize>
    requires { (used ≤ length ledger.now / token_width) × Indexed links.now (tokens used ledger.now) × Single (tokens used ledger.now) }
    ensures { (result ≡ first_from (stands_at tag port) 0 (tokens used ledger.now)) × FoundWithin result used }
{
    let mut at = place_at(links, bucket(tag));
    while let Some(i) = at {
        let t = Token::read(ledger, i);
        if token::stands_at(t, tag, port) {
            return Some(i);
        }
        at = place_at(links, i + NEXT);
    }
    None
}

// Where a token may arrive at a port of a tag, or `None` if one stands there already. One walk along the tag's chain finds both: a record of the
// tag that is not on the port is on the other. A chain goes from the last record to the first, so it is walked to its end.
pub fn seek(links: &Links, ledger: &[u8], used: usize, tag: Tag, port: u8) -> Option<Slot>
    requires { (used ≤ length ledger.now / token_width) × Indexed links.now (tokens used ledger.now) × (port < 2) × All (λ (t : Token). t.port < 2) (tokens used ledger.now) }
    ensures { SoughtAt result (tokens used ledger.now) tag port }
{
    let b = bucket(tag);
    let mut at = place_at(links, b);
    let mut partner = None;
    while let Some(i) = at {
        let t = Token::read(ledger, i);
        if t.tag == tag {
            if t.port == port {
                return None;
            }
            partner = Some(i);
        }
        at = place_at(links, i + NEXT);
    }
    Some(Slot { bucket: b, partner })
}

// Puts place `used` at the head of a chain: its link is at `link`, the head at `head`.
fn link(links: &mut Links, head: usize, link: usize, used: usize)
    requires { (head < 9216) × (link < 9216) × (used < 2048) }
    ensures { links.new ≡ set (set links.old link (get_or links.old head 0)) head (used + 1) }
{
    let last = links[head];
    links[link] = last;
    links[head] = (used + 1) as u16;
}

// Puts the token at place `used` and its partner, where it has one, beside each other. What a place lies below is said in the clauses, for
// it changes with each token.
fn pair(links: &mut Links, used: usize, partner: Option<usize>)
    requires { (used < 2048) × FoundWithin partner used }
    ensures { links.new ≡ paired links.old used partner }
{
    match partner {
        Some(i) => {
            links[used + PARTNER] = (i + 1) as u16;
            links[i + PARTNER] = (used + 1) as u16;
        }
        None => {
            links[used + PARTNER] = 0;
        }
    }
}

// The place of the partner of the token at a place.
pub fn partner(links: &Links, place: usize) -> Option<usize>
    requires { place < 2048 }
    ensures { result ≡ partner_at links.now place }
{
    place_at(links, place + PARTNER)
}

// Enters a token that stands at place `used`, after those before it: in the chain of its tag, beside its partner and, if it is deferred, in
// the chain of its cell. Chain and partner are those of its slot. A low cell is no invariant of `Token`: a record of a lent ledger may name
// any cell.
pub fn enter(links: &mut Links, used: usize, t: Token, slot: Slot)
    requires { (used < 2048) × LowCell t.content × (slot.bucket ≡ bucket_of t.tag) × FoundWithin slot.partner used }
    ensures indexed { (ts : List Token) → length ts ≡ used → Indexed links.old ts → Indexed links.new (ts ++ t ∷ []) }
    ensures waiting { (ts : List Token) → length ts ≡ used → Waiting links.old ts → Waiting links.new (ts ++ t ∷ []) }
    ensures partnered { (ts : List Token) → length ts ≡ used → Beside links.old ts t slot → Partnered links.new (ts ++ t ∷ []) }
{
    link(links, slot.bucket, used + NEXT, used);
    let partner = slot.partner;
    pair(links, used, partner);
    let content = t.content;
    match content {
        Content::Live(_) => {}
        Content::Spent(_) => {}
        Content::Deferred(cell) => {
            link(links, (cell as usize) + WAITING, used + LATER, used);
        }
    }
}

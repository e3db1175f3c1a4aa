// 2,048 flags and how many are set, in one array: set and clear one, count the ones, find one by its number. Words 0 to 31
// hold 64 flags each. The next word says which of these have any, so that the first one is found with no loop: a loop that
// ends elsewhere at each call takes longer than what it does (docs/DECISIONS.md, 35). Behind it stand the counts of ones,
// by words and by groups of eight words.
#![tactic(auto)]

ghost use Rattle.std.specs.Prelude.{◌≡◌, ℕ, ◌+◌, ◌-◌, ◌*◌, ◌≤◌, ◌<◌, List, eqb, length, get_or, set, take, drop, replicate, MatchOption};
ghost use Rattle.store_flags.specs.Flags.{ones, place, places, minus, Under, FlagList, FirstIn, in_word, any_set};

use std::marker::Model;

// The words of the flags, with what is known of them behind.
const LENGTH: usize = 69;

// Where the word stands that says which words have any, and where the counts of the first word and of the first group do.
const ANY: usize = 32;

const COUNTS: usize = 33;

const GROUPS: usize = 65;

// Clauses see the list of the 2,048 flags, each 0 or 1, which fixes the words, so the type is Copy.
#[derive(Clone, Copy)]
pub struct Flags {
    words: [u64; LENGTH],
}

impl Model for Flags {
    ghost use Rattle.std.specs.Prelude.{◌≡◌, List, ℕ};
    ghost use Rattle.store_flags.specs.Flags.{flags_of, words_of, Counted};

    ghost Value = { List ℕ };

    ghost view = { λ f. flags_of f.words };

    ghost invariant = { λ f. Counted f.words × (words_of (flags_of f.words) ≡ f.words) };

    ghost inverse = { λ l. record { words = words_of l } };
}

// ---- one word

// The word with flag k, which is lowered, raised.
fn raised(word: u64, k: usize) -> u64
    requires { (k < 64) × (get_or (in_word word) k 0 ≡ 0) }
    ensures { in_word result ≡ set (in_word word) k 1 }
{
    word + (1 << k)
}

// The word with flag k, which is raised, lowered.
pub fn lowered(word: u64, k: usize) -> u64
    requires { (k < 64) × (get_or (in_word word) k 0 ≡ 1) }
    ensures { in_word result ≡ set (in_word word) k 0 }
{
    word - (1 << k)
}

// The word with flag k raised, whether it was or not.
fn marked(word: u64, k: usize) -> u64
    requires { k < 64 }
    ensures { in_word result ≡ set (in_word word) k 1 }
{
    word | (1 << k)
}

// The same, where a flag of it is lowered, and it is `after`.
fn unmark(marks: u64, b: usize, after: u64) -> u64
    requires { (b < 64) × (get_or (in_word marks) b 0 ≡ 1) }
    ensures { in_word result ≡ set (in_word marks) b (any_set after) }
{
    if after == 0 { lowered(marks, b) } else { marks }
}

// Whether there is none.
fn has_none(word: u64) -> bool
    ensures { result ≡ eqb (ones (in_word word)) 0 }
{
    word == 0
}

// The place of the first one.
pub fn lowest(word: u64) -> usize
    requires { 0 < word }
    ensures { (result ≡ place 0 (in_word word)) × (result < 64) }
{
    u64::trailing_zeros(word) as usize
}

// The place of the last one.
fn highest(word: u64) -> usize
    requires { 0 < word }
    ensures { result ≡ place (ones (in_word word) - 1) (in_word word) }
{
    63 - u64::leading_zeros(word) as usize
}

// The place of one number k in a word with `on` of them. The last is found at once; for another those before it are taken
// away in turn.
fn select_in(word: u64, on: usize, k: usize) -> usize
    requires { (on ≡ ones (in_word word)) × (k < on) }
    ensures { result ≡ place k (in_word word) }
{
    if k + 1 == on {
        return highest(word);
    }
    let mut rest = word;
    for _ in 0..k {
        rest = lowered(rest, lowest(rest));
    }
    lowest(rest)
}

// The flags of a word but for those of another.
fn without(word: u64, held: u64) -> u64
    requires { Under (in_word held) (in_word word) }
    ensures { in_word result ≡ minus (in_word word) (in_word held) }
{
    word - held
}

// ---- flags in words, by the words and the counts of their ones

trait FlagWords {
    ghost flags: { Self → List ℕ };

    // The flags of word b.
    fn word(&self, b: usize) -> u64
        requires { b < 32 }
        ensures value { in_word result ≡ take 64 (drop (b * 64) (flags self.now)) }
        ensures list { FlagList (flags self.now) };

    // How many ones word b has, and group g.
    fn ones_in_word(&self, b: usize) -> usize
        requires { b < 32 }
        ensures value { result ≡ ones (take 64 (drop (b * 64) (flags self.now))) }
        ensures list { FlagList (flags self.now) };

    fn ones_in_group(&self, g: usize) -> usize
        requires { g < 4 }
        ensures value { result ≡ ones (take 512 (drop (g * 512) (flags self.now))) }
        ensures list { FlagList (flags self.now) };
}

// The number of ones.
fn count<S: FlagWords>(set: &S) -> usize
    ensures value { result ≡ length (places (S.flags set.now)) }
    ensures list { FlagList (S.flags set.now) }
{
    set.ones_in_group(0) + set.ones_in_group(1) + set.ones_in_group(2) + set.ones_in_group(3)
}

// The place of one number k of those from a word on: the words before the one that has it are passed by their counts.
fn select_block<S: FlagWords>(set: &S, from: usize, k: usize) -> usize
    requires { (from < 32) × (k < ones (drop (from * 64) (S.flags set.now))) }
    ensures { result ≡ from * 64 + place k (drop (from * 64) (S.flags set.now)) }
{
    let mut left = k;
    for b in from..32 {
        let n = set.ones_in_word(b);
        if left < n {
            return b * 64 + select_in(set.word(b), n, left);
        }
        left -= n;
    }
    0
}

// The place of one number k: its group is found by the groups' counts, and its word from there on.
fn select<S: FlagWords>(set: &S, k: usize) -> usize
    requires { k < length (places (S.flags set.now)) }
    ensures { (result ≡ get_or (places (S.flags set.now)) k 0) × (result < 2048) }
{
    let mut left = k;
    for g in 0..4 {
        let n = set.ones_in_group(g);
        if left < n {
            return select_block(set, g * 8, left);
        }
        left -= n;
    }
    0
}

// ---- all flags

impl FlagWords for Flags {
    ghost flags = { λ f. f };

    fn word(&self, b: usize) -> u64 {
        self.words[b]
    }

    fn ones_in_word(&self, b: usize) -> usize {
        self.words[COUNTS + b] as usize
    }

    fn ones_in_group(&self, g: usize) -> usize {
        self.words[GROUPS + g] as usize
    }
}

impl Flags {
    // With none raised.
    pub fn new() -> Flags
        ensures { result ≡ replicate 2048 0 }
    {
        Flags { words: [0; LENGTH] }
    }

    // Raises flag i, which is lowered, and its word's mark.
    pub fn raise(&mut self, i: usize)
        requires { (i < 2048) × (get_or self.old i 0 ≡ 0) }
        ensures flags_after { self.new ≡ set self.old i 1 }
        ensures list { FlagList self.new }
    {
        let b = i / 64;
        let word = self.words[b];
        self.words[b] = raised(word, i % 64);
        let marks = self.words[ANY];
        self.words[ANY] = marked(marks, b);
        let in_word = self.words[COUNTS + b];
        self.words[COUNTS + b] = in_word + 1;
        let in_group = self.words[GROUPS + i / 512];
        self.words[GROUPS + i / 512] = in_group + 1;
    }

    // Lowers flag i, which is raised. If it was the last one of its word, the word's mark goes too.
    pub fn lower(&mut self, i: usize)
        requires { (i < 2048) × (get_or self.old i 0 ≡ 1) }
        ensures flags_after { self.new ≡ set self.old i 0 }
        ensures list { FlagList self.new }
    {
        let b = i / 64;
        let word = lowered(self.words[b], i % 64);
        self.words[b] = word;
        let marks = self.words[ANY];
        self.words[ANY] = unmark(marks, b, word);
        let in_word = self.words[COUNTS + b];
        self.words[COUNTS + b] = in_word - 1;
        let in_group = self.words[GROUPS + i / 512];
        self.words[GROUPS + i / 512] = in_group - 1;
    }

    pub fn is_raised(&self, i: usize) -> bool
        requires { i < 2048 }
        ensures value { result ≡ eqb (get_or self.now i 0) 1 }
        ensures list { FlagList self.now }
    {
        (self.words[i / 64] >> (i % 64)) % 2 == 1
    }

    // The flags of word b, the first in its lowest bit.
    pub fn word_at(&self, b: usize) -> u64
        requires { b < 32 }
        ensures value { in_word result ≡ take 64 (drop (b * 64) self.now) }
        ensures list { FlagList self.now }
    {
        self.word(b)
    }

    // The number of ones.
    pub fn count(&self) -> usize
        ensures value { result ≡ length (places self.now) }
        ensures list { FlagList self.now }
    {
        count(self)
    }

    // Whether there is none.
    pub fn is_empty(&self) -> bool
        ensures value { result ≡ eqb (length (places self.now)) 0 }
        ensures list { FlagList self.now }
    {
        has_none(self.words[ANY])
    }

    // The first word that has any, where there is one.
    fn first_word(&self) -> usize
        requires { 0 < ones self.now }
        ensures low { result < 32 }
        ensures some { 0 < ones (take 64 (drop (result * 64) self.now)) }
        ensures first { place 0 self.now ≡ result * 64 + place 0 (take 64 (drop (result * 64) self.now)) }
    {
        lowest(self.words[ANY])
    }

    // The place of the first one, where there is one.
    fn first(&self) -> usize
        requires { 0 < ones self.now }
        ensures value { result ≡ place 0 self.now }
        ensures list { FlagList self.now }
    {
        let b = self.first_word();
        b * 64 + lowest(self.words[b])
    }

    // The place of one number k. The first is found with no loop.
    pub fn select(&self, k: usize) -> usize
        requires { k < length (places self.now) }
        ensures { (result ≡ get_or (places self.now) k 0) × (result < 2048) }
    {
        if k == 0 {
            self.first()
        } else {
            select(self, k)
        }
    }
}

// ---- flags but for those of another set, each of which is set here too: of the enabled activities those that are not held back

// Clauses see the flags that are left.
#[derive(Drop)]
pub struct Free<'a> {
    flags: &'a Flags,
    held: &'a Flags,
}

impl<'a> Model for Free<'a> {
    ghost use Rattle.std.specs.Prelude.{List, ℕ};
    ghost use Rattle.store_flags.specs.Flags.{minus, Under};

    ghost Value = { List ℕ };

    ghost view = { λ f. minus f.flags.now f.held.now };

    ghost invariant = { λ f. Under f.held.now f.flags.now };
}

impl<'a> FlagWords for Free<'a> {
    ghost flags = { λ f. f };

    fn word(&self, b: usize) -> u64 {
        let word = self.flags.word(b);
        let held = self.held.word(b);
        without(word, held)
    }

    fn ones_in_word(&self, b: usize) -> usize {
        let flags = self.flags.ones_in_word(b);
        let held = self.held.ones_in_word(b);
        flags - held
    }

    fn ones_in_group(&self, g: usize) -> usize {
        let flags = self.flags.ones_in_group(g);
        let held = self.held.ones_in_group(g);
        flags - held
    }
}

impl<'a> Free<'a> {
    pub fn new(flags: &'a Flags, held: &'a Flags) -> Free<'a>
        requires { Under held.now flags.now }
        ensures { result ≡ minus flags.now held.now }
    {
        Free { flags, held }
    }

    // The number of ones.
    pub fn count(&self) -> usize
        ensures { result ≡ length (places self.now) }
    {
        count(self)
    }

    // The place of one number k.
    pub fn select(&self, k: usize) -> usize
        requires { k < length (places self.now) }
        ensures { (result ≡ get_or (places self.now) k 0) × (result < 2048) }
    {
        select(self, k)
    }

    // The place of the first one. The words from the first that has any are looked at in turn.
    pub fn first(&self) -> Option<usize>
        ensures { MatchOption result (length (places self.now) ≡ 0) (FirstIn self.now) }
    {
        let flags = self.flags;
        if flags.is_empty() {
            return None;
        }
        for b in flags.first_word()..32 {
            let word = self.word(b);
            if !has_none(word) {
                return Some(b * 64 + lowest(word));
            }
        }
        None
    }
}

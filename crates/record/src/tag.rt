// The tag of a token, read from its bytes, and how ENTER, LEAVE and NEXT make new ones.
ghost use Rattle.std.specs.Prelude.{◌≡◌, ◌≤◌, length};
ghost use Rattle.record.specs.Paths.{is_root, compared_paths, folded_path};
ghost use Rattle.record.specs.TokensAndTags.{tag_in, root_of, to_of};
ghost use Rattle.record.specs.Widths.{log_width};
ghost use Rattle.record.specs.Calls.{enter_of, leave_of, next_of};

use crate::codec::Decode;
use std::cmp::Ordering;

// 02, R-8: a path is a number of 128 bits, 16 to a level, the newest four levels in its lower word.
#[derive(Clone, Copy, PartialEq, Eq)]
pub struct Path {
    pub low: u64,
    pub high: u64,
}

// 01, "Tokens and tags": a tag is path, iteration and instruction.
#[derive(Clone, Copy, PartialEq, Eq)]
pub struct Tag {
    pub path: Path,
    pub iteration: u8,
    pub instruction: u16,
}

// Where a path was entered from: the site, and the tag there.
#[derive(Clone, Copy)]
pub struct Caller {
    pub site: u8,
    pub tag: Tag,
}

// A path whose higher word is this or above has as many levels as there may be: 65,536 to the number
// of levels in that word less 1. The newest of the levels in a lower word stand below it too.
const DEEPEST: u64 = 281474976710656;

// The tag of a record of a token or of a log: they start alike.
impl Decode for Tag {
    const WIDTH: usize = 20;

    ghost WIDTH = { log_width };

    ghost decoded = { tag_in };

    fn decode(s: &[u8]) -> Self {
        let path = Path {
            low: number::u64_at(s, 0),
            high: number::u64_at(s, 8),
        };
        Tag {
            path,
            iteration: s[16],
            instruction: number::u16_at(s, 18),
        }
    }
}

impl Path {
    pub const ROOT: Path = Path { low: 0, high: 0 };

    pub fn is_root(self) -> bool
        ensures { result ≡ is_root self }
    {
        self.low == 0 && self.high == 0
    }

    // By their numbers: the higher words decide, and where these are equal, the lower ones.
    // Not `Ord`, whose laws speak of words of any size: past 64 bits two paths of one number may differ.
    pub fn compared(self, other: Path) -> Ordering
        ensures { result ≡ compared_paths self other }
    {
        self.high.cmp(&other.high).then(self.low.cmp(&other.low))
    }

    // One word for a path, of which the matching store makes a bucket.
    #[tactic(auto, unfolding(crate::specs::Paths::folded_path))]
    pub fn folded(self) -> u64
        ensures { result ≡ folded_path self }
    {
        std::num::wrapping_add_u64(std::num::wrapping_add_u64(self.low, self.high), self.high)
    }
}

impl Tag {
    // The root tag of instruction 0.
    pub const ROOT: Tag = Tag {
        path: Path::ROOT,
        iteration: 0,
        instruction: 0,
    };

    // The root tag of an instruction.
    pub fn root(instruction: u16) -> Self
        ensures { result ≡ root_of instruction }
    {
        let root = Tag::ROOT;
        root.to(instruction)
    }

    // The same path and iteration at another instruction.
    pub fn to(self, instruction: u16) -> Self
        ensures { result ≡ to_of self instruction }
    {
        let path = self.path;
        Tag {
            path,
            iteration: self.iteration,
            instruction,
        }
    }

    // The tag in a call from a site, if one more level may be.
    pub fn enter(self, site: u8) -> Option<Tag>
        ensures { result ≡ enter_of self site }
    {
        let low = self.path.low;
        let high = self.path.high;
        if high < DEEPEST {
            Some(Tag {
                path: Path {
                    low: low % DEEPEST * 65536 + (site as u64) * 256 + (self.iteration as u64),
                    high: high * 65536 + low / DEEPEST,
                },
                iteration: 0,
                instruction: self.instruction,
            })
        } else {
            None
        }
    }

    // Where the path was entered from. Path 0 has no caller.
    pub fn leave(self) -> Option<Caller>
        ensures { result ≡ leave_of self }
    {
        let path = self.path;
        if path.is_root() {
            None
        } else {
            let low = path.low;
            let high = path.high;
            Some(Caller {
                site: (low / 256 % 256) as u8,
                tag: Tag {
                    path: Path {
                        low: low / 65536 + high % 65536 * DEEPEST,
                        high: high / 65536,
                    },
                    iteration: (low % 256) as u8,
                    instruction: self.instruction,
                },
            })
        }
    }

    // The tag of the next iteration, unless this is the last.
    pub fn next(self) -> Option<Tag>
        ensures { result ≡ next_of self }
    {
        let path = self.path;
        let iteration = self.iteration;
        if iteration < 255 {
            Some(Tag {
                path,
                iteration: iteration + 1,
                instruction: self.instruction,
            })
        } else {
            None
        }
    }
}

// What a run answers.
ghost use Rattle.std.specs.Prelude.{◌≡◌};
ghost use Rattle.rules.specs.declared.answer.Outcome.TheVariants.{Refused};
ghost use Rattle.rules.specs.Answer.{number_of, word_of};

// The words of 01's table of refusals in this order, 1 to 17 without 15 and 16, which R-5 and R-6 took out; then 02's.
#[derive(Clone, Copy)]
pub enum Refusal {
    GraphLength = 1,
    UnknownOperation = 2,
    FanOut = 3,
    BadArc = 4,
    BadSite = 5,
    BadInput = 6,
    BadStore = 7,
    LedgerFull = 8,
    SecondToken = 9,
    NoSuchCell = 10,
    SecondWrite = 11,
    OutOfRange = 12,
    Iteration = 13,
    TooDeep = 14,
    NoReturn = 17,
    ProfileFull = 18,
    NotLoopFree = 19,
    NotEnabled = 20,
    BadBound = 21,
    BadArray = 22,
    Undecided = 23,
    DamagedState = 24,
    BadExpression = 25,
    GraphTooLong = 26,
}

// A refusal comes with its place.
#[derive(Clone, Copy)]
pub struct Fault {
    pub refusal: Refusal,
    pub place: usize,
}

impl Refusal {
    pub fn at(self, place: usize) -> Fault
        ensures { result ≡ record { refusal = self; place = place } }
    {
        Fault {
            refusal: self,
            place,
        }
    }
}

// `Refused` has no `Fault` in it: theorems and the number for C are said of its two fields (docs/DECISIONS.md, 233).
#[derive(Clone, Copy)]
pub enum Outcome {
    Completed,
    Hung,
    Spent,
    Refused(Refusal, usize),
}

#[derive(Clone, Copy)]
pub struct Answer {
    pub outcome: Outcome,
    pub firings: usize,
    pub tokens: usize,
}

// The answer of a run with this outcome, its firings and the tokens that it left.
pub fn answered(outcome: Outcome, firings: usize, tokens: usize) -> Answer
    ensures { result ≡ record { outcome = outcome; firings = firings; tokens = tokens } }
{
    Answer {
        outcome,
        firings,
        tokens,
    }
}

// The answer of a run that was refused before any firing.
pub fn refused(fault: Fault) -> Answer
    ensures { result ≡ record { outcome = Refused fault.refusal fault.place; firings = 0; tokens = 0 } }
{
    answered(Outcome::Refused(fault.refusal, fault.place), 0, 0)
}

// What a profile answers, with the number of its records.
#[derive(Clone, Copy)]
pub struct Profiled {
    pub answer: Answer,
    pub records: usize,
}

// What a graph will need, before it runs: the most firings and the most tokens.
#[derive(Clone, Copy)]
pub struct Needs {
    pub firings: usize,
    pub tokens: usize,
}

// The papers' number of a refusal.
pub fn number(r: Refusal) -> u8
    ensures { result ≡ number_of r }
{
    r as u8
}

// An outcome in one number.
pub fn word(outcome: Outcome) -> u8
    ensures { result ≡ word_of outcome }
{
    match outcome {
        Outcome::Completed => 0,
        Outcome::Hung => 101,
        Outcome::Spent => 100,
        Outcome::Refused(r, _) => number(r),
    }
}

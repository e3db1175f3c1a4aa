// The operations: which one a code names, and how many operands each code has.
ghost use Rattle.std.specs.Prelude.{◌≡◌};
ghost use Rattle.record.specs.GraphRecords as Graph;
ghost use Rattle.record.specs.GraphRecords.{operation_of, operands_of};

#[derive(Clone, Copy)]
pub enum Arithmetic {
    Add,
    Sub,
    Mul,
    Div,
    Rem,
    Lt,
    Le,
    Eq,
}

#[derive(Clone, Copy)]
pub enum Operation {
    Copy,
    Sink,
    Out,
    Const,
    Switch,
    Gate,
    Next,
    Enter,
    Leave,
    Fetch,
    Store,
    // Both operands arrive.
    OnTwo(Arithmetic),
    // The right operand is the constant.
    OnConstant(Arithmetic),
    // Any other code. No Option in its place: the rules give each instruction of any graph an effect (`effect_of`), and so this one, and
    // an Option would put a second match around each match on an operation.
    Unknown,
}

impl From<u8> for Operation {
    ghost from_gives = { λ code o. o ≡ operation_of code };

    fn from(code: u8) -> Operation {
        match code {
            1 => Operation::Copy,
            2 => Operation::Sink,
            3 => Operation::Out,
            4 => Operation::Const,
            5 => Operation::Switch,
            6 => Operation::Gate,
            7 => Operation::Next,
            8 => Operation::Enter,
            9 => Operation::Leave,
            10 => Operation::Fetch,
            11 => Operation::Store,
            16 => Operation::OnTwo(Arithmetic::Add),
            17 => Operation::OnTwo(Arithmetic::Sub),
            18 => Operation::OnTwo(Arithmetic::Mul),
            19 => Operation::OnTwo(Arithmetic::Div),
            20 => Operation::OnTwo(Arithmetic::Rem),
            21 => Operation::OnTwo(Arithmetic::Lt),
            22 => Operation::OnTwo(Arithmetic::Le),
            23 => Operation::OnTwo(Arithmetic::Eq),
            32 => Operation::OnConstant(Arithmetic::Add),
            33 => Operation::OnConstant(Arithmetic::Sub),
            34 => Operation::OnConstant(Arithmetic::Mul),
            35 => Operation::OnConstant(Arithmetic::Div),
            36 => Operation::OnConstant(Arithmetic::Rem),
            37 => Operation::OnConstant(Arithmetic::Lt),
            38 => Operation::OnConstant(Arithmetic::Le),
            39 => Operation::OnConstant(Arithmetic::Eq),
            _ => Operation::Unknown,
        }
    }
}

// The operand count of each of the 256 codes, 0 for an unknown one.
const OPERANDS: [u8; 256] = [
    0, 1, 1, 1, 1, 2, 2, 1, 1, 1, 1, 2, 0, 0, 0, 0, 2, 2, 2, 2, 2, 2, 2, 2, 0, 0, 0, 0, 0, 0, 0, 0,
    1, 1, 1, 1, 1, 1, 1, 1, 0, 0, 0, 0, 0, 0, 0, 0, 0, 0, 0, 0, 0, 0, 0, 0, 0, 0, 0, 0, 0, 0, 0, 0,
    0, 0, 0, 0, 0, 0, 0, 0, 0, 0, 0, 0, 0, 0, 0, 0, 0, 0, 0, 0, 0, 0, 0, 0, 0, 0, 0, 0, 0, 0, 0, 0,
    0, 0, 0, 0, 0, 0, 0, 0, 0, 0, 0, 0, 0, 0, 0, 0, 0, 0, 0, 0, 0, 0, 0, 0, 0, 0, 0, 0, 0, 0, 0, 0,
    0, 0, 0, 0, 0, 0, 0, 0, 0, 0, 0, 0, 0, 0, 0, 0, 0, 0, 0, 0, 0, 0, 0, 0, 0, 0, 0, 0, 0, 0, 0, 0,
    0, 0, 0, 0, 0, 0, 0, 0, 0, 0, 0, 0, 0, 0, 0, 0, 0, 0, 0, 0, 0, 0, 0, 0, 0, 0, 0, 0, 0, 0, 0, 0,
    0, 0, 0, 0, 0, 0, 0, 0, 0, 0, 0, 0, 0, 0, 0, 0, 0, 0, 0, 0, 0, 0, 0, 0, 0, 0, 0, 0, 0, 0, 0, 0,
    0, 0, 0, 0, 0, 0, 0, 0, 0, 0, 0, 0, 0, 0, 0, 0, 0, 0, 0, 0, 0, 0, 0, 0, 0, 0, 0, 0, 0, 0, 0, 0,
];

// The table, for callers that look up many codes: `operands` copies it at each.
pub fn counts() -> [u8; 256]
    ensures { Graph.OperandCounts result }
{
    OPERANDS
}

// The operand count of a code, by the table.
pub fn count_of(counts: &[u8; 256], code: u8) -> u8
    requires { Graph.OperandCounts counts.now }
    ensures { result ≡ operands_of code }
{
    counts[code as usize]
}

// The table with what it says. Codes are asked for as they stand in a lent graph: one that is unknown is found out by its count.
#[derive(Drop)]
pub struct OperandCounts {
    table: [u8; 256],
    ghost right: { Graph.OperandCounts table },
}

impl OperandCounts {
    pub fn new() -> Self
        ensures { Graph.OperandCounts result.table }
    {
        OperandCounts { table: counts() }
    }

    pub fn of(&self, code: u8) -> u8
        ensures { result ≡ operands_of code }
    {
        count_of(&self.table, code)
    }
}

pub fn operands(code: u8) -> u8
    ensures { result ≡ operands_of code }
{
    OPERANDS[code as usize]
}

// A line of vectors as a question: a letter for the operation, and up to five fields, each a tab and
// the eight digits of an f32's bits or of a u32.
use fields::{hex, low};

// A function of `numeric`, or `Bits`, the pattern through from_bits and to_bits.
#[derive(Clone, Copy, Debug, PartialEq, Eq)]
pub enum Operation {
    Round,
    ToU32,
    FromU32,
    Root,
    InvExact,
    Max,
    Abs,
    Signum,
    Bits,
    InvD,
    EvalAll,
    Eval,
    EvalDerivative,
    PrecomputeWeights,
    StencilWithDir,
    Stencil,
    StencilGradientWithDir,
    StencilGradient,
}

// The longest question: a letter, and five fields, each a tab and eight digits.
const MOST_BYTES: usize = 46;

// A field that the operation does not have is 0.
#[derive(Clone, Copy, Debug, PartialEq, Eq)]
pub struct Question {
    pub operation: Operation,
    pub fields: [u32; 5],
}

impl Question {
    // The question that a line is, if it is one.
    pub fn read(text: &[u8]) -> Option<Question> {
        // A longer line is none, and is not looked through for tabs.
        if text.len() > MOST_BYTES {
            return None;
        }
        let mut parts = text.split(|b| *b == b'\t');
        let operation = Operation::of(parts.next()?)?;
        let mut fields = [0; 5];
        for field in fields.iter_mut().take(operation.size()) {
            let part = parts.next()?;
            *field = low(hex(part, 0, part.len(), 8)?);
        }
        match parts.next() {
            Some(_) => None,
            None => Some(Question { operation, fields }),
        }
    }
}

impl Operation {
    fn of(name: &[u8]) -> Option<Operation> {
        let [letter] = name else {
            return None;
        };
        match letter {
            b'r' => Some(Operation::Round),
            b'c' => Some(Operation::ToU32),
            b'w' => Some(Operation::FromU32),
            b'q' => Some(Operation::Root),
            b'i' => Some(Operation::InvExact),
            b'm' => Some(Operation::Max),
            b'a' => Some(Operation::Abs),
            b'g' => Some(Operation::Signum),
            b'b' => Some(Operation::Bits),
            b'd' => Some(Operation::InvD),
            b'e' => Some(Operation::EvalAll),
            b'k' => Some(Operation::Eval),
            b'v' => Some(Operation::EvalDerivative),
            b'p' => Some(Operation::PrecomputeWeights),
            b's' => Some(Operation::StencilWithDir),
            b't' => Some(Operation::Stencil),
            b'x' => Some(Operation::StencilGradientWithDir),
            b'y' => Some(Operation::StencilGradient),
            _ => None,
        }
    }

    // How many fields it has.
    fn size(self) -> usize {
        match self {
            Operation::Max => 2,
            Operation::PrecomputeWeights
            | Operation::StencilWithDir
            | Operation::StencilGradientWithDir => 3,
            Operation::Stencil | Operation::StencilGradient => 5,
            _ => 1,
        }
    }
}

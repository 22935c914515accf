// A line of vectors as a question: an operation, one letter and one digit, and up to three fields.
use fields::{decimal, hex};

#[derive(Clone, Copy, Debug, PartialEq, Eq)]
pub enum Axes {
    Two,
    Three,
}

// What is asked of a cell's or a region's id, in the plane or in space alike.
#[derive(Clone, Copy, Debug, PartialEq, Eq)]
pub enum Cells {
    PackedAdd,
    NegOne,
    NegTwo,
    PlusFive,
    InColor,
    Neighbors,
    Stencil,
    Shifts,
    RegionShifts,
    Number,
    OfRegion,
}

#[derive(Clone, Copy, Debug, PartialEq, Eq)]
pub enum Operation {
    Pack(Axes),
    Packi(Axes),
    Unpack(Axes),
    Of(Axes, Cells),
    RegionOf,
    MaskedAdd,
}

// A field that the operation does not have is 0.
#[derive(Clone, Copy, Debug, PartialEq, Eq)]
pub struct Question {
    pub operation: Operation,
    pub a: u64,
    pub b: u64,
    pub c: u64,
}

// The kinds of a field: H, W and D as the vectors' format has them, and a decimal below 2^32.
#[derive(Clone, Copy, Debug, PartialEq, Eq)]
enum Kind {
    Id,
    Word,
    Number,
    Coordinate,
}

impl Question {
    // The question that a line is, if it is one.
    pub fn read(text: &[u8]) -> Option<Question> {
        let mut parts = text.split(|b| *b == b'\t');
        let operation = Operation::of(parts.next()?)?;
        let [first, second, third] = operation.kinds();
        let a = field(first, parts.next())?;
        let b = field(second, parts.next())?;
        let c = field(third, parts.next())?;
        match parts.next() {
            Some(_) => None,
            None => Some(Question { operation, a, b, c }),
        }
    }
}

// The number that a field says. One that must not be there is 0.
fn field(kind: Option<Kind>, part: Option<&[u8]>) -> Option<u64> {
    match (kind, part) {
        (Some(kind), Some(text)) => kind.read(text),
        (None, None) => Some(0),
        _ => None,
    }
}

impl Kind {
    fn read(self, text: &[u8]) -> Option<u64> {
        match self {
            Kind::Id => hex(text, 0, text.len(), 16),
            Kind::Word => hex(text, 0, text.len(), 8),
            Kind::Number => decimal(text, 0, text.len()),
            Kind::Coordinate => decimal(text, 0, text.len()).filter(|n| *n < 0x1_0000_0000),
        }
    }
}

impl Operation {
    fn of(name: &[u8]) -> Option<Operation> {
        match name {
            [letter, b'2'] => Operation::on(*letter, Axes::Two),
            [letter, b'3'] => Operation::on(*letter, Axes::Three),
            [b'r', b'0'] => Some(Operation::RegionOf),
            [b'm', b'0'] => Some(Operation::MaskedAdd),
            _ => None,
        }
    }

    // What a letter stands for on the axes that its digit says.
    fn on(letter: u8, axes: Axes) -> Option<Operation> {
        match letter {
            b'p' => Some(Operation::Pack(axes)),
            b'i' => Some(Operation::Packi(axes)),
            b'u' => Some(Operation::Unpack(axes)),
            _ => Some(Operation::Of(axes, Cells::of(letter)?)),
        }
    }

    // The kinds of its fields.
    fn kinds(self) -> [Option<Kind>; 3] {
        match self {
            Operation::Pack(axes) => of_axes(Kind::Coordinate, axes),
            Operation::Packi(axes) => of_axes(Kind::Word, axes),
            Operation::Of(_, cells) => cells.kinds(),
            Operation::Unpack(_) | Operation::RegionOf => [Some(Kind::Id), None, None],
            Operation::MaskedAdd => [Some(Kind::Id); 3],
        }
    }
}

impl Cells {
    fn of(letter: u8) -> Option<Cells> {
        match letter {
            b'a' => Some(Cells::PackedAdd),
            b'o' => Some(Cells::NegOne),
            b'w' => Some(Cells::NegTwo),
            b'f' => Some(Cells::PlusFive),
            b'c' => Some(Cells::InColor),
            b'n' => Some(Cells::Neighbors),
            b's' => Some(Cells::Stencil),
            b't' => Some(Cells::Shifts),
            b'g' => Some(Cells::RegionShifts),
            b'k' => Some(Cells::Number),
            b'l' => Some(Cells::OfRegion),
            _ => None,
        }
    }

    // The kinds of its fields.
    fn kinds(self) -> [Option<Kind>; 3] {
        match self {
            Cells::PackedAdd => [Some(Kind::Id), Some(Kind::Id), None],
            Cells::InColor | Cells::OfRegion => [Some(Kind::Id), Some(Kind::Number), None],
            Cells::Shifts | Cells::RegionShifts => [None; 3],
            _ => [Some(Kind::Id), None, None],
        }
    }
}

fn of_axes(kind: Kind, axes: Axes) -> [Option<Kind>; 3] {
    [
        Some(kind),
        Some(kind),
        (axes == Axes::Three).then_some(kind),
    ]
}

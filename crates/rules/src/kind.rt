// Gate kinds, and what each allows.
ghost use Rattle.std.specs.Prelude.{◌≡◌};
ghost use Rattle.rules.specs.Kinds.{kind_number, Decodes};
ghost use Rattle.rules.specs.Rules.{rule_of};

use crate::Rule;

// "Gate kinds, with in-edges: 00 input, none; 01 output, one; 02 buffer and 03 inverter, one; 04 AND, 05 OR, 06 XOR, 07 NAND, 08 NOR, 09 XNOR, each two to eight."
// "a three-input selector, kind 0A."
#[derive(Clone, Copy, Debug, PartialEq, Eq)]
pub enum Kind {
    Input,
    Output,
    Buffer,
    Inverter,
    And,
    Or,
    Xor,
    Nand,
    Nor,
    Xnor,
    Selector,
}

// A byte that is no gate kind's number.
#[derive(Clone, Copy, Debug, PartialEq, Eq)]
pub struct UnknownKind(pub u8);

impl TryFrom<u8> for Kind {
    type Error = UnknownKind;

    ghost try_from_gives = { Decodes };

    fn try_from(number: u8) -> Result<Kind, UnknownKind> {
        match number {
            0 => Ok(Kind::Input),
            1 => Ok(Kind::Output),
            2 => Ok(Kind::Buffer),
            3 => Ok(Kind::Inverter),
            4 => Ok(Kind::And),
            5 => Ok(Kind::Or),
            6 => Ok(Kind::Xor),
            7 => Ok(Kind::Nand),
            8 => Ok(Kind::Nor),
            9 => Ok(Kind::Xnor),
            10 => Ok(Kind::Selector),
            _ => Err(UnknownKind(number)),
        }
    }
}

// Kept, in all crates: of a kind that stands in the code the number is `Kind::Output as u8`, a constant; `From` is for a kind that is handed in.
impl From<Kind> for u8 {
    ghost from_gives = { λ kind number. number ≡ kind_number kind };

    fn from(kind: Kind) -> u8 {
        kind as u8
    }
}

// The rows of the table: an input, an output, a gate of one in-edge, one of two to eight, a selector. "Inputs and outputs have delay 0, gates 1 to 255."
const NO_IN_EDGE: Rule = Rule {
    fewest: 0,
    most: 0,
    low: 0,
    high: 0,
};

const OUTPUT: Rule = Rule {
    fewest: 1,
    most: 1,
    low: 0,
    high: 0,
};

const ONE_IN_EDGE: Rule = Rule {
    fewest: 1,
    most: 1,
    low: 1,
    high: 255,
};

const TWO_TO_EIGHT: Rule = Rule {
    fewest: 2,
    most: 8,
    low: 1,
    high: 255,
};

const THREE: Rule = Rule {
    fewest: 3,
    most: 3,
    low: 1,
    high: 255,
};

// The rule of each kind, in the order of their numbers.
// Kept: a table by number and no match: document 01 asks for a constant table (docs/DECISIONS.md, its forms).
const RULES: [Rule; 11] = [
    NO_IN_EDGE,
    OUTPUT,
    ONE_IN_EDGE,
    ONE_IN_EDGE,
    TWO_TO_EIGHT,
    TWO_TO_EIGHT,
    TWO_TO_EIGHT,
    TWO_TO_EIGHT,
    TWO_TO_EIGHT,
    TWO_TO_EIGHT,
    THREE,
];

impl Kind {
    // The in-edges and delays that the kind allows.
    #[tactic(auto, unfolding(crate::specs::Rules::rule_of))]
    pub fn rule(self) -> Rule
        ensures { result ≡ rule_of (kind_number self) }
    {
        RULES[self as usize]
    }
}

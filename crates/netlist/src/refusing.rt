// A refusal and its place in the paper's numbers, and a refusal in words.
ghost use Rattle.std.specs.Prelude.{◌≡◌};
ghost use Rattle.netlist.specs.Answer.{number_of, place_of, kind_of, index_of};

use crate::{Place, Refusal};
use std::error::Error;
use std::fmt;

impl Refusal {
    // The paper's number, 1 to 13.
    pub fn number(self) -> u8
        ensures { result ≡ number_of self }
    {
        match self {
            Refusal::Line(_) => 1,
            Refusal::Head => 2,
            Refusal::NodeLine(_) => 3,
            Refusal::EdgeLine(_) => 4,
            Refusal::FanIn(_) => 5,
            Refusal::Loop => 6,
            Refusal::Reach(_) => 7,
            Refusal::Period => 8,
            Refusal::Count(_) => 9,
            Refusal::Choices => 10,
            Refusal::Start => 11,
            Refusal::Room => 12,
            Refusal::Vectors => 13,
        }
    }

    // What is refused: a line, a node, an edge or the whole.
    pub fn place(self) -> Place
        ensures { result ≡ place_of self }
    {
        match self {
            Refusal::Head => Place::Line(1),
            Refusal::Line(line) | Refusal::NodeLine(line) | Refusal::EdgeLine(line) => {
                Place::Line(line)
            }
            Refusal::FanIn(node) | Refusal::Reach(node) => Place::Node(node),
            Refusal::Count(edge) => Place::Edge(edge),
            Refusal::Loop
            | Refusal::Period
            | Refusal::Choices
            | Refusal::Start
            | Refusal::Room
            | Refusal::Vectors => Place::Whole,
        }
    }
}

impl Place {
    // "place kind (1: 00 whole, 01 line, 02 node, 03 edge)"
    pub fn kind(self) -> u8
        ensures { result ≡ kind_of self }
    {
        match self {
            Place::Whole => 0,
            Place::Line(_) => 1,
            Place::Node(_) => 2,
            Place::Edge(_) => 3,
        }
    }

    // "place (2, 0 for whole)"
    pub fn index(self) -> u16
        ensures { result ≡ index_of self }
    {
        match self {
            Place::Whole => 0,
            Place::Line(n) | Place::Node(n) | Place::Edge(n) => n,
        }
    }
}

impl fmt::Display for Refusal {
    ghost use Rattle.std.specs.Prelude.{Some};
    ghost use Rattle.netlist.specs.Sentence.{sentence};

    ghost output = { λ refusal. Some (sentence refusal) };

    fn fmt<W: fmt::Write>(&self, f: &mut fmt::Formatter<W>) -> fmt::Result {
        match self {
            Refusal::Line(line) => write!(f, "line {line} is missing, malformed or surplus"),
            Refusal::Head => write!(f, "a number of the head is out of range"),
            Refusal::NodeLine(line) => write!(f, "the node on line {line} breaks a rule"),
            Refusal::EdgeLine(line) => write!(f, "the edge on line {line} breaks a rule"),
            Refusal::FanIn(node) => write!(f, "node {node} has a wrong number of in-edges"),
            Refusal::Loop => write!(f, "a loop has no register"),
            Refusal::Reach(node) => write!(f, "node {node} is not between an input and an output"),
            Refusal::Period => write!(f, "no legal retiming meets the period"),
            Refusal::Count(edge) => write!(f, "edge {edge} would have more than 32 registers"),
            Refusal::Choices => write!(f, "more than 24 values are to be chosen"),
            Refusal::Start => write!(f, "no choice of values carries the start"),
            Refusal::Room => write!(f, "the buffer is too short"),
            Refusal::Vectors => write!(f, "the vectors do not fit the netlist"),
        }
    }
}

impl Error for Refusal {}

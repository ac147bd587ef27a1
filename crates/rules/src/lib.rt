//! What the operations answer: the kinds of an entry, the refusals, and what is told where nothing is refused. specs/ says what the words
//! of the rules mean, and which number and place each refusal has; proofs/ holds the laws.
#![tactic(auto)]

ghost use Rattle.std.specs.Prelude.{◌≡◌, Some};
ghost use Rattle.rules.specs.Answers.{number, place};
ghost use Rattle.rules.specs.Print.{ending_text};

use std::fmt;

/// The kinds of an entry: a link to a switch, a processor, no link, or none of the three.
#[derive(Clone, Copy, Debug, PartialEq, Eq)]
pub enum Entry {
    Switch(u16),
    Node(u16),
    Nothing,
    Bad,
}

/// Why an operation gives no answer. Where several hold, the first in this order is given, but a bad field comes before all.
#[derive(Clone, Copy, Debug, PartialEq, Eq)]
pub enum Refusal {
    /// The table's length is 0, over 512, or no multiple of 8.
    WrongLength,
    /// The entry at this index, the lowest such, is of no kind.
    BadEntry { at: usize },
    /// The processor at this index, the lowest such, stands at a lower index too.
    ProcessorTwice { at: usize },
    /// A named processor isn't attached.
    NotAttached,
    /// Source and destination are the same.
    SameNode,
    /// No chain of links joins the two.
    Unreachable,
    /// The distance is over 8.
    TooFar,
    /// The lent output is too short.
    ShortOutput,
    /// The tries would pass 65,536.
    TooManyTries,
    /// The header of a walk has over 8 words.
    LongHeader,
    /// A walk has fewer choice bytes than words.
    FewChoices,
    /// The wiring field that begins at this offset is bad.
    BadField { at: usize },
}

impl Refusal {
    /// The number that a caller outside gets, 1 to 12.
    pub fn number(self) -> u8
        ensures { result ≡ number self }
    {
        match self {
            Refusal::WrongLength => 1,
            Refusal::BadEntry { .. } => 2,
            Refusal::ProcessorTwice { .. } => 3,
            Refusal::NotAttached => 4,
            Refusal::SameNode => 5,
            Refusal::Unreachable => 6,
            Refusal::TooFar => 7,
            Refusal::ShortOutput => 8,
            Refusal::TooManyTries => 9,
            Refusal::LongHeader => 10,
            Refusal::FewChoices => 11,
            Refusal::BadField { .. } => 12,
        }
    }

    /// The index in the table or the offset in the input at which it is given; 0, and no Option, where it has no place: callers outside
    /// are told so.
    pub fn place(self) -> usize
        ensures { result ≡ place self }
    {
        match self {
            Refusal::BadEntry { at } => at,
            Refusal::ProcessorTwice { at } => at,
            Refusal::BadField { at } => at,
            _ => 0,
        }
    }
}

/// What is told of a header that was issued: the distance, in switches passed and so in words; how many lists of ports it permits; and the
/// tries of the search for it.
#[derive(Clone, Copy, Debug, PartialEq, Eq)]
pub struct IssuedHeader {
    pub distance: u8,
    pub count: u32,
    pub tries: u32,
}

/// How a walk ended: at a processor with no words left, or with some; at a switch by a word that is 0, by a port that has no link, or with
/// no words left.
#[derive(Clone, Copy, Debug, PartialEq, Eq)]
pub enum Ending {
    Delivered,
    Leftover,
    Empty,
    Off,
    Short,
}

impl fmt::Display for Ending {
    ghost output = { λ e. Some (ending_text e) };

    fn fmt<W: fmt::Write>(&self, f: &mut fmt::Formatter<W>) -> fmt::Result {
        match self {
            Ending::Delivered => write!(f, "DELIVERED"),
            Ending::Leftover => write!(f, "LEFTOVER"),
            Ending::Empty => write!(f, "EMPTY"),
            Ending::Off => write!(f, "OFF"),
            Ending::Short => write!(f, "SHORT"),
        }
    }
}

/// Where a walk ended: `at` is the processor or the switch, after that many hops and with that many words left.
#[derive(Clone, Copy, Debug, PartialEq, Eq)]
pub struct WalkEnd {
    pub ending: Ending,
    pub at: u16,
    pub hops: u8,
    pub left: u8,
}

/// What was read from wiring fields: `pairs` is the offset of the first pair's field, or the input's length.
#[derive(Clone, Copy, Debug, PartialEq, Eq)]
pub struct ReadFields {
    pub switches: u8,
    pub pairs: usize,
}

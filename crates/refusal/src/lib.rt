// The reasons for which a call turns its input away, the answers of the calls, and the one number
// that a caller in C gets of each.

#![tactic(auto)]

ghost use Rattle.std.specs.Prelude.{◌≡◌, ℕ};
ghost use Rattle.refusal.specs.Refusals.{code, code_of, number_of, place_of, column_of, result_of, truth, answer_result, measure_of};

use weights::{Hyperedge, Measure, Vertex};

// A line of a text, counted from 1.
#[derive(Clone, Copy, PartialEq, Eq)]
pub struct TextLine(pub u64);

// A byte of its line, counted from 1: an LF is the last byte of the line that it ends.
#[derive(Clone, Copy, PartialEq, Eq)]
pub struct TextColumn(pub u64);

// A result of a sample, counted from 0.
#[derive(Clone, Copy, PartialEq, Eq)]
pub struct Observation(pub u64);

// An event of a stock record, counted from 0.
#[derive(Clone, Copy, PartialEq, Eq)]
pub struct Event(pub u64);

// The paper's table of refusals, in its order.
#[derive(Clone, Copy, PartialEq, Eq)]
pub enum Refusal {
    // 1: more than 1,024 vertices.
    TooManyVertices,
    // 2: columns that disagree in length, or that are too long.
    Lengths,
    // 3: a head that is not a vertex.
    Head(Hyperedge),
    // 4: an own weight above the greatest.
    Own(Hyperedge),
    // 5: a span that starts too early, is too long, or passes the column's end.
    Span(Hyperedge),
    // 6: a listed vertex that is none.
    Tail(Hyperedge),
    // 7: an answer column that has not a place for each vertex.
    AnswerLength,
    // 8: answers that are not this table's.
    WrongAnswers,
    // 9: a named hyperedge that does not exist or is struck.
    NoSuchEdge,
    // 10: a new own weight above the greatest.
    NewWeight,
    // 11: a bill of a vertex that is none.
    NoSuchVertex,
    // 12: a bill of an unmade vertex.
    Underivable,
    // 13: a bill longer than the room.
    BillRoom,
    // 14: a text that breaks the form or a limit, at the first byte that can't stand where it stands.
    Text(TextLine, TextColumn),
    // 15: a column, or the text's room, too short.
    TextRoom,
    // 16: a measure's number that is none.
    MeasureNumber,
    // 17: a program's input that is too long.
    InputLength,
    // 18: a column that has no room.
    ColumnRoom,
    // 19: an index that is not this table's.
    WrongIndex,
    // 20: a named hyperedge that is not struck, to be restored.
    NotStruck,
    // 21: a strike mark other than 0 and 1.
    StrikeMark(Hyperedge),
    // 22: no results, or too many.
    SampleSize,
    // 23: a result that is too large.
    TooLarge(Observation),
    // 24: a hyperedge that lists its head or a higher vertex.
    Order(Hyperedge),
    // 25: an event of a vertex that is none.
    EventVertex(Event),
    // 26: a count that is too large where a stock record opens.
    OpeningCount(Vertex),
    // 26: a receipt after which a count is too large.
    ReceivedCount(Event),
    // 27: bytes that are not eight for each figure.
    ByteRoom,
}

// A refusal's number, its place: the hyperedge, the text line, the result, the event or the vertex that
// it names, else 0; and the column of 14, else 0.
#[derive(Clone, Copy, PartialEq, Eq)]
pub struct Code {
    pub number: u64,
    pub place: u64,
    pub column: u64,
}

impl Code {
    fn of(number: u64, place: u64) -> Code
        ensures { result ≡ code number place }
    {
        Code {
            number,
            place,
            column: 0,
        }
    }

    fn of_text(place: u64, column: u64) -> Code
        ensures { result ≡ record { number = 14; place = place; column = column } }
    {
        Code {
            number: 14,
            place,
            column,
        }
    }
}

impl Refusal {
    // The paper's table, line by line.
    pub fn code(self) -> Code
        ensures { result ≡ code_of self }
    {
        match self {
            Refusal::TooManyVertices => Code::of(1, 0),
            Refusal::Lengths => Code::of(2, 0),
            Refusal::Head(e) => Code::of(3, e.0),
            Refusal::Own(e) => Code::of(4, e.0),
            Refusal::Span(e) => Code::of(5, e.0),
            Refusal::Tail(e) => Code::of(6, e.0),
            Refusal::AnswerLength => Code::of(7, 0),
            Refusal::WrongAnswers => Code::of(8, 0),
            Refusal::NoSuchEdge => Code::of(9, 0),
            Refusal::NewWeight => Code::of(10, 0),
            Refusal::NoSuchVertex => Code::of(11, 0),
            Refusal::Underivable => Code::of(12, 0),
            Refusal::BillRoom => Code::of(13, 0),
            Refusal::Text(l, c) => Code::of_text(l.0, c.0),
            Refusal::TextRoom => Code::of(15, 0),
            Refusal::MeasureNumber => Code::of(16, 0),
            Refusal::InputLength => Code::of(17, 0),
            Refusal::ColumnRoom => Code::of(18, 0),
            Refusal::WrongIndex => Code::of(19, 0),
            Refusal::NotStruck => Code::of(20, 0),
            Refusal::StrikeMark(e) => Code::of(21, e.0),
            Refusal::SampleSize => Code::of(22, 0),
            Refusal::TooLarge(i) => Code::of(23, i.0),
            Refusal::Order(e) => Code::of(24, e.0),
            Refusal::EventVertex(i) => Code::of(25, i.0),
            Refusal::OpeningCount(v) => Code::of(26, v.0),
            Refusal::ReceivedCount(i) => Code::of(26, i.0),
            Refusal::ByteRoom => Code::of(27, 0),
        }
    }

    pub fn number(self) -> u64
        ensures { result ≡ number_of self }
    {
        self.code().number
    }

    pub fn place(self) -> u64
        ensures { result ≡ place_of self }
    {
        self.code().place
    }

    // The column that refusal 14 names beside its place, the line; else 0.
    pub fn column(self) -> u64
        ensures { result ≡ column_of self }
    {
        self.code().column
    }

    // The number and the place in one number, for C.
    pub fn result(self) -> u64
        ensures { result ≡ result_of (code_of self) }
    {
        let number = self.number();
        let place = self.place();
        if place > 4294967295 {
            return number * 4294967296 + 4294967295;
        }
        number * 4294967296 + place
    }
}

// What a text says of its table: the vertices, the measure, and how many hyperedges and listed
// vertices there are.
#[derive(Clone, Copy, PartialEq, Eq)]
pub struct Header {
    pub vertices: u64,
    pub measure: Measure,
    pub edges: u64,
    pub listed: u64,
}

// How many hyperedges and listed vertices of lent columns are in use.
#[derive(Clone, Copy, PartialEq, Eq)]
pub struct Counts {
    pub edges: u64,
    pub listed: u64,
}

// What an accepted call tells a caller in C: nothing, a yes or no, or a length.
pub trait Told {
    ghost told: { Self → ℕ };

    fn told(self) -> u64
        ensures { result ≡ told self };
}

impl Told for () {
    ghost told = { λ _. 0 };

    fn told(self) -> u64 {
        0
    }
}

impl Told for bool {
    ghost told = { truth };

    fn told(self) -> u64 {
        u64::from(self)
    }
}

impl Told for u64 {
    ghost told = { λ n. n };

    fn told(self) -> u64 {
        self
    }
}

// The one number that a caller in C gets of an answer.
pub fn result<T: Told>(answer: Result<T, Refusal>) -> u64
    ensures { result ≡ answer_result T.told answer }
{
    match answer {
        Ok(value) => value.told(),
        Err(refusal) => refusal.result(),
    }
}

// The measure of a number: 0 is cost, 1 is days, 2 is grade.
pub fn measure_numbered(number: u64) -> Result<Measure, Refusal>
    ensures { result ≡ measure_of number }
{
    match number {
        0 => Ok(Measure::Cost),
        1 => Ok(Measure::Days),
        2 => Ok(Measure::Grade),
        _ => Err(Refusal::MeasureNumber),
    }
}

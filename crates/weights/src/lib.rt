// Weights, the measures by which they are joined and compared, and the labels and entries that are
// made of them.

#![tactic(auto)]

ghost use Rattle.std.specs.Prelude.{◌≡◌, ◌+◌, min};
ghost use Rattle.weights.specs.Figures.{is_struck_mark, is_over, capped};
ghost use Rattle.weights.specs.Measures.{algebra};
ghost use Rattle.weights.specs.Labels.{ahead_of, state_of, entry_of};

// A part, and a line of the table, each by its number: one is never taken for the other.
#[derive(Clone, Copy, PartialEq, Eq)]
pub struct Vertex(pub u64);

#[derive(Clone, Copy, PartialEq, Eq, PartialOrd, Ord)]
pub struct Hyperedge(pub u64);

// The paper's measure: by cost a line's own figure and the figures of its parts are added, by days
// its own figure and the greatest of its parts'; by grade the least of them all counts.
#[derive(Clone, Copy, PartialEq, Eq)]
pub enum Measure {
    Cost,
    Days,
    Grade,
}

// The paper's figure: an own figure of a line, or the figure of a part.
#[derive(Clone, Copy, PartialEq, Eq, PartialOrd, Ord)]
pub struct Weight(pub u64);

impl Weight {
    // The greatest own weight of a hyperedge.
    pub const GREATEST: Weight = Weight(1000000000);

    // The greatest sum.
    pub const CEILING: Weight = Weight(1000000000000);

    // What a sum above the ceiling becomes.
    pub const OVER: Weight = Weight(1000000000001);

    // In place of the weight of a hyperedge that gives none.
    pub const NONE: Weight = Weight(18446744073709551615);

    pub fn is_over(self) -> bool
        ensures { result ≡ is_over self.0 }
    {
        self == Weight::OVER
    }

    // The capped sum. It wraps for no two numbers.
    pub fn plus(self, other: Weight) -> Weight
        ensures { result.0 ≡ capped (self.0 + other.0) }
    {
        if self > Weight::CEILING {
            return Weight::OVER;
        }
        if other.0 > Weight::CEILING.0 - self.0 {
            return Weight::OVER;
        }
        Weight(self.0 + other.0)
    }

    pub fn lesser(self, other: Weight) -> Weight
        ensures { result.0 ≡ min self.0 other.0 }
    {
        self.min(other)
    }
}

impl Weight {
    // Where a joining starts.
    pub fn unit(measure: Measure) -> Weight
        ensures { result.0 ≡ (algebra measure).unit }
    {
        match measure {
            Measure::Cost => Weight(0),
            Measure::Days => Weight(0),
            Measure::Grade => Weight::GREATEST,
        }
    }

    // A hyperedge's own weight with the joined weights of its tail.
    pub fn finish(self, measure: Measure, joined: Weight) -> Weight
        ensures { result.0 ≡ (algebra measure).finish self.0 joined.0 }
    {
        match measure {
            Measure::Cost => self.plus(joined),
            Measure::Days => self.plus(joined),
            Measure::Grade => self.lesser(joined),
        }
    }

    // Whether it is no worse than the other.
    pub fn no_worse(self, measure: Measure, other: Weight) -> bool
        ensures { result ≡ (algebra measure).leq self.0 other.0 }
    {
        match measure {
            Measure::Cost => self <= other,
            Measure::Days => self <= other,
            Measure::Grade => self >= other,
        }
    }
}

// The paper's strike mark of a line: it stands, or is struck. A mark is never taken for a figure.
#[derive(Clone, Copy, PartialEq, Eq, PartialOrd, Ord)]
pub struct Mark(pub u64);

impl Mark {
    pub const STANDS: Mark = Mark(0);

    pub const STRUCK: Mark = Mark(1);

    pub fn is_struck(self) -> bool
        ensures { result ≡ is_struck_mark self.0 }
    {
        self == Mark::STRUCK
    }
}

// Three numbers of a part's entry: the figure, the depth and the chosen line, which is the root
// of its chosen make-up. Depth 0 is unmade, and then all three are 0.
#[derive(Clone, Copy, PartialEq, Eq)]
pub struct Label {
    pub weight: Weight,
    pub depth: u64,
    pub edge: Hyperedge,
}

// Whether a comes before b, or is b: by weight, then by depth, then by hyperedge.
pub fn ahead(measure: Measure, a: Label, b: Label) -> bool
    ensures { result ≡ ahead_of (algebra measure) a b }
{
    if a.weight != b.weight {
        return a.weight.no_worse(measure, b.weight);
    }
    if a.depth != b.depth {
        return a.depth < b.depth;
    }
    a.edge <= b.edge
}

// The paper's state of a part.
#[derive(Clone, Copy, PartialEq, Eq)]
pub enum State {
    Made,
    Over,
    Unmade,
}

// A part's entry: its state, which figure and depth tell, the three numbers of its label, and how
// many bought pieces its chosen make-up holds.
#[derive(Clone, Copy, PartialEq, Eq)]
pub struct Entry {
    pub state: State,
    pub weight: Weight,
    pub depth: u64,
    pub edge: Hyperedge,
    pub pieces: u64,
}

impl Entry {
    pub fn of(label: Label, pieces: u64) -> Entry
        ensures { result ≡ entry_of label pieces }
    {
        Entry {
            state: State::of(label.weight, label.depth),
            weight: label.weight,
            depth: label.depth,
            edge: label.edge,
            pieces,
        }
    }
}

impl State {
    // Unmade at depth 0, else over at the mark, else made.
    pub fn of(weight: Weight, depth: u64) -> State
        ensures { result ≡ state_of weight.0 depth }
    {
        if depth == 0 {
            return State::Unmade;
        }
        if weight.is_over() {
            return State::Over;
        }
        State::Made
    }
}

// The concept table, as a list of lines.
ghost use Rattle.std.specs.Prelude.{◌≡◌, ◌+◌, ◌∷◌, ◌++◌, [], ◌<◌, ◌≤◌, List, true, map, take, length};
ghost use Rattle.alc.specs.Lists.{every};
ghost use Rattle.alc.specs.Ranges.{in_range};
ghost use Rattle.alc.specs.Table.{Entry as Line, entry as entry_in, stands, entry_fields};
ghost use Rattle.alc.specs.Entries.{kind_of, shown, Layered};
ghost use Rattle.alc.specs.Shown.{kind_at};

use std::marker::Model;

// What a line of the table is.
#[derive(Clone, Copy, PartialEq, Eq)]
pub enum Kind {
    Top,
    Bot,
    Atom,
    Not,
    And,
    Or,
    Some,
    All,
}

// The kind of a number, as the definition reads it: one past the kinds is `top`.
impl From<u8> for Kind {
    ghost from_gives = { λ n k. kind_of k ≡ kind_at n };

    fn from(n: u8) -> Kind {
        match n {
            lines::BOT => Kind::Bot,
            lines::ATOM => Kind::Atom,
            lines::NOT => Kind::Not,
            lines::AND => Kind::And,
            lines::OR => Kind::Or,
            lines::SOME => Kind::Some,
            lines::ALL => Kind::All,
            _ => Kind::Top,
        }
    }
}

// A line of the table: its kind, and up to two numbers. What is not said is 0.
#[derive(Clone, Copy, PartialEq, Eq)]
pub struct Entry {
    pub kind: Kind,
    pub x: u8,
    pub y: u8,
}

// The line that stands past the end of a table.
const TOP: Entry = Entry {
    kind: Kind::Top,
    x: 0,
    y: 0,
};

// The concept table: up to 256 lines, each with its numbers in their ranges, so that its parts are lines above it. They are held in three columns, of which the
// compiler compares sixteen lines at a time. Behind the lines a column is `top` or 0, so that two tables which show the same lines are the same.
#[derive(Clone, Copy)]
pub struct Table {
    kinds: [Kind; 256],
    firsts: [u8; 256],
    seconds: [u8; 256],
    count: usize,
}

impl Model for Table {
    ghost use Rattle.std.specs.Prelude.{◌≡◌, ◌-◌, ◌≤◌, List, map, take, drop, length, replicate};
    ghost use Rattle.alc.specs.Table.{Entry as Line};
    ghost use Rattle.alc.specs.Entries.{shown, columns, past, Layered, kinds_of, firsts_of, seconds_of, kinds_back, firsts_back, seconds_back, count_back};

    ghost Value = { List Line };

    ghost view = { λ t. map shown (take t.count (columns t.kinds t.firsts t.seconds)) };

    ghost invariant = { λ t. (t.count ≤ 256) × (length t.kinds ≡ 256) × (length t.firsts ≡ 256) × (length t.seconds ≡ 256) × Layered (map shown (take t.count (columns t.kinds t.firsts t.seconds))) × (drop t.count t.kinds ≡ replicate (256 - t.count) past.kind) × (drop t.count t.firsts ≡ replicate (256 - t.count) past.x) × (drop t.count t.seconds ≡ replicate (256 - t.count) past.y) };

    ghost inverse = { λ T. record { kinds = kinds_of T; firsts = firsts_of T; seconds = seconds_of T; count = length T } };

    ghost inverse_ok = { λ t h i. record {
      kinds = kinds_back t.kinds t.firsts t.seconds t.count h.0 h.1 h.2 h.3 h.5 i;
      firsts = firsts_back t.kinds t.firsts t.seconds t.count h.0 h.1 h.2 h.3 h.6 i;
      seconds = seconds_back t.kinds t.firsts t.seconds t.count h.0 h.1 h.2 h.3 h.7 i;
      count = count_back t.kinds t.firsts t.seconds t.count h.0 h.1 h.2 h.3 i;
    } };
}

impl Table {
    // A table with no line.
    pub fn new() -> Self
        ensures { result ≡ [] }
    {
        Table {
            kinds: [Kind::Top; 256],
            firsts: [0; 256],
            seconds: [0; 256],
            count: 0,
        }
    }

    // How many lines it has.
    #[tactic(auto, using(crate::proofs::Stored::count_is))]
    pub fn len(&self) -> usize
        ensures count { result ≡ length self.now }
        ensures few { length self.now ≤ 256 }
        ensures layered { Layered self.now }
    {
        self.count
    }

    // The line of a number: each column is read, before anything is compared.
    fn line(&self, i: usize) -> Entry
        requires { i < length self.now }
        ensures { shown result ≡ entry_in self.now i }
    {
        Entry {
            kind: self.kinds[i],
            x: self.firsts[i],
            y: self.seconds[i],
        }
    }

    // The line of a number; past the end it is `top`.
    pub fn entry(&self, i: usize) -> Entry
        ensures { shown result ≡ entry_in self.now i }
    {
        if i < self.len() {
            return self.line(i);
        }
        TOP
    }

    // Whether the line stands in the table already. There is no early end: so the compiler compares sixteen lines at a time.
    pub fn has(&self, e: Entry) -> bool
        ensures { result ≡ stands self.now (shown e) }
    {
        let mut times: u16 = 0;
        for i in 0..self.len() {
            if self.line(i) == e {
                times += 1;
            }
        }
        times > 0
    }

    // One line more, behind the others.
    #[tactic(auto, using(crate::proofs::Stored::count_is))]
    pub fn push(&mut self, e: Entry)
        requires room { length self.old < 256 }
        requires ranged { every (in_range (length self.old) 0) (entry_fields (shown e)) ≡ true }
        ensures { self.new ≡ self.old ++ shown e ∷ [] }
    {
        self.kinds[self.count] = e.kind;
        self.firsts[self.count] = e.x;
        self.seconds[self.count] = e.y;
        self.count += 1;
    }
}

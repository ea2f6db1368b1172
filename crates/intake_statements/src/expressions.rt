// The expressions of a function whose body is read. In a file of their own, since specs/Lasts.antt speaks of the structs, and a struct with a ghost field imports every
// `ghost use` of its file.
ghost use Rattle.intake_statements.specs.Tape.{Placed, ReadBack};

use base_views::Cells;

// Where each expression of a function starts, and where the last one ends.
pub type Starts = [u32; 1025];

// Where the expressions of a function are, `count` of them: each has a word at least.
#[derive(Clone, Copy)]
pub struct Places<'a> {
    pub cells: Cells<'a>,
    pub starts: &'a Starts,
    pub count: usize,
    pub ghost placed: { Placed starts.now count },
}

// The expressions themselves: each is laid out by the row of an expression, and those of initialisers have a mark.
#[derive(Clone, Copy)]
pub struct Expressions<'a> {
    pub places: Places<'a>,
    pub initial: &'a [bool; 1024],
    pub ghost read_back: { ReadBack places.cells.words.now places.cells.tags.now places.starts.now places.count },
}

// What is visited of the expressions of a function, and what is still to be: a mark for each, and a list.
//
// The struct is in a file of its own, since specs/Marks.antt speaks of it, and a struct with a ghost field imports every `ghost use` of its file.
ghost use Rattle.intake_initialisers.specs.Room.{Room};

// Of `count` expressions each has a mark, and the first `top` of `list` are those whose operands are still to be visited: a stack in fixed memory, with room for
// all that is not marked yet.
#[derive(Drop)]
pub struct Visited {
    pub marks: [bool; 1024],
    pub list: [u32; 1024],
    pub top: usize,
    pub count: usize,
    pub ghost room: { Room marks list top count },
}

// The definitions of the call `depressurize` as a whole, and the types that they share with the code.
#![tactic(auto)]

// What the call is asked: the turf to begin at, the limit of both walks, and where kind 7's arrows lead: 0 is as in the Rust, anything else towards space.
#[derive(Clone, Copy)]
pub struct Breach {
    pub id: u32,
    pub limit: u32,
    // A number: the call takes every one, and a type of two values would ask more of callers.
    pub arrows: u32,
}

// What the call answers.
#[derive(Clone, Copy)]
pub struct DepressurizeAnswer {
    pub number: u32,
    pub outcome: u32,
    pub bytes: u32,
}

// The definitions of `planet_walk`, and the types that they share with the code.
#![tactic(auto)]

// What the call answers.
#[derive(Clone, Copy)]
pub struct PlanetAnswer {
    pub number: u32,
    pub bytes: u32,
}

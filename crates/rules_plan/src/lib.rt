// `process_zone`: the weights of one zone's edges. The definitions stand in specs/; they share these types with the code.
#![tactic(auto)]

// A turf's planning state. A direction is a row + 1, and 0 is none; the mark is 1 once the fast pass was there.
#[derive(Clone, Copy)]
pub struct MonstermosInfo {
    pub delta: f32,
    pub amount: f32,
    // Words, as the lent scratch holds them: this struct's form is settled (docs/COVERAGE.md).
    pub direction: u32,
    pub fast: u32,
}

// Which of the two lists is worked through: givers give to takers, or takers take from givers.
#[derive(Clone, Copy)]
pub enum Side {
    Giving,
    Taking,
}

// `equalize`: fill from the hot turfs, plan every zone, finish by turns. The definitions stand in specs/; they share this type with the code.
#![tactic(auto)]

// What the call answers.
#[derive(Clone, Copy)]
pub struct EqualizeAnswer {
    pub number: u32,
    pub cancelled: u32,
    pub processed: u32,
    pub tests: u32,
    pub zones: u32,
    pub apart: u32,
    pub bytes: u32,
}

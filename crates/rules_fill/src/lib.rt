// The definitions of filling one zone, and the types that they share with the code.
#![tactic(auto)]

// How a fill stands: it goes on, it broke off at the planet limit, or the clock ran out.
#[derive(Clone, Copy)]
pub enum Going {
    On,
    Broken,
    Over,
}

// What a call of equalize sets: totals nearer than the threshold are left alone, a zone with a planet turf breaks off above `limit` nodes,
// and the clock test after `allowance` tests is over.
#[derive(Clone, Copy)]
pub struct Settings {
    pub threshold: f32,
    pub limit: u32,
    pub allowance: u32,
}

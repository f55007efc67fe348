// The definition of the walk that `planet_walk` and `depressurize` begin with, and the type that it shares with the code.
#![tactic(auto)]

// Which walk it is: what differs is what a visit does.
#[derive(Clone, Copy)]
pub enum Kind {
    Planet,
    Space,
}

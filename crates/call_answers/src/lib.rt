// What the calls answer, and the same as the numbers of the C interface, in its order.
#![tactic(auto)]

ghost use Rattle.std.specs.Prelude.{◌≡◌};
ghost use Rattle.call_answers.specs.Answers.{equalize_numbers, planet_numbers, depressurize_numbers};
ghost use Rattle.call_answers.specs.Told.{equalize_answer, planet_answer, depressurize_answer};

use lent::Refusal;
use rules_depressurize::DepressurizeAnswer;
use rules_equalize::EqualizeAnswer;
use rules_planet::PlanetAnswer;

// What equalize came to: whether the clock cancelled it, nodes processed, clock tests, zones, whether they are apart, event bytes.
#[derive(Clone, Copy, PartialEq, Eq, Debug)]
pub struct EqualizeDone {
    pub cancelled: bool,
    pub processed: u32,
    pub tests: u32,
    pub zones: u32,
    pub apart: bool,
    pub bytes: u32,
}

// How a depressurization ended.
#[derive(Clone, Copy, PartialEq, Eq, Debug)]
pub enum Outcome {
    NoSpace = 0,
    Planet = 1,
    Emptied = 2,
}

// What a depressurization came to.
#[derive(Clone, Copy, PartialEq, Eq, Debug)]
pub struct DepressurizeDone {
    pub outcome: Outcome,
    pub bytes: u32,
}

// equalize's answer by its number: a refusal has all else 0. No `From`, here and below: neither `Result` nor the answer is a type of this crate.
pub fn equalize_answer(told: Result<EqualizeDone, Refusal>) -> EqualizeAnswer
    ensures { result ≡ equalize_answer told }
{
    match told {
        Ok(done) => EqualizeAnswer {
            number: 0,
            cancelled: u32::from(done.cancelled),
            processed: done.processed,
            tests: done.tests,
            zones: done.zones,
            apart: u32::from(done.apart),
            bytes: done.bytes,
        },
        Err(refusal) => EqualizeAnswer {
            number: refusal.into(),
            cancelled: 0,
            processed: 0,
            tests: 0,
            zones: 0,
            apart: 0,
            bytes: 0,
        },
    }
}

// The planet walk's: its bytes.
pub fn planet_answer(told: Result<u32, Refusal>) -> PlanetAnswer
    ensures { result ≡ planet_answer told }
{
    match told {
        Ok(bytes) => PlanetAnswer { number: 0, bytes },
        Err(refusal) => PlanetAnswer {
            number: refusal.into(),
            bytes: 0,
        },
    }
}

// depressurize's.
pub fn depressurize_answer(told: Result<DepressurizeDone, Refusal>) -> DepressurizeAnswer
    ensures { result ≡ depressurize_answer told }
{
    match told {
        Ok(done) => DepressurizeAnswer {
            number: 0,
            outcome: done.outcome as u32,
            bytes: done.bytes,
        },
        Err(refusal) => DepressurizeAnswer {
            number: refusal.into(),
            outcome: 0,
            bytes: 0,
        },
    }
}

// Number, cancelled, processed, tests, zones, apart, bytes.
pub fn equalize_numbers(a: EqualizeAnswer) -> [u32; 7]
    ensures { result ≡ equalize_numbers a }
{
    [
        a.number,
        a.cancelled,
        a.processed,
        a.tests,
        a.zones,
        a.apart,
        a.bytes,
    ]
}

// Number, bytes.
pub fn planet_numbers(a: PlanetAnswer) -> [u32; 2]
    ensures { result ≡ planet_numbers a }
{
    [a.number, a.bytes]
}

// Number, outcome, bytes.
pub fn depressurize_numbers(a: DepressurizeAnswer) -> [u32; 3]
    ensures { result ≡ depressurize_numbers a }
{
    [a.number, a.outcome, a.bytes]
}

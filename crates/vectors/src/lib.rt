// Stored vectors: calls with what the Rust answered and left, as numbers in the order of oracle/boards/src/vectors.rs. What is read of them, and
// what the lent areas hold before a call.
//
// A place in a vector only grows, and one beyond the numbers stays beyond: one test of the last place shows that nothing is missing.
#![tactic(auto)]

ghost use Rattle.std.specs.Prelude.{◌≡◌, ◌-◌, ℕ, ◌≤◌, ◌<◌, length, slice_index_or};
ghost use Rattle.vectors.specs.Vectors.{onward, number, section, span_at, table_at, table_span, gases_of, gas_of, asked_at, fitted, behind, call_of, CaseAsks, Walks, TablesOf};
ghost use Rattle.vectors.specs.Amounts.{nan_pattern, amount};
ghost use Rattle.vectors.specs.Cells.{word_before, float_before, event_before, CaseFilled};

use rules_fill::Settings;
use turfs::LentTables;

// How many tables a case begins with: ids, flags, planetary, mixtures, starts, neighbours, link flags, immutable.
const TABLES: usize = 8;

// The calls that a vector can make.
#[derive(Clone, Copy)]
pub enum Call {
    Equalize,
    Depressurize,
    PlanetWalk,
}

// A list's elements: the first one, and the place behind the last.
#[derive(Clone, Copy)]
pub struct Span {
    pub from: usize,
    pub to: usize,
}

// What equalize is asked: how many gases there are, where the hot ids and the turns stand, the settings, and where what is expected begins.
#[derive(Clone, Copy)]
pub struct Asked {
    pub gases: u32,
    pub hot: Span,
    pub turns: Span,
    pub settings: Settings,
    pub due: usize,
}

// What a walk is asked: how many gases there are, where it starts and its limit, and where what is expected begins.
#[derive(Clone, Copy)]
pub struct Walk {
    pub gases: u32,
    pub id: u32,
    pub limit: u32,
    pub due: usize,
}

// A place so much further on; the last one of all where there is none.
#[tactic(auto, unfolding(crate::specs::Vectors::onward))]
pub fn further(at: usize, by: usize) -> usize
    ensures { (result ≡ onward at by) × (at ≤ result) }
{
    at.saturating_add(by)
}

// The number that stands at a place; 0 where there is none.
pub fn number_at(numbers: &[u32], at: usize) -> u32
    ensures { result ≡ number numbers.now at }
{
    numbers.get(at).copied().unwrap_or(0)
}

// The call that a vector makes, by its first number; none where that is no call's.
#[tactic(auto, unfolding(crate::specs::Vectors::call_of))]
pub fn call_of(numbers: &[u32]) -> Option<Call>
    ensures { result ≡ call_of numbers.now }
{
    match number_at(numbers, 0) {
        1 => Some(Call::Equalize),
        2 => Some(Call::Depressurize),
        3 => Some(Call::PlanetWalk),
        _ => None,
    }
}

// The list that stands at a place: its length, then its elements.
pub fn span_at(numbers: &[u32], at: usize) -> Span
    ensures { (result ≡ span_at numbers.now at) × (result.from ≤ result.to) }
{
    let from = further(at, 1);
    let to = further(from, number_at(numbers, at) as usize);
    Span { from, to }
}

// Where the vector behind one at a place begins; a vector takes some room.
pub fn past(at: usize, count: usize) -> usize
    requires { at < 0xffff_ffff_ffff_ffff }
    ensures { (result ≡ behind at count) × (at < result) }
{
    if count == 0 {
        return 0xffff_ffff_ffff_ffff;
    }
    further(at, count)
}

// Where the table number k of a case stands: the first behind the call, each one behind the one before.
fn table_at(numbers: &[u32], k: usize) -> usize
    ensures { result ≡ table_at numbers.now k }
{
    let mut at = 1;
    for _i in 0..k {
        at = span_at(numbers, at).to;
    }
    at
}

// How many gases a case has: the number behind its eight tables.
fn gases_of(numbers: &[u32]) -> u32
    ensures { result ≡ gases_of numbers.now }
{
    number_at(numbers, table_at(numbers, TABLES))
}

// Where its gas stands.
fn gas_of(numbers: &[u32]) -> Span
    ensures { (result ≡ gas_of numbers.now) × (result.from ≤ result.to) }
{
    span_at(numbers, further(table_at(numbers, TABLES), 1))
}

// Where what is asked begins: behind the lengths of the three lent areas.
fn asked_at(numbers: &[u32]) -> usize
    ensures { result ≡ asked_at numbers.now }
{
    further(gas_of(numbers).to, 3)
}

// So many, or none where an array has room for fewer. No stored vector has more: whoever writes them sees to it.
#[tactic(auto, unfolding(crate::specs::Vectors::fitted))]
fn fitting(n: usize, most: usize) -> usize
    ensures { (result ≡ fitted n most) × (result ≤ most) }
{
    if n <= most { n } else { 0 }
}

// How much gas a case lends, if there is room for it.
pub fn gas_size(numbers: &[u32], most: usize) -> usize
    ensures { let gas = gas_of numbers.now in (result ≡ fitted (gas.to - gas.from) most) × (result ≤ most) }
{
    let gas = gas_of(numbers);
    fitting(gas.to - gas.from, most)
}

// How long another area is that it lends, if there is room for it: behind the gas stand the lengths of the event area, the words and the floats.
pub fn area_size(numbers: &[u32], by: usize, most: usize) -> usize
    ensures { let ns = numbers.now in (result ≡ fitted (number ns (onward (gas_of ns).to by)) most) × (result ≤ most) }
{
    let at = further(gas_of(numbers).to, by);
    fitting(number_at(numbers, at) as usize, most)
}

// What equalize is asked in a vector.
pub fn asked_of(numbers: &[u32]) -> Asked
    ensures { CaseAsks numbers.now result }
{
    let hot = span_at(numbers, asked_at(numbers));
    let turns = span_at(numbers, hot.to);
    Asked {
        gases: gases_of(numbers),
        hot,
        turns,
        settings: Settings {
            threshold: amount_of(number_at(numbers, turns.to)),
            limit: number_at(numbers, further(turns.to, 1)),
            allowance: number_at(numbers, further(turns.to, 2)),
        },
        due: further(turns.to, 3),
    }
}

// What a walk is asked in a vector.
pub fn walk_of(numbers: &[u32]) -> Walk
    ensures { Walks numbers.now result }
{
    let at = asked_at(numbers);
    Walk {
        gases: gases_of(numbers),
        id: number_at(numbers, at),
        limit: number_at(numbers, further(at, 1)),
        due: further(at, 2),
    }
}

// The elements of a list; none where it goes beyond those that there are.
pub fn part<T>(xs: &[T], s: Span) -> &[T]
    ensures { result.now ≡ section xs.now s }
{
    xs.get(s.from..s.to).unwrap_or(&[])
}

// Where the table number k of a vector stands.
fn table_span(numbers: &[u32], k: usize) -> Span
    ensures { result ≡ table_span numbers.now k }
{
    span_at(numbers, table_at(numbers, k))
}

// The tables of a vector, whose numbers are here as bytes too.
pub fn tables_of<'a>(numbers: &'a [u32], bytes: &'a [u8]) -> LentTables<'a>
    ensures { TablesOf numbers.now bytes.now result }
{
    LentTables {
        ids: part(numbers, table_span(numbers, 0)),
        flags: part(bytes, table_span(numbers, 1)),
        planetary: part(bytes, table_span(numbers, 2)),
        mixtures: part(numbers, table_span(numbers, 3)),
        starts: part(numbers, table_span(numbers, 4)),
        neighbours: part(numbers, table_span(numbers, 5)),
        link_flags: part(bytes, table_span(numbers, 6)),
        immutable: part(bytes, table_span(numbers, 7)),
    }
}

// Whether these are the bits of a NaN.
pub fn nan_bits(bits: u32) -> bool
    ensures { result ≡ nan_pattern bits }
{
    0x7f80_0000 < bits % 0x8000_0000
}

// The amount with these bits; one NaN is as good as another.
pub fn amount_of(bits: u32) -> f32
    ensures { result ≡ amount bits }
{
    if nan_bits(bits) {
        f32::NAN
    } else {
        f32::from_bits(bits)
    }
}

// What a scratch word holds before a call.
pub fn word_before(i: usize) -> u32
    ensures { result ≡ word_before i }
{
    ((i % 0x1_0000_0000 * 2_654_435_761 + 1) % 0x1_0000_0000) as u32
}

// The bits that a scratch float holds before a call.
pub fn float_before(i: usize) -> u32
    ensures { result ≡ float_before i }
{
    (0x3f00_0000 + i % 65536) as u32
}

// What a byte of the event area holds before a call.
pub fn event_before(i: usize) -> u8
    ensures { result ≡ event_before i }
{
    ((i % 256 * 31 + 7) % 256) as u8
}

// Fills each cell by its place.
fn fill_by<T: Copy, F: Fn(usize) -> T>(cells: &mut [T], rule: F)
    requires { F.IsAlwaysCallable rule }
    ensures { (i : ℕ) (d : T) → i < length cells.new → F.post rule i (slice_index_or cells.new i d) }
{
    for i in 0..cells.len() {
        cells[i] = rule(i);
    }
}

// Fills what the case of a vector lends: its numbers as bytes, its gas, the scratch and the event area.
pub fn fill(
    numbers: &[u32],
    bytes: &mut [u8],
    gas: &mut [f32],
    words: &mut [u32],
    floats: &mut [f32],
    events: &mut [u8],
)
    ensures { CaseFilled numbers.now bytes.new gas.new words.new floats.new events.new }
{
    let amounts = part(numbers, gas_of(numbers));
    fill_by(bytes, |i| (number_at(numbers, i) % 256) as u8);
    fill_by(gas, |i| amount_of(number_at(amounts, i)));
    fill_by(words, word_before);
    fill_by(floats, |i| amount_of(float_before(i)));
    fill_by(events, event_before);
}

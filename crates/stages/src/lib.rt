// The parts of equalize on their own, for tests that look at what each part leaves: the scratch isn't cleared.
#![tactic(auto)]

ghost use Rattle.std.specs.Prelude.{◌≡◌, [], ℕ};
ghost use Rattle.rules_board.specs.Board.{board};
ghost use Rattle.turfs.specs.Tables.{board_at};
ghost use Rattle.lent.specs.Given.{lent, lent_at, refusal_number};
ghost use Rattle.rules_equalize.specs.Result.{equalize_number};
ghost use Rattle.fill_all.specs.Held.{asked};
ghost use Rattle.rules_equalize.specs.Equalize.{ask_of};
ghost use Rattle.stages.specs.Stages.{StageFills, Few, filling_of, fill_numbers, FillAnswers, StagePlans, PlanAnswers};

use fill_all::Filling;
use lent::Refusal;
use lent_room::Room;
use rules_fill::Settings;
use turfs::LentTables;

// Writes number, cancelled, zones, nodes, tests, bytes, and answers the number.
fn write(filled: Result<Filling, Refusal>, answer: &mut [u32; 6]) -> u32
    requires { Few (filling_of filled) }
    ensures value { result ≡ refusal_number filled }
    ensures written { answer.new ≡ fill_numbers (refusal_number filled) (filling_of filled) }
{
    *answer = match filled {
        Ok(s) => [
            0,
            u32::from(s.cancelled),
            s.zones as u32,
            s.nodes as u32,
            s.tests as u32,
            s.used as u32,
        ],
        Err(refusal) => [refusal.into(), 0, 0, 0, 0, 0],
    };
    answer[0]
}

// Accepts what equalize accepts, for no turns.
fn accept(
    hot: &[u32],
    threshold: f32,
    tables: &LentTables,
    gases: u32,
    gas: &[f32],
    words: &[u32],
    floats: &[f32],
    events: &[u8],
) -> Result<(), Refusal>
    ensures { let b = board_at tables.entry gases in
        ((limit allowance : ℕ) → refusal_number result ≡ equalize_number b (ask_of hot.now threshold limit allowance) [] (lent_at gas.entry events.entry words.entry floats.entry)) }
{
    let extra = lent_equalize::extra_tests(hot, 0, threshold);
    let room = Room {
        per_turf: 16,
        per_link: 20,
    };
    lent::accept(tables, gases, gas, words, floats, events, room, extra)
}

// Filling alone.
pub fn fill(
    hot: &[u32],
    settings: Settings,
    tables: &LentTables,
    gases: u32,
    gas: &[f32],
    words: &mut [u32],
    floats: &mut [f32],
    events: &mut [u8],
) -> Result<Filling, Refusal>
    ensures { let b = board_at tables.entry gases in StageFills b (asked hot.now settings)
        (lent gas.now events.old words.old floats.old) (lent gas.now events.new words.new floats.new) (refusal_number result) (filling_of result) }
{
    let threshold = settings.threshold;
    accept(hot, threshold, tables, gases, gas, words, floats, events)?;
    let gases = gases as usize;
    Ok(fill_all::fill_all(hot, settings, tables, gases, gas, words, floats, events))
}

// Filling, and then planning unless the clock ran out.
pub fn plan(
    hot: &[u32],
    settings: Settings,
    tables: &LentTables,
    gases: u32,
    gas: &[f32],
    words: &mut [u32],
    floats: &mut [f32],
    events: &mut [u8],
) -> Result<Filling, Refusal>
    ensures { let b = board_at tables.entry gases in StagePlans b (asked hot.now settings)
        (lent gas.now events.old words.old floats.old) (lent gas.now events.new words.new floats.new) (refusal_number result) (filling_of result) }
{
    let filling = fill(hot, settings, tables, gases, gas, words, floats, events)?;
    if filling.cancelled {
        return Ok(filling);
    }
    plan_all::plan_all(filling.zones, tables, gases as usize, gas, words, floats);
    Ok(filling)
}

// Filling alone: number, cancelled, zones, nodes, tests, bytes.
#[unsafe(no_mangle)]
pub extern "C" fn stages_fill<'a>(
    ids: &'a [u32],
    flags: &'a [u8],
    planetary: &'a [u8],
    mixtures: &'a [u32],
    starts: &'a [u32],
    neighbours: &'a [u32],
    link_flags: &'a [u8],
    immutable: &'a [u8],
    gases: u32,
    amounts: &[f32],
    hot: &[u32],
    threshold: f32,
    limit: u32,
    allowance: u32,
    events: &mut [u8],
    words: &mut [u32],
    floats: &mut [f32],
    answer: &mut [u32; 6],
) -> u32
    ensures { let b = board ids.now flags.now planetary.now mixtures.now starts.now neighbours.now link_flags.now immutable.now gases in
        FillAnswers b (ask_of hot.now threshold limit allowance) (lent amounts.now events.old words.old floats.old) (lent amounts.now events.new words.new floats.new) result answer.new }
{
    let tables = LentTables {
        ids,
        flags,
        planetary,
        mixtures,
        starts,
        neighbours,
        link_flags,
        immutable,
    };
    let settings = Settings {
        threshold,
        limit,
        allowance,
    };
    let a = fill(
        hot, settings, &tables, gases, amounts, words, floats, events,
    );
    write(a, answer)
}

// Filling and planning: number, cancelled, zones, nodes, tests, bytes.
#[unsafe(no_mangle)]
pub extern "C" fn stages_plan<'a>(
    ids: &'a [u32],
    flags: &'a [u8],
    planetary: &'a [u8],
    mixtures: &'a [u32],
    starts: &'a [u32],
    neighbours: &'a [u32],
    link_flags: &'a [u8],
    immutable: &'a [u8],
    gases: u32,
    amounts: &[f32],
    hot: &[u32],
    threshold: f32,
    limit: u32,
    allowance: u32,
    events: &mut [u8],
    words: &mut [u32],
    floats: &mut [f32],
    answer: &mut [u32; 6],
) -> u32
    ensures { let b = board ids.now flags.now planetary.now mixtures.now starts.now neighbours.now link_flags.now immutable.now gases in
        PlanAnswers b (ask_of hot.now threshold limit allowance) (lent amounts.now events.old words.old floats.old) (lent amounts.now events.new words.new floats.new) result answer.new }
{
    let tables = LentTables {
        ids,
        flags,
        planetary,
        mixtures,
        starts,
        neighbours,
        link_flags,
        immutable,
    };
    let settings = Settings {
        threshold,
        limit,
        allowance,
    };
    let a = plan(
        hot, settings, &tables, gases, amounts, words, floats, events,
    );
    write(a, answer)
}

// When a call is refused: its tables, its gas, what only equalize is lent, its areas, in this order.
#![tactic(auto)]

ghost use Rattle.std.specs.Prelude.{◌≡◌};
ghost use Rattle.turfs.specs.Tables.{board_at};
ghost use Rattle.rules_lent.specs.Lent.{Extra, no_extra, refusal};
ghost use Rattle.lent_room.specs.Areas.{room_of};
ghost use Rattle.lent.specs.Given.{lent, Tests, number_of, refusal_number};

use lent_room::Room;
use turfs::LentTables;

// Why a call is refused, in the order of the tests; each has its number.
#[derive(Clone, Copy, PartialEq, Eq, Debug)]
pub enum Refusal {
    Sizes = 1,
    Tables = 2,
    Ids = 3,
    Links = 4,
    Amounts = 5,
    Hot = 6,
    Areas = 7,
}

impl From<Refusal> for u32 {
    ghost from_gives = { λ r n. n ≡ number_of r };

    fn from(r: Refusal) -> u32 {
        r as u32
    }
}

// What only equalize is lent, and tests itself: the sizes of the hot ids and of the turns, the threshold, the order of the hot ids.
#[derive(Clone, Copy)]
pub struct ExtraTests {
    pub sizes: bool,
    pub threshold: bool,
    pub hot: bool,
}

impl ExtraTests {
    // Nothing of that is lent.
    pub fn none() -> Self
        ensures { Tests no_extra result }
    {
        Self {
            sizes: true,
            threshold: true,
            hot: true,
        }
    }
}

// Accepts what a call is lent, or answers the first refusal that is met.
pub fn accept(
    tables: &LentTables,
    gases: u32,
    gas: &[f32],
    words: &[u32],
    floats: &[f32],
    events: &[u8],
    room: Room,
    extra: ExtraTests,
) -> Result<(), Refusal>
    ensures { let b = board_at tables.entry gases in
        ((x : Extra) → Tests x extra → refusal_number result ≡ refusal b (lent gas.now events.now words.now floats.now) (room_of b room) x) }
{
    if !turfs::refuse::sizes_fit(tables, gases) || !extra.sizes {
        Err(Refusal::Sizes)
    } else if !turfs::refuse::tables_fit(tables, gases, gas.len()) {
        Err(Refusal::Tables)
    } else if !turfs::refuse::ascending(tables.ids) {
        Err(Refusal::Ids)
    } else if !turfs::refuse::links_fit(tables) {
        Err(Refusal::Links)
    } else if !mixture::amounts_fit(gas) || !extra.threshold {
        Err(Refusal::Amounts)
    } else if !extra.hot {
        Err(Refusal::Hot)
    } else if !lent_room::areas_fit(tables, room, words.len(), floats.len(), events.len()) {
        Err(Refusal::Areas)
    } else {
        Ok(())
    }
}

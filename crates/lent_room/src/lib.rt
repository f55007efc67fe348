// The areas that a call is lent: how much room it needs, refusal 7, and the clearing of its scratch.
#![tactic(auto)]

ghost use Rattle.std.specs.Prelude.{◌≡◌, ◌≤◌, [], ◌∷◌, leb};
ghost use Rattle.basics.specs.Loops.{all_of};
ghost use Rattle.basics.specs.Floats.{0f};
ghost use Rattle.rules_board.specs.Board.{turf_count, link_count};
ghost use Rattle.turfs.specs.Tables.{board_of, board_at, Small};
ghost use Rattle.rules_lent.specs.Lent.{words_room, floats_room};
ghost use Rattle.lent_room.specs.Areas.{room_of, cleared_first, Roomy};

use turfs::LentTables;

// The words of the scratch that a call may use.
#[tactic(auto, unfolding(rules_lent::specs::Lent::words_room))]
pub fn words_room(tables: &LentTables) -> usize
    requires { Small (board_at tables 0) }
    ensures { result ≡ words_room (board_at tables.entry 0) }
{
    16 * tables.ids.len() + 4 * tables.neighbours.len() + 2 * tables.immutable.len() + 16
}

// The floats of the scratch that a call may use.
#[tactic(auto, unfolding(rules_lent::specs::Lent::floats_room))]
pub fn floats_room(tables: &LentTables) -> usize
    requires turfs_fit { turf_count (board_at tables 0) ≤ 4096 }
    requires links_fit { link_count (board_at tables 0) ≤ 24576 }
    ensures { result ≡ floats_room (board_at tables.entry 0) }
{
    4 * tables.ids.len() + 2 * tables.neighbours.len()
}

// The event bytes that a call may write for each turf, and for each link.
#[derive(Clone, Copy)]
pub struct Room {
    pub per_turf: u8,
    pub per_link: u8,
}

// Refusal 7, of a call that is lent so many event bytes, words and floats.
#[tactic(auto, unfolding(rules_lent::specs::Lent::floats_room, basics::specs::Loops::all_of))]
pub fn areas_fit(
    tables: &LentTables,
    room: Room,
    words: usize,
    floats: usize,
    events: usize,
) -> bool
    requires { Small (board_at tables 0) }
    ensures { let b = board_at tables.entry 0 in result ≡ all_of (leb (room_of b room) events ∷ leb (words_room b) words ∷ leb (floats_room b) floats ∷ []) }
{
    let needed = room.per_link as usize * tables.neighbours.len()
        + room.per_turf as usize * tables.ids.len();
    needed <= events && words_room(tables) <= words && floats_room(tables) <= floats
}

// Clears the scratch that a call may have used, and leaves the rest.
#[tactic(auto, unfolding(rules_lent::specs::Lent::floats_room))]
pub fn clear_scratch(tables: &LentTables, words: &mut [u32], floats: &mut [f32])
    requires { Roomy (board_at tables 0) words.old floats.old }
    ensures words_after { words.new ≡ cleared_first 0 (words_room (board_at tables.entry 0)) words.old }
    ensures floats_after { floats.new ≡ cleared_first 0f (floats_room (board_at tables.entry 0)) floats.old }
{
    basics::clear(words, words_room(tables));
    basics::clear_floats(floats, floats_room(tables));
}

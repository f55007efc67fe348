// A turf's planning state, in the two work areas that a call is lent, for n turfs and e links. Here and in all crates above the areas stay parameters of
// their own: a struct of `&mut` would cost every contract a clause for each field, that it still is the caller's (docs/DESIGN-PASS.md).
#![tactic(auto)]

ghost use Rattle.std.specs.Prelude.{◌≡◌, ◌<◌};
ghost use Rattle.rules_plan.specs.Plan.{load, store};
ghost use Rattle.plan_state.specs.Held.{area, area_at, plan_view, PlanFits, PlanDoes};

use rules_plan::MonstermosInfo;
use scratch::Layout;

// Where a zone stands: its number, its nodes, the `count` words from `first` on, what they hold together, and the turfs and links of the board.
#[derive(Clone, Copy)]
pub struct ZoneAt {
    pub z: u32,
    pub first: usize,
    pub count: usize,
    pub moles: f32,
    pub layout: Layout,
}

// The planning state of the turf at `row`.
pub fn load(row: usize, layout: Layout, words: &[u32], floats: &[f32]) -> MonstermosInfo
    requires plan_fits { PlanFits layout.turfs layout.links (area_at words floats) }
    requires row_lt_n { row < layout.turfs }
    ensures { result ≡ load (plan_view layout.turfs layout.links (area_at words.entry floats.entry)).plan row }
{
    MonstermosInfo {
        delta: floats[layout.delta_at(row)],
        amount: floats[layout.amount_at(row)],
        direction: words[layout.direction_at(row)],
        fast: words[layout.fast_at(row)],
    }
}

// Sets the planning state of the turf at `row`.
pub fn store(
    row: usize,
    info: MonstermosInfo,
    layout: Layout,
    words: &mut [u32],
    floats: &mut [f32],
)
    requires plan_fits { PlanFits layout.turfs layout.links (area words.old floats.old) }
    requires row_lt_n { row < layout.turfs }
    ensures { PlanDoes layout.turfs layout.links (λ o p. store p row info) (area words.old floats.old) (area words.new floats.new) }
{
    floats[layout.delta_at(row)] = info.delta;
    floats[layout.amount_at(row)] = info.amount;
    words[layout.direction_at(row)] = info.direction;
    words[layout.fast_at(row)] = info.fast;
}

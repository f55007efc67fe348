// No neighbour twice: each turf that a row names is stamped with that row, so that a turf named again shows its stamp.
#![tactic(auto)]

ghost use Rattle.std.specs.Prelude.{◌≡◌, not, ◌&&◌, ◌+◌};
ghost use Rattle.basics.specs.Loops.{member};
ghost use Rattle.rules_board.specs.Refuse.{distinct};
ghost use Rattle.turf_stamps.specs.Stamps.{AtMost, StampFits};

// The neighbours of one turf: none is the turf itself, none stands twice. A stamp is a row plus 1, so that none has to be cleared from row to row.
pub fn row_fits(row: usize, near: &[u32], stamps: &mut [u16]) -> bool
    requires { StampFits row near.now stamps.old }
    ensures { (result ≡ (not (member row near.now) && distinct near.now)) × AtMost (row + 1) stamps.new }
{
    let stamp = row as u16 + 1;
    stamps[row] = stamp;
    for &a in near {
        let a = a as usize;
        if stamps[a] == stamp {
            return false;
        }
        stamps[a] = stamp;
    }
    true
}

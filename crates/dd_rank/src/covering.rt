ghost use Rattle.std.specs.Prelude.{◌≡◌, ◌↔◌, ◌≤◌, IsTrue};
ghost use Rattle.dd_rank.specs.Depths.{Covers, depth_in};
ghost use Rattle.dd_rank.specs.Strings.{shape_of};

use crate::cover::Cover;
use crate::depths::Depths;
use crate::owner_strings::OwnerStrings;
use dd_play::TrickStart;

/// Does the one position cover the other at these depths: by some turn of the seats the strain, the leader and the lengths
/// of all suits are the same, and so are the holders of so many of the highest cards of each suit? False where a depth is
/// above the number of the suit's cards. It takes no memory.
pub fn covers(one: &TrickStart, depths: Depths, other: &TrickStart) -> bool
    ensures { IsTrue result ↔ Covers one.now (depth_in depths) other.now }
{
    // The proof reads here that both are legal states of play.
    let _ = one.position();
    let _ = other.position();
    if !depths.are_within(Depths::full(one)) {
        return false;
    }
    let strings = OwnerStrings::of(one);
    let others = OwnerStrings::of(other);
    if strings.shape() != others.shape() {
        return false;
    }
    Cover::new(one, depths, &strings).covers(&others)
}

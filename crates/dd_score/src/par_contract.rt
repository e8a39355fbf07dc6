ghost use Rattle.std.specs.Prelude.{◌≡◌};

use dd_cards::{Seat, Side, Strain};

/// Who may declare a par contract: one seat, or either of a side's two.
#[derive(Clone, Copy, Debug, PartialEq, Eq)]
pub enum Declarers {
    One(Seat),
    Both(Side),
}

/// A par contract. It is doubled where the tricks are fewer than its level and six.
#[derive(Clone, Copy, Debug, PartialEq, Eq)]
pub struct ParContract {
    /// 1 to 7.
    pub level: u8,
    pub strain: Strain,
    /// The tricks that declarer takes, 0 to 13.
    pub tricks: u8,
    pub declarers: Declarers,
}

impl Default for ParContract {
    /// One notrump by North, no trick. It fills the unused places of a list of fixed room.
    fn default() -> ParContract {
        ParContract {
            level: 1,
            strain: Strain::Notrump,
            tricks: 0,
            declarers: Declarers::One(Seat::North),
        }
    }
}

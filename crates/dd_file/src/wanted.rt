/// The tags that are added to games which lack them.
#[derive(Clone, Copy, Debug, PartialEq, Eq)]
pub struct Wanted {
    /// DoubleDummyTricks.
    pub tricks: bool,
    /// OptimumScore.
    pub score: bool,
    /// ParContract.
    pub contract: bool,
    /// OptimumResultTable.
    pub table: bool,
}

impl Wanted {
    /// All four.
    pub const ALL: Wanted = Wanted {
        tricks: true,
        score: true,
        contract: true,
        table: true,
    };
}

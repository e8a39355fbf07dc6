/// Two partners against the other two.
#[derive(Clone, Copy, Debug, PartialEq, Eq)]
pub enum Side {
    NorthSouth,
    EastWest,
}

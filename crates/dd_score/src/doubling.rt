/// Whether a contract is doubled or redoubled (Laws of Duplicate Bridge 2017, Law 19).
#[derive(Clone, Copy, Debug, PartialEq, Eq)]
pub enum Doubling {
    Undoubled,
    Doubled,
    Redoubled,
}

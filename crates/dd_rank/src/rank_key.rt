ghost use Rattle.std.specs.Prelude.{◌≡◌};
ghost use Rattle.std.specs.Hash as fed;
ghost use Rattle.dd_rank.specs.Strings.{strings_of, hash_in, same_strings, same-strings, same-strings-partial, fed-same};

use crate::owner_strings::OwnerStrings;
use dd_play::TrickStart;
use std::hash::{Hash, Hasher};
use std::marker::Model;

/// A class of alike starts of a trick: two keys are equal where their positions are alike.
#[derive(Drop)]
pub struct RankKey {
    strings: OwnerStrings,
    sample: TrickStart,
}

impl Model for RankKey {
    ghost use Rattle.std.specs.Prelude.{◌≡◌};
    ghost use Rattle.dd_rank.specs.Strings.{Strings, strings_of};

    ghost Value = { Strings };

    ghost view = { λ k. k.strings };

    ghost invariant = { λ k. k.strings ≡ strings_of k.sample };
}

impl RankKey {
    /// The class of this position.
    pub fn of(start: &TrickStart) -> RankKey
        ensures { result ≡ strings_of start.now }
    {
        RankKey {
            strings: OwnerStrings::of(start),
            sample: start.copy(),
        }
    }

    /// A position of the class: the one that the key was made of.
    #[inline]
    pub fn sample(&self) -> &TrickStart
        ensures { strings_of result.now ≡ self.now }
    {
        &self.sample
    }

    /// The owner strings of the class.
    #[inline]
    pub fn strings(&self) -> &OwnerStrings
        ensures { result.now ≡ self.now }
    {
        &self.strings
    }

    /// A number of 64 bits that classes are spread over: equal for equal keys.
    #[inline]
    pub fn hash_code(&self) -> u64
        ensures { result ≡ hash_in self.now }
    {
        self.strings.hash_code()
    }
}

impl PartialEq for RankKey {
    ghost eq = { same_strings };

    ghost laws = { same-strings-partial };

    #[inline]
    fn eq(&self, other: &RankKey) -> bool {
        self.strings == other.strings
    }
}

impl Eq for RankKey {
    ghost laws = { same-strings };
}

impl Hash for RankKey {
    ghost hash_input = { λ k. fed.u64 (hash_in k) };

    ghost respects_eq = { fed-same };

    #[inline]
    fn hash<H: Hasher>(&self, state: &mut H) {
        state.write_u64(self.hash_code());
    }
}

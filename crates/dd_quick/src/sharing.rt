//! A claim rests on some tricks of each suit: here they are shared out, to the suits that are asked first.
ghost use Rattle.std.specs.Prelude.{◌≡◌, ◌≤◌, ◌+◌, min, if◌then◌else◌};
ghost use Rattle.dd_quick.specs.Sharing.{SomeOf};

/// The tricks, 0 to 13, that a suit has, and whether it is asked first.
#[derive(Clone, Copy)]
pub(crate) struct Offer {
    pub(crate) tricks: u8,
    pub(crate) first: bool,
}

/// What each suit has.
#[derive(Clone, Copy)]
pub(crate) struct Offers {
    pub(crate) spades: Offer,
    pub(crate) hearts: Offer,
    pub(crate) diamonds: Offer,
    pub(crate) clubs: Offer,
}

/// A number of tricks, 0 to 13, in each suit.
#[derive(Clone, Copy, Debug)]
pub struct Shares {
    pub spades: u8,
    pub hearts: u8,
    pub diamonds: u8,
    pub clubs: u8,
}

/// So many of these tricks. Of the suits that are asked first and have some one has a share, unless none is needed.
pub(crate) fn share_out(offers: Offers, need: u8) -> Shares
    ensures spades { result.spades ≤ offers.spades.tricks }
    ensures hearts { result.hearts ≤ offers.hearts.tricks }
    ensures diamonds { result.diamonds ≤ offers.diamonds.tricks }
    ensures clubs { result.clubs ≤ offers.clubs.tricks }
    ensures sum { result.spades + result.hearts + result.diamonds + result.clubs
        ≡ min need (offers.spades.tricks + offers.hearts.tricks + offers.diamonds.tricks
        + offers.clubs.tricks) }
    ensures first { 1 ≤ need
        → SomeOf offers.spades.first offers.hearts.first offers.diamonds.first offers.clubs.first
        offers.spades.tricks offers.hearts.tricks offers.diamonds.tricks offers.clubs.tricks
        → SomeOf offers.spades.first offers.hearts.first offers.diamonds.first offers.clubs.first
        result.spades result.hearts result.diamonds result.clubs }
{
    let a = first_share(offers.spades, need);
    let left = need - a;
    let b = first_share(offers.hearts, left);
    let left = left - b;
    let c = first_share(offers.diamonds, left);
    let left = left - c;
    let d = first_share(offers.clubs, left);
    let left = left - d;
    let e = other_share(offers.spades, left);
    let left = left - e;
    let f = other_share(offers.hearts, left);
    let left = left - f;
    let g = other_share(offers.diamonds, left);
    let left = left - g;
    let h = other_share(offers.clubs, left);
    Shares {
        spades: a + e,
        hearts: b + f,
        diamonds: c + g,
        clubs: d + h,
    }
}

// Of this suit, where it is asked first.
#[inline]
fn first_share(offer: Offer, need: u8) -> u8
    ensures { result ≡ (if offer.first then min offer.tricks need else 0) }
{
    if offer.first {
        offer.tricks.min(need)
    } else {
        0
    }
}

// Of this suit, where it is not.
#[inline]
fn other_share(offer: Offer, need: u8) -> u8
    ensures { result ≡ (if offer.first then 0 else min offer.tricks need) }
{
    if offer.first {
        0
    } else {
        offer.tricks.min(need)
    }
}

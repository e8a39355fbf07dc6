//! What speaks for a lead, in numbers: with trumps and at notrump. Each was tried up and down on drawn deals, as long as the search
//! visited fewer positions. No answer rests on them.

/// What a card is worth whose trick the leader's side wins when each hand plays well, and one whose trick it loses.
#[derive(Clone, Copy)]
pub(crate) struct LeadWorth {
    pub(crate) wins: u16,
    pub(crate) loses: u16,
}

/// What the cards of a suit are worth.
#[derive(Clone, Copy)]
pub(crate) struct CardWorths {
    // whether they are worth the same, so that the lowest of them looks best
    pub(crate) alike: bool,
    pub(crate) usual: LeadWorth,
    // where they are not alike: the leader's highest where no other hand has a higher one, else a card with an equal below it
    pub(crate) special: LeadWorth,
}

/// What is known of a suit by whose its two highest cards are.
#[derive(Clone, Copy)]
pub(crate) struct TopTwo {
    // who has the highest card: how many places after the leader its hand is
    pub(crate) first: u8,
    // how good the suit looks, but for its lengths and for ruffs
    pub(crate) weight: u16,
    pub(crate) cards: CardWorths,
}

/// What speaks for a suit and its cards.
#[derive(Clone, Copy)]
pub(crate) struct LeadWeights {
    // what the cards of a suit weigh more that settled the last start of a trick of the same shape, of the same outline, or of the
    // same leader with as many tricks left
    pub(crate) settled_shape: u64,
    pub(crate) settled_outline: u64,
    pub(crate) settled_leader: u64,
    // what the first card of a suit weighs more: each suit is rather tried once before one is tried again
    pub(crate) best_of_its_suit: u16,
    // against a suit, for each card of it that an opponent has, and of an opponent who has none of it for each card: the fewer answers
    // there are to try, the sooner the suit is settled
    pub(crate) opponents_card: u64,
    // against it: an opponent has none of it and ruffs
    pub(crate) opponent_ruffs: u64,
    // for it, for each card of the leader's and of partner's
    pub(crate) leaders_card: u64,
    pub(crate) partners_card: u64,
    // for it: the leader has one card of it
    pub(crate) single_card: u64,
    // against it: partner has none of it
    pub(crate) partner_has_none: u64,
    // for it: partner takes the leader's single card, and the leader ruffs the next
    pub(crate) single_card_to_partners_top: u16,
    // a card that fells an opponent's highest, which stands alone
    pub(crate) lone_top_card: LeadWorth,
}

pub(crate) const LEADER: u8 = 0;

const LEFT: u8 = 1;

pub(crate) const PARTNER: u8 = 2;

const RIGHT: u8 = 3;

/// With trumps.
pub(crate) const WITH_TRUMPS: LeadWeights = LeadWeights {
    settled_shape: 70,
    settled_outline: 40,
    settled_leader: 18,
    best_of_its_suit: 51,
    opponents_card: 14,
    opponent_ruffs: 26,
    leaders_card: 0,
    partners_card: 0,
    single_card: 4,
    partner_has_none: 0,
    single_card_to_partners_top: 19,
    lone_top_card: LeadWorth {
        wins: 53,
        loses: 10,
    },
};

/// At notrump.
pub(crate) const AT_NOTRUMP: LeadWeights = LeadWeights {
    settled_shape: 40,
    settled_outline: 170,
    settled_leader: 14,
    best_of_its_suit: 44,
    opponents_card: 10,
    opponent_ruffs: 0,
    leaders_card: 2,
    partners_card: 4,
    single_card: 0,
    partner_has_none: 12,
    single_card_to_partners_top: 0,
    lone_top_card: LeadWorth {
        wins: 70,
        loses: 18,
    },
};

// The leader has the highest card, and not partner the next.
const LEADERS_TOP: CardWorths = CardWorths {
    alike: false,
    usual: LeadWorth { wins: 15, loses: 4 },
    special: LeadWorth {
        wins: 25,
        loses: 42,
    },
};

// The same at notrump.
const LEADERS_TOP_AT_NOTRUMP: CardWorths = CardWorths {
    alike: false,
    usual: LeadWorth { wins: 35, loses: 4 },
    special: LeadWorth {
        wins: 19,
        loses: 55,
    },
};

// The leader has the highest card, and partner the next.
const LEADERS_AND_PARTNERS: CardWorths = CardWorths {
    alike: true,
    usual: LeadWorth {
        wins: 40,
        loses: 40,
    },
    special: LeadWorth {
        wins: 40,
        loses: 40,
    },
};

// The same at notrump.
const LEADERS_AND_PARTNERS_AT_NOTRUMP: CardWorths = CardWorths {
    alike: true,
    usual: LeadWorth {
        wins: 30,
        loses: 30,
    },
    special: LeadWorth {
        wins: 30,
        loses: 30,
    },
};

// Partner has the highest card.
const PARTNERS_TOP: CardWorths = CardWorths {
    alike: true,
    usual: LeadWorth {
        wins: 40,
        loses: 40,
    },
    special: LeadWorth {
        wins: 40,
        loses: 40,
    },
};

// An opponent has the highest card, and the leader the next.
const LEADERS_SECOND: CardWorths = CardWorths {
    alike: false,
    usual: LeadWorth {
        wins: 40,
        loses: 10,
    },
    special: LeadWorth {
        wins: 55,
        loses: 25,
    },
};

// The same at notrump.
const LEADERS_SECOND_AT_NOTRUMP: CardWorths = CardWorths {
    alike: false,
    usual: LeadWorth {
        wins: 40,
        loses: 10,
    },
    special: LeadWorth {
        wins: 55,
        loses: 31,
    },
};

// An opponent has the highest card, and not the leader the next.
const OPPONENTS_TOP: CardWorths = CardWorths {
    alike: true,
    usual: LeadWorth {
        wins: 40,
        loses: 10,
    },
    special: LeadWorth {
        wins: 40,
        loses: 10,
    },
};

/// The first that are at notrump: as many as a signature has numbers of a suit.
pub(crate) const NUMBERS: usize = 16;

/// By the number that a signature tells of a suit, at notrump and then with trumps. A look at a table and not branches, which would hardly
/// be foreseen.
pub(crate) static TOP_TWO: [TopTwo; 32] = [
    // at notrump
    // the leader's, and then the leader's or nobody's
    TopTwo {
        first: LEADER,
        weight: 120,
        cards: LEADERS_TOP_AT_NOTRUMP,
    },
    // the leader's, and then the left hand's
    TopTwo {
        first: LEADER,
        weight: 120,
        cards: LEADERS_TOP_AT_NOTRUMP,
    },
    // the left hand's, and then the leader's or nobody's
    TopTwo {
        first: LEFT,
        weight: 120,
        cards: LEADERS_SECOND_AT_NOTRUMP,
    },
    // the left hand's, and then the left hand's
    TopTwo {
        first: LEFT,
        weight: 78,
        cards: OPPONENTS_TOP,
    },
    // the leader's, and then partner's
    TopTwo {
        first: LEADER,
        weight: 120,
        cards: LEADERS_AND_PARTNERS_AT_NOTRUMP,
    },
    // the leader's, and then the right hand's
    TopTwo {
        first: LEADER,
        weight: 97,
        cards: LEADERS_TOP_AT_NOTRUMP,
    },
    // the left hand's, and then partner's
    TopTwo {
        first: LEFT,
        weight: 138,
        cards: OPPONENTS_TOP,
    },
    // the left hand's, and then the right hand's
    TopTwo {
        first: LEFT,
        weight: 55,
        cards: OPPONENTS_TOP,
    },
    // partner's, and then the leader's or nobody's
    TopTwo {
        first: PARTNER,
        weight: 132,
        cards: PARTNERS_TOP,
    },
    // partner's, and then the left hand's
    TopTwo {
        first: PARTNER,
        weight: 120,
        cards: PARTNERS_TOP,
    },
    // the right hand's, and then the leader's or nobody's
    TopTwo {
        first: RIGHT,
        weight: 106,
        cards: LEADERS_SECOND_AT_NOTRUMP,
    },
    // the right hand's, and then the left hand's
    TopTwo {
        first: RIGHT,
        weight: 76,
        cards: OPPONENTS_TOP,
    },
    // partner's, and then partner's
    TopTwo {
        first: PARTNER,
        weight: 114,
        cards: PARTNERS_TOP,
    },
    // partner's, and then the right hand's
    TopTwo {
        first: PARTNER,
        weight: 97,
        cards: PARTNERS_TOP,
    },
    // the right hand's, and then partner's
    TopTwo {
        first: RIGHT,
        weight: 118,
        cards: OPPONENTS_TOP,
    },
    // the right hand's, and then the right hand's
    TopTwo {
        first: RIGHT,
        weight: 76,
        cards: OPPONENTS_TOP,
    },
    // with trumps
    // the leader's, and then the leader's or nobody's
    TopTwo {
        first: LEADER,
        weight: 124,
        cards: LEADERS_TOP,
    },
    // the leader's, and then the left hand's
    TopTwo {
        first: LEADER,
        weight: 120,
        cards: LEADERS_TOP,
    },
    // the left hand's, and then the leader's or nobody's
    TopTwo {
        first: LEFT,
        weight: 120,
        cards: LEADERS_SECOND,
    },
    // the left hand's, and then the left hand's
    TopTwo {
        first: LEFT,
        weight: 102,
        cards: OPPONENTS_TOP,
    },
    // the leader's, and then partner's
    TopTwo {
        first: LEADER,
        weight: 120,
        cards: LEADERS_AND_PARTNERS,
    },
    // the leader's, and then the right hand's
    TopTwo {
        first: LEADER,
        weight: 105,
        cards: LEADERS_TOP,
    },
    // the left hand's, and then partner's
    TopTwo {
        first: LEFT,
        weight: 134,
        cards: OPPONENTS_TOP,
    },
    // the left hand's, and then the right hand's
    TopTwo {
        first: LEFT,
        weight: 87,
        cards: OPPONENTS_TOP,
    },
    // partner's, and then the leader's or nobody's
    TopTwo {
        first: PARTNER,
        weight: 120,
        cards: PARTNERS_TOP,
    },
    // partner's, and then the left hand's
    TopTwo {
        first: PARTNER,
        weight: 120,
        cards: PARTNERS_TOP,
    },
    // the right hand's, and then the leader's or nobody's
    TopTwo {
        first: RIGHT,
        weight: 98,
        cards: LEADERS_SECOND,
    },
    // the right hand's, and then the left hand's
    TopTwo {
        first: RIGHT,
        weight: 92,
        cards: OPPONENTS_TOP,
    },
    // partner's, and then partner's
    TopTwo {
        first: PARTNER,
        weight: 126,
        cards: PARTNERS_TOP,
    },
    // partner's, and then the right hand's
    TopTwo {
        first: PARTNER,
        weight: 105,
        cards: PARTNERS_TOP,
    },
    // the right hand's, and then partner's
    TopTwo {
        first: RIGHT,
        weight: 116,
        cards: OPPONENTS_TOP,
    },
    // the right hand's, and then the right hand's
    TopTwo {
        first: RIGHT,
        weight: 92,
        cards: OPPONENTS_TOP,
    },
];

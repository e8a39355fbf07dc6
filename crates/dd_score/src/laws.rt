ghost use Rattle.dd_score.specs.Values.{HasOneValue};

/// No auction has two values: what `par` ensures tells the score.
pub fn an_auction_has_one_value()
    ensures { HasOneValue }
{}

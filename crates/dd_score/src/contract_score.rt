ghost use Rattle.std.specs.Prelude.{◌≡◌, ◌+◌, ◌*◌, ◌<◌, ◌≤◌, ◌≤ℤ◌, pos, negsuc, nat_le, if◌then◌else◌};
ghost use Rattle.dd_score.specs.Law77.{points, made_points, trick_points, overtrick_points, factor, game_premium, slam_premium, doubling_premium, penalty, doubled_penalty};

use crate::doubling::Doubling;
use dd_cards::{Strain, Suit};

/// The points of declarer's side for a contract of this level, 1 to 7, on which declarer took so many tricks, 0 to 13:
/// more than 0 where they are the level and six or more, less than 0 where they are fewer (Laws of Duplicate Bridge
/// 2017, Law 77). `vulnerable`: whether declarer's side is.
pub fn points(level: u8, strain: Strain, doubling: Doubling, vulnerable: bool, tricks: u8) -> i16
    requires level { (1 ≤ level) × (level ≤ 7) }
    requires tricks { tricks ≤ 13 }
    ensures value { result ≡ points level strain doubling vulnerable tricks }
    ensures low { negsuc 7999 ≤ℤ result }
    ensures high { result ≤ℤ pos 8000 }
{
    let needed = level + 6;
    if needed <= tricks {
        made(level, strain, doubling, vulnerable, tricks - needed) as i16
    } else {
        -(not_made(doubling, vulnerable, needed - tricks) as i16)
    }
}

// The points of a contract that was made with so many tricks over.
fn made(level: u8, strain: Strain, doubling: Doubling, vulnerable: bool, over: u8) -> u16
    requires level { (1 ≤ level) × (level ≤ 7) }
    requires over { over ≤ 6 }
    ensures value { result ≡ made_points level strain doubling vulnerable over }
    ensures bound { result < 8000 }
{
    let tricks = multiplied(doubling, for_tricks(strain, level));
    let premiums = for_game(tricks, vulnerable)
        + for_slam(level, vulnerable)
        + for_insult(doubling);
    tricks + over as u16 * for_overtrick(strain, doubling, vulnerable) + premiums
}

// The points of the tricks of the level, undoubled.
fn for_tricks(strain: Strain, level: u8) -> u16
    requires { (1 ≤ level) × (level ≤ 7) }
    ensures value { result ≡ trick_points strain level }
    ensures bound { result ≤ 220 }
{
    match strain {
        Strain::Trump(Suit::Clubs) | Strain::Trump(Suit::Diamonds) => 20 * level as u16,
        Strain::Trump(Suit::Hearts) | Strain::Trump(Suit::Spades) => 30 * level as u16,
        Strain::Notrump => 40 + 30 * (level - 1) as u16,
    }
}

// Trick points, doubled or redoubled.
fn multiplied(doubling: Doubling, tricks: u16) -> u16
    requires { tricks ≤ 220 }
    ensures value { result ≡ factor doubling * tricks }
    ensures bound { result ≤ 880 }
{
    match doubling {
        Doubling::Undoubled => tricks,
        Doubling::Doubled => 2 * tricks,
        Doubling::Redoubled => 4 * tricks,
    }
}

// The points of each trick over.
fn for_overtrick(strain: Strain, doubling: Doubling, vulnerable: bool) -> u16
    ensures value { result ≡ overtrick_points strain doubling vulnerable }
    ensures bound { result ≤ 400 }
{
    match doubling {
        Doubling::Undoubled => match strain {
            Strain::Trump(Suit::Clubs) | Strain::Trump(Suit::Diamonds) => 20,
            Strain::Trump(Suit::Hearts) | Strain::Trump(Suit::Spades) | Strain::Notrump => 30,
        },
        Doubling::Doubled => { if vulnerable { 200 } else { 100 } }
        Doubling::Redoubled => { if vulnerable { 400 } else { 200 } }
    }
}

// The premium of a game, or of a part-score.
fn for_game(tricks: u16, vulnerable: bool) -> u16
    ensures value { result ≡ game_premium tricks vulnerable }
    ensures bound { result ≤ 500 }
{
    if tricks < 100 {
        50
    } else if vulnerable {
        500
    } else {
        300
    }
}

// The premium of a slam.
fn for_slam(level: u8, vulnerable: bool) -> u16
    ensures value { result ≡ slam_premium level vulnerable }
    ensures bound { result ≤ 1500 }
{
    if level == 6 {
        if vulnerable { 750 } else { 500 }
    } else if level == 7 {
        if vulnerable { 1500 } else { 1000 }
    } else {
        0
    }
}

// The premium of a contract that was made though doubled or redoubled.
fn for_insult(doubling: Doubling) -> u16
    ensures value { result ≡ doubling_premium doubling }
    ensures bound { result ≤ 100 }
{
    match doubling {
        Doubling::Undoubled => 0,
        Doubling::Doubled => 50,
        Doubling::Redoubled => 100,
    }
}

// What a contract costs that was so many tricks short.
fn not_made(doubling: Doubling, vulnerable: bool, short: u8) -> u16
    requires { short ≤ 13 }
    ensures value { result ≡ penalty doubling vulnerable short }
    ensures bound { result < 8000 }
{
    match doubling {
        Doubling::Undoubled => short as u16 * if vulnerable { 100 } else { 50 },
        Doubling::Doubled => when_doubled(vulnerable, short),
        Doubling::Redoubled => 2 * when_doubled(vulnerable, short),
    }
}

// What a doubled contract costs that was so many tricks short.
fn when_doubled(vulnerable: bool, short: u8) -> u16
    requires { short ≤ 13 }
    ensures value { result ≡ doubled_penalty vulnerable short }
    ensures bound { result ≤ 3800 }
{
    if short == 0 {
        0
    } else if vulnerable {
        300 * short as u16 - 100
    } else if short <= 3 {
        200 * short as u16 - 100
    } else {
        300 * short as u16 - 400
    }
}

//! Lines whose answers take a search.

/// Eight cards a hand, and nobody has led. Over no table a search for one of them visited 9,544 positions, 4,854, 16,044, 2,404
/// and 35,032: a search that visits a third or three times as many still has some between 1,000 and 20,000.
pub const EIGHT_CARDS: &str =
    r#"{"do":"solve","deal":"N:J.AQT4.Q63. K9..AK.J742 AT.K73.J2.T 8542.2.9.65","trump":3,"first":0,"solutions":3}
{"do":"solve","deal":"N:9.T7.KJ4.Q2 T.6.AQ7.JT7 653.Q3.95.K Q7.92.82.83","trump":0,"first":0,"solutions":3}
{"do":"solve","deal":"N:K83.J5.3.Q7 J92.3.A4.83 Q4.Q.T5.K42 A6.K42.Q.96","trump":0,"first":1,"solutions":3}
{"do":"solve","deal":"N:T65.J.54.T9 Q9.K52.93.6 K.Q76.AJ2.8 A.4.T8.7532","trump":2,"first":2,"solutions":3}
{"do":"solve","deal":"N:KQ.T.94.842 3.AJ754.K5. J64.K62.A6. 85..7.QJT73","trump":1,"first":1,"solutions":3}"#;

/// Nine cards a hand: over no table 39,454 positions were visited.
pub const NINE_CARDS: &str =
    r#"{"do":"solve","deal":"N:T74.JT.8.AKQ AK2.7.T74.T9 QJ63..653.83 98.Q96.AK.J7","trump":0,"first":1,"solutions":3}"#;

/// The table of eight cards a hand.
pub const EIGHT_CARDS_TABLE: &str =
    r#"{"do":"table","deal":"N:8.73.Q.AT97 954.A.974.8 AK.62.3.J32 T7.94.T85.Q"}"#;

/// Eight cards a hand, of which some lead may reach the target.
pub const EIGHT_CARDS_TARGET: &str =
    r#"{"do":"solve","deal":"N:9.T7.KJ4.Q2 T.6.AQ7.JT7 653.Q3.95.K Q7.92.82.83","trump":0,"first":0,"solutions":2,"target":4}"#;

/// A play of one trick, in which nobody had a choice: North's cards are equal, and the others had one heart each. So its last
/// number takes the longest search, for the value of the position that the trick leaves. The number before the lead takes one
/// question, which comes to one of that search's own, and the three numbers between them take none.
pub const EIGHT_CARDS_PLAY: &str =
    r#"{"do":"play","deal":"N:.98765432.. T64.Q.Q4.J6 J7.A.A6.K95 A9.K.J93.74","trump":4,"first":0,"cards":[[1,9],[1,12],[1,14],[1,13]]}"#;

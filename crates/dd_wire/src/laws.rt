ghost use Rattle.std.specs.Prelude.{◌≡◌, ℕ, Bool, true, false, List, [], ◌∷◌, None, Option, Some, Result, Ok, Err, codes};
ghost use Rattle.dd_cards.specs.declared.seat.Seat.TheVariants.{North, East};
ghost use Rattle.dd_cards.specs.declared.strain.Strain.TheVariants.{Trump, Notrump};
ghost use Rattle.dd_cards.specs.declared.suit.Suit.TheVariants.{Spades};
ghost use Rattle.dd_pbn.specs.Examples.{eight_spades, two_suits};
ghost use Rattle.dd_play.specs.Board.{board_of};
ghost use Rattle.dd_wire.specs.ExplainedWants.{MeansExplained, fault_explained, id_of};
ghost use Rattle.dd_wire.specs.Lines.{Means};
ghost use Rattle.dd_wire.specs.Wants.{MeansWant};

use crate::fault::Fault;
use crate::line_asked::LineAsked;
use crate::session_asked::SessionAsked;
use crate::want::Want;
use dd_cards::Side;
use dd_request::Asked;
use dd_score::{Order, Vulnerable};

/// A line has a meaning, and only one.
pub fn one_meaning()
    ensures some { (line : List ℕ) → (meaning : Result LineAsked Fault) × Means line meaning }
    ensures only { (line : List ℕ) (a b : Result LineAsked Fault) → Means line a → Means line b →
        a ≡ b }
{}

/// Lines worked by hand.
pub fn worked_lines()
    ensures best_cards { Means (codes "{\"do\":\"solve\",\"deal\":\"N:A.2.. K.A.. Q.K.. J.Q..\",\"trump\":4,\"first\":1,\"solutions\":2}")
        (Ok (LineAsked.Cards (Asked.Solve record {
          board = board_of two_suits Notrump East [];
          solutions = 2;
        }))) }
    ensures every_card { Means (codes "{\"deal\":\"[Deal \\\"e:k4... aq... 65... 32...\\\"]\",\"played\":[],\"trump\":0,\"first\":0,\"solutions\":3,\"do\":\"solve\"}")
        (Ok (LineAsked.Cards (Asked.Solve record {
          board = board_of eight_spades (Trump Spades) North [];
          solutions = 3;
        }))) }
    ensures table { Means (codes "{\"do\":\"table\",\"deal\":\"N:A.2.. K.A.. Q.K.. J.Q..\"}")
        (Ok (LineAsked.Cards (Asked.Table two_suits))) }
    ensures trump_of_a_table { Means (codes "{\"do\":\"table\",\"deal\":\"N:A.2.. K.A.. Q.K.. J.Q..\",\"trump\":4}")
        (Err Fault.WrongField) }
    ensures no_object { Means (codes "[]") (Err Fault.NotAnObject) }
    ensures three_numbers { Means (codes "{\"do\":\"solve\",\"deal\":\"N:A.2.. K.A.. Q.K.. J.Q..\",\"trump\":4,\"first\":0,\"solutions\":3,\"played\":[[0,14,1]]}")
        (Err Fault.WrongField) }
    ensures left_out { Means (codes "{\"do\":\"solve\",\"deal\":\"N:A... - Q... J...\",\"trump\":4,\"first\":0,\"solutions\":3}")
        (Err Fault.HandLeftOut) }
    ensures two_aces { Means (codes "{\"do\":\"solve\",\"deal\":\"N:AA... K2... Q3... J4...\",\"trump\":4,\"first\":0,\"solutions\":3}")
        (Err Fault.CardTwice) }
    ensures no_trump { Means (codes "{\"do\":\"solve\",\"deal\":\"N:A.2.. K.A.. Q.K.. J.Q..\",\"trump\":5,\"first\":4,\"solutions\":3}")
        (Err Fault.WrongTrump) }
    ensures no_seat { Means (codes "{\"do\":\"solve\",\"deal\":\"N:A.2.. K.A.. Q.K.. J.Q..\",\"trump\":4,\"first\":4,\"solutions\":3,\"played\":[[4,14]]}")
        (Err Fault.WrongFirst) }
    ensures no_card { Means (codes "{\"do\":\"solve\",\"deal\":\"N:A.2.. K.A.. Q.K.. J.Q..\",\"trump\":4,\"first\":0,\"solutions\":4,\"played\":[[4,14]]}")
        (Err Fault.WrongPlayed) }
    ensures no_solutions { Means (codes "{\"do\":\"solve\",\"deal\":\"N:A.2.. K.A.. Q.K.. J.Q..\",\"trump\":4,\"first\":0,\"solutions\":4,\"played\":[[0,14]]}")
        (Err Fault.WrongSolutions) }
    ensures ace_led { Means (codes "{\"do\":\"solve\",\"deal\":\"N:A.2.. K.A.. Q.K.. J.Q..\",\"trump\":4,\"first\":0,\"solutions\":3,\"played\":[[0,14]]}")
        (Err Fault.CardTwice) }
    ensures par_by_dealer { Means (codes "{\"do\":\"par\",\"table\":[[5,8,5,8],[6,6,6,6],[5,7,5,7],[7,5,7,5],[6,6,6,13]],\"dealer\":1,\"vulnerable\":2}")
        (Ok (LineAsked.Par record {
          results = (5 ∷ 8 ∷ 5 ∷ 8 ∷ []) ∷ (6 ∷ 6 ∷ 6 ∷ 6 ∷ []) ∷ (5 ∷ 7 ∷ 5 ∷ 7 ∷ []) ∷ (7 ∷ 5 ∷ 7 ∷ 5 ∷ []) ∷ (6 ∷ 6 ∷ 6 ∷ 13 ∷ []) ∷ [];
          conditions = record {
            vulnerable = Vulnerable.NorthSouth;
            order = Order.Dealer East;
          };
        })) }
    ensures par_by_side { Means (codes "{\"do\":\"par\",\"table\":[[5,8,5,8],[6,6,6,6],[5,7,5,7],[7,5,7,5],[6,6,6,13]],\"side\":1,\"vulnerable\":1}")
        (Ok (LineAsked.Par record {
          results = (5 ∷ 8 ∷ 5 ∷ 8 ∷ []) ∷ (6 ∷ 6 ∷ 6 ∷ 6 ∷ []) ∷ (5 ∷ 7 ∷ 5 ∷ 7 ∷ []) ∷ (7 ∷ 5 ∷ 7 ∷ 5 ∷ []) ∷ (6 ∷ 6 ∷ 6 ∷ 13 ∷ []) ∷ [];
          conditions = record {
            vulnerable = Vulnerable.Both;
            order = Order.First Side.EastWest;
          };
        })) }
    ensures dealer_and_side { Means (codes "{\"do\":\"par\",\"table\":[[5,8,5,8],[6,6,6,6],[5,7,5,7],[7,5,7,5],[6,6,6,13]],\"dealer\":1,\"side\":1,\"vulnerable\":1}")
        (Err Fault.WrongField) }
    ensures table_and_deal { Means (codes "{\"do\":\"par\",\"table\":[[5,8,5,8],[6,6,6,6],[5,7,5,7],[7,5,7,5],[6,6,6,13]],\"deal\":\"\",\"dealer\":1,\"vulnerable\":1}")
        (Err Fault.WrongField) }
    ensures no_dealer { Means (codes "{\"do\":\"par\",\"table\":[[5,8,5,8],[6,6,6,6],[5,7,5,7],[7,5,7,5],[6,6,6,14]],\"dealer\":4,\"vulnerable\":4}")
        (Err Fault.WrongOrder) }
    ensures no_vulnerability { Means (codes "{\"do\":\"par\",\"table\":[[5,8,5,8],[6,6,6,6],[5,7,5,7],[7,5,7,5],[6,6,6,14]],\"dealer\":3,\"vulnerable\":4}")
        (Err Fault.WrongVulnerable) }
    ensures no_result { Means (codes "{\"do\":\"par\",\"table\":[[5,8,5,8],[6,6,6,6],[5,7,5,7],[7,5,7,5],[6,6,6,14]],\"dealer\":3,\"vulnerable\":3}")
        (Err Fault.WrongResult) }
    ensures nineteen_results { Means (codes "{\"do\":\"par\",\"table\":[[5,8,5,8],[6,6,6,6],[5,7,5,7],[7,5,7,5],[6,6,6]],\"dealer\":4,\"vulnerable\":4}")
        (Err Fault.WrongField) }
    ensures wait { Means (codes "{\"do\":\"table\",\"deal\":\"N:A.2.. K.A.. Q.K.. J.Q..\",\"wait\":9}")
        (Ok (LineAsked.Cards (Asked.Table two_suits))) }
    ensures health { Means (codes "{\"do\":\"health\"}") (Err Fault.WrongField) }
    ensures wait_below_zero { Means (codes "{\"do\":\"solve\",\"deal\":\"N:A... - Q... J...\",\"trump\":4,\"first\":0,\"solutions\":3,\"wait\":-1}")
        (Err Fault.WrongField) }
{}

/// A line of a session has a meaning, and only one, with leave to stop as without.
pub fn one_want()
    ensures some { (leave : Bool) (line : List ℕ) → (meaning : Result SessionAsked Fault) ×
        MeansWant leave line meaning }
    ensures only { (leave : Bool) (line : List ℕ) (a b : Result SessionAsked Fault) →
        MeansWant leave line a → MeansWant leave line b → a ≡ b }
{}

/// So it has where it may have an id.
pub fn one_explained_want()
    ensures some { (leave : Bool) (line : List ℕ) → (meaning : Result SessionAsked Fault) ×
        MeansExplained leave line meaning }
    ensures only { (leave : Bool) (line : List ℕ) (a b : Result SessionAsked Fault) →
        MeansExplained leave line a → MeansExplained leave line b → a ≡ b }
{}

/// Lines of a session with an id or a fault, worked by hand: the id, and how the fault is told.
pub fn worked_explained_wants()
    ensures fetch { (leave : Bool) → MeansExplained leave (codes "{\"do\":\"fetch\",\"id\":7,\"job\":2}")
        (Ok (SessionAsked.Book record { want = Want.Fetch 2; wait = 0 })) }
    ensures number { id_of (codes "{\"do\":\"fetch\",\"id\":7,\"job\":2}") ≡ Some (codes "7") }
    ensures text { id_of (codes "{\"id\":\"board 7\",\"do\":\"health\"}") ≡ Some (codes "\"board 7\"") }
    ensures none { id_of (codes "{\"do\":\"health\"}") ≡ None }
    ensures blank { (leave : Bool) → fault_explained leave (codes " ") Fault.NotAnObject ≡
        codes "{\"fault\":1,\"text\":\"the line is blank\"}" }
    ensures no_id { (leave : Bool) → fault_explained leave (codes "{\"do\":\"health\",\"id\":true}") Fault.WrongField ≡
        codes "{\"fault\":3,\"field\":\"id\",\"text\":\"a field is missing, unknown or of the wrong kind\"}" }
    ensures no_job { (leave : Bool) → fault_explained leave (codes "{\"do\":\"fetch\",\"id\":7}") Fault.WrongField ≡
        codes "{\"id\":7,\"fault\":3,\"field\":\"job\",\"text\":\"a field is missing, unknown or of the wrong kind\"}" }
    ensures cancel_that_waits { (leave : Bool) → fault_explained leave
        (codes "{\"do\":\"cancel\",\"job\":7,\"wait\":1}") Fault.WrongField ≡
        codes "{\"fault\":3,\"field\":\"wait\",\"text\":\"a field is missing, unknown or of the wrong kind\"}" }
    ensures health_of_a_job { (leave : Bool) → fault_explained leave
        (codes "{\"do\":\"health\",\"job\":7}") Fault.WrongField ≡
        codes "{\"fault\":3,\"field\":\"job\",\"text\":\"a field is missing, unknown or of the wrong kind\"}" }
    ensures no_leave { fault_explained false (codes "{\"do\":\"stop\",\"id\":\"x\",\"job\":7}") Fault.WrongField ≡
        codes "{\"id\":\"x\",\"fault\":3,\"field\":\"do\",\"text\":\"a field is missing, unknown or of the wrong kind\"}" }
    ensures stop_of_a_job { fault_explained true (codes "{\"do\":\"stop\",\"id\":\"x\",\"job\":7}") Fault.WrongField ≡
        codes "{\"id\":\"x\",\"fault\":3,\"field\":\"job\",\"text\":\"a field is missing, unknown or of the wrong kind\"}" }
    ensures par_of_a_deal { (leave : Bool) → fault_explained leave
        (codes "{\"do\":\"par\",\"deal\":\"\",\"dealer\":0,\"vulnerable\":0}") Fault.WrongField ≡
        codes "{\"fault\":3,\"field\":\"deal\",\"text\":\"a field is missing, unknown or of the wrong kind\"}" }
    ensures no_trump { (leave : Bool) → fault_explained leave
        (codes "{\"do\":\"solve\",\"deal\":\"\",\"trump\":5,\"first\":0,\"solutions\":3,\"id\":0}") Fault.WrongTrump ≡
        codes "{\"id\":0,\"fault\":9,\"field\":\"trump\",\"text\":\"trump is not 0 to 4\"}" }
{}

/// Lines of a session worked by hand.
pub fn worked_wants()
    ensures fetch { (leave : Bool) → MeansWant leave (codes "{\"do\":\"fetch\",\"job\":0}")
        (Ok (SessionAsked.Book record { want = Want.Fetch 0; wait = 0 })) }
    ensures cancel { (leave : Bool) →
        MeansWant leave (codes "{\"job\":18446744073709551615,\"do\":\"cancel\"}")
        (Ok (SessionAsked.Book record { want = Want.Cancel 18446744073709551615; wait = 0 })) }
    ensures stop { MeansWant true (codes "{\"do\":\"stop\"}") (Ok (SessionAsked.Book record {
      want = Want.Stop;
      wait = 0;
    })) }
    ensures no_leave { MeansWant false (codes "{\"do\":\"stop\"}") (Err Fault.WrongField) }
    ensures stop_of_a_job { MeansWant true (codes "{\"do\":\"stop\",\"job\":1}")
        (Err Fault.WrongField) }
    ensures no_job { MeansWant true (codes "{\"do\":\"fetch\"}") (Err Fault.WrongField) }
    ensures job_and_deal { MeansWant true (codes "{\"do\":\"fetch\",\"job\":1,\"deal\":\"\"}")
        (Err Fault.WrongField) }
    ensures job_in_words { MeansWant true (codes "{\"do\":\"cancel\",\"job\":\"1\"}")
        (Err Fault.WrongField) }
    ensures past_64_bits { MeansWant true
        (codes "{\"do\":\"cancel\",\"job\":18446744073709551616}") (Err Fault.WrongField) }
    ensures no_task { MeansWant true (codes "{\"job\":1}") (Err Fault.WrongField) }
    ensures no_object { MeansWant true (codes "[1]") (Err Fault.NotAnObject) }
    ensures solve { (leave : Bool) → MeansWant leave
        (codes "{\"do\":\"solve\",\"deal\":\"N:A.2.. K.A.. Q.K.. J.Q..\",\"trump\":4,\"first\":1,\"solutions\":2}")
        (Ok (SessionAsked.Book record {
          want = Want.Submit (Asked.Solve record {
            board = board_of two_suits Notrump East [];
            solutions = 2;
          });
          wait = 0;
        })) }
    ensures table { (leave : Bool) → MeansWant leave
        (codes "{\"do\":\"table\",\"deal\":\"N:A.2.. K.A.. Q.K.. J.Q..\"}")
        (Ok (SessionAsked.Book record { want = Want.Submit (Asked.Table two_suits); wait = 0 })) }
    ensures par { (leave : Bool) → MeansWant leave
        (codes "{\"do\":\"par\",\"table\":[[5,8,5,8],[6,6,6,6],[5,7,5,7],[7,5,7,5],[6,6,6,13]],\"dealer\":1,\"vulnerable\":2}")
        (Ok (SessionAsked.Par record {
          results = (5 ∷ 8 ∷ 5 ∷ 8 ∷ []) ∷ (6 ∷ 6 ∷ 6 ∷ 6 ∷ []) ∷ (5 ∷ 7 ∷ 5 ∷ 7 ∷ []) ∷ (7 ∷ 5 ∷ 7 ∷ 5 ∷ []) ∷ (6 ∷ 6 ∷ 6 ∷ 13 ∷ []) ∷ [];
          conditions = record {
            vulnerable = Vulnerable.NorthSouth;
            order = Order.Dealer East;
          };
        })) }
    ensures par_of_a_deal { (leave : Bool) → MeansWant leave
        (codes "{\"do\":\"par\",\"deal\":\"\",\"dealer\":4,\"vulnerable\":4}") (Err Fault.WrongField) }
    ensures waits { (leave : Bool) →
        MeansWant leave (codes "{\"do\":\"fetch\",\"job\":7,\"wait\":30000}")
        (Ok (SessionAsked.Book record { want = Want.Fetch 7; wait = 30000 })) }
    ensures no_longer { (leave : Bool) →
        MeansWant leave (codes "{\"wait\":18446744073709551615,\"do\":\"fetch\",\"job\":7}")
        (Ok (SessionAsked.Book record { want = Want.Fetch 7; wait = 60000 })) }
    ensures waits_in_words { MeansWant true
        (codes "{\"do\":\"fetch\",\"job\":7,\"wait\":\"1\"}") (Err Fault.WrongField) }
    ensures waits_in_part { MeansWant true
        (codes "{\"do\":\"table\",\"deal\":\"\",\"wait\":1.5}") (Err Fault.WrongField) }
    ensures cancel_that_waits { MeansWant true
        (codes "{\"do\":\"cancel\",\"job\":7,\"wait\":1}") (Err Fault.WrongField) }
    ensures stop_that_waits { MeansWant true (codes "{\"do\":\"stop\",\"wait\":1}")
        (Err Fault.WrongField) }
    ensures solve_that_waits { (leave : Bool) → MeansWant leave
        (codes "{\"do\":\"solve\",\"deal\":\"N:A.2.. K.A.. Q.K.. J.Q..\",\"trump\":4,\"first\":1,\"solutions\":2,\"wait\":500}")
        (Ok (SessionAsked.Book record {
          want = Want.Submit (Asked.Solve record {
            board = board_of two_suits Notrump East [];
            solutions = 2;
          });
          wait = 500;
        })) }
    ensures health { (leave : Bool) → MeansWant leave (codes "{\"do\":\"health\"}")
        (Ok SessionAsked.Health) }
    ensures health_of_a_job { MeansWant true (codes "{\"do\":\"health\",\"job\":1}")
        (Err Fault.WrongField) }
    ensures health_that_waits { MeansWant true (codes "{\"do\":\"health\",\"wait\":1}")
        (Err Fault.WrongField) }
    ensures table_that_waits { (leave : Bool) → MeansWant leave
        (codes "{\"do\":\"table\",\"deal\":\"N:A.2.. K.A.. Q.K.. J.Q..\",\"wait\":60001}")
        (Ok (SessionAsked.Book record { want = Want.Submit (Asked.Table two_suits); wait = 60000 })) }
{}

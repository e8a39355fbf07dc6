ghost use Rattle.std.specs.Prelude.{◌≡◌, ℕ, Bool, true, List, [], None, Option, Some};
ghost use Rattle.dd_lines.specs.Lines.{lines};
ghost use Rattle.dd_bounds.specs.Spent.{IsSpent};
ghost use Rattle.dd_tool.specs.Served.{AreReplies, AreSameBut, AreTold, IsReplyAs, ToldAll};
ghost use Rattle.dd_wire.specs.Explained.{IsExplained};
ghost use Rattle.dd_wire.specs.FaultWords.{fault_told};
ghost use Rattle.dd_wire.specs.LineReplies.{AreOneBut, IsReply};
ghost use Rattle.dd_wire.specs.Replies.{fault_text, is_one_line};

use dd_score::an_auction_has_one_value;
use dd_wire::Fault;

/// Two replies to a line without a budget are one text, or one of them says that memory ran out.
pub fn one_reply()
    ensures plain { (line a b : List ℕ) → IsReply (IsSpent None) line a → IsReply (IsSpent None) line b →
        AreOneBut (fault_text Fault.OutOfMemory) a b }
    ensures explained { (line a b : List ℕ) → IsExplained (IsSpent None) line a → IsExplained (IsSpent None) line b →
        AreOneBut (fault_told Fault.OutOfMemory None) a b }
{
    an_auction_has_one_value();
}

/// A reply is one line, whatever its line is and within any budget: no byte of it is a control character. So the line feed behind
/// it is the only one.
pub fn a_reply_is_one_line()
    ensures plain { (budget : Option ℕ) (line text : List ℕ) → IsReply (IsSpent budget) line text →
        is_one_line text ≡ true }
    ensures explained { (budget : Option ℕ) (line text : List ℕ) → IsExplained (IsSpent budget) line text →
        is_one_line text ≡ true }
{}

/// The lines of an output are the replies to its lines, each at its place. Without a budget two outputs for the same lines are the
/// same bytes, or a line in one of them says that memory ran out. So are the outputs of two runs over the same input, each to its
/// end, by one thread or by many.
pub fn one_output()
    ensures lines { (explain : Bool) (budget : Option ℕ) (all : List (List ℕ)) (output : List ℕ) →
        AreTold (IsReplyAs explain budget) all output →
        AreReplies (IsReplyAs explain budget) all (lines output) }
    ensures outputs { (explain : Bool) (all : List (List ℕ)) (a b : List ℕ) →
        AreTold (IsReplyAs explain None) all a → AreTold (IsReplyAs explain None) all b →
        AreSameBut explain a b }
    ensures runs { (explain : Bool) (input a b : List ℕ) →
        ToldAll (IsReplyAs explain None) (Some input) (Some []) (Some []) (Some a) →
        ToldAll (IsReplyAs explain None) (Some input) (Some []) (Some []) (Some b) →
        AreSameBut explain a b }
{
    a_reply_is_one_line();
    one_reply();
}

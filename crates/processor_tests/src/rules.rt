//! What the definitions say of posts and rows, on examples that were worked out by hand. What else becomes of spans is
//! told to the built program (tests/stories).

ghost use Rattle.processor_tests.specs.Rows.{OneSpan, Boundary, EvictedInOnePost, EvictedAfterDecision, LatePastBudget};
ghost use Rattle.processor_tests.specs.Rows.{TurnBetween, VerdictKept, Remembered};

/// Posts, and what becomes of rows.
fn posts_and_rows()
    ensures one_span { OneSpan }
    ensures boundary { Boundary }
    ensures in_one_post { EvictedInOnePost }
    ensures after_decision { EvictedAfterDecision }
    ensures late_past_budget { LatePastBudget }
    ensures turn_between { TurnBetween }
    ensures verdict_kept { VerdictKept }
    ensures remembered { Remembered }
{}

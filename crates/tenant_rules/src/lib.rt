//! One tenant's rules, whole.
//!
//! A tenant's own steps are posts of spans, turns of workers, answers of its back end, reports, drains and its
//! retirement. What it is told of each depends on its settings and its own steps alone: `specs/State` says what it is
//! after any list of own steps, with its fourteen counters, `specs/Answers` what it is told of the next one, and
//! `specs/Ready` when it next has something to do. Rows of traces wait for their decision and leave to make room for
//! others, two caches may keep the latest verdicts, a budget bounds the spans that are held, groups of spans become
//! batches, batches wait in a queue, are sent and sent again, and every span that was taken is counted in one place.
//!
//! `specs/Machine` goes from state to state, one timer at a time. The functions here have no bodies: their clauses are
//! laws that tie the two. It knows nothing of how spans and rows are stored, and nothing of other tenants.
//!
//! It stands on `span_batcher`, `send_queue`, `send_retry`, `drop_ledger`, `decision_cache`, `tail_policy` and
//! `tail_settings`, and on the crates that say what a span is. The rules are after the documents of the OpenTelemetry
//! Collector's `tail_sampling` and `batch` processors and of its `exporterhelper`, and after OTLP 1.x.
#![tactic(auto)]

ghost use Rattle.tenant_rules.specs.Fronts.{FrontsAre};
ghost use Rattle.tenant_rules.specs.InOrder.{RowsWaitInOrder, NoneIsDue};
ghost use Rattle.tenant_rules.specs.Law.{ReportsFollow, TurnsFollow, AnswersFollow, DrainsFollow};
ghost use Rattle.tenant_rules.specs.Law.{RetiresFollow, PostsFollow, StepsFollow};
ghost use Rattle.tenant_rules.specs.Sum.{FirstIsCounted, StepsCount, FrontsCount, PastsCount};
ghost use Rattle.tenant_rules.specs.Limits.{StepsStayWithin, FrontsStayWithin, PastsStayWithin, UnboundedRefusesNone, UnboundedPastsRefuseNone, DrainsRefuseNone};
ghost use Rattle.tenant_rules.specs.Least.{ReadyIsLeast, ReadyIsNext, DueTurnsAct};
ghost use Rattle.tenant_rules.specs.Others.{MomentsCount, OthersDontCount, RepliesDontChange};
ghost use Rattle.tenant_rules.specs.AfterDrain.{DrainedRests};

mod reply;

pub use reply::{Reply, StepReply};

/// As time goes on, due timers run one at a time, and a report changes nothing else: a law over the definitions.
pub fn reports_follow()
    ensures { ReportsFollow }
{}

/// A turn hands out one job at most, after the due timers: a law over the definitions.
pub fn turns_follow()
    ensures { TurnsFollow }
{}

/// An answer settles the batch in flight under its ticket, or lets it wait for another attempt, after the due timers:
/// a law over the definitions.
pub fn answers_follow()
    ensures { AnswersFollow }
{}

/// A drain decides the rows that wait and closes the last batch, after the due timers, and a second one changes the
/// clock alone: a law over the definitions.
pub fn drains_follow()
    ensures { DrainsFollow }
{}

/// As time goes on before a retirement, due timers run, and it changes nothing else; the tenant is told its last report
/// where it was drained and holds no span: a law over the definitions.
pub fn retires_follow()
    ensures { RetiresFollow }
{}

/// A post's spans are taken one after the other where the budget allows, each as its row or a cache has it, and the
/// reply says how many were left out and why, after the due timers: a law over the definitions.
pub fn posts_follow()
    ensures { PostsFollow }
{}

/// Every own step: what it makes of a tenant, and what is told of it, follow from the state before it alone, by the
/// machine. A law over the definitions.
pub fn steps_follow()
    ensures { StepsFollow }
{}

/// After every past rows wait in the order of their due moments, as `fronts_are` asks, and no timer is due by the
/// moment of the last step: a law over the definitions.
pub fn rows_wait_in_order()
    ensures order { RowsWaitInOrder }
    ensures later { NoneIsDue }
{}

/// Some first timers, as they stand after refused memory, decide the first rows that wait, and what that makes of lists
/// and batches: a law over the machine.
pub fn fronts_are()
    ensures { FrontsAre }
{}

/// Each span that was taken is counted in exactly one place, and no more spans are held than the budget allows: before
/// the first step, after each step, where some first timers have run, as after refused memory, and so after every past:
/// a law over the definitions and the machine.
pub fn counted_once()
    ensures first { FirstIsCounted }
    ensures steps { StepsCount }
    ensures fronts { FrontsCount }
    ensures pasts { PastsCount }
{}

/// No state has more rows, ids of decided traces, batches that wait and active batches than its settings allow, nor
/// more bytes in batches that wait, nor a batch that waits or is active of more than 32 MiB, whichever step came last,
/// and where some first timers have run, as after refused memory. Where bytes aren't bounded no batch is refused for
/// them, and of those that a first drain makes none is, whatever the bound was: a law over the definitions and the
/// machine.
pub fn limits_hold()
    ensures steps { StepsStayWithin }
    ensures fronts { FrontsStayWithin }
    ensures pasts { PastsStayWithin }
    ensures unbounded { UnboundedRefusesNone }
    ensures unbounded_pasts { UnboundedPastsRefuseNone }
    ensures drains { DrainsRefuseNone }
{}

/// `ready` is the least moment at which something is due, and none where nothing is: that of the next timer or of the
/// next job. A turn before it changes the clock alone, and by one from then on a timer runs or a batch is handed out: a
/// law over the definitions.
pub fn ready_is_least()
    ensures least { ReadyIsLeast }
    ensures next { ReadyIsNext }
    ensures turns { DueTurnsAct }
{}

/// What posts are told, and rows, groups and batches, depend on turns, answers, reports and retirements by their
/// moments alone, and where moments never fall not even by these: a law over the definitions.
pub fn posts_stand_alone()
    ensures moments { MomentsCount }
    ensures others_unchanged { OthersDontCount }
    ensures replies { RepliesDontChange }
{}

/// After a drain another drain, a post, a report and a retirement change the clock alone: a law over the definitions.
pub fn rests_after_drain()
    ensures { DrainedRests }
{}

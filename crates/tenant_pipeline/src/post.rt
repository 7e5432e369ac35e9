//! The spans of a body come, all of them or none.

ghost use Rattle.std.specs.Prelude.{◌≡◌, ◌<◌, ◌≤◌, ◌+◌, ◌-◌, ◌++◌, [], ℕ, List, IfOk, IfSome, OnOk, OnErr, length, replicate};
ghost use Rattle.drop_ledger.specs.Ledger.{counted, most_counted};
ghost use Rattle.span_batcher.specs.State.{next_due, IsAfter};
ghost use Rattle.tail_policy.specs.declared.note.TraceNote.{TraceNote as Note};
ghost use Rattle.tenant_stores.specs.Part.{Part, part};
ghost use Rattle.tenant_stores.specs.Invariant.{StoreInvariant};
ghost use Rattle.tenant_stores.specs.Trail.{HoldsAll};
ghost use Rattle.tenant_stores.specs.View.{text_keys};
ghost use Rattle.tenant_rules.specs.Answers.{reply_of};
ghost use Rattle.tenant_rules.specs.Intake.{verdict_of};
ghost use Rattle.tenant_rules.specs.Machine.{come, post, post_verdict};
ghost use Rattle.prepared_body.specs.Arrivals.{arrival_in, arrivals_in, origin_at, origin_view, HasSameResource, IsGrouped};
ghost use Rattle.prepared_body.specs.Prepared.{AreReady};
ghost use Rattle.tenant_pipeline.specs.Prepared.{arrivals_of};
ghost use Rattle.tenant_pipeline.specs.StateIn.{part_in, policies_of, written_state_in};
ghost use Rattle.tenant_pipeline.specs.Invariant.{PipelineInvariantAt, IsSwept};
ghost use Rattle.tenant_pipeline.specs.Posts.{all_keys, all_text_keys, held_keys, keys_at, keys_if, place_of, AreHeldAt, CameNext, HoldsMore, IsFull, IsLast, IsLike, IsKeptState, IsKeptStateAt, IsNext, IsPlaceLike, IsPosting, IsTaken, IsSameTenant, ShowsSameLike, StaysWrittenWith, verdict_after, WhereLike};
ghost use Rattle.tenant_pipeline.specs.Acts.{ActsAt, IsPosted, at};
ghost use Rattle.tenant_stores.specs.Promises.{OthersUnchanged, TextsStay, WhereHeld, ShowsSameHeld};
ghost use Rattle.tenant_stores.specs.Shows.{AreAmong};
ghost use Rattle.tenant_stores.specs.HeldTexts.{origin_in};

use crate::journal::Journal;
use crate::pipeline::Pipeline;
use crate::place::{KeptState, LastRow, TraceState};
use crate::reply::{refusal, success};
use prepared_body::{NotedSpan, Prepared, SpanOrigin};
use span_pool::{SharedKeys, TextKeys};
use std::alloc::{AllocError, Global};
use tail_policy::TraceNote;
use tenant_rules::Reply;
use tenant_stores::Stores;

/// One use of the texts of an origin. Its resource isn't looked up where keys of texts with the same one are given,
/// which are in hand. The answer is the keys of the uses.
fn hold_texts(
    stores: &mut Stores<TraceNote>,
    tenant: u32,
    origin: &SpanOrigin,
    like: Option<TextKeys>,
) -> Result<TextKeys, AllocError>
    requires like { IsLike like origin.now (part tenant stores.old) }
    ensures uses_added { IfOk result (λ keys. WhereLike like (part tenant stores.old)
        (λ n pending held. HoldsAll (text_keys keys) (part tenant stores.old)
        (part tenant stores.new))) }
    ensures store_invariant { IfOk result
        (λ keys. WhereLike like (part tenant stores.old)
        (λ n pending held. StoreInvariant n pending (text_keys keys ++ held)
        (part tenant stores.new))) }
    ensures origin { IfOk result (λ keys. WhereLike like (part tenant stores.old)
        (λ n pending held. origin_in (part tenant stores.new) keys ≡ origin_view origin.now)) }
    ensures shows { OnOk result (ShowsSameLike like (part tenant stores.old)
        (part tenant stores.new)) }
    ensures stay { OnOk result (WhereLike like (part tenant stores.old)
        (λ n pending held. TextsStay held (part tenant stores.old) (part tenant stores.new))) }
    ensures others_unchanged { OthersUnchanged tenant stores.old stores.new }
    ensures on_refusal { OnErr result (WhereLike like (part tenant stores.old)
        (λ n pending held. part tenant stores.new ≡ part tenant stores.old)) }
{
    match like {
        Some(keys) => {
            let again = stores.hold_scope(tenant, keys, origin.scope(), origin.scope_schema_url())?;
            Ok(again)
        }
        None => {
            let keys = stores.hold_all(
                tenant,
                origin.resource(),
                origin.resource_schema_url(),
                origin.scope(),
                origin.scope_schema_url(),
            )?;
            Ok(keys)
        }
    }
}

/// One use of the texts of an origin, of which those of its resource may be given by keys in hand. The answer is their
/// keys, which its spans share.
fn hold_origin(
    alloc: Global,
    stores: &mut Stores<TraceNote>,
    tenant: u32,
    origin: &SpanOrigin,
    like: Option<TextKeys>,
) -> Result<SharedKeys, AllocError>
    requires like { IsLike like origin.now (part tenant stores.old) }
    ensures uses_added { IfOk result (λ keys. WhereLike like (part tenant stores.old)
        (λ n pending held. HoldsAll (text_keys keys.keys) (part tenant stores.old)
        (part tenant stores.new))) }
    ensures store_invariant { IfOk result
        (λ keys. WhereLike like (part tenant stores.old)
        (λ n pending held. StoreInvariant n pending (text_keys keys.keys ++ held)
        (part tenant stores.new))) }
    ensures origin { IfOk result (λ keys. WhereLike like (part tenant stores.old)
        (λ n pending held. origin_in (part tenant stores.new) keys.keys ≡ origin_view origin.now)) }
    ensures shows { OnOk result (ShowsSameLike like (part tenant stores.old)
        (part tenant stores.new)) }
    ensures stay { OnOk result (WhereLike like (part tenant stores.old)
        (λ n pending held. TextsStay held (part tenant stores.old) (part tenant stores.new))) }
    ensures others_unchanged { OthersUnchanged tenant stores.old stores.new }
    ensures on_refusal { OnErr result (WhereLike like (part tenant stores.old)
        (λ n pending held. part tenant stores.new ≡ part tenant stores.old)) }
{
    let keys = hold_texts(stores, tenant, origin, like)?;
    match SharedKeys::of(alloc, tenant, keys) {
        Ok(shared) => Ok(shared),
        Err(refused) => {
            stores.release_all(tenant, keys);
            Err(refused)
        }
    }
}

/// The texts of a body's origins that are held: of each from its first span on of which anything is kept.
#[derive(Drop)]
pub struct HeldOrigins {
    /// Of each origin where its keys stand below, counted from one, or zero while its texts aren't held.
    places: Vec<usize>,
    /// The keys of those whose texts are, in the order in which they were held.
    keys: Vec<SharedKeys>,
    /// Which origin was held last, if any was.
    last: usize,
}

impl HeldOrigins {
    /// None of so many origins is held so far.
    fn none(alloc: Global, origins: usize) -> Result<HeldOrigins, AllocError>
        ensures keys { IfOk result (λ held. held.keys.items ≡ []) }
        ensures places { IfOk result (λ held. held.places.items ≡ replicate origins 0) }
    {
        let mut places = Vec::new(alloc);
        places.resize(origins, 0)?;
        Ok(HeldOrigins {
            places,
            keys: Vec::new(alloc),
            last: 0,
        })
    }

    /// Where the keys of the origin that was held last stand, if it is of the resource spans with this index of their
    /// first origin.
    fn place_like(&self, origins: &[SpanOrigin], first: u32) -> Option<usize>
        requires many { length self.now.places.items ≡ length origins.now }
        ensures { IfSome result (λ place. IsPlaceLike origins.now self.now first place) }
    {
        let last = self.last;
        if last >= origins.len() {
            return None;
        }
        let place = self.places[last];
        if place > 0 && place <= self.keys.len() && origins[last].first() == first {
            Some(place - 1)
        } else {
            None
        }
    }

    /// The keys of the origin that was held last, where this one is of the same resource spans: they have the same
    /// resource, which isn't compared with itself then.
    fn keys_like(&self, origins: &[SpanOrigin], index: usize) -> Option<TextKeys>
        requires many { length self.now.places.items ≡ length origins.now }
        requires within { index < length origins.now }
        requires grouped { IsGrouped origins.now index }
        ensures among { AreAmong (keys_if result) (held_keys self.now) }
        ensures like { (p : Part Note) → AreHeldAt origins.now self.now p → IfSome result (λ keys.
            HasSameResource (origin_in p keys) (origin_at origins.now index)) }
    {
        match self.place_like(origins, origins[index].first()) {
            Some(place) => Some(self.keys[place].keys()),
            None => None,
        }
    }

    /// Where an origin's keys stand, whose texts are held from the first time on.
    fn hold(
        &mut self,
        alloc: Global,
        stores: &mut Stores<TraceNote>,
        tenant: u32,
        origins: &[SpanOrigin],
        index: usize,
    ) -> Result<usize, AllocError>
        requires origins { AreHeldAt origins.now self.old (part tenant stores.old) }
        requires within { index < length origins.now }
        requires grouped { IsGrouped origins.now index }
        ensures place { IfOk result (λ place. place < length self.new.keys.items) }
        ensures origin { IfOk result (λ place.
            WhereHeld (held_keys self.old) (part tenant stores.old) (λ n pending held.
            origin_in (part tenant stores.new) (keys_at (all_keys self.new.keys.items) place)
            ≡ origin_at origins.now index)) }
        ensures origins { OnOk result (WhereHeld (held_keys self.old) (part tenant stores.old)
            (λ n pending held. AreHeldAt origins.now self.new (part tenant stores.new))) }
        ensures uses_added { OnOk result (WhereHeld (held_keys self.old) (part tenant stores.old)
            (λ n pending held. HoldsMore self.old self.new (part tenant stores.old)
            (part tenant stores.new))) }
        ensures store_invariant { OnOk result
            (WhereHeld (held_keys self.old) (part tenant stores.old)
            (λ n pending held. StoreInvariant n pending (held_keys self.new ++ held)
            (part tenant stores.new))) }
        ensures shows { OnOk result (ShowsSameHeld (held_keys self.old) (part tenant stores.old)
            (part tenant stores.new)) }
        ensures others_unchanged { OthersUnchanged tenant stores.old stores.new }
        ensures noted { IfOk result (λ place. place_of self.new index ≡ place + 1) }
        ensures again { 0 < place_of self.old index → (self.new ≡ self.old)
            × (part tenant stores.new ≡ part tenant stores.old) }
        ensures on_refusal { OnErr result (self.new.keys.items ≡ self.old.keys.items) }
        ensures part_on_refusal { OnErr result
            (WhereHeld (held_keys self.old) (part tenant stores.old)
            (λ n pending held. part tenant stores.new ≡ part tenant stores.old)) }
    {
        let place = self.places[index];
        if place > 0 {
            return Ok(place - 1);
        }
        let like = self.keys_like(origins, index);
        self.keys.reserve(1)?;
        let keys = hold_origin(alloc, stores, tenant, &origins[index], like)?;
        let count = self.keys.len();
        self.keys.push_reserved(keys);
        self.places[index] = count + 1;
        self.last = index;
        Ok(count)
    }
}

/// One use less of the texts of each origin. It takes no memory.
fn release_origins(stores: &mut Stores<TraceNote>, tenant: u32, all: Vec<SharedKeys>)
    ensures uses_removed { (start : Part Note)
        → HoldsAll (all_text_keys (all_keys all.items)) start (part tenant stores.old)
        → part tenant stores.new ≡ start }
    ensures store_invariant { WhereHeld (all_text_keys (all_keys all.items))
        (part tenant stores.old)
        (λ n pending held. StoreInvariant n pending held (part tenant stores.new)) }
    ensures shows { ShowsSameHeld (all_text_keys (all_keys all.items)) (part tenant stores.old)
        (part tenant stores.new) }
    ensures others_unchanged { OthersUnchanged tenant stores.old stores.new }
{
    let mut left = all;
    while let Some(keys) = left.pop() {
        stores.release_all(tenant, keys.keys());
    }
}

impl Pipeline {
    /// A body comes at a moment, in milliseconds, by which no timer is due. Where memory is refused, nothing has
    /// changed.
    pub(crate) fn take_post(
        &mut self,
        stores: &mut Stores<TraceNote>,
        moment: u64,
        prepared: &Prepared,
    ) -> Result<Reply, AllocError>
        requires holds { PipelineInvariantAt moment [] [] self.old (part_in self.old stores.old) }
        requires quiet { IsAfter (next_due self.old.batcher) moment }
        requires policies { prepared.now.policies ≡ policies_of self.old }
        ensures on_success { OnOk result (ActsAt moment (post moment (arrivals_of prepared.now))
            (written_state_in self.old stores.old) (written_state_in self.new stores.new)) }
        ensures reply { IfOk result (λ reply. reply ≡
            reply_of (post_verdict moment (arrivals_of prepared.now)
            (at moment (written_state_in self.old stores.old)))) }
        ensures holds { OnOk result (PipelineInvariantAt moment [] [] self.new
            (part_in self.new stores.new)) }
        ensures others_unchanged { OthersUnchanged self.old.tenant stores.old stores.new }
        ensures on_refusal { OnErr result (self.new ≡ self.old) }
        ensures part_on_refusal { OnErr result
            (part self.old.tenant stores.new ≡ part self.old.tenant stores.old) }
        ensures swept { IsSwept self.old → IsSwept self.new }
        ensures same { IsSameTenant self.old self.new }
    {
        if self.drained {
            return refusal(self.alloc, 503, "shutting down");
        }
        let (origins, spans) = prepared.parts();
        let invalid = prepared.invalid();
        if !self
            .ledger
            .fits((spans.len() as u64).saturating_add(invalid))
        {
            return refusal(self.alloc, 503, "counter limit");
        }
        let mut held = HeldOrigins::none(self.alloc, origins.len())?;
        let reply = self.take_spans(stores, moment, origins, &mut held, spans, invalid);
        release_origins(stores, self.tenant, held.keys);
        reply
    }

    /// The spans of a body come. Where memory is refused, nothing has changed but that texts of their origins may be
    /// held.
    fn take_spans(
        &mut self,
        stores: &mut Stores<TraceNote>,
        moment: u64,
        origins: &[SpanOrigin],
        held: &mut HeldOrigins,
        spans: &[NotedSpan],
        invalid: u64,
    ) -> Result<Reply, AllocError>
        requires holds { PipelineInvariantAt moment [] [] self.old (part_in self.old stores.old) }
        requires quiet { IsAfter (next_due self.old.batcher) moment }
        requires none { held.old.keys.items ≡ [] }
        requires origins { AreHeldAt origins.now held.old (part_in self.old stores.old) }
        requires ready { AreReady (policies_of self.old) origins.now spans.now }
        requires fits { counted self.old.ledger + (length spans.now + invalid) ≤ most_counted }
        ensures on_success { OnOk result (IsTaken (arrivals_in origins.now spans.now) invalid moment
            (written_state_in self.old stores.old) (written_state_in self.new stores.new)) }
        ensures reply { IfOk result (λ reply. reply ≡ reply_of (verdict_after
            (arrivals_in origins.now spans.now) invalid moment
            (written_state_in self.old stores.old))) }
        ensures holds { OnOk result (PipelineInvariantAt moment [] (held_keys held.new) self.new
            (part_in self.new stores.new)) }
        ensures others_unchanged { OthersUnchanged self.old.tenant stores.old stores.new }
        ensures on_refusal { OnErr result (self.new ≡ self.old) }
        ensures part_on_refusal { OnErr result (HoldsAll (held_keys held.new)
            (part self.old.tenant stores.old) (part self.old.tenant stores.new)) }
        ensures swept { OnOk result (IsSwept self.new) }
        ensures same { IsSameTenant self.old self.new }
    {
        let mut journal = Journal::of(self, spans.len())?;
        match self.admit_all(stores, &mut journal, moment, origins, held, spans, invalid) {
            Ok(reply) => {
                stores.flush(self.tenant, journal.undo.gone.as_slice());
                self.caches.commit();
                self.sweep(stores);
                Ok(reply)
            }
            Err(refused) => {
                stores.take_all_back(self.tenant, &mut journal.placed);
                self.caches.undo_hits(journal.hits);
                self.take_back(journal.undo);
                Err(refused)
            }
        }
    }

    /// The spans of a body come, one after the other, and the reply says how many were left out.
    fn admit_all(
        &mut self,
        stores: &mut Stores<TraceNote>,
        journal: &mut Journal,
        moment: u64,
        origins: &[SpanOrigin],
        held: &mut HeldOrigins,
        spans: &[NotedSpan],
        invalid: u64,
    ) -> Result<Reply, AllocError>
        requires posting { IsPosting moment journal.old (held_keys held.old) self.old
            (part_in self.old stores.old) }
        requires origins { AreHeldAt origins.now held.old (part_in self.old stores.old) }
        requires ready { AreReady (policies_of self.old) origins.now spans.now }
        requires fits { counted self.old.ledger + (length spans.now + invalid) ≤ most_counted }
        ensures on_success { OnOk result (IsTaken (arrivals_in origins.now spans.now) invalid moment
            (written_state_in self.old stores.old) (written_state_in self.new stores.new)) }
        ensures reply { IfOk result (λ reply. reply ≡ reply_of (verdict_after
            (arrivals_in origins.now spans.now) invalid moment
            (written_state_in self.old stores.old))) }
        ensures posting { OnOk result (IsPosting moment journal.new (held_keys held.new) self.new
            (part_in self.new stores.new)) }
        ensures written { StaysWrittenWith held.old held.new journal.old journal.new self.old
            self.new stores.old stores.new }
        ensures others_unchanged { OthersUnchanged self.old.tenant stores.old stores.new }
        ensures same { IsSameTenant self.old self.new }
    {
        let before = self.ledger.accepted();
        let mut last = None;
        for span in spans {
            self.admit_held(stores, journal, &mut last, moment, origins, held, span)?;
        }
        let taken = self.ledger.accepted() - before;
        let reply = self.reply(spans.len() as u64, taken, invalid)?;
        Ok(reply)
    }

    /// A span of a body comes at a moment, in milliseconds, and is taken where there is room. The texts of its origin
    /// are held from the first span on of which anything is kept.
    fn admit_held(
        &mut self,
        stores: &mut Stores<TraceNote>,
        journal: &mut Journal,
        last: &mut Option<LastRow>,
        moment: u64,
        origins: &[SpanOrigin],
        held: &mut HeldOrigins,
        span: &NotedSpan,
    ) -> Result<(), AllocError>
        requires next { IsNext moment journal.old origins.now held.old span.now self.old
            (part_in self.old stores.old) }
        requires fits { counted self.old.ledger + 1 ≤ most_counted }
        requires last { IsLast last.old self.old (part_in self.old stores.old) }
        ensures came { OnOk result (CameNext (come moment (arrival_in origins.now span.now)) moment
            journal.new origins.now held.new self.old self.new (part_in self.old stores.old)
            (part_in self.new stores.new)) }
        ensures last { OnOk result (IsLast last.new self.new (part_in self.new stores.new)) }
        ensures full { IsFull (written_state_in self.old stores.old) → (held.new ≡ held.old)
            × (part self.old.tenant stores.new ≡ part self.old.tenant stores.old) }
        ensures written { StaysWrittenWith held.old held.new journal.old journal.new self.old
            self.new stores.old stores.new }
        ensures others_unchanged { OthersUnchanged self.old.tenant stores.old stores.new }
        ensures same { IsSameTenant self.old self.new }
    {
        if !self.has_room() {
            return Ok(());
        }
        match self.known_state(stores, *last, span.trace) {
            TraceState::Unsampled => {
                *last = None;
                self.count_unsampled();
                Ok(())
            }
            TraceState::CachedUnsampled => {
                *last = None;
                self.hit_unsampled(span.trace)
            }
            TraceState::Kept(state) => {
                self.admit_with_texts(stores, journal, last, moment, origins, held, span, state)
            }
        }
    }

    /// A span of a body comes at a moment, in milliseconds, for which there is room, while its trace is in this state,
    /// in which it is kept. The texts of its origin are held from now on.
    fn admit_with_texts(
        &mut self,
        stores: &mut Stores<TraceNote>,
        journal: &mut Journal,
        last: &mut Option<LastRow>,
        moment: u64,
        origins: &[SpanOrigin],
        held: &mut HeldOrigins,
        span: &NotedSpan,
        state: KeptState,
    ) -> Result<(), AllocError>
        requires next { IsNext moment journal.old origins.now held.old span.now self.old
            (part_in self.old stores.old) }
        requires fits { counted self.old.ledger + 1 ≤ most_counted }
        requires last { IsLast last.old self.old (part_in self.old stores.old) }
        requires budget { self.old.ledger.places.undecided + self.old.ledger.places.pending
            < self.old.section.max_spans }
        requires state { IsKeptState span.now.trace state (written_state_in self.old stores.old) }
        requires number { IsKeptStateAt span.now.trace state self.old
            (part_in self.old stores.old) }
        ensures came { OnOk result (CameNext (come moment (arrival_in origins.now span.now)) moment
            journal.new origins.now held.new self.old self.new (part_in self.old stores.old)
            (part_in self.new stores.new)) }
        ensures last { OnOk result (IsLast last.new self.new (part_in self.new stores.new)) }
        ensures written { StaysWrittenWith held.old held.new journal.old journal.new self.old
            self.new stores.old stores.new }
        ensures others_unchanged { OthersUnchanged self.old.tenant stores.old stores.new }
        ensures same { IsSameTenant self.old self.new }
    {
        let place = held.hold(self.alloc, stores, self.tenant, origins, span.origin)?;
        self.admit(
            stores,
            journal,
            last,
            moment,
            &held.keys[place],
            span,
            state,
        )
    }

    /// The reply to a body with so many valid spans, of which so many were taken, and so many others. What was left out
    /// is counted. Where memory is refused, nothing has changed.
    fn reply(&mut self, valid: u64, taken: u64, invalid: u64) -> Result<Reply, AllocError>
        requires fits { counted self.old.ledger + (invalid + (valid - taken)) ≤ most_counted }
        requires within { taken ≤ valid }
        ensures reply { (before : ℕ) → IfOk result (λ reply. reply ≡
            reply_of (verdict_of (valid + invalid) valid before (before + taken))) }
        ensures on_success { OnOk result
            (IsPosted (verdict_of (valid + invalid) valid 0 taken) self.old self.new) }
        ensures on_refusal { OnErr result (self.new ≡ self.old) }
    {
        if taken == 0 && valid > 0 {
            return refusal(self.alloc, 429, "span budget exhausted");
        }
        let reply = success(self.alloc, invalid, valid - taken)?;
        self.ledger.leave_out(invalid, valid - taken);
        Ok(reply)
    }

    /// Rows that are no longer present leave the table, with their spans. It takes no memory.
    fn sweep(&mut self, stores: &mut Stores<TraceNote>)
        requires { (reached : ℕ) × (held : List ℕ)
            × PipelineInvariantAt reached [] held self.old (part_in self.old stores.old) }
        ensures state { written_state_in self.new stores.new ≡ written_state_in self.old
            stores.old }
        ensures holds { (reached : ℕ) (held : List ℕ)
            → PipelineInvariantAt reached [] held self.old (part_in self.old stores.old)
            → PipelineInvariantAt reached [] held self.new (part_in self.new stores.new) }
        ensures others_unchanged { OthersUnchanged self.old.tenant stores.old stores.new }
        ensures swept { self.old.caches.hits ≡ [] → IsSwept self.new }
        ensures same { IsSameTenant self.old self.new }
    {
        while self.rows.swept < self.rows.first {
            let number = self.rows.swept + 1;
            stores.sweep(self.tenant, number);
            self.rows.swept = number;
        }
    }
}

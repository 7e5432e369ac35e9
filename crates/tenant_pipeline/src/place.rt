//! A span of a post goes to its trace's row, leaves late, or opens a row.

ghost use Rattle.std.specs.Prelude.{◌≡◌, ◌<◌, ◌≤◌, ◌+◌, ◌++◌, ◌∷◌, [], ◌^◌, ℕ, List, Some, IfOk, OnOk, OnErr, nat_lt, false, true, length, vec_len, vec_capacity};
ghost use Rattle.drop_ledger.specs.Ledger.{LedgerInvariant, counted, most_counted, moved, taken};
ghost use Rattle.drop_ledger.specs.declared.places.Place.TheVariants.{NotSampled, Undecided};
ghost use Rattle.trace_rows.specs.Part.{keys_of};
ghost use Rattle.tenant_stores.specs.Counts.{room_made};
ghost use Rattle.tenant_stores.specs.Invariant.{StoreInvariant};
ghost use Rattle.tenant_stores.specs.View.{text_keys};
ghost use Rattle.tenant_stores.specs.Trail.{HoldsAll};
ghost use Rattle.tenant_rules.specs.Machine.{come, joins, opens, cached_or_opens, evicted, counted_in};
ghost use Rattle.tenant_rules.specs.Timers.{grouped};
ghost use Rattle.decision_cache.specs.Caches.{found, shown};
ghost use Rattle.tenant_pipeline.specs.StateIn.{counts_in, part_in, written_state_in};
ghost use Rattle.tenant_pipeline.specs.Invariant.{PipelineInvariantAt};
ghost use Rattle.tenant_pipeline.specs.Posts.{arrival_at, CameIn, CameUnsampled, IsComing, IsLast, IsKeptState, IsKeptStateAt, IsSameTenant, IsTraceState, IsTraceStateAt, StaysWritten, StaysWrittenAnywhere};
ghost use Rattle.tenant_pipeline.specs.Posts.{note_in};
ghost use Rattle.tenant_pipeline.specs.Posts.{first_left, ledger_left, state_by_cache, state_by_verdict};
ghost use Rattle.tenant_stores.specs.Promises.{OthersUnchanged, TextsStay, WhereInHand, ShowsSameInHand};
ghost use Rattle.tenant_stores.specs.HeldTexts.{origin_in};

use crate::journal::Journal;
use crate::pipeline::Pipeline;
use drop_ledger::Place;
use prepared_body::NotedSpan;
use span_pool::{SharedKeys, StoredSpan, TextKeys};
use std::alloc::{AllocError, Global};
use tail_policy::TraceNote;
use tenant_stores::{Stores, UndoEntry};
use trace_rows::halves_of;

/// Where a trace has its latest row.
#[derive(Clone, Copy, Debug, PartialEq, Eq)]
pub enum TraceState {
    /// Its row was decided, and isn't sampled.
    Unsampled,
    /// It has none that is present, and a cache knows that it isn't sampled.
    CachedUnsampled,
    /// It is elsewhere, and a span of it that comes is kept.
    Kept(KeptState),
}

/// Where a trace has its latest row whose next span is kept.
#[derive(Clone, Copy, Debug, PartialEq, Eq)]
pub enum KeptState {
    /// It has none that is present, and no cache has its verdict.
    Nowhere,
    /// It has none that is present, and a cache knows that it is sampled.
    Cached,
    /// Its row was decided, and is sampled.
    Decided,
    /// Its row waits, and has this number.
    Waits(u64),
}

/// The row that a post's last span joined or opened, which waits. Where the next one is of the same trace, neither the
/// trace nor the row's note has to be looked up.
#[derive(Clone, Copy, Debug, PartialEq, Eq)]
pub struct LastRow {
    /// The halves of its trace's id, which take less to compare than sixteen bytes.
    trace: (u64, u64),
    /// Its number.
    number: u64,
    /// Its note, with that span.
    note: TraceNote,
}

impl Pipeline {
    /// Where a trace has its latest row.
    fn trace_state(&self, stores: &Stores<TraceNote>, trace: [u8; 16]) -> TraceState
        requires invariant { (reached : ℕ) × (gone held : List ℕ)
            × PipelineInvariantAt reached gone held self.now (part_in self.now stores.now) }
        ensures state { IsTraceState trace result (written_state_in self.now stores.now) }
        ensures number { IsTraceStateAt trace result self.now (part_in self.now stores.now) }
    {
        let Some(number) = stores.latest_row(self.tenant, trace) else {
            return self.cached_state(trace);
        };
        if number <= self.rows.first {
            return self.cached_state(trace);
        }
        if number > self.rows.decided {
            return TraceState::Kept(KeptState::Waits(number));
        }
        match stores.row(self.tenant, number) {
            Some(row) => decided_state(row.sampled),
            None => unreachable!(),
        }
    }

    /// Where a trace has its latest row, which may be the last span's.
    pub(crate) fn known_state(
        &self,
        stores: &Stores<TraceNote>,
        last: Option<LastRow>,
        trace: [u8; 16],
    ) -> TraceState
        requires invariant { (reached : ℕ) × (gone held : List ℕ)
            × PipelineInvariantAt reached gone held self.now (part_in self.now stores.now) }
        requires last { IsLast last self.now (part_in self.now stores.now) }
        ensures state { IsTraceState trace result (written_state_in self.now stores.now) }
        ensures number { IsTraceStateAt trace result self.now (part_in self.now stores.now) }
    {
        if let Some(row) = last {
            if row.trace == halves_of(trace) {
                return TraceState::Kept(KeptState::Waits(row.number));
            }
        }
        self.trace_state(stores, trace)
    }

    /// The note of the row of this number, which may be the last span's.
    fn known_note(
        &self,
        stores: &Stores<TraceNote>,
        last: Option<LastRow>,
        number: u64,
    ) -> Option<TraceNote>
        requires last { IsLast last self.now (part_in self.now stores.now) }
        ensures { result ≡ note_in ((part_in self.now stores.now).rows number) }
    {
        if let Some(row) = last {
            if row.number == number {
                return Some(row.note);
            }
        }
        Some(stores.row(self.tenant, number)?.note)
    }

    /// Where a trace is that has no row that is present.
    fn cached_state(&self, trace: [u8; 16]) -> TraceState
        ensures { result ≡ state_by_cache (found trace (shown self.now.caches)) }
    {
        match self.caches.find(trace) {
            Some(true) => TraceState::Kept(KeptState::Cached),
            Some(false) => TraceState::CachedUnsampled,
            None => TraceState::Kept(KeptState::Nowhere),
        }
    }

    /// Whether there is room for one more span.
    pub(crate) fn has_room(&self) -> bool
        requires ledger_invariant { LedgerInvariant self.now.ledger }
        ensures { result ≡ nat_lt (self.now.ledger.places.undecided +
            self.now.ledger.places.pending) self.now.section.max_spans }
    {
        let places = self.ledger.places();
        places.undecided + places.pending < self.section.max_spans as u64
    }

    /// A span of a post comes at a moment, in milliseconds, for which there is room, while its trace is in this state,
    /// in which it is kept. The texts of its origin are held at these keys, which it shares. What it changes is written
    /// down, also where memory is refused.
    pub(crate) fn admit(
        &mut self,
        stores: &mut Stores<TraceNote>,
        journal: &mut Journal,
        last: &mut Option<LastRow>,
        moment: u64,
        keys: &SharedKeys,
        span: &NotedSpan,
        state: KeptState,
    ) -> Result<(), AllocError>
        requires coming { (held : List ℕ)
            × IsComing moment journal.old keys.now.keys span.now held self.old
            (part_in self.old stores.old) }
        requires fits { counted self.old.ledger + 1 ≤ most_counted }
        requires last { IsLast last.old self.old (part_in self.old stores.old) }
        requires budget { self.old.ledger.places.undecided + self.old.ledger.places.pending
            < self.old.section.max_spans }
        requires state { IsKeptState span.now.trace state (written_state_in self.old stores.old) }
        requires number { IsKeptStateAt span.now.trace state self.old
            (part_in self.old stores.old) }
        ensures came { OnOk result (CameIn
            (come moment (arrival_at (part_in self.old stores.old) keys.now.keys span.now.text))
            moment journal.old journal.new self.old self.new stores.old stores.new) }
        ensures last { OnOk result (IsLast last.new self.new (part_in self.new stores.new)) }

        // It can be taken back, on success and where memory is refused.
        ensures written { StaysWritten journal.old journal.new self.old self.new stores.old
            stores.new }
        ensures others_unchanged { OthersUnchanged self.old.tenant stores.old stores.new }
        ensures same { IsSameTenant self.old self.new }
    {
        journal.placed.reserve(1)?;
        match state {
            KeptState::Waits(number) => {
                self.join(stores, journal, last, number, moment, keys, span)
            }
            KeptState::Decided => {
                *last = None;
                self.admit_late(stores, journal, moment, keys, span)
            }
            KeptState::Cached => {
                *last = None;
                self.hit_sampled(stores, journal, moment, keys, span)
            }
            KeptState::Nowhere => self.open(stores, journal, last, moment, keys, span),
        }
    }

    /// A span comes whose trace has no row that is present, while a cache knows that it was sampled: it waits for a
    /// batch alone.
    fn hit_sampled(
        &mut self,
        stores: &mut Stores<TraceNote>,
        journal: &mut Journal,
        moment: u64,
        keys: &SharedKeys,
        span: &NotedSpan,
    ) -> Result<(), AllocError>
        requires coming { (held : List ℕ)
            × IsComing moment journal.old keys.now.keys span.now held self.old
            (part_in self.old stores.old) }
        requires fits { counted self.old.ledger + 1 ≤ most_counted }
        requires budget { self.old.ledger.places.undecided + self.old.ledger.places.pending
            < self.old.section.max_spans }
        requires room { vec_len journal.old.placed < vec_capacity journal.old.placed }
        requires known { found span.now.trace (shown self.old.caches) ≡ Some true }
        ensures came { OnOk result (CameIn
            (λ s. cached_or_opens moment
            (arrival_at (part_in self.old stores.old) keys.now.keys span.now.text) (Some true)
            (counted_in s)) moment journal.old journal.new self.old self.new stores.old
            stores.new) }
        ensures written { StaysWritten journal.old journal.new self.old self.new stores.old
            stores.new }
        ensures others_unchanged { OthersUnchanged self.old.tenant stores.old stores.new }
        ensures same { IsSameTenant self.old self.new }
    {
        self.admit_late(stores, journal, moment, keys, span)?;
        self.caches.push_hit(span.trace, true)
    }

    /// A span comes whose trace has no row that is present, while a cache knows that it wasn't sampled. Nothing of it
    /// is kept. Where memory is refused, nothing has changed.
    pub(crate) fn hit_unsampled(&mut self, trace: [u8; 16]) -> Result<(), AllocError>
        requires known { found trace (shown self.old.caches) ≡ Some false }
        requires fits { counted self.old.ledger + 1 ≤ most_counted }
        requires budget { self.old.ledger.places.undecided + self.old.ledger.places.pending
            < self.old.section.max_spans }
        ensures came { OnOk result (CameUnsampled trace self.old self.new) }
        ensures written { StaysWrittenAnywhere self.old self.new }
        ensures same { IsSameTenant self.old self.new }
        ensures on_refusal { OnErr result (self.new ≡ self.old) }
    {
        self.caches.push_hit(trace, false)?;
        self.count_unsampled();
        Ok(())
    }

    /// A span is counted whose trace isn't sampled. Nothing of it is kept.
    pub(crate) fn count_unsampled(&mut self)
        requires fits { counted self.old.ledger + 1 ≤ most_counted }
        ensures { self.new ≡ record self.old
            { ledger = moved Undecided NotSampled 1 (taken 1 self.old.ledger) } }
    {
        self.ledger.take(1);
        self.ledger
            .move_spans(Place::Undecided, Place::NotSampled, 1);
    }

    /// A span joins the row of this number, which waits.
    fn join(
        &mut self,
        stores: &mut Stores<TraceNote>,
        journal: &mut Journal,
        last: &mut Option<LastRow>,
        number: u64,
        moment: u64,
        keys: &SharedKeys,
        span: &NotedSpan,
    ) -> Result<(), AllocError>
        requires coming { (held : List ℕ)
            × IsComing moment journal.old keys.now.keys span.now held self.old
            (part_in self.old stores.old) }
        requires fits { counted self.old.ledger + 1 ≤ most_counted }
        requires latest_row { (part_in self.old stores.old).latest_rows span.now.trace ≡ Some
            number }
        requires waits { self.old.rows.decided < number }
        requires last { IsLast last.old self.old (part_in self.old stores.old) }
        requires budget { self.old.ledger.places.undecided + self.old.ledger.places.pending
            < self.old.section.max_spans }
        requires room { vec_len journal.old.placed < vec_capacity journal.old.placed }
        ensures came { OnOk result (CameIn
            (λ s. joins (arrival_at (part_in self.old stores.old) keys.now.keys span.now.text)
            (counted_in s)) moment journal.old journal.new self.old self.new stores.old
            stores.new) }
        ensures last { OnOk result (IsLast last.new self.new (part_in self.new stores.new)) }
        ensures written { StaysWritten journal.old journal.new self.old self.new stores.old
            stores.new }
        ensures others_unchanged { OthersUnchanged self.old.tenant stores.old stores.new }
        ensures same { IsSameTenant self.old self.new }
    {
        let Some(former) = self.known_note(stores, *last, number) else {
            unreachable!()
        };
        let note = former.joined(span.note);
        let keyed = self.keyed(stores, keys, span)?;
        let held = keyed.keys();
        match stores.join(number, keyed, note) {
            Ok(joining) => {
                self.ledger.take(1);
                journal
                    .placed
                    .push_reserved(UndoEntry::Joined(number, joining.former));
                let trace = halves_of(span.trace);
                *last = Some(LastRow {
                    trace,
                    number,
                    note,
                });
                Ok(())
            }
            Err(refused) => {
                stores.release_all(self.tenant, held);
                Err(refused)
            }
        }
    }

    /// A span comes after its row was decided and sampled: it waits for a batch alone.
    fn admit_late(
        &mut self,
        stores: &mut Stores<TraceNote>,
        journal: &mut Journal,
        moment: u64,
        keys: &SharedKeys,
        span: &NotedSpan,
    ) -> Result<(), AllocError>
        requires coming { (held : List ℕ)
            × IsComing moment journal.old keys.now.keys span.now held self.old
            (part_in self.old stores.old) }
        requires fits { counted self.old.ledger + 1 ≤ most_counted }
        requires budget { self.old.ledger.places.undecided + self.old.ledger.places.pending
            < self.old.section.max_spans }
        requires room { vec_len journal.old.placed < vec_capacity journal.old.placed }
        ensures caches { self.new.caches ≡ self.old.caches }
        ensures came { OnOk result (CameIn
            (λ s. grouped Undecided moment
            (arrival_at (part_in self.old stores.old) keys.now.keys span.now.text ∷ [])
            (counted_in s)) moment journal.old journal.new self.old self.new stores.old
            stores.new) }
        ensures written { StaysWritten journal.old journal.new self.old self.new stores.old
            stores.new }
        ensures others_unchanged { OthersUnchanged self.old.tenant stores.old stores.new }
        ensures same { IsSameTenant self.old self.new }
    {
        let keyed = self.keyed(stores, keys, span)?;
        let held = keyed.keys();
        match stores.keep_late(keyed) {
            Ok(key) => {
                journal.placed.push_reserved(UndoEntry::Late(key));
                self.ledger.take(1);
                let keys = [key];
                self.group(stores, &mut journal.undo, moment, keys.as_slice())
            }
            Err(refused) => {
                stores.release_all(self.tenant, held);
                Err(refused)
            }
        }
    }

    /// A span opens a row, for which room is made.
    fn open(
        &mut self,
        stores: &mut Stores<TraceNote>,
        journal: &mut Journal,
        last: &mut Option<LastRow>,
        moment: u64,
        keys: &SharedKeys,
        span: &NotedSpan,
    ) -> Result<(), AllocError>
        requires coming { (held : List ℕ)
            × IsComing moment journal.old keys.now.keys span.now held self.old
            (part_in self.old stores.old) }
        requires fits { counted self.old.ledger + 1 ≤ most_counted }
        requires budget { self.old.ledger.places.undecided + self.old.ledger.places.pending
            < self.old.section.max_spans }
        requires room { vec_len journal.old.placed < vec_capacity journal.old.placed }
        ensures came { OnOk result (CameIn
            (λ s. opens moment (arrival_at (part_in self.old stores.old) keys.now.keys
            span.now.text) (evicted (counted_in s))) moment journal.old journal.new self.old
            self.new stores.old stores.new) }
        ensures last { OnOk result (IsLast last.new self.new (part_in self.new stores.new)) }
        ensures written { StaysWritten journal.old journal.new self.old self.new stores.old
            stores.new }
        ensures others_unchanged { OthersUnchanged self.old.tenant stores.old stores.new }
        ensures same { IsSameTenant self.old self.new }
    {
        let keyed = self.keyed(stores, keys, span)?;
        let held = keyed.keys();
        self.make_room(stores);
        let number = self.rows.opened + 1;
        let due = moment + self.section.tail_sampling.decision_wait;
        match stores.open(number, due, span.trace, keyed, span.note) {
            Ok(opening) => {
                self.rows.opened = number;
                self.ledger.take(1);
                journal
                    .placed
                    .push_reserved(UndoEntry::Opened(number, opening.key, opening.earlier));
                let trace = halves_of(span.trace);
                *last = Some(LastRow {
                    trace,
                    number,
                    note: span.note,
                });
                Ok(())
            }
            Err(refused) => {
                stores.release_all(self.tenant, held);
                Err(refused)
            }
        }
    }

    /// The first row leaves where as many are present as may be: only numbers change, and its spans are no longer
    /// undecided.
    fn make_room(&mut self, stores: &Stores<TraceNote>)
        requires rows_bounded { self.old.rows.opened < 2 ^ 63 }
        requires most { 0 < self.old.section.tail_sampling.num_traces }
        requires undecided { self.old.rows.decided < first_left self.old
            → length (keys_of ((part_in self.old stores.now).rows (first_left self.old))) ≤
            self.old.ledger.places.undecided }
        ensures rows { counts_in self.new ≡
            room_made self.old.section.tail_sampling.num_traces (counts_in self.old) }
        ensures ledger { self.new.ledger ≡ ledger_left self.old (part_in self.old stores.now) }
        ensures same { self.new ≡ record self.old
            { rows = self.new.rows; ledger = self.new.ledger } }
    {
        let most = self.section.tail_sampling.num_traces as u64;
        let first = (self.rows.opened + 1).saturating_sub(most);
        if self.rows.decided < first {
            if let Some(row) = stores.row(self.tenant, first) {
                let spans = row.keys.as_slice().len() as u64;
                self.ledger
                    .move_spans(Place::Undecided, Place::TooEarly, spans);
            }
            self.rows.decided = first;
        }
        self.rows.first = first;
    }

    /// A span as it is kept, with one use more of each of its origin's texts.
    fn keyed(
        &self,
        stores: &mut Stores<TraceNote>,
        keys: &SharedKeys,
        span: &NotedSpan,
    ) -> Result<StoredSpan, AllocError>
        ensures owner { IfOk result (λ keyed. keyed.owner ≡ self.now.tenant) }
        ensures text { IfOk result (λ keyed. keyed.text ≡ span.now.text) }
        ensures uses_added { IfOk result
            (λ keyed. WhereInHand keys.now.keys (part_in self.now stores.old)
            (λ n pending held. HoldsAll (text_keys keyed.keys) (part_in self.now stores.old)
            (part_in self.now stores.new))) }
        ensures store_invariant { IfOk result
            (λ keyed. WhereInHand keys.now.keys (part_in self.now stores.old)
            (λ n pending held. StoreInvariant n pending (text_keys keyed.keys ++ held)
            (part_in self.now stores.new))) }
        ensures texts { IfOk result (λ keyed. WhereInHand keys.now.keys
            (part_in self.now stores.old)
            (λ n pending held. origin_in (part_in self.now stores.new) keyed.keys ≡ origin_in
            (part_in self.now stores.old) keys.now.keys)) }
        ensures shows { OnOk result (ShowsSameInHand keys.now.keys (part_in self.now stores.old)
            (part_in self.now stores.new)) }
        ensures stay { OnOk result (WhereInHand keys.now.keys (part_in self.now stores.old)
            (λ n pending held. TextsStay held (part_in self.now stores.old)
            (part_in self.now stores.new))) }
        ensures others_unchanged { OthersUnchanged self.now.tenant stores.old stores.new }
        ensures on_refusal { OnErr result
            (WhereInHand keys.now.keys (part_in self.now stores.old)
            (λ n pending held. part_in self.now stores.new ≡ part_in self.now stores.old)) }
    {
        let text = span.text.shared()?;
        let again = stores.hold_again(self.tenant, keys.keys())?;
        match shared_where_same(self.alloc, keys, self.tenant, again) {
            Ok(keys) => Ok(StoredSpan::of(keys, text)),
            Err(refused) => {
                stores.release_all(self.tenant, again);
                Err(refused)
            }
        }
    }
}

/// Where a trace is whose row was decided.
fn decided_state(sampled: bool) -> TraceState
    ensures { result ≡ state_by_verdict sampled }
{
    if sampled {
        TraceState::Kept(KeptState::Decided)
    } else {
        TraceState::Unsampled
    }
}

/// A tenant's keys, shared with these if they are the same, as they are unless a text has too many uses for one more.
fn shared_where_same(
    alloc: Global,
    like: &SharedKeys,
    tenant: u32,
    keys: TextKeys,
) -> Result<SharedKeys, AllocError>
    ensures { IfOk result (λ shared. shared ≡ record { owner = tenant; keys = keys }) }
{
    if like.owner() == tenant && like.keys() == keys {
        return like.shared();
    }
    SharedKeys::of(alloc, tenant, keys)
}

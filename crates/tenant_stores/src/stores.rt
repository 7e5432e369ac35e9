//! The stores that all tenants of a shard share.

ghost use Rattle.std.specs.Prelude.{◌≡◌, ◌≢◌, ◌<◌, ◌≤◌, ◌+◌, ◌++◌, ◌∷◌, [], ℕ, length};
ghost use Rattle.std.specs.Prelude.{None, Some, IfOk, OnOk, OnErr, option_copied, true};
ghost use Rattle.text_pool.specs.Part as text_part;
ghost use Rattle.trace_rows.specs.Part.{keys_of, note_of, rows_part, latest_rows_part, with_at, with_latest_row, IsSame};
ghost use Rattle.tenant_stores.specs.Part.{Part, part};
ghost use Rattle.tenant_stores.specs.Counts.{Counts, no_rows, one_opened, one_decided, one_swept};
ghost use Rattle.tenant_stores.specs.View.{text_keys};
ghost use Rattle.tenant_stores.specs.Invariant.{StoreInvariant};
ghost use Rattle.tenant_stores.specs.Changes.{new_row, SameButTexts, Joins, Opens, Settles};
ghost use Rattle.tenant_stores.specs.Changes.{ReleasesAll, Waits, Leaves, Drops, Sweeps};
ghost use Rattle.tenant_stores.specs.Shows.{LatestRowShows};
ghost use Rattle.tenant_stores.specs.Trail.{HoldsAll, IsUndone, Trail};
ghost use Rattle.tenant_stores.specs.Promises.{OthersUnchanged, TextsStay, WhereSound, WhereInHand, WhereHeld};
ghost use Rattle.tenant_stores.specs.Promises.{WhereWaits, WhereOpens, WhereDecides, WhereSweeps, WhereLeave};
ghost use Rattle.tenant_stores.specs.Promises.{ShowsSame, ShowsSameInHand, ShowsSameHeld, ShowsJoined, ShowsOpened};
ghost use Rattle.tenant_stores.specs.Promises.{ShowsLate, ShowsKept, ShowsDropped, ShowsLeft, ShowsSwept};
ghost use Rattle.tenant_stores.specs.HeldTexts.{origin_copied, origin_in, with_scope};

use crate::texts::{hold_four, release_all, wanted_again, wanted_new};
use crate::undo::{Joining, Opening, UndoEntry};
use span_pool::{Owned, SpanPool, StoredSpan, TextKeys};
use std::alloc::{AllocError, Global};
use text_pool::{SharedBytes, TextPool};
use trace_rows::{Keys, Row, TraceRows};

/// The spans, texts and rows of all tenants of a shard. `N` is what is noted of a row's spans.
#[derive(Drop)]
pub struct Stores<N> {
    alloc: Global,
    spans: SpanPool<StoredSpan>,
    texts: TextPool,
    rows: TraceRows<N>,
}

impl<N: Drop> Stores<N> {
    /// Nothing of any tenant, which takes no memory.
    pub fn new(alloc: Global) -> Self
        ensures { (tenant : ℕ) → StoreInvariant no_rows [] [] (part tenant result) }
    {
        Stores {
            alloc,
            spans: SpanPool::new(alloc),
            texts: TextPool::new(alloc),
            rows: TraceRows::new(alloc),
        }
    }

    /// The number of the latest row of the tenant's trace, where the table has one.
    pub fn latest_row(&self, tenant: u32, trace: [u8; 16]) -> Option<u64>
        ensures value { result ≡ (part tenant self.now).latest_rows trace }
        ensures shows { WhereSound (part tenant self.now)
            (λ n pending held. LatestRowShows n trace (part tenant self.now)) }
    {
        self.rows.latest_row(tenant, trace)
    }

    /// The tenant's row of this number, where the table has it.
    pub fn row(&self, tenant: u32, number: u64) -> Option<&Row<N>>
        ensures { option_copied result ≡ (part tenant self.now).rows number }
    {
        self.rows.row(tenant, number)
    }

    /// The tenant's span at a key.
    pub fn span(&self, tenant: u32, key: u32) -> Option<&StoredSpan>
        ensures { option_copied result ≡ (part tenant self.now).spans key }
    {
        self.spans.owned(tenant, key)
    }

    /// The texts of all tenants.
    pub fn texts(&self) -> &TextPool
        ensures { (tenant : ℕ) → text_part.part tenant result.now ≡ (part tenant self.now).texts }
    {
        &self.texts
    }

    /// One use more of each of an origin's four texts, for a span to come, or of none. The answer is their keys.
    pub fn hold_all(
        &mut self,
        tenant: u32,
        resource: Option<&SharedBytes>,
        resource_schema_url: Option<&SharedBytes>,
        scope: Option<&SharedBytes>,
        scope_schema_url: Option<&SharedBytes>,
    ) -> Result<TextKeys, AllocError>
        ensures uses_added { IfOk result
            (λ keys. WhereSound (part tenant self.old)
            (λ n pending held. HoldsAll (text_keys keys) (part tenant self.old)
            (part tenant self.new))) }
        ensures texts { IfOk result (λ keys. WhereSound (part tenant self.old)
            (λ n pending held. origin_in (part tenant self.new) keys ≡ origin_copied resource.entry
            resource_schema_url.entry scope.entry scope_schema_url.entry)) }
        ensures store_invariant { IfOk result
            (λ keys. WhereSound (part tenant self.old)
            (λ n pending held. StoreInvariant n pending (text_keys keys ++ held)
            (part tenant self.new))) }
        ensures shows { OnOk result (ShowsSame (part tenant self.old) (part tenant self.new)) }
        ensures stay { OnOk result (WhereSound (part tenant self.old)
            (λ n pending held. TextsStay held (part tenant self.old) (part tenant self.new))) }
        ensures rest { SameButTexts (part tenant self.old) (part tenant self.new) }

        // Other tenants' parts stay as they were, and where memory is refused this tenant's too.
        ensures others_unchanged { OthersUnchanged tenant self.old self.new }
        ensures on_refusal { OnErr result
            (WhereSound (part tenant self.old)
            (λ n pending held. part tenant self.new ≡ part tenant self.old)) }
    {
        let resource = wanted_new(resource);
        let resource_schema_url = wanted_new(resource_schema_url);
        let scope = wanted_new(scope);
        let scope_schema_url = wanted_new(scope_schema_url);
        let keys = hold_four(
            &mut self.texts,
            tenant,
            resource,
            resource_schema_url,
            scope,
            scope_schema_url,
        )?;
        Ok(keys)
    }

    /// One use more of each of these keys' texts, which are in hand, for a span to come, or of none. The answer is the
    /// keys of these uses.
    pub fn hold_again(&mut self, tenant: u32, keys: TextKeys) -> Result<TextKeys, AllocError>
        ensures uses_added { IfOk result
            (λ again. WhereInHand keys (part tenant self.old)
            (λ n pending held. HoldsAll (text_keys again) (part tenant self.old)
            (part tenant self.new))) }
        ensures texts { IfOk result (λ again. WhereInHand keys (part tenant self.old)
            (λ n pending held. origin_in (part tenant self.new) again ≡ origin_in
            (part tenant self.old) keys)) }
        ensures store_invariant { IfOk result
            (λ again. WhereInHand keys (part tenant self.old)
            (λ n pending held. StoreInvariant n pending (text_keys again ++ held)
            (part tenant self.new))) }
        ensures shows { OnOk result (ShowsSameInHand keys (part tenant self.old)
            (part tenant self.new)) }
        ensures stay { OnOk result (WhereInHand keys (part tenant self.old)
            (λ n pending held. TextsStay held (part tenant self.old) (part tenant self.new))) }
        ensures rest { SameButTexts (part tenant self.old) (part tenant self.new) }

        // Other tenants' parts stay as they were, and where memory is refused this tenant's too.
        ensures others_unchanged { OthersUnchanged tenant self.old self.new }
        ensures on_refusal { OnErr result
            (WhereInHand keys (part tenant self.old)
            (λ n pending held. part tenant self.new ≡ part tenant self.old)) }
    {
        let resource = wanted_again(keys.resource);
        let resource_schema_url = wanted_again(keys.resource_schema_url);
        let scope = wanted_again(keys.scope);
        let scope_schema_url = wanted_again(keys.scope_schema_url);
        let again = hold_four(
            &mut self.texts,
            tenant,
            resource,
            resource_schema_url,
            scope,
            scope_schema_url,
        )?;
        Ok(again)
    }

    /// One use more of the resource at these keys, which are in hand, and of the URL of its schema, and of a scope's
    /// texts, for a span to come, or of none. The answer is the keys of these uses.
    pub fn hold_scope(
        &mut self,
        tenant: u32,
        keys: TextKeys,
        scope: Option<&SharedBytes>,
        scope_schema_url: Option<&SharedBytes>,
    ) -> Result<TextKeys, AllocError>
        ensures uses_added { IfOk result
            (λ again. WhereInHand keys (part tenant self.old)
            (λ n pending held. HoldsAll (text_keys again) (part tenant self.old)
            (part tenant self.new))) }
        ensures texts { IfOk result (λ again. WhereInHand keys (part tenant self.old)
            (λ n pending held. origin_in (part tenant self.new) again ≡ with_scope
            (origin_in (part tenant self.old) keys) scope.entry scope_schema_url.entry)) }
        ensures store_invariant { IfOk result
            (λ again. WhereInHand keys (part tenant self.old)
            (λ n pending held. StoreInvariant n pending (text_keys again ++ held)
            (part tenant self.new))) }
        ensures shows { OnOk result (ShowsSameInHand keys (part tenant self.old)
            (part tenant self.new)) }
        ensures stay { OnOk result (WhereInHand keys (part tenant self.old)
            (λ n pending held. TextsStay held (part tenant self.old) (part tenant self.new))) }
        ensures rest { SameButTexts (part tenant self.old) (part tenant self.new) }

        // Other tenants' parts stay as they were, and where memory is refused this tenant's too.
        ensures others_unchanged { OthersUnchanged tenant self.old self.new }
        ensures on_refusal { OnErr result
            (WhereInHand keys (part tenant self.old)
            (λ n pending held. part tenant self.new ≡ part tenant self.old)) }
    {
        let resource = wanted_again(keys.resource);
        let resource_schema_url = wanted_again(keys.resource_schema_url);
        let scope = wanted_new(scope);
        let scope_schema_url = wanted_new(scope_schema_url);
        let again = hold_four(
            &mut self.texts,
            tenant,
            resource,
            resource_schema_url,
            scope,
            scope_schema_url,
        )?;
        Ok(again)
    }

    /// One use less of each of these keys' texts, for which no span came. It takes no memory.
    pub fn release_all(&mut self, tenant: u32, keys: TextKeys)
        ensures uses_removed { ReleasesAll (text_keys keys) (part tenant self.old)
            (part tenant self.new) }
        ensures store_invariant { WhereHeld (text_keys keys) (part tenant self.old)
            (λ n pending held. StoreInvariant n pending held (part tenant self.new)) }
        ensures shows { ShowsSameHeld (text_keys keys) (part tenant self.old)
            (part tenant self.new) }
        ensures stay { WhereHeld (text_keys keys) (part tenant self.old)
            (λ n pending held. TextsStay held (part tenant self.old) (part tenant self.new)) }
        ensures others_unchanged { OthersUnchanged tenant self.old self.new }
    {
        release_all(&mut self.texts, tenant, keys);
    }

    /// The span is stored, and its key joins the row of this number, which has this note from now on. The texts that
    /// the span names were held for it. Where memory is refused, span and note are dropped.
    pub fn join(&mut self, number: u64, span: StoredSpan, note: N) -> Result<Joining<N>, AllocError>
        ensures own_part { IfOk result (λ joining.
            Joins number joining.key span note (part span.owner self.old)
            (part span.owner self.new)) }
        ensures former { IfOk result (λ joining.
            joining.former ≡ note_of note ((part span.owner self.old).rows number)) }
        ensures store_invariant { OnOk result
            (WhereWaits number (text_keys span.keys) (part span.owner self.old)
            (λ n pending held. StoreInvariant n pending held (part span.owner self.new))) }
        ensures shows { OnOk result (ShowsJoined number span note (part span.owner self.old)
            (part span.owner self.new)) }

        // Other tenants' parts stay as they were, and where memory is refused this tenant's too.
        ensures others_unchanged { OthersUnchanged span.owner self.old self.new }
        ensures on_refusal { OnErr result (part span.owner self.new ≡ part span.owner self.old) }
    {
        let tenant = span.owner();
        let key = self.spans.put(span)?;
        match self.rows.join(tenant, number, key, note) {
            Ok(former) => Ok(Joining { key, former }),
            Err(refused) => {
                self.spans.undo_put(tenant, key);
                Err(refused)
            }
        }
    }

    /// The span is stored, and a row of its trace opens with it, under a number that has none. The texts that the span
    /// names were held for it. `due` is the moment of the row's decision, in milliseconds.
    pub fn open(
        &mut self,
        number: u64,
        due: u64,
        trace: [u8; 16],
        span: StoredSpan,
        note: N,
    ) -> Result<Opening, AllocError>
        requires { (part span.owner self.old).rows number ≡ None }
        ensures own_part { IfOk result (λ opening.
            Opens number opening.key due trace span note (part span.owner self.old)
            (part span.owner self.new)) }
        ensures earlier { IfOk result (λ opening. opening.earlier
            ≡ (part span.owner self.old).latest_rows trace) }
        ensures store_invariant { OnOk result
            (WhereOpens number (text_keys span.keys) (part span.owner self.old)
            (λ n pending held. StoreInvariant (one_opened n) pending held
            (part span.owner self.new))) }
        ensures shows { OnOk result (ShowsOpened number due trace span note
            (part span.owner self.old) (part span.owner self.new)) }

        // Other tenants' parts stay as they were, and where memory is refused this tenant's too.
        ensures others_unchanged { OthersUnchanged span.owner self.old self.new }
        ensures on_refusal { OnErr result (part span.owner self.new ≡ part span.owner self.old) }
    {
        let tenant = span.owner();
        let key = self.spans.put(span)?;
        match open_row(
            self.alloc,
            &mut self.rows,
            tenant,
            number,
            due,
            trace,
            key,
            note,
        ) {
            Ok(earlier) => Ok(Opening { key, earlier }),
            Err(refused) => {
                self.spans.undo_put(tenant, key);
                Err(refused)
            }
        }
    }

    /// The span is stored, and waits for a batch: its row was decided and sampled before it came. The texts that the
    /// span names were held for it. The answer is its key.
    pub fn keep_late(&mut self, span: StoredSpan) -> Result<u32, AllocError>
        ensures own_part { IfOk result (λ key. Waits key span (part span.owner self.old)
            (part span.owner self.new)) }
        ensures store_invariant { IfOk result
            (λ key. WhereHeld (text_keys span.keys) (part span.owner self.old)
            (λ n pending held. StoreInvariant n (pending ++ key ∷ []) held
            (part span.owner self.new))) }
        ensures shows { IfOk result (λ key. ShowsLate key span (part span.owner self.old)
            (part span.owner self.new)) }

        // Other tenants' parts stay as they were, and where memory is refused this tenant's too.
        ensures others_unchanged { OthersUnchanged span.owner self.old self.new }
        ensures on_refusal { OnErr result (part span.owner self.new ≡ part span.owner self.old) }
    {
        let late = self.spans.put(span)?;
        Ok(late)
    }

    /// The row is decided and sampled. The answer is the keys of its spans, which wait for a batch from now on. It
    /// takes no memory.
    pub fn keep_row(&mut self, tenant: u32, number: u64) -> Keys
        ensures keys { result ≡ keys_of ((part tenant self.old).rows number) }
        ensures own_part { Settles number true (part tenant self.old) (part tenant self.new) }
        ensures store_invariant { WhereDecides number (part tenant self.old)
            (λ n pending held. StoreInvariant (one_decided n) (pending ++ result) held
            (part tenant self.new)) }
        ensures shows { ShowsKept number result (part tenant self.old) (part tenant self.new) }
        ensures others_unchanged { OthersUnchanged tenant self.old self.new }
    {
        self.rows.settle(self.alloc, tenant, number, true)
    }

    /// The row is decided and not sampled: its spans leave. The answer says how many. It takes no memory.
    pub fn drop_row(&mut self, tenant: u32, number: u64) -> usize
        ensures size { result ≡ length (keys_of ((part tenant self.old).rows number)) }
        ensures own_part { Drops number (part tenant self.old) (part tenant self.new) }
        ensures store_invariant { WhereDecides number (part tenant self.old)
            (λ n pending held. StoreInvariant (one_decided n) pending held (part tenant self.new)) }
        ensures shows { ShowsDropped number (part tenant self.old) (part tenant self.new) }
        ensures stay { WhereDecides number (part tenant self.old)
            (λ n pending held. TextsStay held (part tenant self.old) (part tenant self.new)) }
        ensures others_unchanged { OthersUnchanged tenant self.old self.new }
    {
        let keys = self.rows.settle(self.alloc, tenant, number, false);
        self.flush(tenant, keys.as_slice());
        keys.as_slice().len()
    }

    /// The tenant's spans at these keys leave, each with its uses of texts. It takes no memory.
    pub fn flush(&mut self, tenant: u32, keys: &[u32])
        ensures own_part { Leaves keys.now (part tenant self.old) (part tenant self.new) }
        ensures store_invariant { WhereLeave keys.now (part tenant self.old)
            (λ n left held. StoreInvariant n left held (part tenant self.new)) }
        ensures shows { ShowsLeft keys.now (part tenant self.old) (part tenant self.new) }
        ensures stay { WhereLeave keys.now (part tenant self.old)
            (λ n left held. TextsStay held (part tenant self.old) (part tenant self.new)) }
        ensures others_unchanged { OthersUnchanged tenant self.old self.new }
    {
        for key in keys {
            self.leave(tenant, *key);
        }
    }

    /// The row, which is no longer present, leaves the table, and its spans with it. A later row of the trace keeps the
    /// latest row. The answer says how many spans left. It takes no memory.
    pub fn sweep(&mut self, tenant: u32, number: u64) -> usize
        ensures size { result ≡ length (keys_of ((part tenant self.old).rows number)) }
        ensures own_part { Sweeps number (part tenant self.old) (part tenant self.new) }
        ensures store_invariant { WhereSweeps number (part tenant self.old)
            (λ n pending held. StoreInvariant (one_swept n) pending held (part tenant self.new)) }
        ensures shows { ShowsSwept number (part tenant self.old) (part tenant self.new) }
        ensures stay { WhereSweeps number (part tenant self.old)
            (λ n pending held. TextsStay held (part tenant self.old) (part tenant self.new)) }
        ensures others_unchanged { OthersUnchanged tenant self.old self.new }
    {
        let keys = self.rows.sweep(self.alloc, tenant, number);
        self.flush(tenant, keys.as_slice());
        keys.as_slice().len()
    }

    /// All rows of a tenant leave the table, with their spans: those after the first so many, up to so many. Where none
    /// of its spans waits for a batch, nothing of the tenant is left. It takes no memory, and a step for each row.
    pub fn vanish(&mut self, tenant: u32, swept: u64, opened: u64)
        ensures gone { (n : Counts) → swept ≡ n.swept → opened ≡ n.opened
            → StoreInvariant n [] [] (part tenant self.old)
            → StoreInvariant no_rows [] [] (part tenant self.new) }
        ensures rows { (number : ℕ) → swept < number → number ≤ opened
            → (part tenant self.new).rows number ≡ None }
        ensures others_unchanged { OthersUnchanged tenant self.old self.new }
    {
        for before in swept..opened {
            self.sweep(tenant, before + 1);
        }
    }

    /// Takes back what one span changed, and the texts that were held for it. It takes no memory.
    pub fn take_back(&mut self, tenant: u32, placed: UndoEntry<N>)
        ensures back { (start : Part N) → IsUndone placed start (part tenant self.old)
            → part tenant self.new ≡ start }
        ensures others_unchanged { OthersUnchanged tenant self.old self.new }
    {
        match placed {
            UndoEntry::Left => {}
            UndoEntry::Joined(number, former) => {
                if let Some(key) = self.rows.undo_join(tenant, number, former) {
                    self.leave(tenant, key);
                }
            }
            UndoEntry::Opened(number, key, earlier) => {
                self.rows.undo_open(tenant, number, earlier);
                self.leave(tenant, key);
            }
            UndoEntry::Late(key) => {
                self.leave(tenant, key);
            }
        }
    }

    /// Takes back what these spans changed, the latest first. It takes no memory.
    pub fn take_all_back(&mut self, tenant: u32, journal: &mut Vec<UndoEntry<N>>)
        ensures back { (start : Part N) → Trail start journal.old.items (part tenant self.old)
            → part tenant self.new ≡ start }
        ensures emptied { journal.new.items ≡ [] }
        ensures others_unchanged { OthersUnchanged tenant self.old self.new }
    {
        while let Some(placed) = journal.pop() {
            self.take_back(tenant, placed);
        }
    }

    /// The tenant's span at this key leaves, with its uses of texts.
    fn leave(&mut self, tenant: u32, key: u32)
        ensures own_part { Leaves (key ∷ []) (part tenant self.old) (part tenant self.new) }
        ensures others_unchanged { OthersUnchanged tenant self.old self.new }
    {
        let Ok(span) = self.spans.take(tenant, key) else {
            return;
        };
        release_all(&mut self.texts, tenant, span.keys());
    }
}

/// A row of one span opens. The answer is the trace's latest row until now.
fn open_row<N: Drop>(
    alloc: Global,
    rows: &mut TraceRows<N>,
    tenant: u32,
    number: u64,
    due: u64,
    trace: [u8; 16],
    key: u32,
    note: N,
) -> Result<Option<u64>, AllocError>
    requires { rows_part tenant rows.old number ≡ None }
    ensures earlier { IfOk result (λ earlier. earlier ≡ latest_rows_part tenant rows.old trace) }
    ensures rows { OnOk result (rows_part tenant rows.new ≡
        with_at number (Some (new_row trace due key note)) (rows_part tenant rows.old)) }
    ensures latest_rows { OnOk result (latest_rows_part tenant rows.new ≡
        with_latest_row trace (Some number) (latest_rows_part tenant rows.old)) }
    ensures others_unchanged { (other : ℕ) → other ≢ tenant → IsSame other rows.old rows.new }
    ensures on_refusal { OnErr result (IsSame tenant rows.old rows.new) }
{
    let keys = Keys::one(alloc, key)?;
    rows.open(
        tenant,
        number,
        Row {
            trace,
            due,
            keys,
            note,
            sampled: false,
        },
    )
}

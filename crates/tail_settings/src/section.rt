//! One tenant's settings.

ghost use Rattle.std.specs.Prelude.{◌≤◌, ◌^◌, IsTrue, string_bytes};
ghost use Rattle.tail_settings.specs.Keys.{IsFrom};
ghost use Rattle.tail_settings.specs.Texts.{is_address};

use crate::batch::Batch;
use crate::fault::SettingsFault;
use crate::retry_on_failure::RetryOnFailure;
use crate::sending_queue::SendingQueue;
use crate::tail_sampling::TailSampling;
use crate::{keys, texts};
use std::alloc::{AllocError, Global};
use toml::Table;

/// What a tenant's table says beside its name.
#[derive(Debug, PartialEq, Drop)]
pub struct Section {
    /// Where the tenant's batches are sent: a host and a port, as `127.0.0.1:4319`. 1 to 255 printable bytes of ASCII
    /// without the space.
    pub endpoint: String,
    /// How many spans may wait for decisions and batches, 1 to 2,147,483,648.
    pub max_spans: u32,
    /// The seed of the words by which the delays of retries vary, 0 to 2^62.
    pub seed: u64,
    /// Which traces are kept, and when that is decided.
    pub tail_sampling: TailSampling,
    /// How spans are put together.
    pub batch: Batch,
    /// How batches wait to be sent.
    pub sending_queue: SendingQueue,
    /// When a batch is sent again.
    pub retry_on_failure: RetryOnFailure,
    pub ghost endpoint_bytes: { IsTrue (is_address (string_bytes endpoint)) },
    pub ghost max_spans_range: { IsFrom 1 (2 ^ 31) max_spans },
    pub ghost seed_range: { seed ≤ 2 ^ 62 },
}

impl Section {
    ghost use Rattle.std.specs.Prelude.{◌≡◌, IfOk};
    ghost use Rattle.tail_settings.specs.Fault.{Tells};
    ghost use Rattle.tail_settings.specs.Keys.{keys_of};
    ghost use Rattle.tail_settings.specs.Section.{section_view, section_of};

    /// What a tenant's table says beside its name.
    #[tactic(auto, using(crate::proofs::Told::tells_more), unfolding(crate::specs::Section::section_of))]
    pub(crate) fn read(alloc: Global, tenant: Option<&Table>) -> Result<Section, SettingsFault>
        ensures { Tells section_view result (section_of (keys_of tenant.entry)) }
    {
        let endpoint = texts::address(alloc, tenant, "endpoint", "127.0.0.1:4319")?;
        let max_spans = keys::number(tenant, "max_spans", 1, 1 << 31, 100_000)?;
        let seed = keys::number(tenant, "seed", 0, 1 << 62, 0)?;
        let tail_sampling = TailSampling::read(alloc, tenant)?;
        let batch = Batch::read(tenant)?;
        let sending_queue = SendingQueue::read(tenant)?;
        let retry_on_failure = RetryOnFailure::read(tenant)?;
        Ok(Section {
            endpoint,
            max_spans: max_spans as u32,
            seed,
            tail_sampling,
            batch,
            sending_queue,
            retry_on_failure,
        })
    }

    /// A section that says the same and shares the policies.
    pub fn copy(&self) -> Result<Section, AllocError>
        ensures { IfOk result (λ copy. section_view copy ≡ section_view self.now) }
    {
        let endpoint = self.endpoint.clone()?;
        let policies = self.tail_sampling.policies.clone()?;
        Ok(Section {
            endpoint,
            max_spans: self.max_spans,
            seed: self.seed,
            tail_sampling: TailSampling {
                decision_wait: self.tail_sampling.decision_wait,
                num_traces: self.tail_sampling.num_traces,
                sampled_cache_size: self.tail_sampling.sampled_cache_size,
                non_sampled_cache_size: self.tail_sampling.non_sampled_cache_size,
                policies,
            },
            batch: self.batch,
            sending_queue: self.sending_queue,
            retry_on_failure: self.retry_on_failure,
        })
    }
}

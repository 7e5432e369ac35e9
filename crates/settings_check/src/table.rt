//! The tables of a settings document, the keys that each has, and what each key may be. This is the one place where
//! they stand as words; that a key means something is for `tail_settings` to say.

ghost use Rattle.std.specs.Prelude.{◌≡◌, option_copied};
ghost use Rattle.settings_check.specs.Table.{keys_of_kind, title_of, policy_kind, name_of, allowed_of, key_among, place_of};

/// A key of some kind of table.
#[derive(Clone, Copy)]
pub enum Key {
    Global,
    Tenant,
    Shards,
    Parts,
    Receivers,
    Senders,
    LaneSize,
    Listen,
    TenantHeader,
    Name,
    Endpoint,
    MaxSpans,
    Seed,
    TailSampling,
    Batch,
    SendingQueue,
    RetryOnFailure,
    DecisionWaitMs,
    NumTraces,
    DecisionCache,
    Policy,
    SampledCacheSize,
    NonSampledCacheSize,
    SendBatchSize,
    TimeoutMs,
    SendBatchMaxSize,
    QueueSize,
    NumConsumers,
    InitialIntervalMs,
    MaxIntervalMs,
    MaxElapsedTimeMs,
    Multiplier,
    RandomizationFactor,
    Type,
    ThresholdMs,
    StatusCodes,
    AttributeKey,
    Values,
    MinValue,
    MaxValue,
    AndSubPolicy,
}

/// A kind of table.
#[derive(Clone, Copy)]
pub enum TableKind {
    /// The document itself.
    Document,
    /// `global`.
    Global,
    /// One of the array `tenant`.
    Tenant,
    /// A tenant's `tail_sampling`.
    TailSampling,
    /// `decision_cache` in it.
    DecisionCache,
    /// A tenant's `batch`.
    Batch,
    /// A tenant's `sending_queue`.
    SendingQueue,
    /// A tenant's `retry_on_failure`.
    RetryOnFailure,
    /// A policy `always_sample`.
    AlwaysSample,
    /// A policy `latency`.
    Latency,
    /// A policy `status_code`.
    StatusCode,
    /// A policy `string_attribute`.
    StringAttribute,
    /// A policy `numeric_attribute`.
    NumericAttribute,
    /// A policy `and`.
    And,
    /// A policy of a type that there isn't, or of none. It has the keys of all types.
    AnyPolicy,
}

/// The keys of `TableKind::Document`.
pub const DOCUMENT: [Key; 2] = [Key::Global, Key::Tenant];
/// The keys of `TableKind::Global`.
pub const GLOBAL: [Key; 7] = [
    Key::Shards,
    Key::Parts,
    Key::Receivers,
    Key::Senders,
    Key::LaneSize,
    Key::Listen,
    Key::TenantHeader,
];
/// The keys of `TableKind::Tenant`.
pub const TENANT: [Key; 8] = [
    Key::Name,
    Key::Endpoint,
    Key::MaxSpans,
    Key::Seed,
    Key::TailSampling,
    Key::Batch,
    Key::SendingQueue,
    Key::RetryOnFailure,
];
/// The keys of `TableKind::TailSampling`.
pub const TAIL_SAMPLING: [Key; 4] = [
    Key::DecisionWaitMs,
    Key::NumTraces,
    Key::DecisionCache,
    Key::Policy,
];
/// The keys of `TableKind::DecisionCache`.
pub const DECISION_CACHE: [Key; 2] = [Key::SampledCacheSize, Key::NonSampledCacheSize];
/// The keys of `TableKind::Batch`.
pub const BATCH: [Key; 3] = [Key::SendBatchSize, Key::TimeoutMs, Key::SendBatchMaxSize];
/// The keys of `TableKind::SendingQueue`.
pub const SENDING_QUEUE: [Key; 2] = [Key::QueueSize, Key::NumConsumers];
/// The keys of `TableKind::RetryOnFailure`.
pub const RETRY_ON_FAILURE: [Key; 5] = [
    Key::InitialIntervalMs,
    Key::MaxIntervalMs,
    Key::MaxElapsedTimeMs,
    Key::Multiplier,
    Key::RandomizationFactor,
];
/// The keys of `TableKind::AlwaysSample`.
pub const ALWAYS_SAMPLE: [Key; 1] = [Key::Type];
/// The keys of `TableKind::Latency`.
pub const LATENCY: [Key; 2] = [Key::Type, Key::ThresholdMs];
/// The keys of `TableKind::StatusCode`.
pub const STATUS_CODE: [Key; 2] = [Key::Type, Key::StatusCodes];
/// The keys of `TableKind::StringAttribute`.
pub const STRING_ATTRIBUTE: [Key; 3] = [Key::Type, Key::AttributeKey, Key::Values];
/// The keys of `TableKind::NumericAttribute`.
pub const NUMERIC_ATTRIBUTE: [Key; 4] = [
    Key::Type,
    Key::AttributeKey,
    Key::MinValue,
    Key::MaxValue,
];
/// The keys of `TableKind::And`.
pub const AND: [Key; 2] = [Key::Type, Key::AndSubPolicy];
/// The keys of `TableKind::AnyPolicy`.
pub const ANY_POLICY: [Key; 8] = [
    Key::Type,
    Key::ThresholdMs,
    Key::StatusCodes,
    Key::AttributeKey,
    Key::Values,
    Key::MinValue,
    Key::MaxValue,
    Key::AndSubPolicy,
];

// What each key may be, in words. tests/settings/faults.list has the same words.

pub const GLOBAL_MAY_BE: &str = "a table, or missing";

pub const TENANT_MAY_BE: &str = "an array of 1 to 1000 tables, one for each tenant";

pub const SHARDS_MAY_BE: &str = "a whole number from 1 to 64, or missing, which is 1";

pub const PARTS_MAY_BE: &str = "a whole number from 1 to 16, or missing, which is 2";

pub const RECEIVERS_MAY_BE: &str = "a whole number from 1 to 64, or missing, which is 4";

pub const SENDERS_MAY_BE: &str = "a whole number from 1 to 64, or missing, which is 4";

pub const LANE_SIZE_MAY_BE: &str = "a whole number from 1 to 4096, or missing, which is 64";

pub const LISTEN_MAY_BE: &str =
    "a text of 1 to 255 printable bytes of ASCII without the space, or missing, which is 127.0.0.1:4318";

pub const TENANT_HEADER_MAY_BE: &str =
    "a text of 1 to 64 of a to z, 0 to 9 and -, or missing, which is x-scope-orgid";

pub const NAME_MAY_BE: &str =
    "a text of 1 to 64 of A to Z, a to z, 0 to 9, _, - and ., unlike every other tenant's";

pub const ENDPOINT_MAY_BE: &str =
    "a text of 1 to 255 printable bytes of ASCII without the space, or missing, which is 127.0.0.1:4319";

pub const MAX_SPANS_MAY_BE: &str =
    "a whole number from 1 to 2147483648, or missing, which is 100000";

pub const SEED_MAY_BE: &str =
    "a whole number from 0 to 4611686018427387904, or missing, which is 0";

pub const TAIL_SAMPLING_MAY_BE: &str = "a table with the key policy";

pub const BATCH_MAY_BE: &str = "a table, or missing";

pub const SENDING_QUEUE_MAY_BE: &str = "a table, or missing";

pub const RETRY_ON_FAILURE_MAY_BE: &str = "a table, or missing";

pub const DECISION_WAIT_MS_MAY_BE: &str =
    "whole milliseconds from 1 to 86400000, or missing, which is 30000";

pub const NUM_TRACES_MAY_BE: &str = "a whole number from 1 to 1000000, or missing, which is 50000";

pub const DECISION_CACHE_MAY_BE: &str = "a table, or missing";

pub const SAMPLED_CACHE_SIZE_MAY_BE: &str =
    "a whole number from 0 to 1000000, or missing, which is 0";

pub const NON_SAMPLED_CACHE_SIZE_MAY_BE: &str =
    "a whole number from 0 to 1000000, or missing, which is 0";

pub const POLICY_MAY_BE: &str = "an array of one or more tables, each a policy";

pub const SEND_BATCH_SIZE_MAY_BE: &str =
    "a whole number from 1 to 1000000, or missing, which is 8192";

pub const TIMEOUT_MS_MAY_BE: &str =
    "whole milliseconds from 0 to 86400000, or missing, which is 200";

pub const SEND_BATCH_MAX_SIZE_MAY_BE: &str =
    "0, or a whole number from send_batch_size to 1000000, or missing, which is 0";

pub const QUEUE_SIZE_MAY_BE: &str = "a whole number from 1 to 100000, or missing, which is 1000";

pub const NUM_CONSUMERS_MAY_BE: &str = "a whole number from 1 to 1000, or missing, which is 10";

pub const INITIAL_INTERVAL_MS_MAY_BE: &str =
    "whole milliseconds from 1 to 86400000, or missing, which is 5000";

pub const MAX_INTERVAL_MS_MAY_BE: &str =
    "whole milliseconds from 1 to 86400000, or missing, which is 30000";

pub const MAX_ELAPSED_TIME_MS_MAY_BE: &str =
    "whole milliseconds from 0 to 1099511627776, or missing, which is 300000";

pub const MULTIPLIER_MAY_BE: &str =
    "whole thousandths from 1000 to 100000, or missing, which is 1500";

pub const RANDOMIZATION_FACTOR_MAY_BE: &str =
    "whole thousandths from 0 to 1000, or missing, which is 500";

pub const TYPE_MAY_BE: &str =
    "always_sample, latency, status_code, string_attribute, numeric_attribute, or and, which no and can hold";

pub const THRESHOLD_MS_MAY_BE: &str = "whole milliseconds from 0 to 1099511627776";

pub const STATUS_CODES_MAY_BE: &str = "an array of one or more of OK, ERROR and UNSET";

pub const KEY_MAY_BE: &str = "a text of 1 to 256 bytes";

pub const VALUES_MAY_BE: &str = "an array of 1 to 64 texts";

pub const MIN_VALUE_MAY_BE: &str = "a whole number";

pub const MAX_VALUE_MAY_BE: &str = "a whole number";

pub const AND_SUB_POLICY_MAY_BE: &str =
    "an array of one or more tables, each a policy of a type other than and";

impl Key {
    /// The key as a document has it.
    pub fn name(self) -> &'static str
        ensures { result.now ≡ name_of self }
    {
        match self {
            Key::Global => "global",
            Key::Tenant => "tenant",
            Key::Shards => "shards",
            Key::Parts => "parts",
            Key::Receivers => "receivers",
            Key::Senders => "senders",
            Key::LaneSize => "lane_size",
            Key::Listen => "listen",
            Key::TenantHeader => "tenant_header",
            Key::Name => "name",
            Key::Endpoint => "endpoint",
            Key::MaxSpans => "max_spans",
            Key::Seed => "seed",
            Key::TailSampling => "tail_sampling",
            Key::Batch => "batch",
            Key::SendingQueue => "sending_queue",
            Key::RetryOnFailure => "retry_on_failure",
            Key::DecisionWaitMs => "decision_wait_ms",
            Key::NumTraces => "num_traces",
            Key::DecisionCache => "decision_cache",
            Key::Policy => "policy",
            Key::SampledCacheSize => "sampled_cache_size",
            Key::NonSampledCacheSize => "non_sampled_cache_size",
            Key::SendBatchSize => "send_batch_size",
            Key::TimeoutMs => "timeout_ms",
            Key::SendBatchMaxSize => "send_batch_max_size",
            Key::QueueSize => "queue_size",
            Key::NumConsumers => "num_consumers",
            Key::InitialIntervalMs => "initial_interval_ms",
            Key::MaxIntervalMs => "max_interval_ms",
            Key::MaxElapsedTimeMs => "max_elapsed_time_ms",
            Key::Multiplier => "multiplier",
            Key::RandomizationFactor => "randomization_factor",
            Key::Type => "type",
            Key::ThresholdMs => "threshold_ms",
            Key::StatusCodes => "status_codes",
            Key::AttributeKey => "key",
            Key::Values => "values",
            Key::MinValue => "min_value",
            Key::MaxValue => "max_value",
            Key::AndSubPolicy => "and_sub_policy",
        }
    }

    /// What its value may be, in words, with what holds where it is missing.
    pub fn allowed(self) -> &'static str
        ensures { result.now ≡ allowed_of self }
    {
        match self {
            Key::Global => GLOBAL_MAY_BE,
            Key::Tenant => TENANT_MAY_BE,
            Key::Shards => SHARDS_MAY_BE,
            Key::Parts => PARTS_MAY_BE,
            Key::Receivers => RECEIVERS_MAY_BE,
            Key::Senders => SENDERS_MAY_BE,
            Key::LaneSize => LANE_SIZE_MAY_BE,
            Key::Listen => LISTEN_MAY_BE,
            Key::TenantHeader => TENANT_HEADER_MAY_BE,
            Key::Name => NAME_MAY_BE,
            Key::Endpoint => ENDPOINT_MAY_BE,
            Key::MaxSpans => MAX_SPANS_MAY_BE,
            Key::Seed => SEED_MAY_BE,
            Key::TailSampling => TAIL_SAMPLING_MAY_BE,
            Key::Batch => BATCH_MAY_BE,
            Key::SendingQueue => SENDING_QUEUE_MAY_BE,
            Key::RetryOnFailure => RETRY_ON_FAILURE_MAY_BE,
            Key::DecisionWaitMs => DECISION_WAIT_MS_MAY_BE,
            Key::NumTraces => NUM_TRACES_MAY_BE,
            Key::DecisionCache => DECISION_CACHE_MAY_BE,
            Key::Policy => POLICY_MAY_BE,
            Key::SampledCacheSize => SAMPLED_CACHE_SIZE_MAY_BE,
            Key::NonSampledCacheSize => NON_SAMPLED_CACHE_SIZE_MAY_BE,
            Key::SendBatchSize => SEND_BATCH_SIZE_MAY_BE,
            Key::TimeoutMs => TIMEOUT_MS_MAY_BE,
            Key::SendBatchMaxSize => SEND_BATCH_MAX_SIZE_MAY_BE,
            Key::QueueSize => QUEUE_SIZE_MAY_BE,
            Key::NumConsumers => NUM_CONSUMERS_MAY_BE,
            Key::InitialIntervalMs => INITIAL_INTERVAL_MS_MAY_BE,
            Key::MaxIntervalMs => MAX_INTERVAL_MS_MAY_BE,
            Key::MaxElapsedTimeMs => MAX_ELAPSED_TIME_MS_MAY_BE,
            Key::Multiplier => MULTIPLIER_MAY_BE,
            Key::RandomizationFactor => RANDOMIZATION_FACTOR_MAY_BE,
            Key::Type => TYPE_MAY_BE,
            Key::ThresholdMs => THRESHOLD_MS_MAY_BE,
            Key::StatusCodes => STATUS_CODES_MAY_BE,
            Key::AttributeKey => KEY_MAY_BE,
            Key::Values => VALUES_MAY_BE,
            Key::MinValue => MIN_VALUE_MAY_BE,
            Key::MaxValue => MAX_VALUE_MAY_BE,
            Key::AndSubPolicy => AND_SUB_POLICY_MAY_BE,
        }
    }
}

impl TableKind {
    /// The kinds among which a fault's key is looked for. No two of them have a key of one name.
    pub const ALL: [TableKind; 9] = [
        TableKind::Document,
        TableKind::Global,
        TableKind::Tenant,
        TableKind::TailSampling,
        TableKind::DecisionCache,
        TableKind::Batch,
        TableKind::SendingQueue,
        TableKind::RetryOnFailure,
        TableKind::AnyPolicy,
    ];

    /// The keys that a table of this kind has.
    pub fn keys(self) -> &'static [Key]
        ensures { result.now ≡ keys_of_kind self }
    {
        match self {
            TableKind::Document => &DOCUMENT,
            TableKind::Global => &GLOBAL,
            TableKind::Tenant => &TENANT,
            TableKind::TailSampling => &TAIL_SAMPLING,
            TableKind::DecisionCache => &DECISION_CACHE,
            TableKind::Batch => &BATCH,
            TableKind::SendingQueue => &SENDING_QUEUE,
            TableKind::RetryOnFailure => &RETRY_ON_FAILURE,
            TableKind::AlwaysSample => &ALWAYS_SAMPLE,
            TableKind::Latency => &LATENCY,
            TableKind::StatusCode => &STATUS_CODE,
            TableKind::StringAttribute => &STRING_ATTRIBUTE,
            TableKind::NumericAttribute => &NUMERIC_ATTRIBUTE,
            TableKind::And => &AND,
            TableKind::AnyPolicy => &ANY_POLICY,
        }
    }

    /// The kind in words, where these are the words of a policy.
    pub fn title<'a>(self, policy: &'a str) -> &'a str
        ensures { result.now ≡ title_of self policy.now }
    {
        match self {
            TableKind::Document => "the document",
            TableKind::Global => "table global",
            TableKind::Tenant => "table tenant",
            TableKind::TailSampling => "table tail_sampling",
            TableKind::DecisionCache => "table decision_cache",
            TableKind::Batch => "table batch",
            TableKind::SendingQueue => "table sending_queue",
            TableKind::RetryOnFailure => "table retry_on_failure",
            _ => policy,
        }
    }

    /// The kind of a policy's table by its `type`, if that is a text.
    pub fn of_policy(policy_type: Option<&str>) -> TableKind
        ensures { result ≡ policy_kind (option_copied policy_type.entry) }
    {
        match policy_type {
            Some("and") => TableKind::And,
            Some("always_sample") => TableKind::AlwaysSample,
            Some("latency") => TableKind::Latency,
            Some("status_code") => TableKind::StatusCode,
            Some("string_attribute") => TableKind::StringAttribute,
            Some("numeric_attribute") => TableKind::NumericAttribute,
            _ => TableKind::AnyPolicy,
        }
    }
}

/// The key of this name.
pub fn find_among(keys: &[Key], name: &str) -> Option<Key>
    ensures { result ≡ key_among name.now keys.now }
{
    for key in keys {
        if key.name() == name {
            return Some(*key);
        }
    }
    None
}

/// A key of this name and the kind of table that has it.
pub fn find_key(name: &str) -> Option<(TableKind, Key)>
    ensures { result ≡ place_of name.now TableKind.ALL }
{
    for kind in TableKind::ALL.as_slice() {
        if let Some(key) = find_among(kind.keys(), name) {
            return Some((*kind, key));
        }
    }
    None
}

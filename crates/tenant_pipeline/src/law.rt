//! Laws over the definitions.

ghost use Rattle.tenant_pipeline.specs.AfterDrain.{DrainedHoldsNone};

/// A tenant that was drained has no spans but those of batches on their way, whatever its steps were: no row waits, and
/// no span is in a group and in no batch.
pub fn drained_holds_none()
    ensures { DrainedHoldsNone }
{}

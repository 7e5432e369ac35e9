//! Which statuses a client is told where spans come in.

ghost use Rattle.admin_tests.specs.Statuses.{ToldAreCounted};

/// Each has a count of its own.
fn told_statuses_are_counted()
    ensures { ToldAreCounted }
{}

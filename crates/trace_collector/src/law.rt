//! Laws of the definitions.

ghost use Rattle.trace_collector.specs.Alone.{OwnCommandsDecide};
ghost use Rattle.trace_collector.specs.Apart.{ReplaysApart};
ghost use Rattle.trace_collector.specs.Law.{TextIsOne, BeginningsBegin, ValuesAreTaken};

use otlp_read::values_or_faults;

/// A script is told one text, which ends at its first faulty line, and whatever is a beginning begins that text.
pub fn text_is_one()
    ensures one { TextIsOne }
    ensures begins { BeginningsBegin }
{
    values_or_faults();
}

/// In a replay no body is refused: each is prepared for its own tenant's policies, so one that has a value is the
/// tenant's next own step, and the tenant's pipeline replies to it.
pub fn values_are_taken()
    ensures { ValuesAreTaken }
{}

/// What a tenant is told follows from its name, its section and its own commands alone: a law over replays of any
/// settings and any scripts.
pub fn own_commands_decide()
    ensures { OwnCommandsDecide }
{
    values_or_faults();
}

/// A collector that has one tenant alone, with one shard, would answer the tenant's own commands of any replay by its
/// lines of that replay: a law over replays.
pub fn tenants_replay_apart()
    ensures { ReplaysApart }
{}

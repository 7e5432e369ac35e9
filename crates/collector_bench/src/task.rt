//! What the arguments ask for.

ghost use Rattle.std.specs.Prelude.{◌≡◌, ◌↔◌, ◌∷◌, [], map, IsSome, IsNone, IfSome, string_bytes};
ghost use Rattle.collector_bench.specs.Task.{TaskData, Asks, IsCount, count_of, task_view};

/// So many policies can be asked for: a tenant has no more that hold no other.
const MOST_POLICIES: u32 = 64;

/// What the program is to do.
#[derive(Clone, Copy)]
pub enum Task<'a> {
    /// What is stored is checked once.
    CheckStored,
    /// Rounds of reading and writing the body in this file are measured.
    Codec {
        path: &'a str,
        rounds: u32,
    },
    /// Rounds of making the body in this file ready are measured, for a tenant with so many policies.
    Prepare {
        path: &'a str,
        rounds: u32,
        policies: u32,
    },
    /// Rounds of serving the message in this file are measured.
    Edge {
        path: &'a str,
        rounds: u32,
    },
}

/// What these arguments ask for, without the program's name.
pub(crate) fn asked_task(args: &[String]) -> Option<Task<'_>>
    ensures asked { IfSome result (λ asked. Asks (map string_bytes args.now) (task_view asked)) }
    ensures usage { IsNone result → (asked : TaskData)
        → ¬ (Asks (map string_bytes args.now) asked) }
{
    match args {
        [] => Some(Task::CheckStored),
        [name, path, rounds] => rounds_on(name.as_str(), path.as_str(), rounds.as_str()),
        [name, path, rounds, policies] => preparing(
            name.as_str(),
            path.as_str(),
            rounds.as_str(),
            policies.as_str(),
        ),
        _ => None,
    }
}

/// What a name asks for with a path and a number of rounds.
fn rounds_on<'a>(name: &str, path: &'a str, rounds: &str) -> Option<Task<'a>>
    ensures asked { IfSome result (λ asked.
        Asks (name.now ∷ path.now ∷ rounds.now ∷ []) (task_view asked)) }
    ensures usage { IsNone result → (asked : TaskData)
        → ¬ (Asks (name.now ∷ path.now ∷ rounds.now ∷ []) asked) }
{
    let rounds = count(rounds, u32::MAX)?;
    if name == "codec" {
        Some(Task::Codec { path, rounds })
    } else if name == "edge" {
        Some(Task::Edge { path, rounds })
    } else {
        None
    }
}

/// What a name asks for with a path, a number of rounds and one of policies.
fn preparing<'a>(name: &str, path: &'a str, rounds: &str, policies: &str) -> Option<Task<'a>>
    ensures asked { IfSome result (λ asked.
        Asks (name.now ∷ path.now ∷ rounds.now ∷ policies.now ∷ []) (task_view asked)) }
    ensures usage { IsNone result → (asked : TaskData)
        → ¬ (Asks (name.now ∷ path.now ∷ rounds.now ∷ policies.now ∷ []) asked) }
{
    if name != "prepare" {
        return None;
    }
    let rounds = count(rounds, u32::MAX)?;
    let policies = count(policies, MOST_POLICIES)?;
    Some(Task::Prepare {
        path,
        rounds,
        policies,
    })
}

/// A decimal number from 1 to `most`, which may begin with a plus.
fn count(word: &str, most: u32) -> Option<u32>
    ensures valid { IsSome result ↔ IsCount most word.now }
    ensures value { IfSome result (λ count. count ≡ count_of word.now) }
{
    match word.parse::<u32>() {
        Ok(count) if 1 <= count && count <= most => Some(count),
        _ => None,
    }
}

//! Which keys no policy asks for.

ghost use Rattle.std.specs.Prelude.{◌≡◌, ◌<◌, length, map};
ghost use Rattle.tail_settings.specs.Policy.{leaf_view, policy_view};
ghost use Rattle.tail_policy.specs.Marks.{mark_of, marked, all_marked, policies_marked};

use tail_settings::{LeafPolicy, PolicySpec};

/// How many marks there are.
pub const COUNT: usize = 256;

/// The mark of a key, by its length and its last byte.
#[inline(always)]
pub fn mark(key: &str) -> usize
    ensures mark { result ≡ mark_of key.now }
    ensures below { result < 256 }
{
    let bytes = key.as_bytes();
    let last = if bytes.is_empty() {
        0
    } else {
        bytes[bytes.len() - 1]
    };
    (bytes.len() % COUNT * 31 + usize::from(last)) % COUNT
}

/// Marks the key that a policy asks for.
fn mark_leaf(marks: &mut [bool], leaf: &LeafPolicy)
    requires { length marks.old ≡ 256 }
    ensures { marks.new ≡ marked marks.old (leaf_view leaf.now) }
{
    match leaf {
        LeafPolicy::StringAttribute { key, .. } => marks[mark(key)] = true,
        LeafPolicy::NumericAttribute { key, .. } => marks[mark(key)] = true,
        _ => {}
    }
}

fn mark_leaves(marks: &mut [bool], leaves: &[LeafPolicy])
    requires { length marks.old ≡ 256 }
    ensures { marks.new ≡ all_marked marks.old (map leaf_view leaves.now) }
{
    for leaf in leaves {
        mark_leaf(marks, leaf);
    }
}

/// Marks the keys that policies ask for.
pub fn mark_policies(marks: &mut [bool], policies: &[PolicySpec])
    requires { length marks.old ≡ 256 }
    ensures { marks.new ≡ policies_marked marks.old (map policy_view policies.now) }
{
    for policy in policies {
        match policy {
            PolicySpec::Leaf(leaf) => mark_leaf(marks, leaf),
            PolicySpec::And(leaves) => mark_leaves(marks, leaves),
        }
    }
}

//! Two tenants that draw in turn.

use shard_machine::JitterGenerators;

/// Each gets the words of its own seed, whatever the other draws, and a second seed counts for nothing.
#[test]
fn each_draws_its_own_words(rt: HostRuntime) {
    let mut words = JitterGenerators::new(rt.alloc());
    words.seed(3, 0).expect(&rt, "memory");
    words.seed(5, 42).expect(&rt, "memory");
    words.seed(3, 1).expect(&rt, "memory");
    let drawn = [
        words.draw(3),
        words.draw(5),
        words.draw(5),
        words.draw(3),
        words.draw(4),
        words.draw(3),
        words.draw(5),
    ];
    let wanted = [
        Some(298703107),
        Some(3400036912),
        Some(3349765444),
        Some(4236525527),
        None,
        Some(336081875),
        Some(515166382),
    ];
    assert!(rt; drawn == wanted);
}

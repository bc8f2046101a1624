use idx_turn::{Solo, Step, Steps, count, publish_again};
use std::test::*;

#[test]
fn one_owner_publishes_a_time_again(rt: HostRuntime) -> Result<(), Fail> {
    let mut solo = Solo::new(Steps {
        blocks: 3,
        steps: vec![in rt.alloc(); Step::new(4)]?,
    });
    assert!(rt; publish_again(&mut solo, 4) == 2);
    assert!(rt; count(&mut solo) == 3);
    Ok(())
}

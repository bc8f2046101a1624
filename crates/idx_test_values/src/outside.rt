//! Printed texts.
use idx_outside::{BayFault, NoMemory, Outage};
use std::test::Fail;

#[test]
fn answers_have_their_texts(rt: HostRuntime) -> Result<(), Fail> {
    let outage = format!(in rt.alloc(); "{Outage}, {}", BayFault::from(Outage))?;
    assert!(rt; outage.as_str() == "a call on the outside failed, a call on the outside failed");
    let no_memory = format!(in rt.alloc(); "{NoMemory}, {}", BayFault::from(NoMemory))?;
    assert!(rt; no_memory.as_str() == "not enough memory, not enough memory");
    Ok(())
}

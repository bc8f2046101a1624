//! What is said of a dataset that is about to be served.
use crate::setting::{HEADER, bay_of_step};
use idx_outside::NoMemory;
use idx_report::{standing_steps, write_notice};
use std::alloc::Global;
use std::net::SocketAddr;
use std::test::Fail;

#[test]
fn a_notice_is_one_line(rt: HostRuntime) -> Result<(), Fail> {
    let mut err = Vec::new(rt.alloc());
    let address = "[::1]:8080"
        .parse::<SocketAddr>()
        .ok()
        .expect(&rt, "an address");
    write_notice(&mut err, address, Some(2), "a\nb.idx")?;
    write_notice(&mut err, address, None, "v.idx")?;
    let want = "  listening on [::1]:8080, 2 steps of a\\nb.idx\n  listening on [::1]:8080\n";
    assert!(rt; err.as_slice() == want.as_bytes());
    Ok(())
}

/// How many steps are counted of a dataset with this header of which step 0 stands. This call of it fails.
fn counted(alloc: Global, header: &str, fails: u64) -> Result<Option<u64>, NoMemory> {
    let mut bay = bay_of_step(alloc, header, fails)?;
    Ok(standing_steps(alloc, &mut bay))
}

#[test]
fn the_steps_that_stand_are_counted(rt: HostRuntime) -> Result<(), Fail> {
    for (header, fails, want) in [
        (HEADER, 0, Some(1)),
        ("", 0, None),
        (HEADER, 1, None),
        (HEADER, 11, None),
    ] {
        assert!(rt; counted(rt.alloc(), header, fails)? == want);
    }
    Ok(())
}

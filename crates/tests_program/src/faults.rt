//! The lines of those faults that no run of these tests ends with.

use gw_front::{ReplayFault, ServeFault};
use gw_program::Fault;
use std::alloc::AllocError;
use std::test::Fail;
use tests_wanted::is_text;

#[test]
fn each_fault_has_its_line(rt: HostRuntime) -> Result<(), Fail> {
    let table: [(Fault<'static>, &[u8]); 8] = [
        (ReplayFault::BadHeader.into(), b"h248gw: replay bad header"),
        (ReplayFault::Truncated.into(), b"h248gw: replay truncated"),
        (ReplayFault::TooLong.into(), b"h248gw: replay too long"),
        (ReplayFault::Read.into(), b"h248gw: replay read"),
        (ServeFault::Poll.into(), b"h248gw: serve poll"),
        (ServeFault::Receive.into(), b"h248gw: serve receive"),
        (ServeFault::Full.into(), b"h248gw: no memory"),
        (AllocError.into(), b"h248gw: no memory"),
    ];
    for (fault, line) in table {
        is_text(format!(in rt.alloc(); "{fault}")?.as_bytes(), line)?;
    }
    Ok(())
}

// How faults are printed in tests: each by the kind of request that it came from.
use crate::{DiskFault, FlushFault, LengthFault, OpenFault, ResizeFault, UnbindFault, WriteFault};
use std::test::Fail;

const FULL: DiskFault = DiskFault::Code(28);

#[test]
fn a_fault_tells_its_request(rt: HostRuntime) -> Result<(), Fail> {
    let printed = format!(in rt.alloc();
        "{:?} {:?} {:?}",
        OpenFault::from(FULL),
        WriteFault::from(FULL),
        FlushFault::from(FULL)
    )?;
    assert_eq!(rt;
        printed.as_str(),
        "OpenFault(Code(28)) WriteFault(Code(28)) FlushFault(Code(28))"
    );
    let printed = format!(in rt.alloc();
        "{:?} {:?} {:?}",
        ResizeFault::from(FULL),
        LengthFault::from(FULL),
        UnbindFault::from(FULL)
    )?;
    assert_eq!(rt;
        printed.as_str(),
        "ResizeFault(Code(28)) LengthFault(Code(28)) UnbindFault(Code(28))"
    );
    Ok(())
}

use pc_num::Memory;
use std::alloc::{AllocError, AllocFailed};

#[test]
fn refused_memory_is_memory(rt: HostRuntime) {
    let refused: AllocFailed<u8> = AllocFailed { value: 7 };
    assert_eq!(rt; Memory::from(refused), Memory);
    assert_eq!(rt; Memory::from(AllocError), Memory);
}

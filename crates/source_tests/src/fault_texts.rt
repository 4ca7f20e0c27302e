//! Tests the texts of faults that no command prints.

use descriptor::DescriptorFault;
use std::test::Fail;

#[test]
fn faults_have_texts(rt: HostRuntime) -> Result<(), Fail> {
    let text = format!(in rt.alloc();
        "{}, {}, {}, {}",
        DescriptorFault::Malformed,
        DescriptorFault::Memory,
        mutf8::Fault::BadUtf8 { at: 3 },
        mutf8::Fault::Memory
    )?;
    let wanted = "malformed descriptor, out of memory, no Modified UTF-8 at byte 3, out of memory";
    assert_eq!(rt; text.as_str(), wanted);
    Ok(())
}

// Lines of answers: a refusal may be given as itself, or as any number of one.
use console::answer::{Answer, answer_text};
use refusal::Refusal;
use std::test::Fail;

#[test]
fn refusals(rt: HostRuntime) -> Result<(), Fail> {
    let named = answer_text(rt.alloc(), Err(Refusal::Parked))?;
    assert!(rt; named.as_slice() == b"no 2\n".as_slice());
    let numbered = answer_text(rt.alloc(), Err(200u8))?;
    assert!(rt; numbered.as_slice() == b"no 200\n".as_slice());
    let granted = answer_text::<u8>(rt.alloc(), Ok(Answer::Word(0x1500_0025)))?;
    assert!(rt; granted.as_slice() == b"0x15000025\n".as_slice());
    Ok(())
}

// A list of calls, and the answer to each.
use crate::yard::plan;
use machine::{Call, Refusal, Reply, Word};
use runs::lists::run;
use sets::word::WordSet;
use std::test::Fail;

// What an accepted call answers that asks for no mark.
fn reply(running: Option<u8>, word: Word) -> Result<Reply, Refusal> {
    Ok(Reply {
        running,
        word,
        mark: None,
    })
}

#[test]
fn a_ceiling_holds_up_the_higher_user_alone(rt: HostRuntime) -> Result<(), Fail> {
    let cases = [
        (Call::Install(plan()?), reply(None, Word::Same)),
        (Call::Release(1 << 2), reply(Some(2), Word::Started)),
        (Call::Lock(0), reply(Some(2), Word::Same)),
        (Call::Release(1 << 5), reply(Some(2), Word::Same)),
        (Call::Release(1 << 7), reply(Some(7), Word::Started)),
        (Call::Exit, reply(Some(2), Word::Resumed)),
        (Call::Unlock(0), reply(Some(5), Word::Started)),
        (Call::Exit, reply(Some(2), Word::Resumed)),
        (Call::Exit, reply(None, Word::Idle)),
        (Call::Exit, Err(Refusal::NoTaskRuns)),
    ];
    let calls = cases.map(|(call, _)| call);
    let finished = run(rt.alloc(), WordSet::new(64), &calls)?;
    let wanted = cases.map(|(_, answer)| answer);
    assert_eq!(rt; finished.answers.as_slice(), wanted.as_slice());
    assert_eq!(rt; finished.kernel.running(), None);
    Ok(())
}

#[test]
fn no_call_has_no_answer(rt: HostRuntime) -> Result<(), Fail> {
    let finished = run(rt.alloc(), WordSet::new(64), &[])?;
    assert!(rt; finished.answers.is_empty());
    Ok(())
}

// A core over a book of three jobs in a chain.
use crate::books::Chain;
use m2v_core::{Answer, Core, Event, StepFault};
use std::test::Fail;

fn not_lawful(have: u64, need: u64) -> Result<Answer, StepFault> {
    Err(StepFault::NotLawful { have, need })
}

// Each event in turn, and what a core of two workers answers to it.
#[test]
fn answers_two_workers(rt: HostRuntime) -> Result<(), Fail> {
    let done = Ok(Answer::Done);
    let table = [
        (Event::Claim { worker: 0 }, Ok(Answer::Drawn(0))),
        (Event::Publish { worker: 1, job: 0 }, not_lawful(0, 0)),
        (Event::Claim { worker: 1 }, Ok(Answer::Drawn(1))),
        (Event::Publish { worker: 1, job: 1 }, not_lawful(1, 0)),
        (Event::Fetch { worker: 0, job: 0 }, not_lawful(0, 0)),
        (Event::Publish { worker: 0, job: 0 }, done),
        (Event::Fetch { worker: 1, job: 0 }, done),
        (Event::Publish { worker: 1, job: 1 }, done),
        (Event::Claim { worker: 2 }, not_lawful(2, 2)),
        (Event::Claim { worker: 0 }, Ok(Answer::Drawn(2))),
        (Event::Claim { worker: 0 }, Ok(Answer::End)),
        (Event::Publish { worker: 0, job: 2 }, done),
    ];
    let mut core = Core::for_book(rt.alloc(), &Chain, 2)?;
    for (event, answer) in table {
        assert_eq!(rt; core.step(rt.alloc(), &Chain, event), answer);
    }
    Ok(())
}

// Each cause of a refusal, for a core of one worker that has drawn jobs 0 and 1 and published job 0.
#[test]
fn refuses_by_each_cause(rt: HostRuntime) -> Result<(), Fail> {
    let table = [
        (Event::Claim { worker: 0 }, Ok(Answer::Drawn(0))),
        (Event::Publish { worker: 0, job: 0 }, Ok(Answer::Done)),
        (Event::Claim { worker: 0 }, Ok(Answer::Drawn(1))),
        (Event::Fetch { worker: 1, job: 0 }, not_lawful(1, 1)),
        (Event::Publish { worker: 0, job: 0 }, not_lawful(0, 1)),
        (Event::Claim { worker: 0 }, Ok(Answer::Drawn(2))),
        (Event::Publish { worker: 0, job: 2 }, not_lawful(2, 1)),
        (Event::Fetch { worker: 0, job: 9 }, not_lawful(9, 1)),
    ];
    let mut core = Core::for_book(rt.alloc(), &Chain, 1)?;
    for (event, answer) in table {
        assert_eq!(rt; core.step(rt.alloc(), &Chain, event), answer);
    }
    Ok(())
}

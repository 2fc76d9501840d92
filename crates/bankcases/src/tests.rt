use bank::{Bank, take_until};
use batch::BatchBank;
use cyclic::CyclicBank;
use first_come::FirstComeBank;
use refusal::Refusal;
use std::process::Abort;
use std::test::Fail;

// A call at master 1, and what it answers.
#[derive(Clone, Copy)]
enum Step {
    Put(usize, bool),
    Take(Option<usize>),
}

fn follow<B: Bank>(rt: &impl Abort, bank: &mut B, steps: &[Step]) {
    for step in steps {
        match *step {
            Step::Put(stream, accepted) => assert_eq!(rt; bank.put(1, stream), accepted),
            Step::Take(given) => assert_eq!(rt; bank.take(1), given),
        }
    }
}

const FOUR: [usize; 8] = [4, 0, 0, 0, 0, 0, 0, 2];

#[test]
fn first_come_gives_the_longest_waiting(rt: HostRuntime) -> Result<(), Fail> {
    let mut bank = FirstComeBank::new();
    bank.shape(FOUR)?;
    // Stream 2 comes back while 4 and 1 wait: it stands behind them.
    follow(
        &rt,
        &mut bank,
        &[
            Step::Put(2, true),
            Step::Put(4, true),
            Step::Put(2, false),
            Step::Take(Some(2)),
            Step::Put(1, true),
            Step::Put(2, true),
            Step::Take(Some(4)),
            Step::Take(Some(1)),
            Step::Take(Some(2)),
            Step::Take(None),
        ],
    );
    Ok(())
}

#[test]
fn cyclic_goes_round(rt: HostRuntime) -> Result<(), Fail> {
    let mut bank = CyclicBank::new();
    bank.shape(FOUR)?;
    // Stream 2 comes between the last given, 1, and 4, and is given first.
    follow(
        &rt,
        &mut bank,
        &[
            Step::Put(4, true),
            Step::Put(1, true),
            Step::Take(Some(1)),
            Step::Put(1, true),
            Step::Put(2, true),
            Step::Put(2, false),
            Step::Take(Some(2)),
            Step::Take(Some(4)),
            Step::Take(Some(1)),
            Step::Take(None),
            Step::Put(1, true),
            Step::Put(3, true),
            Step::Take(Some(3)),
            Step::Take(Some(1)),
        ],
    );
    Ok(())
}

#[test]
fn batch_lets_newcomers_gather(rt: HostRuntime) -> Result<(), Fail> {
    let mut bank = BatchBank::new();
    bank.shape(FOUR)?;
    // Stream 1 comes when the group of 2 and 4 is closed: it waits for the next.
    follow(
        &rt,
        &mut bank,
        &[
            Step::Put(4, true),
            Step::Put(2, true),
            Step::Take(Some(2)),
            Step::Put(1, true),
            Step::Put(2, true),
            Step::Put(4, false),
            Step::Take(Some(4)),
            Step::Take(Some(1)),
            Step::Put(1, true),
            Step::Take(Some(2)),
            Step::Take(Some(1)),
            Step::Take(None),
        ],
    );
    Ok(())
}

fn turns_of_three<B: Bank>(rt: &impl Abort, bank: &B, first: usize, second: usize, third: usize) {
    assert_eq!(rt; bank.turns(1, 0), 0);
    assert_eq!(rt; bank.turns(1, 1), first);
    assert_eq!(rt; bank.turns(1, 2), second);
    assert_eq!(rt; bank.turns(1, 3), third);
    assert_eq!(rt; bank.turns(1, 4), 0);
    assert_eq!(rt; bank.turns(0, 1), 0);
    assert_eq!(rt; bank.turns(9, 1), 0);
}

#[test]
fn turns_of_three_streams(rt: HostRuntime) -> Result<(), Fail> {
    let three = [3, 0, 0, 0, 0, 0, 0, 0];
    let mut first_come = FirstComeBank::new();
    first_come.shape(three)?;
    turns_of_three(&rt, &first_come, 3, 3, 3);
    let mut cyclic = CyclicBank::new();
    cyclic.shape(three)?;
    turns_of_three(&rt, &cyclic, 3, 3, 3);
    let mut batch = BatchBank::new();
    batch.shape(three)?;
    turns_of_three(&rt, &batch, 3, 4, 5);
    Ok(())
}

#[test]
fn shaping_starts_as_new(rt: HostRuntime) -> Result<(), Fail> {
    let mut bank = CyclicBank::new();
    assert_eq!(rt; bank.size(1), 0);
    assert_eq!(rt; bank.put(1, 1), false);
    bank.shape(FOUR)?;
    assert_eq!(rt; bank.put(8, 2), true);
    assert_eq!(rt; bank.shape([9; 8]), Err(Refusal::SizeTooLarge));
    assert_eq!(rt; bank.shape([1; 8]), Err(Refusal::ShapeWhileWaiting));
    assert_eq!(rt; bank.size(1), 4);
    assert_eq!(rt; bank.take(8), Some(2));
    assert_eq!(rt; bank.shape([2; 8]), Ok(()));
    assert_eq!(rt; bank.size(1), 2);
    assert_eq!(rt; bank.size(8), 2);
    // The search begins with stream 1 again, though 2 was given last.
    assert_eq!(rt; bank.put(8, 1), true);
    assert_eq!(rt; bank.put(8, 2), true);
    assert_eq!(rt; bank.take(8), Some(1));
    Ok(())
}

#[test]
fn given_by_one_of_the_next_takes(rt: HostRuntime) -> Result<(), Fail> {
    let mut bank = BatchBank::new();
    bank.shape(FOUR)?;
    for stream in 1..5 {
        assert_eq!(rt; bank.put(1, stream), true);
    }
    assert_eq!(rt; take_until(&mut bank, 1, 2), 2);
    assert_eq!(rt; bank.put(1, 1), true);
    assert_eq!(rt; take_until(&mut bank, 1, 1), 3);
    assert_eq!(rt; take_until(&mut bank, 1, 1), 0);
    Ok(())
}

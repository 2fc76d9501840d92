use bounded::ArrayVec;
use plan::{HighStream, LowStream, Master, Plan, Times};
use planfile::LONGEST;
use refusal::{Place, Refusal};
use std::process::Abort;
use std::test::Fail;

// The plan of two masters, byte by byte.
const FIGURE: [u8; 49] =
    *b"\x01\x00\x05\x01\x00\x00\x00\x64\x00\x03\x02\x00\x0a\x00\x0b\x03\x00\x32\x00\x00\x01\x2c\x00\x05\x00\x05\x00\x03\x04\x00\x50\x00\x03\x02\x00\x0a\x00\x0b\x03\x00\x3c\x00\x00\x01\x18\x00\x05\x00\x05";

fn master(hop: u16) -> Result<Master, Fail> {
    Master::new(hop).ok_or_else(|| Fail::new("a hop out of range"))
}

fn high(cycle: u16, deadline: u32, generation: u16, delivery: u16) -> Result<HighStream, Fail> {
    let times = Times {
        cycle,
        deadline,
        generation,
        delivery,
    };
    HighStream::new(times).ok_or_else(|| Fail::new("a high stream out of range"))
}

fn low(cycle: u16) -> Result<LowStream, Fail> {
    LowStream::new(cycle).ok_or_else(|| Fail::new("a low stream out of range"))
}

fn plan_of(rt: &impl Abort, target: u32, first: Master) -> Result<Plan, Fail> {
    let mut masters = ArrayVec::new(first);
    assert!(rt; masters.push(first).is_ok());
    Plan::of(target, masters).ok_or_else(|| Fail::new("no plan"))
}

fn two_masters(rt: &impl Abort) -> Result<Plan, Fail> {
    let mut first = master(10)?;
    assert!(rt; first.add_high(high(50, 300, 5, 5)?).is_ok());
    assert!(rt; first.add_low(low(80)?).is_ok());
    let mut second = master(10)?;
    assert!(rt; second.add_high(high(60, 280, 5, 5)?).is_ok());
    let mut plan = plan_of(rt, 0, first)?;
    assert!(rt; plan.add_master(second).is_ok());
    plan.set_target(100)?;
    Ok(plan)
}

#[test]
fn writes_the_figure(rt: HostRuntime) -> Result<(), Fail> {
    let plan = two_masters(&rt)?;
    assert_eq!(rt; plan.walk(), 20);
    assert_eq!(rt; planfile::size(&plan), 49);
    let mut out = [7; 52];
    assert_eq!(rt; planfile::write(&plan, &mut out), Ok(49));
    assert!(rt; out[0..49] == FIGURE[0..49]);
    assert!(rt; out[49..52] == [7, 7, 7]);
    Ok(())
}

#[test]
fn reads_the_figure(rt: HostRuntime) -> Result<(), Fail> {
    let plan = planfile::read(&FIGURE)?;
    assert_eq!(rt; plan.target(), 100);
    let masters = plan.masters();
    assert!(rt; masters.len() == 2);
    assert_eq!(rt; masters[0].hop(), 10);
    let lows = masters[0].lows();
    assert!(rt; lows.len() == 1);
    assert_eq!(rt; lows[0].cycle(), 80);
    let highs = masters[1].highs();
    assert!(rt; highs.len() == 1);
    assert_eq!(rt; highs[0].cycle(), 60);
    assert_eq!(rt; highs[0].deadline(), 280);
    Ok(())
}

#[test]
fn a_short_buffer_stays(rt: HostRuntime) -> Result<(), Fail> {
    let plan = two_masters(&rt)?;
    let mut short = [7; 48];
    assert_eq!(rt;
        planfile::write(&plan, &mut short),
        Err(Refusal::BufferTooShort { needed: 49 })
    );
    assert!(rt; short == [7; 48]);
    let mut exact = [7; 49];
    assert_eq!(rt; planfile::write(&plan, &mut exact), Ok(49));
    assert!(rt; exact == FIGURE);
    Ok(())
}

#[test]
fn the_fullest_plan(rt: HostRuntime) -> Result<(), Fail> {
    let mut full = master(10_000)?;
    for _ in 0..8 {
        assert!(rt;
            full.add_high(high(60_000, 4_294_967_295, 60_000, 60_000)?)
                .is_ok()
        );
    }
    for _ in 0..4 {
        assert!(rt; full.add_low(low(60_000)?).is_ok());
    }
    assert!(rt; full.add_high(high(1, 1, 0, 0)?).is_err());
    assert!(rt; full.add_low(low(1)?).is_err());
    let mut plan = plan_of(&rt, 16_777_215, full)?;
    for _ in 0..7 {
        assert!(rt; plan.add_master(full).is_ok());
    }
    assert!(rt; plan.add_master(full).is_err());
    assert_eq!(rt; plan.walk(), 80_000);
    assert_eq!(rt; planfile::size(&plan), LONGEST);
    let mut out = [0; LONGEST];
    assert_eq!(rt; planfile::write(&plan, &mut out), Ok(LONGEST));
    assert_eq!(rt; planfile::size(&planfile::read(&out)?), LONGEST);
    Ok(())
}

#[test]
fn the_fresh_plan(rt: HostRuntime) -> Result<(), Fail> {
    let mut plan = Plan::new();
    assert_eq!(rt; plan.target(), 0);
    assert_eq!(rt; plan.walk(), 1);
    assert_eq!(rt; plan.set_target(16_777_216), Err(Refusal::TargetTooLarge));
    assert_eq!(rt; plan.target(), 0);
    plan.set_target(16_777_215)?;
    assert_eq!(rt; plan.target(), 16_777_215);
    Ok(())
}

// A file, and the number and the place of its refusal.
struct Case {
    file: &'static [u8],
    number: u8,
    at: usize,
}

const REFUSED: [Case; 16] = [
    Case {
        file: b"",
        number: 1,
        at: 0,
    },
    Case {
        file: b"\x02",
        number: 1,
        at: 0,
    },
    Case {
        file: b"\x01\x00",
        number: 2,
        at: 1,
    },
    Case {
        file: b"\x01\x00\x05\x01\x00\x00\x00",
        number: 2,
        at: 1,
    },
    Case {
        file: b"\x01\x00\x00",
        number: 3,
        at: 1,
    },
    Case {
        file: b"\x01\x00\x01\x09",
        number: 3,
        at: 1,
    },
    Case {
        file: b"\x01\x00\x04\x01\x00\x00\x00",
        number: 3,
        at: 1,
    },
    Case {
        file: b"\x01\x00\x03\x02\x00\x0a",
        number: 3,
        at: 1,
    },
    Case {
        file: b"\x01\x00\x05\x01\x00\x00\x00\x64\x00\x05\x01\x00\x00\x00\x64",
        number: 3,
        at: 8,
    },
    Case {
        file: b"\x01\x00\x05\x01\x00\x00\x00\x64\x00\x03\x04\x00\x50",
        number: 3,
        at: 8,
    },
    Case {
        file: b"\x01\x00\x05\x01\x01\x00\x00\x00",
        number: 4,
        at: 1,
    },
    Case {
        file: b"\x01\x00\x05\x01\x00\x00\x00\x64\x00\x03\x02\x00\x00",
        number: 4,
        at: 8,
    },
    Case {
        file: b"\x01\x00\x05\x01\x00\x00\x00\x64\x00\x03\x02\x00\x0a\x00\x03\x04\xea\x61",
        number: 4,
        at: 13,
    },
    Case {
        file: b"\x01\x00\x05\x01\x00\x00\x00\x64\x00\x03\x02\x00\x0a\x00\x03\x04\x00\x01\x00\x03\x04\x00\x01\x00\x03\x04\x00\x01\x00\x03\x04\x00\x01\x00\x03\x04\x00\x00",
        number: 5,
        at: 33,
    },
    Case {
        file: b"\x01",
        number: 6,
        at: 1,
    },
    Case {
        file: b"\x01\x00\x05\x01\x00\x00\x00\x64",
        number: 6,
        at: 8,
    },
];

#[test]
fn each_refusal_has_its_place(rt: HostRuntime) -> Result<(), Fail> {
    for case in &REFUSED {
        let Err(refusal) = planfile::read(case.file) else {
            return Err(Fail::new("accepted"));
        };
        assert_eq!(rt; refusal.number(), case.number);
        assert_eq!(rt; refusal.place(), Place::At(case.at));
    }
    Ok(())
}

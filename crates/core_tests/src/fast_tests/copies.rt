//! A desk and its copy go on apart.
use super::{at, opening, vacancy};
use crate::commands::{enrol, list, set_up, take};
use desk_base::{Minute, PersonNo, VacNo};
use desk_model::{Cmd, DeskCore, Edition, Reply, VacState};
use fast_core::FastCore;
use std::test::Fail;

// The time at which a command is stated, and the command.
type Step = (&'static [u8], Option<Cmd>);

fn next() -> Option<Cmd> {
    Some(Cmd::Next {
        vac: VacNo::new(12)?,
    })
}

fn decline() -> Option<Cmd> {
    Some(Cmd::Decline {
        vac: VacNo::new(12)?,
        person: PersonNo::new(101)?,
    })
}

fn accept() -> Option<Cmd> {
    Some(Cmd::Accept {
        vac: VacNo::new(12)?,
        person: PersonNo::new(101)?,
    })
}

fn how_it_stands() -> Option<Cmd> {
    Some(Cmd::Vac {
        vac: VacNo::new(12)?,
    })
}

// What is stated until vacancy 12 is on offer to 101, who stands before 102.
fn past() -> [Step; 7] {
    [
        (b"00:01", enrol(101)),
        (b"00:01", enrol(102)),
        (b"00:01", set_up(b"P1", false, b"HOM")),
        (b"00:02", list(101, b"P1")),
        (b"00:02", list(102, b"P1")),
        (b"00:03", vacancy(12)),
        (b"00:04", next()),
    ]
}

// Whether two desks answer all of these steps alike.
fn are_alike(one: &mut FastCore, other: &mut FastCore, steps: &[Step]) -> bool {
    let mut alike = true;
    for (time, cmd) in steps {
        alike &= take(one, at(time), *cmd) == take(other, at(time), *cmd);
    }
    alike
}

// The answer to it at eight minutes past midnight.
fn stands(state: Option<VacState>) -> Option<(Minute, Reply)> {
    Some((at(b"00:08")?, Reply::State(state?)))
}

#[test]
fn a_desk_and_its_copy_go_on_apart(rt: HostRuntime) -> Result<(), Fail> {
    let alloc = rt.alloc();
    let opening = opening(Edition::Two).ok_or("no opening")?;
    let mut desk = FastCore::new(alloc, opening, 10)?;
    let mut one = FastCore::new(alloc, opening, 10)?;
    let mut other = FastCore::new(alloc, opening, 10)?;
    for (time, cmd) in past() {
        take(&mut desk, at(time), cmd);
    }
    assert!(rt; are_alike(&mut one, &mut other, &past()));
    let mut copy = desk.copy(alloc)?;
    let accepted: [Step; 2] = [(b"00:05", accept()), (b"00:06", next())];
    assert!(rt; are_alike(&mut copy, &mut other, &accepted));
    let declined: [Step; 2] = [(b"00:05", decline()), (b"00:06", next())];
    assert!(rt; are_alike(&mut desk, &mut one, &declined));
    let taken = take(&mut copy, at(b"00:08"), how_it_stands());
    assert!(rt; taken == stands(PersonNo::new(101).map(VacState::Taken)));
    let offered = take(&mut desk, at(b"00:08"), how_it_stands());
    assert!(rt; offered == stands(PersonNo::new(102).map(VacState::OnOffer)));
    assert_eq!(rt; (desk.left(), copy.left()), (0, 0));
    Ok(())
}

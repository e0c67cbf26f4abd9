//! Worked by hand: the last tour that has ended, what the minutes before and behind an event count as, and how many are
//! asked about.
use crate::asks::{Asks, Case};
use crate::scans;
use crate::told::At::Number;
use crate::told::{Does, Stands};
use duty_events::{Kind, MinuteKind};

const TOURS: [Case; 2] = [
    // a tour with a ride before its duty, other service, and a tour that is released during an interim
    (
        &[
            (Number(900), Does::Ride),
            (Number(1000), Does::Duty),
            (Number(1500), Does::Final(b"HOM")),
            (Number(2000), Does::Other(Number(2100), b"FAR")),
            (Number(3000), Does::Duty),
            (Number(3200), Does::Interim(Kind::D, b"AWAY")),
            (Number(3500), Does::Final(b"AWAY")),
        ],
        &[],
        &[
            Asks::LastTour(0, None, Stands::Off),
            Asks::LastTour(1, None, Stands::Riding),
            Asks::LastTour(2, None, Stands::Duty),
            Asks::LastTour(3, Some((900, 1500, b"HOM")), Stands::Off),
            Asks::LastTour(4, Some((900, 1500, b"HOM")), Stands::Off),
            Asks::LastTour(5, Some((900, 1500, b"HOM")), Stands::Duty),
            Asks::LastTour(
                6,
                Some((900, 1500, b"HOM")),
                Stands::Interim(Kind::D, Number(3200), b"AWAY"),
            ),
            Asks::LastTour(7, Some((3000, 3200, b"AWAY")), Stands::Off),
            Asks::Kinds(0, MinuteKind::Off, MinuteKind::Off),
            Asks::Kinds(1, MinuteKind::OnDuty, MinuteKind::Off),
            Asks::Kinds(2, MinuteKind::OnDuty, MinuteKind::Off),
            Asks::Kinds(3, MinuteKind::Off, MinuteKind::Off),
            Asks::Kinds(4, MinuteKind::Off, MinuteKind::Off),
            Asks::Kinds(5, MinuteKind::OnDuty, MinuteKind::Off),
            Asks::Kinds(6, MinuteKind::Off, MinuteKind::Open),
        ],
    ),
    // from a minute of 2008 on: ten hours of duty and one of limbo, a hundred minutes of other service, and a tour in whose
    // interim the list ends
    (
        &[
            (Number(20_000_000), Does::Duty),
            (Number(20_000_600), Does::Relieve),
            (Number(20_000_660), Does::Final(b"HOM")),
            (Number(20_001_000), Does::Other(Number(20_001_100), b"FAR")),
            (Number(20_002_000), Does::Duty),
            (Number(20_002_100), Does::Interim(Kind::D, b"AWAY")),
        ],
        &[],
        &[
            Asks::Counts(20_000_000, 0, 0, 0),
            Asks::Counts(19_999_999, 2, 1, 1),
            Asks::Counts(20_000_590, 100, 70, 70),
            Asks::Counts(20_000_600, 450, 110, 60),
            Asks::Counts(20_001_000, 100, 100, 0),
            Asks::Counts(20_001_050, 1_000, 100, 50),
            Asks::Counts(20_002_000, 5_000, 100, 100),
            Asks::Counts(20_002_100, 5_000, 0, 0),
            Asks::Counts(0, 100_000_000, 860, 760),
        ],
    ),
];

#[test]
fn tours_and_their_minutes(rt: HostRuntime) {
    assert_eq!(rt; scans::wrong(rt.alloc(), &TOURS), None);
}

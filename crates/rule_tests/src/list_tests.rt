//! Tables worked by hand: what minutes count as, which lists are lawful, and where someone is.
use crate::asks::{Asks, Case};
use crate::scans;
use crate::told::At::Number;
use crate::told::{Does, Stands, Step};
use duty_events::{Kind, MinuteKind};

// An interim from minute 1000 on, by its kind.
const OF_KIND_D: [Step; 1] = [(Number(1000), Does::Interim(Kind::D, b"AWAY"))];

const OF_KIND_P: [Step; 1] = [(Number(1000), Does::Interim(Kind::P, b"AWAY"))];

const OF_KIND_O: [Step; 1] = [(Number(1000), Does::Interim(Kind::O, b"AWAY"))];

const LISTS: [Case; 29] = [
    // Interims by kind and length.
    // What an interim counts as up to a resume after 239 minutes and after 240, and up to a final release then.
    (
        &OF_KIND_D,
        &[(Number(1239), Does::Resume)],
        &[Asks::Between(MinuteKind::OnDuty)],
    ),
    (
        &OF_KIND_D,
        &[(Number(1239), Does::Final(b"AWAY"))],
        &[Asks::Between(MinuteKind::Off)],
    ),
    (
        &OF_KIND_D,
        &[(Number(1240), Does::Resume)],
        &[Asks::Between(MinuteKind::Off)],
    ),
    (
        &OF_KIND_D,
        &[(Number(1240), Does::Final(b"AWAY"))],
        &[Asks::Between(MinuteKind::Off)],
    ),
    (
        &OF_KIND_P,
        &[(Number(1239), Does::Resume)],
        &[Asks::Between(MinuteKind::OnDuty)],
    ),
    (
        &OF_KIND_P,
        &[(Number(1239), Does::Final(b"AWAY"))],
        &[Asks::Between(MinuteKind::Off)],
    ),
    (
        &OF_KIND_P,
        &[(Number(1240), Does::Resume)],
        &[Asks::Between(MinuteKind::Off)],
    ),
    (
        &OF_KIND_P,
        &[(Number(1240), Does::Final(b"AWAY"))],
        &[Asks::Between(MinuteKind::Off)],
    ),
    (
        &OF_KIND_O,
        &[(Number(1239), Does::Resume)],
        &[Asks::Between(MinuteKind::OnDuty)],
    ),
    (
        &OF_KIND_O,
        &[(Number(1239), Does::Final(b"AWAY"))],
        &[Asks::Between(MinuteKind::Off)],
    ),
    (
        &OF_KIND_O,
        &[(Number(1240), Does::Resume)],
        &[Asks::Between(MinuteKind::OnDuty)],
    ),
    (
        &OF_KIND_O,
        &[(Number(1240), Does::Final(b"AWAY"))],
        &[Asks::Between(MinuteKind::Off)],
    ),
    // Lawful lists, and what may follow.
    // no events
    (&[], &[], &[Asks::Lawful(true)]),
    // the first minute of the years, and the one before it
    (
        &[(Number(15_778_080), Does::Duty)],
        &[(Number(15_778_080), Does::Final(b"HOM"))],
        &[Asks::Lawful(true)],
    ),
    (
        &[(Number(15_778_079), Does::Duty)],
        &[(Number(15_778_080), Does::Final(b"HOM"))],
        &[Asks::Lawful(false)],
    ),
    // the last minute of the years, and the one behind it
    (
        &[(Number(68_374_079), Does::Duty)],
        &[(Number(68_374_079), Does::Final(b"HOM"))],
        &[Asks::Lawful(true)],
    ),
    (
        &[(Number(68_374_079), Does::Duty)],
        &[(Number(68_374_080), Does::Final(b"HOM"))],
        &[Asks::Lawful(false), Asks::MayFollow(false)],
    ),
    // a release at once
    (
        &[(Number(20_000_000), Does::Duty)],
        &[(Number(20_000_000), Does::Final(b"HOM"))],
        &[Asks::MayFollow(true)],
    ),
    // and one before the duty
    (
        &[(Number(20_000_001), Does::Duty)],
        &[(Number(20_000_000), Does::Final(b"HOM"))],
        &[Asks::Lawful(false), Asks::MayFollow(false)],
    ),
    // Places after tours and other service.
    // of someone who did nothing
    (&[], &[], &[Asks::Place(Number(1000), b"HOM")]),
    // before other service ends, and then
    (
        &[
            (Number(900), Does::Other(Number(1000), b"NEAR")),
            (Number(1000), Does::Duty),
        ],
        &[],
        &[
            Asks::Place(Number(999), b"HOM"),
            Asks::Place(Number(1000), b"NEAR"),
        ],
    ),
    // of two services that end at once the later in the list
    (
        &[
            (Number(900), Does::Other(Number(1000), b"NEAR")),
            (Number(990), Does::Other(Number(1000), b"FAR")),
        ],
        &[],
        &[Asks::Place(Number(1000), b"FAR")],
    ),
    (
        &[
            (Number(990), Does::Other(Number(1000), b"FAR")),
            (Number(900), Does::Other(Number(1000), b"NEAR")),
        ],
        &[],
        &[Asks::Place(Number(1000), b"NEAR")],
    ),
    // before a final release, and then
    (
        &[
            (Number(1000), Does::Duty),
            (Number(1000), Does::Final(b"FAR")),
        ],
        &[],
        &[
            Asks::Place(Number(999), b"HOM"),
            Asks::Place(Number(1000), b"FAR"),
        ],
    ),
    // in an interim that has not ended
    (
        &[
            (Number(1000), Does::Duty),
            (Number(1100), Does::Interim(Kind::O, b"AWAY")),
        ],
        &[],
        &[Asks::Place(Number(1200), b"HOM")],
    ),
    // a tour ends where its last interim began, and when it did
    (
        &[
            (Number(900), Does::Duty),
            (Number(1000), Does::Interim(Kind::O, b"AWAY")),
            (Number(1300), Does::Final(b"AWAY")),
        ],
        &[],
        &[
            Asks::Place(Number(999), b"HOM"),
            Asks::Place(Number(1000), b"AWAY"),
        ],
    ),
    (
        &[
            (Number(900), Does::Duty),
            (Number(1000), Does::Interim(Kind::O, b"AWAY")),
            (Number(1000), Does::Final(b"AWAY")),
        ],
        &[],
        &[Asks::Place(Number(1000), b"AWAY")],
    ),
    // Places before and behind an event.
    // Where someone of HOM is before an event and behind it.
    // a final release during an interim
    (
        &[],
        &[(Number(1000), Does::Final(b"AWAY"))],
        &[
            Asks::PlaceUntil(Stands::Interim(Kind::O, Number(1000), b"AWAY"), b"AWAY"),
            Asks::PlaceBehind(b"AWAY"),
        ],
    ),
    // other service
    (
        &[],
        &[(Number(900), Does::Other(Number(1000), b"FAR"))],
        &[Asks::PlaceBehind(b"FAR")],
    ),
];

#[test]
fn lists_of_events(rt: HostRuntime) {
    assert_eq!(rt; scans::wrong(rt.alloc(), &LISTS), None);
}

//! Interims, worked by hand: what they leave of the used minutes of a month.
use crate::asks::{Asks, Case};
use crate::cases;
use crate::told::At::March;
use crate::told::{Does, Step};
use duty_events::Kind;

// A tour from 08:00 with an interim from 10:00 on, of kind D.
const OF_KIND_D: [Step; 2] = [
    (March(4, 8_00), Does::Duty),
    (March(4, 10_00), Does::Interim(Kind::D, b"HOM")),
];

// A tour from 08:00 with an interim from 10:00 on, of kind P.
const OF_KIND_P: [Step; 2] = [
    (March(4, 8_00), Does::Duty),
    (March(4, 10_00), Does::Interim(Kind::P, b"HOM")),
];

// A tour from 08:00 with an interim from 10:00 on, of kind O.
const OF_KIND_O: [Step; 2] = [
    (March(4, 8_00), Does::Duty),
    (March(4, 10_00), Does::Interim(Kind::O, b"HOM")),
];

const INTERIMS: [Case; 24] = [
    // Before a resume.
    // 239 minutes are on duty
    (
        &OF_KIND_D,
        &[
            (March(4, 13_59), Does::Resume),
            (March(4, 16_00), Does::Final(b"HOM")),
        ],
        &[Asks::Lawful(true), Asks::Hours(b"2024-03", 480, 0)],
    ),
    // 240 are off
    (
        &OF_KIND_D,
        &[
            (March(4, 14_00), Does::Resume),
            (March(4, 16_00), Does::Final(b"HOM")),
        ],
        &[Asks::Lawful(true), Asks::Hours(b"2024-03", 240, 0)],
    ),
    // 239 minutes are on duty
    (
        &OF_KIND_P,
        &[
            (March(4, 13_59), Does::Resume),
            (March(4, 16_00), Does::Final(b"HOM")),
        ],
        &[Asks::Lawful(true), Asks::Hours(b"2024-03", 480, 0)],
    ),
    // 240 are off
    (
        &OF_KIND_P,
        &[
            (March(4, 14_00), Does::Resume),
            (March(4, 16_00), Does::Final(b"HOM")),
        ],
        &[Asks::Lawful(true), Asks::Hours(b"2024-03", 240, 0)],
    ),
    // at another place they are on duty, however many they are
    (
        &OF_KIND_O,
        &[
            (March(4, 13_59), Does::Resume),
            (March(4, 16_00), Does::Final(b"HOM")),
        ],
        &[Asks::Lawful(true), Asks::Hours(b"2024-03", 480, 0)],
    ),
    (
        &OF_KIND_O,
        &[
            (March(4, 14_00), Does::Resume),
            (March(4, 16_00), Does::Final(b"HOM")),
        ],
        &[Asks::Lawful(true), Asks::Hours(b"2024-03", 480, 0)],
    ),
    // a minute less than ten hours is off
    (
        &OF_KIND_D,
        &[
            (March(4, 19_59), Does::Resume),
            (March(4, 22_00), Does::Final(b"HOM")),
        ],
        &[Asks::Lawful(true), Asks::Hours(b"2024-03", 241, 0)],
    ),
    // after ten hours nobody resumes
    (
        &OF_KIND_D,
        &[
            (March(4, 20_00), Does::Resume),
            (March(4, 22_00), Does::Final(b"HOM")),
        ],
        &[Asks::Lawful(false)],
    ),
    // a minute less than ten hours is off
    (
        &OF_KIND_P,
        &[
            (March(4, 19_59), Does::Resume),
            (March(4, 22_00), Does::Final(b"HOM")),
        ],
        &[Asks::Lawful(true), Asks::Hours(b"2024-03", 241, 0)],
    ),
    // after ten hours nobody resumes
    (
        &OF_KIND_P,
        &[
            (March(4, 20_00), Does::Resume),
            (March(4, 22_00), Does::Final(b"HOM")),
        ],
        &[Asks::Lawful(false)],
    ),
    // but from another place they do
    (
        &OF_KIND_O,
        &[
            (March(4, 20_00), Does::Resume),
            (March(4, 22_00), Does::Final(b"HOM")),
        ],
        &[Asks::Lawful(true), Asks::Hours(b"2024-03", 840, 0)],
    ),
    // an interim and a closing part of no minutes
    (
        &OF_KIND_D,
        &[
            (March(4, 10_00), Does::Resume),
            (March(4, 10_00), Does::Final(b"HOM")),
        ],
        &[Asks::Lawful(true), Asks::Hours(b"2024-03", 120, 0)],
    ),
    // after ten hours nobody resumes, whatever comes then
    (
        &OF_KIND_D,
        &[
            (March(4, 20_00), Does::Resume),
            (March(4, 16_00), Does::Final(b"HOM")),
        ],
        &[Asks::Lawful(false)],
    ),
    // Before a final release.
    // A final release during an interim: it is off, whatever its kind and its length.
    (
        &OF_KIND_D,
        &[(March(4, 10_00), Does::Final(b"HOM"))],
        &[Asks::Hours(b"2024-03", 120, 0)],
    ),
    (
        &OF_KIND_D,
        &[(March(4, 10_01), Does::Final(b"HOM"))],
        &[Asks::Hours(b"2024-03", 120, 0)],
    ),
    (
        &OF_KIND_D,
        &[(March(4, 23_00), Does::Final(b"HOM"))],
        &[Asks::Hours(b"2024-03", 120, 0)],
    ),
    (
        &OF_KIND_P,
        &[(March(4, 10_00), Does::Final(b"HOM"))],
        &[Asks::Hours(b"2024-03", 120, 0)],
    ),
    (
        &OF_KIND_P,
        &[(March(4, 10_01), Does::Final(b"HOM"))],
        &[Asks::Hours(b"2024-03", 120, 0)],
    ),
    (
        &OF_KIND_P,
        &[(March(4, 23_00), Does::Final(b"HOM"))],
        &[Asks::Hours(b"2024-03", 120, 0)],
    ),
    (
        &OF_KIND_O,
        &[(March(4, 10_00), Does::Final(b"HOM"))],
        &[Asks::Hours(b"2024-03", 120, 0)],
    ),
    (
        &OF_KIND_O,
        &[(March(4, 10_01), Does::Final(b"HOM"))],
        &[Asks::Hours(b"2024-03", 120, 0)],
    ),
    (
        &OF_KIND_O,
        &[(March(4, 23_00), Does::Final(b"HOM"))],
        &[Asks::Hours(b"2024-03", 120, 0)],
    ),
    // That have not ended.
    // The interim is counted nowhere, and the two hours before it count while it runs.
    (&OF_KIND_D, &[], &[Asks::Hours(b"2024-03", 120, 0)]),
    (&OF_KIND_O, &[], &[Asks::Hours(b"2024-03", 120, 0)]),
];

#[test]
fn interims(rt: HostRuntime) {
    assert_eq!(rt; cases::wrong(rt.alloc(), b"2024-03", 1, &INTERIMS), None);
}

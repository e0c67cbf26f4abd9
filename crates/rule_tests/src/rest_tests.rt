//! Worked by hand: since when someone is off, when rest ends, and what bars them before.
use crate::asks::{Asks, Case, Wanted};
use crate::cases;
use crate::told::At::{March, Number};
use crate::told::{Does, Stands};
use duty_events::Kind;

const REST: [Case; 10] = [
    // Where a tour ends.
    // a closing part of no minutes: nothing is worked from 10:00 on, and the tour ends at 15:00; the bars keep ten hours from
    // work, and rest is not there before ten hours from that end
    (
        &[
            (March(4, 8_00), Does::Duty),
            (March(4, 10_00), Does::Interim(Kind::D, b"HOM")),
            (March(4, 15_00), Does::Resume),
            (March(4, 15_00), Does::Final(b"HOM")),
        ],
        &[],
        &[
            Asks::Stands(Stands::Off),
            Asks::Place(March(4, 15_00), b"HOM"),
            Asks::Last(March(4, 15_00)),
            Asks::Hours(b"2024-03", 120, 0),
            Asks::OffFrom(March(4, 10_00), 0),
            Asks::RestEnds(March(4, 20_00)),
            Asks::Rested(March(4, 20_00), 0, false),
            Asks::Rested(March(5, 0_59), 0, false),
            Asks::Rested(March(5, 1_00), 0, true),
            Asks::Report(March(4, 20_00), Wanted::Rest(March(4, 20_00))),
            Asks::Report(March(5, 0_59), Wanted::Rest(March(4, 20_00))),
            Asks::Report(March(5, 1_00), Wanted::Free),
            Asks::Law(
                March(4, 22_00),
                March(5, 0_30),
                600,
                0,
                Wanted::Rest(March(4, 20_00)),
            ),
            Asks::Law(
                March(4, 22_00),
                March(5, 1_00),
                600,
                0,
                Wanted::Undisturbed(March(4, 20_00)),
            ),
            Asks::Law(March(5, 1_00), March(5, 1_00), 600, 0, Wanted::Free),
        ],
    ),
    // released finally at 20:00 during an interim, and so since 14:00
    (
        &[
            (March(4, 8_00), Does::Duty),
            (March(4, 14_00), Does::Interim(Kind::D, b"HOM")),
            (March(4, 20_00), Does::Final(b"HOM")),
        ],
        &[],
        &[
            Asks::Stands(Stands::Off),
            Asks::Place(March(4, 20_00), b"HOM"),
            Asks::Last(March(4, 20_00)),
            Asks::Hours(b"2024-03", 360, 0),
            Asks::OffFrom(March(4, 14_00), 0),
            Asks::RestEnds(March(5, 0_00)),
            Asks::Rested(March(4, 23_59), 0, false),
            Asks::Rested(March(5, 0_00), 0, true),
            Asks::Report(March(4, 23_59), Wanted::Rest(March(5, 0_00))),
            Asks::Report(March(5, 0_00), Wanted::Free),
        ],
    ),
    // ten hours off are a rest, from where the interim began during which the final release came
    (
        &[
            (March(4, 8_00), Does::Duty),
            (March(4, 14_00), Does::Interim(Kind::D, b"ALT")),
        ],
        &[(March(4, 20_00), Does::Final(b"ALT"))],
        &[
            Asks::Place(March(4, 20_00), b"ALT"),
            Asks::Hours(b"2024-03", 360, 0),
            Asks::Law(
                March(4, 20_01),
                March(5, 0_00),
                600,
                0,
                Wanted::Undisturbed(March(5, 0_00)),
            ),
            Asks::Law(March(5, 0_00), March(5, 0_00), 600, 0, Wanted::Free),
        ],
    ),
    // Minutes of an interim that has not ended.
    // two tours nine hours apart: in the second the interim runs from 05:00 on, and its minutes are no rest
    (
        &[
            (March(4, 8_00), Does::Duty),
            (March(4, 18_00), Does::Final(b"HOM")),
            (March(5, 3_00), Does::Duty),
            (March(5, 5_00), Does::Interim(Kind::O, b"HOM")),
        ],
        &[],
        &[Asks::Rested(March(5, 23_00), 0, false)],
    ),
    // a final release makes them a rest
    (
        &[
            (March(4, 8_00), Does::Duty),
            (March(4, 18_00), Does::Final(b"HOM")),
            (March(5, 3_00), Does::Duty),
            (March(5, 5_00), Does::Interim(Kind::O, b"HOM")),
        ],
        &[(March(5, 23_00), Does::Final(b"HOM"))],
        &[
            Asks::Rested(March(5, 23_00), 0, true),
            Asks::Stands(Stands::Off),
            Asks::Place(March(5, 23_00), b"HOM"),
            Asks::Last(March(5, 23_00)),
            Asks::Hours(b"2024-03", 720, 0),
            Asks::RestEnds(March(5, 15_00)),
            Asks::Report(March(5, 23_00), Wanted::Free),
        ],
    ),
    // a long stretch before it counts, though nothing after it does; and nobody may ask yet
    (
        &[
            (March(4, 8_00), Does::Duty),
            (March(4, 18_00), Does::Final(b"HOM")),
            (March(6, 3_00), Does::Duty),
            (March(6, 5_00), Does::Interim(Kind::O, b"HOM")),
        ],
        &[],
        &[
            Asks::Rested(March(6, 14_59), 0, false),
            Asks::Rested(March(6, 15_00), 0, true),
            Asks::Stands(Stands::Interim(Kind::O, March(6, 5_00), b"HOM")),
            Asks::Last(March(6, 5_00)),
            Asks::Hours(b"2024-03", 720, 0),
            Asks::Report(March(6, 15_00), Wanted::NoAnswer),
        ],
    ),
    // Where nothing is worked.
    // nothing is told
    (
        &[],
        &[],
        &[
            Asks::Nothing,
            Asks::OffFrom(Number(0), 0),
            Asks::RestEnds(Number(0)),
            Asks::Rested(Number(0), u32::MAX, true),
            Asks::Hours(b"2024-03", 0, 0),
            Asks::Report(March(4, 8_00), Wanted::Free),
        ],
    ),
    // a tour of no minutes
    (
        &[
            (March(4, 8_00), Does::Duty),
            (March(4, 8_00), Does::Final(b"HOM")),
        ],
        &[],
        &[
            Asks::OffFrom(Number(0), 0),
            Asks::RestEnds(Number(0)),
            Asks::Rested(March(4, 8_00), 90, true),
            Asks::Last(March(4, 8_00)),
            Asks::Hours(b"2024-03", 0, 0),
            Asks::Report(March(4, 8_00), Wanted::Free),
        ],
    ),
    // all is off before the first service
    (
        &[(March(4, 8_00), Does::Other(March(4, 16_00), b"HOM"))],
        &[],
        &[
            Asks::Stands(Stands::Off),
            Asks::Place(March(4, 16_00), b"HOM"),
            Asks::Last(March(4, 16_00)),
            Asks::Hours(b"2024-03", 480, 0),
            Asks::OffFrom(March(4, 16_00), 0),
            Asks::RestEnds(March(5, 2_00)),
            Asks::Rested(March(5, 1_59), 90, false),
            Asks::Rested(March(5, 2_00), 90, true),
            Asks::Report(March(5, 1_59), Wanted::Rest(March(5, 2_00))),
            Asks::Report(March(5, 2_00), Wanted::Free),
        ],
    ),
    // a ride alone is work
    (
        &[
            (March(4, 8_00), Does::Ride),
            (March(4, 9_00), Does::Final(b"HOM")),
        ],
        &[],
        &[
            Asks::Stands(Stands::Off),
            Asks::Place(March(4, 9_00), b"HOM"),
            Asks::Last(March(4, 9_00)),
            Asks::Hours(b"2024-03", 60, 0),
            Asks::RestEnds(March(4, 19_00)),
            Asks::Report(March(4, 18_59), Wanted::Rest(March(4, 19_00))),
            Asks::Report(March(4, 19_00), Wanted::Free),
        ],
    ),
];

#[test]
fn since_when_someone_is_off(rt: HostRuntime) {
    assert_eq!(rt; cases::wrong(rt.alloc(), b"2024-03", 1, &REST), None);
}

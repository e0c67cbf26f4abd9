//! Records of journals that were worked by hand: legal ones, and lists of entries that no desk writes.
use desk_base::{Code, Minute, PersonNo, VacNo};
use desk_model::{Chain, Cmd, Entry, Job, Reply, Stated};
use duty_events::{Event, Kind};
use duty_record::{TourRecord, excess_list, records, to_json};
use qualifications::{Craft, Quals};
use std::alloc::Global;
use std::test::Fail;

// ---- commands, each by a short word

// A minute of 2024-03-04; 24:00 is the next day's first.
fn at(time: &[u8]) -> Option<Minute> {
    if time == b"24:00".as_slice() {
        return Minute::read(b"2024-03-05 00:00");
    }
    let mut text = *b"2024-03-04 00:00";
    if time.len() != 5 {
        return None;
    }
    text[11..].copy_from_slice(time);
    Minute::read(&text)
}

// Person 101, 202 or 303, by a digit.
fn person(digit: u8) -> Option<PersonNo> {
    PersonNo::new(101 * u32::from(digit.saturating_sub(b'0')))
}

fn vac(digit: u8) -> Option<VacNo> {
    VacNo::new(u32::from(digit.saturating_sub(b'0')))
}

// `d` for a duty, `w` for a relieve, `i` for an interim and `f` for a final release; then the time, and the place.
fn event(word: &[u8]) -> Option<Event> {
    let (kind, rest) = word.split_first()?;
    let (time, place) = rest.split_at_checked(5)?;
    let minute = at(time)?;
    match kind {
        b'd' => Some(Event::Duty(minute)),
        b'w' => Some(Event::Relieve(minute)),
        b'i' => Some(Event::Interim(minute, Kind::D, Code::read(place)?)),
        _ => Some(Event::Final(minute, Code::read(place)?)),
    }
}

// A vacancy of 600 minutes; `+` is for a relief crew.
fn job(digit: u8, word: &[u8]) -> Option<Job> {
    let number = vac(digit)?;
    let quals = Quals::read(b"-")?;
    let report = at(b"08:00")?;
    let home = Code::read(b"HOM")?;
    let chain = Chain::read(b"P1")?;
    let relief = word == b"+".as_slice();
    Job::new(number, Craft::E, quals, home, report, 600, 0, chain, relief)
}

// `v` makes a vacancy, `n` annuls it, `a` accepts it, `x` drops it, `p` tells the past, and `e` what happens.
fn command(word: &[u8]) -> Option<Cmd> {
    let (kind, rest) = word.split_first()?;
    let (who, rest) = rest.split_first()?;
    match kind {
        b'v' => Some(Cmd::Vacancy(job(*who, rest)?)),
        b'n' => Some(Cmd::Annul { vac: vac(*who)? }),
        b'a' => accept(*who, rest),
        b'x' => Some(Cmd::Drop {
            person: person(*who)?,
        }),
        b'p' => Some(Cmd::Past {
            person: person(*who)?,
            event: event(rest)?,
        }),
        _ => Some(Cmd::Happened {
            person: person(*who)?,
            event: event(rest)?,
        }),
    }
}

fn accept(digit: u8, rest: &[u8]) -> Option<Cmd> {
    let (who, _) = rest.split_first()?;
    Some(Cmd::Accept {
        vac: vac(digit)?,
        person: person(*who)?,
    })
}

// The entry of a word: it was done, or refused where `-` stands before it.
fn entry(word: &[u8]) -> Option<Entry> {
    let minute = at(b"23:59")?;
    let (cmd, reply) = match word.strip_prefix(b"-".as_slice()) {
        Some(rest) => (command(rest)?, Reply::PastClosed),
        None => (command(word)?, Reply::Done),
    };
    Some(Entry::new(0, Stated::new(minute, cmd)?, minute, reply))
}

fn entries_of(alloc: Global, words: &[&[u8]]) -> Result<Vec<Entry>, Fail> {
    let mut entries = Vec::new(alloc);
    for word in words {
        entries.push(entry(word).ok_or("no entry")?)?;
    }
    Ok(entries)
}

// ---- texts

// The JSON text of a person's records.
fn text_of(alloc: Global, words: &[&[u8]], digit: u8) -> Result<String, Fail> {
    let person = person(digit).ok_or("no person")?;
    let entries = entries_of(alloc, words)?;
    let tours = records(alloc, &entries, person)?;
    Ok(to_json(alloc, &tours)?)
}

// That of the excess list.
fn excess_text(alloc: Global, words: &[&[u8]]) -> Result<String, Fail> {
    let entries = entries_of(alloc, words)?;
    let tours = excess_list(alloc, &entries)?;
    Ok(to_json(alloc, &tours)?)
}

const WITH_EXCESS: [&[u8]; 3] = [b"p1d08:00", b"p1w20:00", b"p1f21:30HOM"];

const EXCESS_TEXT: &str =
    "[{\"capped\":90,\"end\":\"2024-03-04 21:30\",\"excess\":90,\"limbo\":90,\"on_duty\":720,\"over\":false,\"person\":101,\"place\":\"HOM\",\"start\":\"2024-03-04 08:00\",\"vacancy\":0}]";

const RELIEF: [&[u8]; 4] = [b"v5+", b"a51", b"e1d08:00", b"e1f24:00HOM"];

const RELIEF_TEXT: &str =
    "[{\"capped\":0,\"end\":\"2024-03-05 00:00\",\"excess\":240,\"limbo\":0,\"on_duty\":960,\"over\":false,\"person\":101,\"place\":\"HOM\",\"start\":\"2024-03-04 08:00\",\"vacancy\":5}]";

#[test]
fn texts_of_records(rt: HostRuntime) -> Result<(), Fail> {
    let alloc = rt.alloc();
    assert!(rt; text_of(alloc, &WITH_EXCESS, b'1')?.as_str() == EXCESS_TEXT);
    assert!(rt; excess_text(alloc, &WITH_EXCESS)?.as_str() == EXCESS_TEXT);
    assert!(rt; text_of(alloc, &RELIEF, b'1')?.as_str() == RELIEF_TEXT);
    assert!(rt; text_of(alloc, &RELIEF, b'2')?.as_str() == "[]");
    assert!(rt; excess_text(alloc, &[])?.as_str() == "[]");
    Ok(())
}

// ---- records

// Of a record of person 101: the vacancy, from when to when and where, the minutes on duty, and whether those are over.
type Wanted = (u32, &'static [u8], &'static [u8], &'static [u8], u32, bool);

fn is_wanted(found: &TourRecord, wanted: &Wanted) -> bool {
    let (vacancy, start, end, place, on_duty, over) = wanted;
    let goes = Some(found.start) == at(start) && Some(found.end) == at(end);
    let counts = found.on_duty == *on_duty && found.excess == on_duty.saturating_sub(720);
    goes && counts
        && found.vacancy == *vacancy
        && found.over == *over
        && found.place.text() == *place
}

// What is told, and the records of person 101 by it.
type Case = (&'static [&'static [u8]], &'static [Wanted]);

const CASES: [Case; 9] = [
    // a relief crew has sixteen hours
    (
        &[b"v5+", b"a51", b"e1d07:58", b"e1f23:59HOM"],
        &[(5, b"07:58", b"23:59", b"HOM", 961, true)],
    ),
    // another twelve, and the next tour is begun for nothing
    (
        &[
            b"v5-",
            b"a51",
            b"e1d00:00",
            b"e1f12:00HOM",
            b"e1d11:00",
            b"e1d12:00",
            b"e1f13:00HOM",
        ],
        &[
            (5, b"00:00", b"12:00", b"HOM", 720, false),
            (0, b"12:00", b"13:00", b"HOM", 60, false),
        ],
    ),
    // a vacancy that is made behind its tour, and then again
    (
        &[b"a51", b"e1d00:00", b"e1f12:01HOM", b"v5-", b"v5+"],
        &[(5, b"00:00", b"12:01", b"HOM", 721, true)],
    ),
    // a release during an interim ends the tour where that began, and not at another place
    (
        &[b"p1d08:00", b"p1i14:00ALT", b"p1f20:00HOM", b"p1f20:00ALT"],
        &[(0, b"08:00", b"14:00", b"ALT", 360, false)],
    ),
    // who gives it up has none
    (
        &[b"a31", b"x1", b"e1d01:00", b"e1f02:00HOM"],
        &[(0, b"01:00", b"02:00", b"HOM", 60, false)],
    ),
    // where it is annulled, nobody has it
    (
        &[b"a31", b"a32", b"n3", b"e1d01:00", b"e1f02:00HOM"],
        &[(0, b"01:00", b"02:00", b"HOM", 60, false)],
    ),
    // the past is told for none
    (
        &[b"a31", b"p1d01:00", b"p1f02:00HOM"],
        &[(0, b"01:00", b"02:00", b"HOM", 60, false)],
    ),
    // a report that isn't allowed ends an assignment all the same
    (
        &[
            b"p1d01:00",
            b"a31",
            b"e1d00:30",
            b"e1f02:00HOM",
            b"e1d03:00",
            b"e1f04:00HOM",
        ],
        &[
            (0, b"01:00", b"02:00", b"HOM", 60, false),
            (0, b"03:00", b"04:00", b"HOM", 60, false),
        ],
    ),
    // another's annulment changes nothing, and what is accepted again is theirs
    (
        &[
            b"a31",
            b"n3",
            b"n4",
            b"a31",
            b"n5",
            b"e1d01:00",
            b"e1f02:00HOM",
        ],
        &[(3, b"01:00", b"02:00", b"HOM", 60, false)],
    ),
];

fn is_right(alloc: Global, case: &Case) -> Result<bool, Fail> {
    let (words, wanted) = case;
    let entries = entries_of(alloc, words)?;
    let tours = records(alloc, &entries, person(b'1').ok_or("no person")?)?;
    for (i, one) in wanted.iter().enumerate() {
        let found = tours.get(i).ok_or("too few")?;
        if !is_wanted(found, one) {
            return Ok(false);
        }
    }
    Ok(tours.len() == wanted.len())
}

#[test]
fn tours_by_hand(rt: HostRuntime) -> Result<(), Fail> {
    for case in &CASES {
        assert!(rt; is_right(rt.alloc(), case)?);
    }
    Ok(())
}

// ---- the excess list

// The persons of the list, by their numbers.
fn persons(alloc: Global, tours: &[TourRecord]) -> Result<Vec<u32>, Fail> {
    let mut numbers = Vec::new(alloc);
    for tour in tours {
        numbers.push(tour.person.number())?;
    }
    Ok(numbers)
}

// The one who comes last has no excess: the release that would give them one was refused.
const THREE: [&[u8]; 7] = [
    b"p2d00:00",
    b"p1d00:00",
    b"p3d00:00",
    b"p1f12:01HOM",
    b"-p3f13:00HOM",
    b"p3f12:00HOM",
    b"p2f13:00HOM",
];

#[test]
fn the_excess_list_goes_by_rising_number(rt: HostRuntime) -> Result<(), Fail> {
    let entries = entries_of(rt.alloc(), &THREE)?;
    let list = persons(rt.alloc(), &excess_list(rt.alloc(), &entries)?)?;
    assert!(rt; list.as_slice() == [101, 202].as_slice());
    Ok(())
}

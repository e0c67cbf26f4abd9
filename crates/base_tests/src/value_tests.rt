//! The clauses say that texts are those of civil dates; these are dates that another calendar computed.
use desk_base::{Code, Day, IndexHints, Minute, Month, NoMemory, PersonNo, VacNo, Window};
use std::alloc::AllocError;
use std::test::Fail;

// Whether the text is that of the minute with this number, which is of this day and this month.
fn is_known(text: &[u8], number: u64, day: u32, month: u16) -> bool {
    let Some(minute) = Minute::read(text) else {
        return false;
    };
    minute.number() == number
        && Some(minute) == Minute::new(number)
        && Day::of(minute).number() == day
        && Month::of(minute).number() == month
}

#[test]
fn minutes_of_known_dates(rt: HostRuntime) {
    let known: [(&[u8], u64, u32, u16); 6] = [
        (b"2000-01-01 00:00", 15_778_080, 10_957, 360),
        (b"2000-02-29 23:59", 15_864_479, 11_016, 361),
        (b"2024-02-29 12:34", 28_486_834, 19_782, 649),
        (b"2024-03-04 00:00", 28_491_840, 19_786, 650),
        (b"2038-01-19 03:14", 35_791_394, 24_855, 816),
        (b"2099-12-31 23:59", 68_374_079, 47_481, 1559),
    ];
    for (text, number, day, month) in known {
        assert!(rt; is_known(text, number, day, month));
    }
    assert!(rt; is_written(b"2024-02-29 12:34"));
}

// Whether the text is that of a minute of the years 2000 to 2099, which is written so.
fn is_written(text: &[u8]) -> bool {
    let Some(minute) = Minute::read(text) else {
        return false;
    };
    minute.number() >= 15_778_080
        && minute.number() < 68_374_080
        && minute.write().as_slice() == text
}

#[test]
fn minutes_after_a_minute(rt: HostRuntime) {
    assert!(rt; Some(Minute::FIRST) == Minute::new(0));
    assert!(rt; Some(Minute::FIRST.after(600)) == Minute::new(600));
    assert!(rt;
        Some(Minute::FIRST.after(600).after(15_777_480)) == Minute::read(b"2000-01-01 00:00")
    );
}

#[test]
fn texts_that_are_no_minutes(rt: HostRuntime) {
    let wrong: [&[u8]; 17] = [
        b"",
        b"2024-03-04 00:0",
        b"2024-03-04 00:000",
        b"2023-02-29 00:00",
        b"2100-02-28 00:00",
        b"1999-12-31 23:59",
        b"2024-00-04 00:00",
        b"2024-13-04 00:00",
        b"2024-03-00 00:00",
        b"2024-03-32 00:00",
        b"2024-04-31 00:00",
        b"2024-03-04 24:00",
        b"2024-03-04 00:60",
        b"2024-03-04T00:00",
        b"2024/03/04 00:00",
        b"2024-03-04 0a:00",
        b"+024-03-04 00:00",
    ];
    for text in wrong {
        assert!(rt; Minute::read(text).is_none());
    }
}

// Whether the text is that of the month with this number, first minute and count of minutes.
fn is_month(text: &[u8], number: u16, first: u64, minutes: u32) -> bool {
    let Some(month) = Month::read(text) else {
        return false;
    };
    Some(month) == Month::new(number)
        && month.number() == number
        && month.first().number() == first
        && month.minutes() == minutes
}

#[test]
fn months_of_the_calendar(rt: HostRuntime) {
    let known: [(&[u8], u16, u64, u32); 4] = [
        (b"2000-01", 360, 15_778_080, 44_640),
        (b"2023-02", 637, 27_920_160, 40_320),
        (b"2024-02", 649, 28_445_760, 41_760),
        (b"2099-12", 1559, 68_329_440, 44_640),
    ];
    for (text, number, first, minutes) in known {
        assert!(rt; is_month(text, number, first, minutes));
    }
    let wrong: [&[u8]; 7] = [
        b"", b"2024-2", b"2024-00", b"2024-13", b"1999-12", b"2100-01", b"2024 02",
    ];
    for text in wrong {
        assert!(rt; Month::read(text).is_none());
    }
    assert!(rt; Month::new(6125).is_none());
}

// The window of so many months from one on, if there is such a window; `None` where the text is no month's.
fn window_of(first: &[u8], months: u8) -> Option<Option<Window>> {
    Some(Window::new(Month::read(first)?, months))
}

// Whether the window is March 2024.
fn is_march(window: &Window) -> bool {
    Some(window.first()) == Month::read(b"2024-03")
        && window.months() == 1
        && Some(window.start()) == Minute::read(b"2024-03-01 00:00")
        && Some(window.end()) == Minute::read(b"2024-04-01 00:00")
}

#[test]
fn windows_end_in_2099(rt: HostRuntime) -> Result<(), Fail> {
    assert!(rt; window_of(b"2099-12", 2) == Some(None));
    assert!(rt; window_of(b"2024-03", 0) == Some(None));
    assert!(rt; window_of(b"2024-03", 25) == Some(None));
    let whole = window_of(b"2099-12", 1).flatten().ok_or("no window")?;
    assert!(rt; whole.end().number() == 68_374_080);
    let window = window_of(b"2024-03", 1).flatten().ok_or("no window")?;
    assert!(rt; is_march(&window));
    let held: [(&[u8], bool); 4] = [
        (b"2024-02-29 23:59", false),
        (b"2024-03-01 00:00", true),
        (b"2024-03-31 23:59", true),
        (b"2024-04-01 00:00", false),
    ];
    for (text, is_held) in held {
        assert!(rt; Minute::read(text).map(|minute| window.holds(minute)) == Some(is_held));
    }
    Ok(())
}

#[test]
fn codes_and_numbers(rt: HostRuntime) -> Result<(), Fail> {
    let good: [&[u8]; 4] = [b"A", b"HOM", b"0Z9", b"ABC123"];
    for text in good {
        let code = Code::read(text).ok_or("not read")?;
        assert!(rt; code.text() == text);
    }
    let wrong: [&[u8]; 6] = [b"", b"ABC1234", b"hom", b"A-B", b"[", b"/"];
    for text in wrong {
        assert!(rt; Code::read(text).is_none());
    }
    let numbers = [
        (0, false),
        (1, true),
        (9_999_999, true),
        (10_000_000, false),
    ];
    for (number, is_number) in numbers {
        assert!(rt; PersonNo::new(number).map(|p| p.number()) == is_number.then_some(number));
        assert!(rt; VacNo::new(number).map(|v| v.number()) == is_number.then_some(number));
    }
    assert!(rt; NoMemory::from(AllocError) == NoMemory);
    Ok(())
}

// Two numbers that are 4,096 apart share a hint.
#[test]
fn a_hint_is_where_a_number_was_put_last(rt: HostRuntime) -> Result<(), Fail> {
    let mut hints = IndexHints::new(rt.alloc(), 12)?;
    assert!(rt; hints.of(7) == 0);
    hints.set(7, 499);
    assert!(rt; hints.of(7) == 499);
    let copy = hints.copy(rt.alloc())?;
    hints.set(4_103, 12);
    assert!(rt; hints.of(7) == 12);
    assert!(rt; copy.of(7) == 499);
    Ok(())
}

// With 2^13 hints, numbers that are 4,096 apart have one each, and 8,192 apart share one.
#[test]
fn more_hints_are_of_fewer_numbers(rt: HostRuntime) -> Result<(), Fail> {
    let mut hints = IndexHints::new(rt.alloc(), 13)?;
    hints.set(7, 499);
    hints.set(4_103, 12);
    assert!(rt; hints.of(7) == 499);
    assert!(rt; hints.of(4_103) == 12);
    hints.set(8_199, 3);
    assert!(rt; hints.of(7) == 3);
    Ok(())
}

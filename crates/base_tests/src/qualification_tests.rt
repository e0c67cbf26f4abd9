use qualifications::{Craft, Quals, QualsText};
use std::test::Fail;

#[test]
fn letters_of_crafts(rt: HostRuntime) {
    for (letter, craft) in [(b"E", Craft::E), (b"C", Craft::C), (b"B", Craft::B)] {
        assert_eq!(rt; Craft::read(letter), Some(craft));
        assert_eq!(rt; craft.text(), letter.as_slice());
    }
    for wrong in [b"e".as_slice(), b"EC", b"", b"X"] {
        assert_eq!(rt; Craft::read(wrong), None);
    }
}

#[test]
fn sets_as_texts(rt: HostRuntime) -> Result<(), Fail> {
    for text in [
        b"-".as_slice(),
        b"0",
        b"3",
        b"63",
        b"0+63",
        b"7+40",
        b"1+2+3+10",
    ] {
        let quals = Quals::read(text).ok_or("not read")?;
        assert_eq!(rt; quals.write().as_slice(), text);
    }
    let some = Quals::read(b"7+40").ok_or("not read")?;
    assert!(rt; some.has(7) && some.has(40));
    assert!(rt; !some.has(0) && !some.has(39) && !some.has(63));
    Ok(())
}

#[test]
fn every_number_at_once(rt: HostRuntime) -> Result<(), Fail> {
    let lower =
        b"0+1+2+3+4+5+6+7+8+9+10+11+12+13+14+15+16+17+18+19+20+21+22+23+24+25+26+27+28+29+30+31";
    let upper =
        b"+32+33+34+35+36+37+38+39+40+41+42+43+44+45+46+47+48+49+50+51+52+53+54+55+56+57+58+59+60+61+62+63";
    let mut all = QualsText::new();
    all.try_extend_from_slice(lower).map_err(|_| "no room")?;
    all.try_extend_from_slice(upper).map_err(|_| "no room")?;
    let quals = Quals::read(all.as_slice()).ok_or("not read")?;
    assert_eq!(rt; quals.write().as_slice(), all.as_slice());
    for number in 0..64 {
        assert!(rt; quals.has(number));
    }
    Ok(())
}

#[test]
fn texts_that_are_no_sets(rt: HostRuntime) {
    let wrong: [&[u8]; 14] = [
        b"",
        b"64",
        b"07",
        b"+7",
        b"7+",
        b"7++40",
        b"40+7",
        b"7+7",
        b"-+7",
        b"7+-",
        b"--",
        b"7 40",
        b"a",
        b"7+4294967303",
    ];
    for text in wrong {
        assert_eq!(rt; Quals::read(text), None);
    }
}

#[test]
fn the_lowest_of_what_is_missing(rt: HostRuntime) -> Result<(), Fail> {
    let none = Quals::read(b"-").ok_or("not read")?;
    let some = Quals::read(b"7+40").ok_or("not read")?;
    let asked = Quals::read(b"7+9+63").ok_or("not read")?;
    assert_eq!(rt; some.lowest_missing(asked), Some(9));
    assert_eq!(rt; none.lowest_missing(asked), Some(7));
    assert_eq!(rt; asked.lowest_missing(asked), None);
    assert_eq!(rt; some.lowest_missing(none), None);
    assert_eq!(rt;
        none.lowest_missing(Quals::read(b"63").ok_or("not read")?),
        Some(63)
    );
    Ok(())
}

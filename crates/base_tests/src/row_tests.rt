use desk_base::NoMemory;
use record_rows::{Fields, Row, Rows};
use std::alloc::Global;

// Adds a record, as its fields with `;` behind each of them, and `/` behind it.
fn tell_row(told: &mut Vec<u8>, row: &Row) -> Result<(), NoMemory> {
    let mut fields = Fields::new();
    row.fill_fields(&mut fields);
    for field in fields.as_slice() {
        told.extend_from_slice(field)?;
        told.push(b';')?;
    }
    told.push(b'/')?;
    Ok(())
}

// The records of a text, each told so.
fn told(alloc: Global, text: &[u8]) -> Result<Vec<u8>, NoMemory> {
    let mut rows = Rows::of(alloc, text);
    let mut row = Row::new(alloc);
    let mut told = Vec::new(alloc);
    for _ in 0..100 {
        if !rows.next(&mut row)? {
            return Ok(told);
        }
        tell_row(&mut told, &row)?;
    }
    Ok(told)
}

#[test]
fn records_of_a_text(rt: HostRuntime) {
    let table: [(&[u8], &[u8]); 25] = [
        (b"", b""),
        (b"a,b\n", b"a;b;/"),
        (b"a,b", b"a;b;/"),
        (b"a,b\nc\n", b"a;b;/c;/"),
        (b"a,b\r\nc\r\n", b"a;b;/c;/"),
        (b"a\rb", b"a;/b;/"),
        (b"\n\n\r\n\r\ra\n\n\nb\n\n", b"a;/b;/"),
        (b"\n\na\n\n\nb\n\n", b"a;/b;/"),
        (b"\n", b""),
        (b" \n", b" ;/"),
        (b",\n", b";;/"),
        (b"\"a\",b\n", b"a;b;/"),
        (b"\"a,b\",c\n", b"a,b;c;/"),
        (b"\"a\nb\",c\n", b"a\nb;c;/"),
        (b"\"a\r\nb\",c\n", b"a\r\nb;c;/"),
        (b"\"say \"\"on\"\"\",c\n", b"say \"on\";c;/"),
        (b"a\"b,c\n", b"a\"b;c;/"),
        (b"\"a\"b,c\n", b"ab;c;/"),
        (b"\"a,b\nc\n", b"a,b\nc\n;/"),
        (b"\"\",a\n", b";a;/"),
        (b"\xef\xbb\xbfa,b\n", b"a;b;/"),
        (b"\xef\xbb\xbf\xef\xbb\xbfa\n", b"\xef\xbb\xbfa;/"),
        (b"a\n\xef\xbb\xbfb\n", b"a;/\xef\xbb\xbfb;/"),
        (b"\xef\xbb", b"\xef\xbb;/"),
        (b"\xef\xbb\xbf\"a\"\n", b"a;/"),
    ];
    for (text, records) in table {
        assert_eq!(rt;
            told(rt.alloc(), text).expect(&rt, "memory").as_slice(),
            records
        );
    }
}

#[test]
fn a_long_record_gives_its_first_12_fields(rt: HostRuntime) {
    let texts: [&[u8]; 2] = [
        b"1,2,3,4,5,6,7,8,9,10,11,12,13,14\n15\n",
        b"\"1\",2,3,4,5,6,7,8,9,10,11,12,13,14\n15\n",
    ];
    for text in texts {
        assert_eq!(rt;
            told(rt.alloc(), text).expect(&rt, "memory").as_slice(),
            b"1;2;3;4;5;6;7;8;9;10;11;12;/15;/".as_slice()
        );
    }
}

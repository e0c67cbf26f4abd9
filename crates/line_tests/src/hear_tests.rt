//! Lines heard as commands.
use caller_lines::{CallerLine, MemoryLine, Said, hear};
use desk_model::Cmd;
use std::alloc::Global;
use std::test::Fail;

// Lines in memory, the fifth call of which fails.
fn line_of(alloc: Global) -> Result<MemoryLine, Fail> {
    let lines = vec![in alloc;
        b"2024-03-04 00:01,vac,1".to_vec(alloc)?,
        b"2024-03-04 00:01,vac,x".to_vec(alloc)?,
        Vec::new(alloc),
        b"2024-03-04 00:01,vac,\"1\"\n2024-03-04 00:01,vac,2".to_vec(alloc)?,
        [b'x'; 513].to_vec(alloc)?,
        b"x".to_vec(alloc)?,
    ]?;
    let failing = vec![in alloc; 5]?;
    Ok(
        MemoryLine::new(alloc, lines, failing, 0)
            .ok()
            .ok_or("memory")?,
    )
}

#[test]
fn what_a_caller_says(rt: HostRuntime) -> Result<(), Fail> {
    let alloc = rt.alloc();
    let mut line: Box<dyn CallerLine + Send> = Box::new(alloc, line_of(alloc)?)?;
    let Said::Command(stated) = hear(alloc, &mut line) else {
        return Err("a command".into());
    };
    assert!(rt; matches!(stated.cmd(), Cmd::Vac { vac } if vac.number() == 1));
    for want in [3, 0, 0] {
        let said = hear(alloc, &mut line);
        assert!(rt;
            matches!(said, Said::Malformed(field) if field == want),
            "{said:?}"
        );
    }
    assert!(rt; matches!(hear(alloc, &mut line), Said::LineFault));
    assert!(rt; matches!(hear(alloc, &mut line), Said::TooLong));
    assert!(rt; matches!(hear(alloc, &mut line), Said::Malformed(1)));
    assert!(rt; matches!(hear(alloc, &mut line), Said::End));
    Ok(())
}

//! Texts that are loaded and bytes that are written, on objects in memory.
use cv_base::{
    Bytes, Held, LoadFault, MemShelf, MemSink, Memory, Shelf, Sink, SinkFault, push_bytes,
    push_number,
};
use std::alloc::{AllocError, Global};
use std::test::Fail;

fn held(alloc: Global, name: &str, text: &str) -> Result<Held, AllocError> {
    Ok(Held {
        name: Bytes(Vec::from_slice(alloc, name.as_bytes())?),
        text: Bytes(Vec::from_slice(alloc, text.as_bytes())?),
        faults: 0,
    })
}

#[test]
fn loads_in_order(rt: HostRuntime) -> Result<(), Fail> {
    let alloc = rt.alloc();
    let files = vec![in alloc;
        held(alloc, "a", "first")?,
        held(alloc, "a", "second")?,
        held(alloc, "b", "")?,
    ]?;
    let mut shelf = MemShelf::new(files, vec![in alloc; 3]?);
    let loads: [(&str, u8, Option<&str>); 6] = [
        ("a", 10, Some("first")),
        ("a", 2, Some("fir")),
        ("c", 10, None),
        ("a", 10, None),
        ("b", 0, Some("")),
        ("a", 4, Some("first")),
    ];
    for (name, max, wanted) in loads {
        match shelf.load(alloc, name, usize::from(max)) {
            Ok(text) => assert_eq!(rt;
                Some(text.as_slice()),
                wanted.map(|t| t.as_bytes()),
                "{name} up to {max}"
            ),
            Err(fault) => assert_eq!(rt;
                (fault, None),
                (LoadFault::Failed, wanted),
                "{name} up to {max}"
            ),
        }
    }
    Ok(())
}

#[test]
fn takes_what_fits(rt: HostRuntime) -> Result<(), Fail> {
    let alloc = rt.alloc();
    let mut sink = MemSink::new(alloc, 5, vec![in alloc; 1]?)?;
    assert_eq!(rt; sink.write("abc".as_bytes()), Ok(3));
    assert_eq!(rt;
        sink.write("de".as_bytes()),
        Err(SinkFault),
        "by its number"
    );
    assert_eq!(rt; sink.write("defg".as_bytes()), Ok(2));
    assert_eq!(rt;
        sink.write("h".as_bytes()),
        Err(SinkFault),
        "for want of room"
    );
    assert_eq!(rt; sink.taken(), "abcde".as_bytes());
    Ok(())
}

#[test]
fn pushes_at_the_end(rt: HostRuntime) -> Result<(), Memory> {
    let mut out = Vec::new(rt.alloc());
    push_bytes(&mut out, "n = ".as_bytes())?;
    push_number(&mut out, 0)?;
    push_number(&mut out, u64::MAX)?;
    assert_eq!(rt; out.as_slice(), "n = 018446744073709551615".as_bytes());
    Ok(())
}

// Lines and picking.
use lines::split_lines;
use picking::pick;
use std::test::Fail;

// A line feed ends a line, the last line may lack it, a carriage return stays, and an empty line is a line.
#[test]
fn cut_lines(rt: HostRuntime) -> Result<(), Fail> {
    let heap = rt.alloc();
    let table: [(&[u8], usize, &[u8]); 6] = [
        (b"", 0, b""),
        (b"\n", 1, b""),
        (b"a", 1, b"a"),
        (b"a\nbc\n", 2, b"bc"),
        (b"a\nbc", 2, b"bc"),
        (b"a\n\nb\r\n", 3, b"b\r"),
    ];
    for (input, count, last) in table {
        let lines = split_lines(heap, input)?;
        assert!(rt; lines.len() == count);
        assert!(rt; lines.last().copied().unwrap_or(b"") == last);
    }
    assert!(rt; true);
    Ok(())
}

#[test]
fn picked(rt: HostRuntime) -> Result<(), Fail> {
    let heap = rt.alloc();
    let names: [&[u8]; 4] = [b"bus::lock", b"", b"logger", b"bus::"];
    let Some(picking) = pick(heap, b"bus::*", &names)? else {
        return Err(Fail::new("a glob that is well formed"));
    };
    assert!(rt; picking.count == 2);
    assert!(rt; picking.verdicts.len() == 4);
    assert!(rt; picking.verdicts[0].picked && !picking.verdicts[1].picked);
    assert!(rt; !picking.verdicts[2].picked && picking.verdicts[3].picked);
    assert!(rt; picking.verdicts[3].name == b"bus::".as_slice());
    assert!(rt; pick(heap, b"bus::[", &names)?.is_none());
    match pick(heap, b"", &names)? {
        Some(picking) => {
            assert!(rt; picking.count == 1);
            Ok(())
        },
        None => Err(Fail::new("an empty glob")),
    }
}

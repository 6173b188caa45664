// Reports, faults and the check of a text.
use errors::faults::{Layer, LoweringFault, ReadingFault, SelectorFault, TablesFault, TextFault};
use errors::reports::{Report, ReportKind};
use errors::texts::check_text;
use std::process::Abort;
use std::test::Fail;

fn is_refused(
    rt: &impl Abort,
    fault: SelectorFault,
    number: u8,
    place: usize,
    count: usize,
    layer: Layer,
) {
    assert_eq!(rt; fault.number(), number);
    assert_eq!(rt; fault.place(), place);
    assert_eq!(rt; fault.count(), count);
    assert_eq!(rt; fault.layer(), layer);
}

// A lower fault is passed up by `?`, and kept whole.
fn lowered(fault: TextFault) -> Result<(), LoweringFault> {
    Err(fault)?;
    Ok(())
}

fn passed_up(fault: TextFault) -> Result<(), SelectorFault> {
    lowered(fault)?;
    Ok(())
}

#[test]
fn numbers(rt: HostRuntime) {
    let place = 7;
    let count = 3;
    let read = [
        ReadingFault::Regex { place, count },
        ReadingFault::Deep { place, count },
        ReadingFault::Crowded { place, count },
        ReadingFault::Faulty { place, count },
    ];
    for (i, fault) in read.iter().enumerate() {
        let number = (i + 6) as u8;
        is_refused(
            &rt,
            LoweringFault::from(*fault).into(),
            number,
            7,
            3,
            Layer::Reading,
        );
    }
    let long = LoweringFault::from(TextFault::Long);
    let garbled = LoweringFault::from(TextFault::Garbled { place });
    let tables = LoweringFault::from(TablesFault);
    let banned = LoweringFault::Banned { place, count };
    let no_groups = LoweringFault::NoGroups { place };
    let nothing_found = LoweringFault::NothingFound { place, count };
    is_refused(&rt, SelectorFault::Late, 1, 0, 0, Layer::Selector);
    is_refused(&rt, SelectorFault::Full, 2, 0, 0, Layer::Selector);
    is_refused(&rt, long.into(), 3, 0, 0, Layer::Text);
    is_refused(&rt, garbled.into(), 4, 7, 0, Layer::Text);
    is_refused(&rt, tables.into(), 5, 0, 0, Layer::Tables);
    is_refused(&rt, banned.into(), 10, 7, 3, Layer::Lowering);
    is_refused(&rt, no_groups.into(), 11, 7, 0, Layer::Lowering);
    is_refused(&rt, nothing_found.into(), 12, 7, 3, Layer::Lowering);
    is_refused(&rt, SelectorFault::NoSuchFilter, 13, 0, 0, Layer::Selector);
    is_refused(
        &rt,
        SelectorFault::NoRoster { place },
        14,
        7,
        0,
        Layer::Selector,
    );
}

#[test]
fn kept_whole(rt: HostRuntime) -> Result<(), Fail> {
    let garbled = TextFault::Garbled { place: 5 };
    let Err(SelectorFault::Lowering(LoweringFault::Reading(ReadingFault::Text(fault)))) = passed_up(
        garbled,
    ) else {
        return Err(Fail::new("a text fault in a selector fault"));
    };
    assert!(rt; matches!(fault, TextFault::Garbled { place: 5 }));
    assert_eq!(rt; ReadingFault::from(garbled).refusal().number, 4);
    Ok(())
}

// The place of a garbled text; the length of a well-formed one; none of a long one.
fn read_up_to(text: &[u8]) -> Option<usize> {
    match check_text(text) {
        Ok(s) => Some(s.len()),
        Err(TextFault::Garbled { place }) => Some(place),
        Err(TextFault::Long) => None,
    }
}

#[test]
fn texts(rt: HostRuntime) {
    let mut text = [b'a'; 1025];
    assert_eq!(rt; read_up_to(b""), Some(0));
    assert_eq!(rt; read_up_to(&text[0..1024]), Some(1024));
    text[0] = 0xff;
    assert_eq!(rt; read_up_to(&text), None);
    assert_eq!(rt; read_up_to(&text[0..1024]), Some(0));
    assert_eq!(rt; read_up_to(b"a\xc3\xb6\xc3"), Some(3));
    assert_eq!(rt; read_up_to(b"\xed\xa0\x80"), Some(0));
}

#[test]
fn reports(rt: HostRuntime) -> Result<(), Fail> {
    let report = Report {
        kind: ReportKind::ExprFoundBinaryOp,
        start: 0,
        length: 2,
    };
    assert!(rt; report.to_string(rt.alloc())?.as_str() == "ExprFoundBinaryOp@0+2");
    assert!(rt; ReportKind::InvalidGlob.number() == 0);
    assert!(rt; ReportKind::InvalidPlatformArgument.number() == 18);
    assert!(rt; ReportKind::NoPackageMatch.name() == "NoPackageMatch");
    Ok(())
}

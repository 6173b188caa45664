// What a line of the case program cannot hold: line ends, short report tables, and the decoding space.
#![tactic(auto)]

#[cfg(test)]
mod tests {
    use errors::faults::ReadingFault;
    use errors::reports::{Report, ReportKind};
    use parsing::parse;
    use parsing::store::ParsedNodes;
    use std::test::Fail;

    const UNUSED: Report = Report {
        kind: ReportKind::NoGroupMatch,
        start: 7,
        length: 7,
    };

    // Reports were made, the first at `place`.
    fn faulty(place: usize, count: usize) -> Result<(), ReadingFault> {
        Err(ReadingFault::Faulty { place, count })
    }

    fn report(kind: ReportKind, start: usize, length: usize) -> Report {
        Report {
            kind,
            start,
            length,
        }
    }

    #[test]
    fn line_ends(rt: HostRuntime) -> Result<(), Fail> {
        let mut nodes = ParsedNodes::new(rt.alloc())?;
        let mut table = [UNUSED; 2];
        let mut space = [1; 1024];
        assert_eq!(rt;
            parse(
                b"all()\r\nand\n\nnone()\n",
                &mut table,
                &mut space,
                &mut nodes,
            ),
            Ok(())
        );
        assert_eq!(rt; nodes.as_slice().len(), 3);
        assert_eq!(rt; table[0], UNUSED);
        assert_eq!(rt;
            parse(b"all()\r and none()", &mut table, &mut space, &mut nodes),
            faulty(5, 1)
        );
        assert!(rt; nodes.as_slice().is_empty());
        assert_eq!(rt;
            table[0],
            report(ReportKind::ExpectedEndOfExpression, 5, 12)
        );
        assert_eq!(rt; table[1], UNUSED);
        Ok(())
    }

    #[test]
    fn short_tables(rt: HostRuntime) -> Result<(), Fail> {
        let mut nodes = ParsedNodes::new(rt.alloc())?;
        let mut table = [UNUSED; 1];
        let mut space = [1; 1024];
        assert_eq!(rt;
            parse(b"or all()", &mut [], &mut space, &mut nodes),
            faulty(0, 2)
        );
        assert_eq!(rt;
            parse(b"or all()", &mut table, &mut space, &mut nodes),
            faulty(0, 2)
        );
        assert_eq!(rt; table[0], report(ReportKind::ExprFoundBinaryOp, 0, 2));
        Ok(())
    }

    #[test]
    fn decoding_space(rt: HostRuntime) -> Result<(), Fail> {
        let mut nodes = ParsedNodes::new(rt.alloc())?;
        let mut space = [1; 1024];
        assert!(rt;
            parse(
                b"test(\\u{41}b) | test(plain) | kind(\\n)",
                &mut [],
                &mut space,
                &mut nodes,
            )
            .is_ok()
        );
        assert_eq!(rt; [space[0], space[1], space[2], space[3]], [65, 98, 10, 0]);
        assert_eq!(rt; space[1023], 0);
        assert!(rt; parse(b"test(\\u{41}b) |", &mut [], &mut space, &mut nodes).is_err());
        assert_eq!(rt; space[0], 0);
        space[0] = 3;
        assert!(rt; parse(&[b'a'; 1025], &mut [], &mut space, &mut nodes).is_err());
        assert_eq!(rt; space[0], 3);
        Ok(())
    }
}

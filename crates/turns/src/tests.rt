// Tables that no script lends: in a `Vec`, and longer than any line's.
use crate::{Kind, Table, Told, Trial, Turn};
use sheet::Sheet;
use std::test::Fail;

#[test]
fn long_tables_go_through_every_door(rt: HostRuntime) -> Result<(), Fail> {
    for (many, refusal, counted) in [(256, 0, 256), (257, 1, 0), (1000, 1, 0)] {
        let mut rows = Vec::new(rt.alloc());
        rows.resize(many, 1)?;
        let table = Table { rows, d: 1 };
        for (kind, first) in [(Kind::Begin, 0), (Kind::Count, counted)] {
            let must = Told {
                refusal,
                first,
                second: 0,
                kept: 0,
            };
            let turn = Turn {
                kind,
                number: 2,
                must,
                ..Turn::read(b"")
            };
            let trial = Trial::new(&table, Sheet::fresh(1, 256, 2), turn);
            assert!(rt; trial.at_every_door().is_ok(), "{many} rows");
        }
    }
    Ok(())
}

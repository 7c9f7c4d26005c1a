use pc_list::{Seq, Text};
use pc_model::{
    Column, Fault, FileKind, Kind, ReadStop, Reason, Refusal, Region, Row, Schema, Side,
};
use pc_num::Memory;
use std::alloc::{AllocError, Global};
use std::test::Fail;

fn row(alloc: Global, cells: &[i64]) -> Result<Row, AllocError> {
    Ok(Row {
        cells: Seq::from_slice(alloc, cells)?,
    })
}

// Numbers from -3 to 5, and the places 0, 2 and 127.
#[test]
fn rows_of_a_region(rt: HostRuntime) -> Result<(), Fail> {
    let alloc = rt.alloc();
    let sides = [
        Side::Span { low: -3, high: 5 },
        Side::Names {
            bits: 1 << 127 | 0b101,
        },
    ];
    let region = Region {
        sides: Seq::from_slice(alloc, &sides)?,
    };
    let cases: [(&[i64], bool); 12] = [
        (&[-3, 0], true),
        (&[5, 2], true),
        (&[0, 127], true),
        (&[-4, 0], false),
        (&[6, 0], false),
        (&[0, 1], false),
        (&[0, 3], false),
        (&[0, 128], false),
        (&[0, -1], false),
        (&[], false),
        (&[0], false),
        (&[0, 0, 0], false),
    ];
    for (number, (cells, held)) in cases.into_iter().enumerate() {
        assert!(rt; region.has(&row(alloc, cells)?) == held, "case {number}");
    }
    Ok(())
}

fn column(alloc: Global, name: &str, kind: Kind) -> Result<Column, AllocError> {
    Ok(Column {
        name: Text::from_text(alloc, name)?,
        kind,
    })
}

// Whole numbers from -3 to 5, hundredths from 0 to 1.50, and two names.
fn schema(alloc: Global) -> Result<Schema, AllocError> {
    let names = vec![in alloc;
        Text::from_text(alloc, "north")?,
        Text::from_text(alloc, "south")?,
    ]?;
    let item = Kind::Int { low: -3, high: 5 };
    let price = Kind::Dec {
        scale: 2,
        low: 0,
        high: 150,
    };
    let place = Kind::Cat {
        names: Seq::from_vec(names),
    };
    let columns = vec![in alloc;
        column(alloc, "item", item)?,
        column(alloc, "price", price)?,
        column(alloc, "place", place)?,
    ]?;
    Ok(Schema {
        columns: Seq::from_vec(columns),
    })
}

#[test]
fn rows_of_a_domain(rt: HostRuntime) -> Result<(), Fail> {
    let alloc = rt.alloc();
    let schema = schema(alloc)?;
    let cases: [(&[i64], bool); 10] = [
        (&[-3, 0, 0], true),
        (&[5, 150, 1], true),
        (&[-4, 0, 0], false),
        (&[6, 0, 0], false),
        (&[0, -1, 0], false),
        (&[0, 151, 0], false),
        (&[0, 0, -1], false),
        (&[0, 0, 2], false),
        (&[0, 0], false),
        (&[0, 0, 0, 0], false),
    ];
    for (number, (cells, allowed)) in cases.into_iter().enumerate() {
        assert!(rt;
            schema.allows_row(&row(alloc, cells)?) == allowed,
            "case {number}"
        );
    }
    Ok(())
}

// The names of the other reasons and files are among the trials.
#[test]
fn printed_names(rt: HostRuntime) {
    assert_eq!(rt; Reason::TooLong.number(), 20);
    assert!(rt; Reason::TooLong.name() == "TooLong");
    assert!(rt; FileKind::Document.name() == "document");
}

#[test]
fn stops(rt: HostRuntime) {
    let fault = Fault {
        file: FileKind::Rows,
        place: 7,
        reason: Reason::BadNumber,
    };
    assert_eq!(rt;
        ReadStop::from(Reason::BadNumber).at(FileKind::Rows, 7),
        Refusal::Fault(fault)
    );
    assert_eq!(rt;
        ReadStop::from(AllocError).at(FileKind::Rows, 7),
        Refusal::Memory
    );
    assert_eq!(rt; Refusal::from(Memory), Refusal::Memory);
}

// Sides of two kinds, which no column has. Sides of one kind are among the trials of lines.
#[test]
fn sides_in_common(rt: HostRuntime) {
    let span = Side::Span { low: 0, high: 0 };
    let set = Side::Names { bits: 1 };
    assert!(rt; set.meet(span).is_none());
    assert!(rt; span.meet(set).is_none());
}

// Batches and list columns: Arrow's worked example, parts to merge as they stand, and each refusal in its order.
use columns::{CellParts, Cells, ColumnParts, ListColumn, Part};
use refusals::Refusal;
use std::process::Abort;
use std::test::Fail;

const SEVEN: [i8; 7] = [12, -7, 25, 0, -127, 127, 50];

const FIVE: [i8; 5] = [10, 11, 12, 13, 14];

// Cells without a null, of the type of Arrow's example.
fn full(cues: &[i8]) -> CellParts<'_, i8> {
    CellParts {
        rows: cues.len(),
        map: &[0xff],
        cues,
    }
}

fn column<'a>(
    rows: usize,
    offsets: &'a [i32],
    map: &'a [u8],
    cues: &'a [i8],
) -> ColumnParts<'a, i8> {
    ColumnParts {
        rows,
        offsets,
        map,
        cells: full(cues),
    }
}

// The part has these cues, none of them null.
fn same_cues(rt: &impl Abort, part: &Part<i8>, cues: &[i8]) {
    assert_eq!(rt; part.len(), cues.len());
    for (i, cue) in cues.iter().enumerate() {
        assert_eq!(rt; part.cell(i), Ok(Some(*cue)));
    }
    assert_eq!(rt; part.cell(cues.len()), Err(Refusal::IndexOutOfRange));
}

#[test]
fn batches_are_read_into_cells(rt: HostRuntime) -> Result<(), Fail> {
    let cells = Cells::new(CellParts {
        rows: 3,
        map: &[0b101],
        cues: &[4, 5, 6],
    })?;
    assert_eq!(rt; cells.len(), 3);
    assert_eq!(rt; cells.cell(0), Ok(Some(4)));
    assert_eq!(rt; cells.cell(1), Ok(None));
    assert_eq!(rt; cells.cell(2), Ok(Some(6)));
    assert_eq!(rt; cells.cell(3), Err(Refusal::IndexOutOfRange));
    Ok(())
}

fn batch_outcome(rows: usize, map: &[u8], cues: &[i8]) -> Result<(), Refusal> {
    Cells::new(CellParts { rows, map, cues }).map(|_| ())
}

#[test]
fn bad_batches_are_refused_in_order(rt: HostRuntime) {
    assert_eq!(rt;
        batch_outcome(65_537, &[], &FIVE),
        Err(Refusal::TooManyRows)
    );
    assert_eq!(rt;
        batch_outcome(65_536, &[], &FIVE),
        Err(Refusal::CountsDiffer)
    );
    assert_eq!(rt; batch_outcome(4, &[], &FIVE), Err(Refusal::CountsDiffer));
    assert_eq!(rt; batch_outcome(5, &[], &FIVE), Err(Refusal::MapTooShort));
    assert_eq!(rt; batch_outcome(5, &[0], &FIVE), Ok(()));
}

#[test]
fn arrows_list_example_is_read(rt: HostRuntime) -> Result<(), Fail> {
    // the lists 12, -7, 25; null; 0, -127, 127, 50; and one that is empty
    let read = ListColumn::new(column(4, &[0, 3, 3, 7, 7], &[0b1101], &SEVEN))?;
    assert_eq!(rt; read.rows(), 4);
    let first = read.list(0)?.ok_or("row 0 is null")?;
    same_cues(&rt, &first, &SEVEN[0..3]);
    assert!(rt; read.list(1)?.is_none());
    let third = read.list(2)?.ok_or("row 2 is null")?;
    assert_eq!(rt; third.place, 3);
    same_cues(&rt, &third, &SEVEN[3..7]);
    let last = read.list(3)?.ok_or("row 3 is null")?;
    assert_eq!(rt; last.len(), 0);
    assert!(rt; read.list(4).is_err());
    let part = read.get_optional_values_to_merge_as_is().ok_or("no part")?;
    assert_eq!(rt; part.place, 0);
    same_cues(&rt, &part, &SEVEN);
    Ok(())
}

#[test]
fn cells_and_lists_come_in_order(rt: HostRuntime) -> Result<(), Fail> {
    let cells = Cells::new(CellParts {
        rows: 3,
        map: &[0b101],
        cues: &[4, 5, 6],
    })?;
    let mut walk = cells.iter();
    assert_eq!(rt; walk.next(), Some(Some(4)));
    assert_eq!(rt; walk.next(), Some(None));
    assert_eq!(rt; walk.next(), Some(Some(6)));
    assert_eq!(rt; walk.next(), None);
    let read = ListColumn::new(column(3, &[0, 3, 3, 5], &[0b101], &SEVEN))?;
    let mut lists = read.iter();
    let first = lists.next().flatten().ok_or("row 0 is null")?;
    same_cues(&rt, &first, &SEVEN[0..3]);
    assert!(rt; lists.next().ok_or("no row 1")?.is_none());
    let third = lists.next().flatten().ok_or("row 2 is null")?;
    let mut last = third.iter();
    assert_eq!(rt; last.next(), Some(Some(0)));
    assert_eq!(rt; last.next(), Some(Some(-127)));
    assert_eq!(rt; last.next(), None);
    assert!(rt; lists.next().is_none());
    Ok(())
}

#[test]
fn a_part_is_given_where_no_null_row_covers_a_cell(rt: HostRuntime) -> Result<(), Fail> {
    // a null row in the middle covers nothing, and the column begins above zero
    let read = ListColumn::new(column(3, &[2, 4, 4, 5], &[0b101], &FIVE))?;
    let part = read.get_optional_values_to_merge_as_is().ok_or("no part")?;
    assert_eq!(rt; part.place, 2);
    same_cues(&rt, &part, &FIVE[2..5]);
    // it covers two cells
    let gap = ListColumn::new(column(3, &[0, 1, 3, 4], &[0b101], &FIVE))?;
    assert!(rt; gap.get_optional_values_to_merge_as_is().is_none());
    // null rows at both ends cover cells, which are left out
    let ends = ListColumn::new(column(3, &[0, 1, 3, 4], &[0b010], &FIVE))?;
    let middle = ends.get_optional_values_to_merge_as_is().ok_or("no part")?;
    assert_eq!(rt; middle.place, 1);
    same_cues(&rt, &middle, &FIVE[1..3]);
    Ok(())
}

#[test]
fn parts_without_a_valid_row(rt: HostRuntime) -> Result<(), Fail> {
    let nulls = ListColumn::new(column(2, &[1, 2, 4], &[0], &FIVE))?;
    let part = nulls.get_optional_values_to_merge_as_is().ok_or("no part")?;
    assert_eq!(rt; part.place, 0);
    assert_eq!(rt; part.len(), 0);
    let none = ListColumn::new(column(0, &[3], &[], &FIVE))?;
    let empty = none.get_optional_values_to_merge_as_is().ok_or("no part")?;
    assert_eq!(rt; empty.place, 3);
    assert_eq!(rt; empty.len(), 0);
    Ok(())
}

#[test]
fn nulls_among_the_cells_are_read(rt: HostRuntime) -> Result<(), Fail> {
    let cells = CellParts {
        rows: 4,
        map: &[0b1011],
        cues: &[1, 2, 3, 4],
    };
    let read = ListColumn::new(ColumnParts {
        rows: 2,
        offsets: &[1, 3, 4],
        map: &[0b11],
        cells,
    })?;
    let first = read.list(0)?.ok_or("row 0 is null")?;
    assert_eq!(rt; first.place, 1);
    assert_eq!(rt; first.cell(0), Ok(Some(2)));
    assert_eq!(rt; first.cell(1), Ok(None));
    Ok(())
}

#[test]
fn bad_columns_are_refused_in_order(rt: HostRuntime) {
    let cells = full(&FIVE);
    let many = CellParts {
        rows: 1_048_577,
        map: &[],
        cues: &FIVE,
    };
    let uneven = CellParts {
        rows: 4,
        map: &[],
        cues: &FIVE,
    };
    let short = CellParts {
        rows: 5,
        map: &[],
        cues: &FIVE,
    };
    assert_eq!(rt;
        outcome(65_537, &[], &[], uneven),
        Err(Refusal::TooManyRows)
    );
    assert_eq!(rt; outcome(1, &[], &[], many), Err(Refusal::TooManyRows));
    assert_eq!(rt; outcome(1, &[], &[], uneven), Err(Refusal::CountsDiffer));
    assert_eq!(rt; outcome(1, &[], &[], cells), Err(Refusal::MapTooShort));
    assert_eq!(rt; outcome(1, &[], &[1], short), Err(Refusal::MapTooShort));
    assert_eq!(rt; outcome(1, &[0], &[1], cells), Err(Refusal::BadOffsets));
    assert_eq!(rt;
        outcome(1, &[0, 5, 5], &[1], cells),
        Err(Refusal::BadOffsets)
    );
    assert_eq!(rt; outcome(1, &[-1, 5], &[1], cells), Err(Refusal::BadOffsets));
    assert_eq!(rt;
        outcome(2, &[0, 3, 2], &[3], cells),
        Err(Refusal::BadOffsets)
    );
    assert_eq!(rt; outcome(1, &[0, 6], &[1], cells), Err(Refusal::BadOffsets));
    assert_eq!(rt; outcome(1, &[5, 5], &[1], cells), Ok(()));
}

fn outcome<'a>(
    rows: usize,
    offsets: &'a [i32],
    map: &'a [u8],
    cells: CellParts<'a, i8>,
) -> Result<(), Refusal> {
    ListColumn::new(ColumnParts {
        rows,
        offsets,
        map,
        cells,
    })
    .map(|_| ())
}

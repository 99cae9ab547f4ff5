// Sheets at every boundary, and each refusal alone and beside a later one.
use refusals::Refusal;
use sheets::{Row, Sheet, Summary, summarize};
use std::alloc::{AllocError, Global};
use std::test::Fail;

// The bytes of a sheet whose header states these sizes, with these words and cues.
fn bytes_of(
    heap: Global,
    rows: u32,
    modules: u32,
    words: &[u32],
    cues: &[i64],
) -> Result<Vec<u8>, AllocError> {
    let mut bytes = Vec::new(heap);
    bytes.extend_from_slice(&rows.to_le_bytes())?;
    bytes.extend_from_slice(&modules.to_le_bytes())?;
    for word in words {
        bytes.extend_from_slice(&word.to_le_bytes())?;
    }
    for cue in cues {
        bytes.extend_from_slice(&cue.to_le_bytes())?;
    }
    Ok(bytes)
}

// A sheet of so many rows, all for module 0 with cue 0.
fn plain(heap: Global, rows: u32, modules: u32) -> Result<Vec<u8>, AllocError> {
    let mut bytes = bytes_of(heap, rows, modules, &[], &[])?;
    for _ in 0..rows {
        bytes.extend_from_slice(&[0; 12])?;
    }
    Ok(bytes)
}

const FOUR_WORDS: [u32; 4] = [1, 0x1_0002, 0x2_0000, 0x3_0001];

const FOUR_CUES: [i64; 4] = [-1, 7, i64::MIN, i64::MAX];

#[test]
fn rows_are_read_by_position(rt: HostRuntime) -> Result<(), Fail> {
    let bytes = bytes_of(rt.alloc(), 4, 3, &FOUR_WORDS, &FOUR_CUES)?;
    let sheet = Sheet::new(bytes.as_slice())?;
    assert_eq!(rt; sheet.rows(), 4);
    assert_eq!(rt; sheet.modules(), 3);
    assert_eq!(rt;
        sheet.row(0),
        Ok(Row {
            group: 1,
            null: false,
            filtered: false,
            cue: -1,
        })
    );
    assert_eq!(rt;
        sheet.row(1),
        Ok(Row {
            group: 2,
            null: true,
            filtered: false,
            cue: 7,
        })
    );
    assert_eq!(rt;
        sheet.row(2),
        Ok(Row {
            group: 0,
            null: false,
            filtered: true,
            cue: i64::MIN,
        })
    );
    assert_eq!(rt;
        sheet.row(3),
        Ok(Row {
            group: 1,
            null: true,
            filtered: true,
            cue: i64::MAX,
        })
    );
    assert_eq!(rt; sheet.row(4), Err(Refusal::IndexOutOfRange));
    assert_eq!(rt;
        sheet.summary(),
        Summary {
            rows: 4,
            modules: 3,
            accepted: 2,
            nulls: 1,
            filtered: 2,
        }
    );
    Ok(())
}

#[test]
fn smallest_and_largest_sheets_are_read(rt: HostRuntime) -> Result<(), Fail> {
    let none = plain(rt.alloc(), 0, 0)?;
    assert_eq!(rt;
        summarize(none.as_slice()),
        Ok(Summary {
            rows: 0,
            modules: 0,
            accepted: 0,
            nulls: 0,
            filtered: 0,
        })
    );
    let all = plain(rt.alloc(), 2048, 2048)?;
    assert_eq!(rt;
        summarize(all.as_slice()),
        Ok(Summary {
            rows: 2048,
            modules: 2048,
            accepted: 2048,
            nulls: 0,
            filtered: 0,
        })
    );
    Ok(())
}

#[test]
fn lengths_that_do_not_fit_are_refused(rt: HostRuntime) -> Result<(), Fail> {
    let bytes = bytes_of(rt.alloc(), 4, 3, &FOUR_WORDS, &FOUR_CUES)?;
    let whole = bytes.as_slice();
    for n in 0..whole.len() {
        assert_eq!(rt; summarize(&whole[..n]), Err(Refusal::SheetLength));
    }
    let mut long = bytes_of(rt.alloc(), 4, 3, &FOUR_WORDS, &FOUR_CUES)?;
    long.push(0)?;
    assert_eq!(rt; summarize(long.as_slice()), Err(Refusal::SheetLength));
    let mut far = plain(rt.alloc(), 2049, 2049)?;
    far.push(0)?;
    assert_eq!(rt; summarize(far.as_slice()), Err(Refusal::SheetLength));
    Ok(())
}

#[test]
fn sizes_above_the_limit_are_refused(rt: HostRuntime) -> Result<(), Fail> {
    let rows = plain(rt.alloc(), 2049, 1)?;
    assert_eq!(rt; summarize(rows.as_slice()), Err(Refusal::SheetTooLarge));
    let modules = plain(rt.alloc(), 1, 2049)?;
    assert_eq!(rt; summarize(modules.as_slice()), Err(Refusal::SheetTooLarge));
    let top = bytes_of(rt.alloc(), 0, u32::MAX, &[], &[])?;
    assert_eq!(rt; summarize(top.as_slice()), Err(Refusal::SheetTooLarge));
    let both = bytes_of(rt.alloc(), 1, 2049, &[1 << 18], &[0])?;
    assert_eq!(rt; summarize(both.as_slice()), Err(Refusal::SheetTooLarge));
    Ok(())
}

#[test]
fn bits_that_mean_nothing_are_refused(rt: HostRuntime) -> Result<(), Fail> {
    for bit in 18u32..32 {
        let bytes = bytes_of(rt.alloc(), 2, 2, &[0, 1 << bit], &[0, 0])?;
        assert_eq!(rt; summarize(bytes.as_slice()), Err(Refusal::UnknownWordBit));
    }
    // the first row's module is beyond the count too
    let both = bytes_of(rt.alloc(), 2, 2, &[2, 1 << 18], &[0, 0])?;
    assert_eq!(rt; summarize(both.as_slice()), Err(Refusal::UnknownWordBit));
    Ok(())
}

#[test]
fn modules_beyond_the_count_are_refused(rt: HostRuntime) -> Result<(), Fail> {
    let last = bytes_of(rt.alloc(), 2, 2, &[0, 1], &[0, 0])?;
    assert!(rt; summarize(last.as_slice()).is_ok());
    let beyond = bytes_of(rt.alloc(), 2, 2, &[0, 2], &[0, 0])?;
    assert_eq!(rt;
        summarize(beyond.as_slice()),
        Err(Refusal::ModuleOutOfRange)
    );
    // also of a row that is null or filtered out
    let unused = bytes_of(rt.alloc(), 1, 2, &[0x3_0002], &[0])?;
    assert_eq!(rt;
        summarize(unused.as_slice()),
        Err(Refusal::ModuleOutOfRange)
    );
    let none = plain(rt.alloc(), 1, 0)?;
    assert_eq!(rt; summarize(none.as_slice()), Err(Refusal::ModuleOutOfRange));
    Ok(())
}

#[test]
fn refusals_print_their_number_and_sentence(rt: HostRuntime) -> Result<(), Fail> {
    let heap = rt.alloc();
    let line = format!(in heap; "{}", Refusal::ModuleOutOfRange)?;
    assert!(rt;
        line.as_str() == "refused 11: a row or list names a module beyond the module count"
    );
    assert_eq!(rt; Refusal::StoreTooLong.number(), 1);
    assert_eq!(rt; Refusal::OutputTooShort.number(), 17);
    Ok(())
}

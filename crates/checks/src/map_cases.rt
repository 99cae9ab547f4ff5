// Validity maps: Arrow's worked example, and every length from 0 to 17 rows.
ghost use Rattle.std.specs.Prelude.{◌<◌};

use bitmap::{Validity, write_map};
use refusals::Refusal;
use std::process::Abort;
use std::test::Fail;

// Two rows of flags without a period of eight.
const ONE: [bool; 17] = [
    true, true, false, true, false, false, true, false, true, false, false, false, true, true,
    true, false, true,
];

const TWO: [bool; 17] = [
    false, true, true, true, false, true, false, true, true, true, false, true, true, false, true,
    false, true,
];

const LENGTHS: usize = 18;

// The map's rows are these flags, and no more.
fn same_rows(rt: &impl Abort, map: &Validity, flags: &[bool]) {
    for (i, flag) in flags.iter().enumerate() {
        assert_eq!(rt; map.is_valid(i), Ok(*flag));
    }
    let nulls = flags.iter().filter(|flag| !**flag).count();
    assert_eq!(rt; map.is_valid(flags.len()), Err(Refusal::IndexOutOfRange));
    assert_eq!(rt; map.rows(), flags.len());
    assert_eq!(rt; map.null_count(), nulls);
}

// The spare bits of the last byte are zero, and the bytes past the map were left alone.
fn same_rest(rt: &impl Abort, out: &[u8], rows: usize)
    requires { rows < 18 }
{
    for i in rows..8 * ((rows + 7) / 8) {
        assert!(rt; i / 8 < out.len() && out[i / 8] >> (i % 8) & 1 == 0);
    }
    for byte in out.iter().skip((rows + 7) / 8) {
        assert_eq!(rt; *byte, 0xee);
    }
}

#[test]
fn arrows_example_is_read_and_written(rt: HostRuntime) -> Result<(), Fail> {
    // the column [0, 1, null, 2, null, 3]
    let flags = [true, true, false, true, false, true];
    let read = Validity::new(&[0b0010_1011], 6)?;
    same_rows(&rt, &read, &flags);
    let mut out = [0xee; 2];
    assert_eq!(rt; write_map(&flags, &mut out), Ok(1));
    assert_eq!(rt; out, [0b0010_1011, 0xee]);
    Ok(())
}

#[test]
fn maps_are_written_and_read_at_every_length(rt: HostRuntime) -> Result<(), Fail> {
    for n in 0..LENGTHS {
        let flags = &ONE[0..n];
        let mut out = [0xee; 4];
        assert_eq!(rt; write_map(flags, &mut out), Ok((n + 7) / 8));
        same_rest(&rt, &out, n);
        let read = Validity::new(&out, n)?;
        same_rows(&rt, &read, flags);
    }
    Ok(())
}

#[test]
fn maps_are_united_at_every_length(rt: HostRuntime) -> Result<(), Fail> {
    let mut one = [0xff; 3];
    let mut two = [0xff; 3];
    assert_eq!(rt; write_map(&ONE, &mut one), Ok(3));
    assert_eq!(rt; write_map(&TWO, &mut two), Ok(3));
    // spare bits of what is read mean nothing
    one[2] |= 0xf0;
    two[2] |= 0xf0;
    for n in 0..LENGTHS {
        let a = Validity::new(&one, n)?;
        let b = Validity::new(&two, n)?;
        let mut out = [0xee; 4];
        assert_eq!(rt; a.unite(&b, &mut out), Ok((n + 7) / 8));
        same_rest(&rt, &out, n);
        let read = Validity::new(&out, n)?;
        for (i, (one, two)) in ONE[..n].iter().zip(&TWO).enumerate() {
            assert_eq!(rt; read.is_valid(i), Ok(*one && *two));
        }
    }
    Ok(())
}

fn outcome(bytes: &[u8], rows: usize) -> Result<(), Refusal> {
    Validity::new(bytes, rows).map(|_| ())
}

// A map of so many rows, and an output for one, with a byte too few.
fn one_byte_short(rt: &impl Abort, rows: usize) -> Result<(), Fail>
    requires { (0 < rows) × (rows < 18) }
{
    let bytes = [0xff; 3];
    let short = (rows + 7) / 8 - 1;
    let read = Validity::new(&bytes[0..short], rows);
    assert_eq!(rt; read.map_or(0, |map| map.rows()), 0);
    assert_eq!(rt; outcome(&bytes[0..short], rows), Err(Refusal::MapTooShort));
    let mut out = [0xee; 2];
    assert_eq!(rt;
        write_map(&ONE[0..rows], &mut out[0..short]),
        Err(Refusal::OutputTooShort)
    );
    assert_eq!(rt; out, [0xee; 2]);
    let map = Validity::new(&bytes, rows)?;
    let mut united = [0xee; 2];
    assert_eq!(rt;
        map.unite(&map, &mut united[0..short]),
        Err(Refusal::OutputTooShort)
    );
    assert_eq!(rt; united, [0xee; 2]);
    Ok(())
}

#[test]
fn short_maps_and_outputs_are_refused(rt: HostRuntime) -> Result<(), Fail> {
    for n in 1..LENGTHS {
        one_byte_short(&rt, n)?;
    }
    Ok(())
}

#[test]
fn counts_that_differ_and_too_many_rows_are_refused(rt: HostRuntime) -> Result<(), Fail> {
    let bytes = [0xff; 2];
    let a = Validity::new(&bytes, 9)?;
    let b = Validity::new(&bytes, 10)?;
    // the output is too short as well
    assert_eq!(rt; a.unite(&b, &mut []), Err(Refusal::CountsDiffer));
    assert_eq!(rt; outcome(&bytes, 1_048_576), Err(Refusal::MapTooShort));
    assert_eq!(rt; outcome(&bytes, 1_048_577), Err(Refusal::TooManyRows));
    assert_eq!(rt; outcome(&bytes, usize::MAX), Err(Refusal::TooManyRows));
    Ok(())
}

#[test]
fn a_map_of_a_million_rows_is_counted(rt: HostRuntime) -> Result<(), Fail> {
    let bytes = vec![in rt.alloc(); 0x7f; 131_072]?;
    let read = Validity::new(bytes.as_slice(), 1_048_576)?;
    assert_eq!(rt; read.null_count(), 131_072);
    Ok(())
}

// Kinds of cue: the order of float patterns, texts of every sort, and a kind whose equality is coarse.
use coarse::Coarse;
use kinds::{Keyed, Ordered, Pattern, Text, Whole};
use refusals::Refusal;
use std::cmp::Ordering;
use std::process::Abort;
use std::test::Fail;

// Patterns in the order that IEEE 754 gives them.
const IN_ORDER: [u64; 16] = [
    0xffff_ffff_ffff_ffff, // -NaN, quiet, largest payload
    0xfff8_0000_0000_0000, // -NaN, quiet
    0xfff7_ffff_ffff_ffff, // -NaN, signalling
    0xfff0_0000_0000_0001, // -NaN, signalling, smallest payload
    0xfff0_0000_0000_0000, // -infinity
    0xffef_ffff_ffff_ffff, // the lowest finite number
    0xbff0_0000_0000_0000, // -1
    0x8000_0000_0000_0001, // the negative subnormal nearest to zero
    0x8000_0000_0000_0000, // -0
    0x0000_0000_0000_0000, // +0
    0x0000_0000_0000_0001, // the least positive subnormal
    0x0010_0000_0000_0000, // the least positive normal number
    0x3ff0_0000_0000_0000, // 1
    0x7ff0_0000_0000_0000, // infinity
    0x7ff0_0000_0000_0001, // NaN, signalling
    0x7ff8_0000_0000_0000, // NaN, quiet
];

const SIGNED: [i64; 5] = [i64::MIN, -1, 0, 1, i64::MAX];

// Texts in byte order: some that begin alike, zero bytes inside and at the end, bytes above 127.
const WORDS: [&[u8]; 8] = [b"", b"\0", b"\0a", b"a", b"a\0", b"aa", b"b", b"\xff"];

// Each cue comes before those that are listed after it, and equals and hashes as itself alone.
fn stand_in_order<K: Ordered>(rt: &impl Abort, cues: &[K]) {
    for (i, one) in cues.iter().enumerate() {
        for (j, two) in cues.iter().enumerate() {
            assert_eq!(rt; one.compare(two), i.cmp(&j));
            assert_eq!(rt; one.equal(two), i == j);
            assert_eq!(rt; one.hash() == two.hash(), i == j);
        }
    }
}

#[test]
fn patterns_stand_in_total_order(rt: HostRuntime) {
    stand_in_order(&rt, &IN_ORDER.map(|bits| Pattern { bits }));
    assert_eq!(rt; Pattern::blank().bits, 0);
}

#[test]
fn whole_cues_stand_in_numeric_order(rt: HostRuntime) {
    stand_in_order(&rt, &SIGNED.map(|value| Whole { value }));
    assert_eq!(rt; Whole::blank().value, 0);
}

#[test]
fn texts_stand_in_byte_order(rt: HostRuntime) -> Result<(), Fail> {
    stand_in_order(&rt, &WORDS.try_map(Text::new)?);
    assert!(rt; Text::blank().as_bytes().is_empty());
    Ok(())
}

#[test]
fn texts_have_at_most_sixteen_bytes(rt: HostRuntime) -> Result<(), Fail> {
    let most = Text::new(b"0123456789abcdef")?;
    assert!(rt; most.as_bytes() == b"0123456789abcdef".as_slice());
    let other = Text::new(b"0123456789abcdeg")?;
    assert!(rt; !most.equal(&other));
    assert_eq!(rt; most.compare(&other), Ordering::Less);
    assert_eq!(rt; Text::new(b"0123456789abcdef0"), Err(Refusal::TextTooLong));
    Ok(())
}

#[test]
fn cells_are_equal_as_their_cues_are(rt: HostRuntime) {
    let one = Some(Coarse { value: 6 });
    let two = Some(Coarse { value: 7 });
    let three = Some(Coarse { value: 8 });
    let zero = Some(Coarse::blank());
    let null: Option<Coarse> = Option::blank();
    assert!(rt; one.equal(&two) && one.hash() == two.hash());
    assert!(rt; !one.equal(&three));
    assert!(rt; !null.equal(&zero) && !zero.equal(&null));
    assert!(rt; null.equal(&null));
}

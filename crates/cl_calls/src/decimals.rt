//! Tests of decimals.
use cl_text::read_decimal;

/// Reads the decimal number, of at most `most`, that a word spells.
fn number(word: &[u8], most: u64) -> Option<u64> {
    read_decimal(word, most)
}

/// Words that spell no decimal number of 64 bits.
const OTHERS: [&[u8]; 11] = [
    b"",
    b"00",
    b"007",
    b"+1",
    b"-1",
    b" 1",
    b"1 ",
    b"1_000",
    b"12a",
    b"18446744073709551616",
    b"100000000000000000000",
];

#[test]
fn reads_decimals_alone(rt: HostRuntime) {
    let most = u64::MAX;
    assert_eq!(rt; number(b"0", most), Some(0));
    assert_eq!(rt; number(b"7", most), Some(7));
    assert_eq!(rt; number(b"1000000", most), Some(1_000_000));
    assert_eq!(rt; number(b"18446744073709551615", most), Some(u64::MAX));
    for word in OTHERS {
        assert_eq!(rt; number(word, most), None, "{word:?}");
    }
}

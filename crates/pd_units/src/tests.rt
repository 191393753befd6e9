//! Words that were worked out by hand.

use crate::{
    Unit, number_in, push_number_reading, push_one, push_rating_reading, push_unit,
    push_word_reading, unit_at, unit_of,
};
use pd_edit_lines::Slot;
use pd_scenario::Quantity;
use std::test::*;

#[test]
fn units_of_the_same_kind(rt: HostRuntime) {
    let rows: [(&[u8], Unit, u64); 14] = [
        (b"10us", Unit::Microseconds, 10),
        (b"54.9ms", Unit::Microseconds, 54_900),
        (b"3s", Unit::Microseconds, 3_000_000),
        (b"0.000001s", Unit::Microseconds, 1),
        (b"250000", Unit::Microseconds, 250_000),
        (b"9000mV", Unit::Millivolts, 9_000),
        (b"20V", Unit::Millivolts, 20_000),
        (b"1500mA", Unit::Milliamperes, 1_500),
        (b"3.25A", Unit::Milliamperes, 3_250),
        (b"500mW", Unit::Milliwatts, 500),
        (b"7.50W", Unit::Milliwatts, 7_500),
        (b"5W", Unit::Microwatts, 5_000_000),
        (b"1.5mW", Unit::Microwatts, 1_500),
        (b"9999999999W", Unit::Microwatts, 9_999_999_999_000_000),
    ];
    for (word, unit, number) in rows {
        assert_eq!(rt; number_in(unit, word), Some(number));
    }
}

#[test]
fn words_that_are_no_numbers(rt: HostRuntime) {
    let rows: [(&[u8], Unit); 14] = [
        (b"", Unit::Milliwatts),
        (b"W", Unit::Milliwatts),
        (b"5w", Unit::Milliwatts),
        (b"5V", Unit::Milliwatts),
        (b"5 W", Unit::Milliwatts),
        (b"5uW", Unit::Milliwatts),
        (b"1.5", Unit::Milliwatts),
        (b"5.W", Unit::Milliwatts),
        (b".5W", Unit::Milliwatts),
        (b"1.2.3W", Unit::Milliwatts),
        (b"0.0005W", Unit::Milliwatts),
        (b"-5W", Unit::Milliwatts),
        (b"0.0000010s", Unit::Microseconds),
        (b"12345678901us", Unit::Microseconds),
    ];
    for (word, unit) in rows {
        assert_eq!(rt; number_in(unit, word), None);
    }
}

#[test]
fn numbers_in_thousands(rt: HostRuntime) -> Result<(), Fail> {
    let rows: [(Quantity, u64, &[u8]); 6] = [
        (Quantity::Budget, 140, b"140 W is 140000"),
        (Quantity::Floor, 101, b""),
        (Quantity::Voltage, 5, b"5 V is 5000"),
        (Quantity::Current, 3, b"3 A is 3000"),
        (Quantity::Time, 120_000_001, b""),
        (Quantity::EventId, 0, b""),
    ];
    for (quantity, number, reading) in rows {
        let mut text = Vec::new(rt.alloc());
        push_number_reading(&mut text, quantity, number)?;
        assert_eq!(rt; text.as_slice(), reading);
    }
    let mut text = Vec::new(rt.alloc());
    push_rating_reading(&mut text, 5)?;
    push_rating_reading(&mut text, 4)?;
    push_unit(&mut text, Quantity::Demand)?;
    push_unit(&mut text, Quantity::EventId)?;
    assert_eq!(rt; text.as_slice(), b"5 A is 5000 mW".as_slice());
    Ok(())
}

#[test]
fn words_with_units(rt: HostRuntime) -> Result<(), Fail> {
    let rows: [(&[u8], &[u8]); 4] = [
        (b"2.5s", b"2.5 s is 2500000"),
        (b"90s", b"90 s is 90000000"),
        (b"90", b""),
        (b"5W", b""),
    ];
    for (word, reading) in rows {
        let mut text = Vec::new(rt.alloc());
        push_word_reading(&mut text, unit_at(Slot::At), word)?;
        assert_eq!(rt; text.as_slice(), reading);
    }
    let mut text = Vec::new(rt.alloc());
    push_one(&mut text, unit_of(Quantity::Floor))?;
    assert_eq!(rt; text.as_slice(), b"1 W is 1000".as_slice());
    Ok(())
}

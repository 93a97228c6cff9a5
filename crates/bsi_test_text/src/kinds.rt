//! Tests of worked texts of each kind: read, written, and compared as numbers. A refused allocation is tried again.

use bsi_kinds::{
    BooleanForm, DateForm, DateOrder, Dictionary, ISO_DATE, Kind, NoMemory, Op, TimeForm, TimeUnit,
    compare_decimal, compare_time, read_date, read_decimal, read_rounded, read_time,
};
use std::alloc::Global;

/// Texts, and the numbers that stand for them at two places.
const DECIMALS: [(&str, Option<i64>); 27] = [
    ("12.50", Some(1250)),
    ("12.500", Some(1250)),
    ("-.5", Some(-50)),
    ("7.", Some(700)),
    ("007", Some(700)),
    ("12.505", None),
    ("1.2.3", None),
    ("", None),
    (".", None),
    ("-", None),
    ("92233720368547758.07", Some(i64::MAX)),
    ("-92233720368547758.08", Some(i64::MIN)),
    ("92233720368547758.08", None),
    ("99999999999999999999999999", None),
    ("1e3", Some(100_000)),
    ("1.25E+1", Some(1250)),
    ("1250e-2", Some(1250)),
    ("1e-02", Some(1)),
    ("1e-03", None),
    ("0e-9999", Some(0)),
    ("-12500e-003", Some(-1250)),
    ("1e17", None),
    ("1e", None),
    ("e3", None),
    ("1e3.5", None),
    ("1e+-3", None),
    ("1e99999", None),
];

#[test]
fn decimals_are_read(rt: HostRuntime) {
    for &(text, want) in &DECIMALS {
        assert!(rt; read_decimal(b'.', 2, text.as_bytes()) == want, "{text}");
    }
}

/// Places and texts, and the numbers nearest to them.
const ROUNDED: [(u32, &str, Option<i64>); 22] = [
    (2, "0.125", Some(12)),
    (2, "0.135", Some(14)),
    (2, "-0.125", Some(-12)),
    (2, "-0.135", Some(-14)),
    (2, "0.1250000001", Some(13)),
    (2, "-0.1250000001", Some(-13)),
    (2, "0.1249999999", Some(12)),
    (2, "1e-5", Some(0)),
    (0, "2.5", Some(2)),
    (0, "3.5", Some(4)),
    (0, "-0.5", Some(0)),
    (0, "25e-1", Some(2)),
    (0, "0.5e1", Some(5)),
    (0, "49.9e-2", Some(0)),
    (0, "50.1e-2", Some(1)),
    (2, "0.30000000000000004", Some(30)),
    (18, "1.0000000000000000005", Some(1_000_000_000_000_000_000)),
    (18, "1.0000000000000000015", Some(1_000_000_000_000_000_002)),
    (0, "9223372036854775807", Some(i64::MAX)),
    (0, "9223372036854775807.5", None),
    (0, "1844674407370955161.4", Some(1_844_674_407_370_955_161)),
    (2, "12a", None),
];

#[test]
fn decimals_are_rounded(rt: HostRuntime) {
    for &(places, text, want) in &ROUNDED {
        assert!(rt;
            read_rounded(b'.', places.min(18), text.as_bytes()) == want,
            "{text}"
        );
    }
}

const DOTTED: DateForm = DateForm {
    order: DateOrder::DayFirst,
    sign: b'.',
};

const SLASHED: DateForm = DateForm {
    order: DateOrder::MonthFirst,
    sign: b'/',
};

/// Texts, and the days that they spell.
const DATES: [(DateForm, &str, Option<i64>); 11] = [
    (ISO_DATE, "1970-01-01", Some(0)),
    (ISO_DATE, "2026-01-31", Some(20_484)),
    (ISO_DATE, "2026-1-31", Some(20_484)),
    (DOTTED, "31.01.2026", Some(20_484)),
    (SLASHED, "01/31/2026", Some(20_484)),
    (SLASHED, "31/01/2026", None),
    (ISO_DATE, "2026-02-30", None),
    (ISO_DATE, "2024-02-29", Some(19_782)),
    (ISO_DATE, "1900-02-29", None),
    (ISO_DATE, "26-01-31", None),
    (ISO_DATE, "2026-01-31T", None),
];

#[test]
fn dates_are_read(rt: HostRuntime) {
    for &(form, text, want) in &DATES {
        assert!(rt; read_date(form, text.as_bytes()) == want, "{text}");
    }
}

const LOCAL_SECONDS: TimeForm = TimeForm {
    date: ISO_DATE,
    unit: TimeUnit::Seconds,
    utc: false,
};

const LOCAL_MILLISECONDS: TimeForm = TimeForm {
    date: DOTTED,
    unit: TimeUnit::Milliseconds,
    utc: false,
};

const UTC_MICROSECONDS: TimeForm = TimeForm {
    date: ISO_DATE,
    unit: TimeUnit::Microseconds,
    utc: true,
};

/// Texts, and the times that they spell.
const TIMES: [(TimeForm, &str, Option<i64>); 30] = [
    (LOCAL_SECONDS, "1970-01-01T00:00:00", Some(0)),
    (LOCAL_SECONDS, "1969-12-31 23:59:59", Some(-1)),
    (LOCAL_SECONDS, "2026-01-31T10:30:00", Some(1_769_855_400)),
    (LOCAL_SECONDS, "2026-01-31T10:30", Some(1_769_855_400)),
    (LOCAL_SECONDS, "2026-01-31", Some(1_769_817_600)),
    (LOCAL_SECONDS, "2026-01-31T", None),
    (LOCAL_SECONDS, "2026-02-30T10:30", None),
    (LOCAL_SECONDS, "2026-01-31T24:00", None),
    (LOCAL_SECONDS, "2026-01-31T10:60", None),
    (LOCAL_SECONDS, "2026-01-31T10:30:60", None),
    (LOCAL_SECONDS, "2026-01-31T1:30", None),
    (LOCAL_SECONDS, "2026-01-31T10:30:", None),
    (LOCAL_SECONDS, "2026-01-31T10:30:00.", None),
    (LOCAL_SECONDS, "2026-01-31T10:30.5", None),
    (LOCAL_SECONDS, "2026-01-31T10:30:00.5", None),
    (
        LOCAL_SECONDS,
        "2026-01-31T10:30:00.000",
        Some(1_769_855_400),
    ),
    (LOCAL_SECONDS, "2026-01-31T10:30:00Z", None),
    (LOCAL_MILLISECONDS, "31.12.1969 23:59:59.999", Some(-1)),
    (
        LOCAL_MILLISECONDS,
        "01.01.1970 00:00:00.1250000000000000000000000",
        Some(125),
    ),
    (LOCAL_MILLISECONDS, "01.01.1970 00:00:00.1255", None),
    (UTC_MICROSECONDS, "1970-01-01T00:00:00.000001Z", Some(1)),
    (UTC_MICROSECONDS, "1970-01-01T01:00:00+01:00", Some(0)),
    (
        UTC_MICROSECONDS,
        "1970-01-01T00:00-01:30",
        Some(5_400_000_000),
    ),
    (UTC_MICROSECONDS, "1970-01-01T00:00:00", None),
    (UTC_MICROSECONDS, "1970-01-01", None),
    (UTC_MICROSECONDS, "1970-01-01T00:00:00Z0", None),
    (UTC_MICROSECONDS, "1970-01-01T00:00:00+24:00", None),
    (UTC_MICROSECONDS, "1970-01-01T00:00:00+01", None),
    (
        UTC_MICROSECONDS,
        "9999-12-31T23:59:59+00:00",
        Some(253_402_300_799_000_000),
    ),
    (UTC_MICROSECONDS, "9999-12-31T23:59:59-00:01", None),
];

#[test]
fn times_are_read(rt: HostRuntime) {
    for &(form, text, want) in &TIMES {
        assert!(rt; read_time(form, text.as_bytes()) == want, "{text}");
    }
}

/// Comparisons with a time, and those of the numbers of milliseconds that they come to.
const MOMENTS: [(Op, &str, Op, i128); 5] = [
    (Op::Ge, "31.01.2026", Op::Ge, 1_769_817_600_000),
    (
        Op::Le,
        "31.01.2026 10:30:00.0005",
        Op::Lt,
        1_769_855_400_001,
    ),
    (Op::Gt, "31.12.1969 23:59:59.9995", Op::Ge, 0),
    (Op::Lt, "31.12.1969 23:59:59.999", Op::Lt, -1),
    (Op::Eq, "31.12.1969 23:59:59.9995", Op::Eq, 1 << 64),
];

#[test]
fn times_are_brought_down(rt: HostRuntime) {
    for &(op, text, sign, number) in &MOMENTS {
        let compared = compare_time(op, LOCAL_MILLISECONDS, text.as_bytes());
        assert!(rt;
            compared.is_some_and(|compared| compared.op == sign && compared.number == number),
            "{text}"
        );
    }
}

/// Times, and how they are written again.
const CLOCKS: [(TimeForm, &str, &str); 5] = [
    (LOCAL_SECONDS, "2026-01-31 10:30", "2026-01-31T10:30:00"),
    (
        LOCAL_MILLISECONDS,
        "31.12.1969 23:59:59.9",
        "1969-12-31T23:59:59.900",
    ),
    (
        UTC_MICROSECONDS,
        "2026-01-31T10:30:00.5+01:00",
        "2026-01-31T09:30:00.500000Z",
    ),
    (
        UTC_MICROSECONDS,
        "2026-01-31T23:30-01:00",
        "2026-02-01T00:30:00.000000Z",
    ),
    (
        UTC_MICROSECONDS,
        "0000-01-01T00:00+00:01",
        "-0001-12-31T23:59:00.000000Z",
    ),
];

fn clock_once(alloc: Global, form: TimeForm, text: &str) -> Result<Option<Vec<u8>>, NoMemory> {
    let kind = Kind::Time(form);
    let Some(number) = kind.read(b'.', text.as_bytes()) else {
        return Ok(None);
    };
    let mut line = Vec::new(alloc);
    kind.write(number, &mut line)?;
    Ok(Some(line))
}

// Whether a time is written so again.
fn is_rewritten(alloc: Global, form: TimeForm, text: &str, expected: &str) -> bool {
    let line = match clock_once(alloc, form, text) {
        Err(_) => clock_once(alloc, form, text),
        line => line,
    };
    match line {
        Ok(Some(line)) => line.as_slice() == expected.as_bytes(),
        _ => false,
    }
}

#[test]
fn times_are_written(rt: HostRuntime) {
    for &(form, text, expected) in &CLOCKS {
        assert!(rt; is_rewritten(rt.alloc(), form, text, expected), "{text}");
    }
}

/// Comparisons with a constant, and those of the numbers at two places that they come to.
const CONSTANTS: [(Op, &str, Op, i128); 8] = [
    (Op::Lt, "12.345", Op::Lt, 1235),
    (Op::Le, "12.345", Op::Lt, 1235),
    (Op::Gt, "12.345", Op::Ge, 1235),
    (Op::Eq, "12.345", Op::Eq, 1 << 64),
    (Op::Le, "12.34", Op::Le, 1234),
    (Op::Lt, "-12.345", Op::Lt, -1234),
    (Op::Gt, "12345e-3", Op::Ge, 1235),
    (Op::Ge, "1e-400", Op::Ge, 1),
];

#[test]
fn constants_are_brought_down(rt: HostRuntime) {
    for &(op, text, sign, number) in &CONSTANTS {
        let compared = compare_decimal(op, b'.', 2, text.as_bytes());
        assert!(rt;
            compared.is_some_and(|compared| compared.op == sign && compared.number == number),
            "{text}"
        );
    }
}

fn stations_once(alloc: Global) -> Result<Option<Dictionary>, NoMemory> {
    let mut texts = Vec::new(alloc);
    for text in ["Farm", "Harbour", "Hill"] {
        texts.push(Vec::from_slice(alloc, text.as_bytes())?)?;
    }
    Ok(Dictionary::new(texts))
}

fn finds_stations(texts: &Dictionary) -> bool {
    let below = texts.compare_text(Op::Le, b"Harbor");
    texts.find(b"Harbour") == Some(1)
        && texts.find(b"Harbor") == None
        && below.op == Op::Lt
        && below.number == 1
}

// Whether texts are found by their ranks, and constants that are none of them compared.
fn stations_are_found(alloc: Global) -> bool {
    let made = match stations_once(alloc) {
        Err(_) => stations_once(alloc),
        made => made,
    };
    match made {
        Ok(Some(texts)) => finds_stations(&texts),
        _ => false,
    }
}

#[test]
fn texts_are_found(rt: HostRuntime) {
    assert!(rt; stations_are_found(rt.alloc()));
}

fn answers_once(alloc: Global) -> Result<BooleanForm, NoMemory> {
    let no = Vec::from_slice(alloc, b"no")?;
    let yes = Vec::from_slice(alloc, b"yes")?;
    Ok(BooleanForm { no, yes })
}

fn reads_answers(form: BooleanForm) -> bool {
    if form.yes.as_slice() == form.no.as_slice() {
        return false;
    }
    let kind = Kind::Boolean(form);
    kind.read(b'.', b"yes") == Some(1)
        && kind.read(b'.', b"no") == Some(0)
        && kind.read(b'.', b"Yes") == None
}

// Whether the two words of a boolean are read, and no other.
fn answers_are_read(alloc: Global) -> bool {
    let made = match answers_once(alloc) {
        Err(_) => answers_once(alloc),
        made => made,
    };
    match made {
        Ok(form) => reads_answers(form),
        Err(_) => false,
    }
}

#[test]
fn booleans_are_read(rt: HostRuntime) {
    assert!(rt; answers_are_read(rt.alloc()));
}

/// Numbers, and their texts at two places.
const WRITTEN: [(i64, &str); 4] = [
    (1250, "12.50"),
    (-5, "-0.05"),
    (0, "0.00"),
    (i64::MIN, "-92233720368547758.08"),
];

fn text_once(alloc: Global, number: i64) -> Result<Vec<u8>, NoMemory> {
    let mut line = Vec::new(alloc);
    Kind::Decimal(2).write(number, &mut line)?;
    Ok(line)
}

// Whether a number is written so.
fn is_written(alloc: Global, number: i64, expected: &str) -> bool {
    let line = match text_once(alloc, number) {
        Err(_) => text_once(alloc, number),
        line => line,
    };
    match line {
        Ok(line) => line.as_slice() == expected.as_bytes(),
        Err(_) => false,
    }
}

#[test]
fn numbers_are_written(rt: HostRuntime) {
    for &(number, expected) in &WRITTEN {
        assert!(rt; is_written(rt.alloc(), number, expected), "{expected}");
    }
}

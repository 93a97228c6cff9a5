//! Tests of checks of row files of kinds: what is written of each record that is bad, and of headers that are none.

use bsi_check::{CheckFault, NamedFile, check_row_files};
use bsi_logical::{LogicalFormat, read_logical};
use std::alloc::Global;

const SALES: &str = "column,price,slices,21,-500\n\
    column,day,slices,15,10957\n\
    column,station,slices,2,0\n\
    column,open,slices,1,0\n\
    column,seen,slices,40,0\n\
    column,pieces,slices,8,0\n\
    limit,2\n\
    null,n/a\n\
    kind,price,decimal,2\n\
    kind,day,date,ymd,-\n\
    kind,station,text\n\
    text,station,Harbour\n\
    text,station,Hill\n\
    text,station,Lake\n\
    text,station,Wood\n\
    kind,open,boolean,true,false\n\
    title,seen,Last seen\n\
    kind,seen,time,ms,utc\n";

/// Records under a header that has another field too, from line 2 on; the first three are good.
const ROWS: &str = "day,price,station,open,Last seen,note,pieces\n\
    2026-01-31,12.50,Harbour,true,2004-01-31T10:30:00.5Z,fine,7\n\
    n/a,,,n/a,,,\n\
    ,12.500,Wood,,,,255\n\
    ,12.505,,,,,\n\
    ,\"12,50\",,,,,\n\
    ,free,,,,,\n\
    ,99999.99,,,,,\n\
    ,123456789012345678901234567890,,,,,\n\
    2026-02-30,,,,,,\n\
    31.01.2026,,,,,,\n\
    1999-12-31,,,,,,\n\
    ,,Habour,,,,\n\
    ,,Quay,,,,\n\
    ,,n/a,,,,\n\
    ,,,maybe,,,\n\
    ,,,,noon,,\n\
    ,,,,2026-01-31T10:30:00.0005Z,,\n\
    ,,,,2026-02-30T10:30:00Z,,\n\
    ,,,,9999-12-31T23:30:00-01:00,,\n\
    ,,,,1969-12-31T23:59:59Z,,\n\
    ,,,,,,7.5\n\
    ,,,,,,300\n\
    2026-02-30,12.505,Habour,maybe,noon,,7.5\n\
    2026-01-31,12.50\n";

const REASONS: &str = "a.csv:5: price: '12.505' has more than 2 places\n\
    a.csv:6: price: '12,50' is no decimal: the point is '.'\n\
    a.csv:7: price: 'free' is no decimal\n\
    a.csv:8: price: '99999.99' is not from -5.00 to 20966.51\n\
    a.csv:9: price: '123456789012345678901234567890' is not from -5.00 to 20966.51\n\
    a.csv:10: day: '2026-02-30' is no day\n\
    a.csv:11: day: '31.01.2026' is no date as 2026-12-31\n\
    a.csv:12: day: '1999-12-31' is not from 2000-01-01 to 2089-09-17\n\
    a.csv:13: station: 'Habour' is none of 4 texts, did you mean 'Harbour'?\n\
    a.csv:14: station: 'Quay' is none of 4 texts\n\
    a.csv:15: station: 'n/a' is none of 4 texts\n\
    a.csv:16: open: 'maybe' is neither 'true' nor 'false'\n\
    a.csv:17: Last seen: 'noon' is no time as 2026-12-31T10:30:00Z\n\
    a.csv:18: Last seen: '2026-01-31T10:30:00.0005Z' is between two milliseconds\n\
    a.csv:19: Last seen: '2026-02-30T10:30:00Z' is on no day\n\
    a.csv:20: Last seen: '9999-12-31T23:30:00-01:00' is past the year 9999\n\
    a.csv:21: Last seen: '1969-12-31T23:59:59Z' is not from 1970-01-01T00:00:00.000Z to 2004-11-03T19:53:47.775Z\n\
    a.csv:22: pieces: '7.5' is no whole number\n\
    a.csv:23: pieces: '300' is not from 0 to 255\n\
    a.csv:24: day: '2026-02-30' is no day\n\
    a.csv:25: has 2 fields, and the header 7\n\
    kinds: there are 3 good rows, and the limit is 2\n\
    fed 0 3 21\n";

const ODD: &str = "column,a,slices,3,-4\n\
    column,b,slices,22,2932000\n\
    column,c,slices,1,1\n\
    column,d,slices,1,0\n\
    title,a,\"\t\"\n\
    kind,a,decimal,1\n\
    kind,b,date,dmy,.\n\
    kind,c,text\n\
    text,c,one\n\
    text,c,two\n\
    kind,d,boolean,yes,no\n";

const COMMA: &str = "column,a,slices,3,-4\nkind,a,decimal,1\ndialect,;,\",\"\n";

const ROUNDED: &str = "column,a,slices,10,0\nkind,a,decimal,2,rounded\n";

/// What is checked by which schema, and what is written.
const CHECKED: [(&str, &str, &str); 7] = [
    (SALES, ROWS, REASONS),
    (
        SALES,
        "price,Day,day,day,station,open,Last sen,note,prices\n",
        "a.csv:1: the header names 'price', 'Day', 'day', 'day', 'station', 'open', 'Last sen', 'note', 'prices'; \
            the columns are 'price', 'day', 'station', 'open', 'Last seen', 'pieces'; 'day' stands 2 times; \
            'Last seen' is missing; 'pieces' is missing; unknown column 'Last sen', did you mean 'Last seen'?\n",
    ),
    (SALES, "", "a.csv: is empty: it has no header\n"),
    (
        ODD,
        "\"\t\",b,c,d\n1.25,,,\n9,,,\n,31-12-2026,,\n,01.01.2026,,\n,,one,\n,,three,\n,,,Yes\n",
        "a.csv:2: a: '1.25' has more than 1 place\n\
            a.csv:3: a: '9' is not from -0.4 to 0.3\n\
            a.csv:4: b: '31-12-2026' is no date as 31.12.2026\n\
            a.csv:5: b: '01.01.2026' is not from 9997-07-18 on\n\
            a.csv:6: c: 'one' is not from 'two' on\n\
            a.csv:7: c: 'three' is none of 2 texts\n\
            a.csv:8: d: 'Yes' is neither 'yes' nor 'no'\n\
            fed 0 0 7\n",
    ),
    (
        COMMA,
        "a;b\n0,1;\n0,25;\n0.1;\n-1;\n",
        "a.csv:3: a: '0,25' has more than 1 place\n\
            a.csv:4: a: '0.1' is no decimal: the point is ','\n\
            a.csv:5: a: '-1' is not from -0.4 to 0.3\n\
            fed 0 1 3\n",
    ),
    (
        ROUNDED,
        "a\n1.005\n1e-9\n10.235000001\n1,5\n99999999999999999999.5\n",
        "a.csv:4: a: '10.235000001' is not from 0.00 to 10.23\n\
            a.csv:5: has 2 fields, and the header 1\n\
            a.csv:6: a: '99999999999999999999.5' is not from 0.00 to 10.23\n\
            fed 0 2 3\n",
    ),
    (
        SALES,
        "pieces,day,price,station,open,Last seen\n1,,,,,\n2,,,,,\n",
        "fed 0 2 0\n",
    ),
];

// What a check of one file writes.
fn report_once(alloc: Global, schema: &str, file: &str) -> Result<Vec<u8>, CheckFault> {
    let Ok(logical) = read_logical(alloc, schema.as_bytes()) else {
        return Err(CheckFault::NoMemory);
    };
    let limit = logical.limit();
    let format = LogicalFormat::new(alloc, logical)?;
    let mut rows = Vec::with_capacity(alloc, 1)?;
    let named = NamedFile {
        path: "a.csv",
        reader: file.as_bytes(),
    };
    rows.push(named).map_err(|_| CheckFault::NoMemory)?;
    let mut output = Vec::new(alloc);
    check_row_files(alloc, &format, limit, "kinds", rows, &mut output)?;
    Ok(output)
}

// Whether a check of one file writes this; where memory was refused, it runs again.
fn writes(alloc: Global, schema: &str, file: &str, want: &str) -> bool {
    let report = match report_once(alloc, schema, file) {
        Err(_) => report_once(alloc, schema, file),
        report => report,
    };
    match report {
        Ok(report) => report.as_slice() == want.as_bytes(),
        Err(_) => false,
    }
}

#[test]
fn each_bad_record_is_told_by_its_kind(rt: HostRuntime) {
    for &(schema, file, want) in &CHECKED {
        assert!(rt; writes(rt.alloc(), schema, file, want), "{want}");
    }
}

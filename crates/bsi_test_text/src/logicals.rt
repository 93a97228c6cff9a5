//! Tests of the texts of logical schemas, and of what their columns make of fields, constants and numbers.

use crate::ends::{broken, whole};
use bsi_fixtures::TextReader;
use bsi_input::SourceFault;
use bsi_logical::{
    Comparison, LogicalFault, LogicalSchema, NoMemory, Op, Refusal, describe_logical, read_logical,
};
use bsi_syntax::{Notation, Vocabulary};
use std::alloc::Global;
use std::test::Fail;

const SALES: &str = "column,amount,slices,21,-500\n\
    column,day,slices,20,0\n\
    column,station,slices,2,0\n\
    column,paid,slices,1,0\n\
    column,seen,slices,40,0\n\
    column,pieces,slices,8,0\n\
    limit,1000\n\
    dialect,;,\",\"\n\
    null,n/a\n\
    title,amount,Amount (EUR)\n\
    kind,amount,decimal,2\n\
    kind,day,date,dmy,.\n\
    kind,station,text\n\
    text,station,Harbour\n\
    text,station,n/a\n\
    kind,paid,boolean,yes,no\n\
    title,seen,\"seen, by \"\"us\"\"\"\n\
    kind,seen,time,ms,utc\n";

// Where memory was refused, the text is read again.
fn read(alloc: Global, reader: TextReader<'_>) -> Result<LogicalSchema, LogicalFault> {
    match read_logical(alloc, reader) {
        Err(LogicalFault::Source(SourceFault::NoMemory)) => read_logical(alloc, reader),
        read => read,
    }
}

// Why a text says no schema, if it says none.
fn fault(alloc: Global, reader: TextReader<'_>) -> Option<LogicalFault> {
    read(alloc, reader).err()
}

/// Records behind `column,a,slices,9`, `column,b,slices,9` and `column,t,slices,9`, and why the last one is refused.
const REFUSED: [(&str, Refusal); 37] = [
    ("titel,a,A\n", Refusal::UnknownWord),
    ("feeder,5\n", Refusal::UnknownWord),
    ("column,c,slices\n", Refusal::BadTable),
    ("limit,0\n", Refusal::BadTable),
    ("column,a,slices,9\n", Refusal::NameTaken),
    ("title,a,c\ncolumn,c,slices,9\n", Refusal::NameTaken),
    ("dialect,;\n", Refusal::BadDialect),
    ("dialect,;;,.\n", Refusal::BadDialect),
    ("dialect,;,;\n", Refusal::BadDialect),
    ("dialect,\",\",\",\"\n", Refusal::BadDialect),
    ("dialect,\",\",.\n", Refusal::BadDialect),
    ("dialect,\"\"\"\",.\n", Refusal::BadDialect),
    ("dialect,;,.\ndialect,|,.\n", Refusal::DialectDeclared),
    ("null\n", Refusal::BadNull),
    ("null,NA,none\n", Refusal::BadNull),
    ("null,\n", Refusal::NullDeclared),
    ("null,NA\nnull,NA\n", Refusal::NullDeclared),
    ("title,a\n", Refusal::BadTitle),
    ("title,c,C\n", Refusal::NoColumn),
    ("title,a,A\ntitle,A,B\n", Refusal::NoColumn),
    ("title,a,A\ntitle,a,B\n", Refusal::TitleDeclared),
    ("title,a,a\n", Refusal::TitleTaken),
    ("title,a,b\n", Refusal::TitleTaken),
    ("title,a,A\ntitle,b,A\n", Refusal::TitleTaken),
    ("kind\n", Refusal::BadKind),
    ("kind,a\n", Refusal::BadKind),
    ("kind,a,decimal,19\n", Refusal::BadKind),
    ("kind,a,date,ymd,1\n", Refusal::BadKind),
    ("kind,a,time,h,utc\n", Refusal::BadKind),
    ("kind,a,boolean,yes,yes\n", Refusal::BadKind),
    ("kind,c,text\n", Refusal::NoColumn),
    ("kind,a,text\nkind,a,decimal,2\n", Refusal::KindDeclared),
    ("text,a,Hill\n", Refusal::NoTexts),
    (
        "kind,t,text\ntext,t,Hill\ntext,t,Harbour\n",
        Refusal::BadText,
    ),
    ("kind,t,text\ntext,t,Hill\ntext,t,Hill\n", Refusal::BadText),
    ("kind,t,text\ntext,t,\n", Refusal::BadText),
    ("kind,t,text\ntext,t\n", Refusal::NoTexts),
];

// The text of three columns and more records.
fn three_columns(alloc: Global, more: &str) -> Result<String, NoMemory> {
    format!(in alloc; "column,a,slices,9\ncolumn,b,slices,9\ncolumn,t,slices,9\n{more}")
}

fn line_count(text: &str) -> u64 {
    let mut count = 0u64;
    for byte in text.as_bytes() {
        if *byte == b'\n' {
            count = count.saturating_add(1);
        }
    }
    count
}

// Whether the last record is refused for this reason.
fn is_refused(alloc: Global, more: &str, why: Refusal) -> bool {
    let made = match three_columns(alloc, more) {
        Err(_) => three_columns(alloc, more),
        made => made,
    };
    match made {
        Ok(text) => {
            let last = line_count(&text);
            fault(alloc, whole(text.as_bytes())) == Some(LogicalFault::BadRecord(last, why))
        }
        Err(_) => false,
    }
}

#[test]
fn records_that_say_nothing_are_refused(rt: HostRuntime) {
    for &(more, why) in &REFUSED {
        assert!(rt; is_refused(rt.alloc(), more, why), "{more}");
    }
}

// The text that a schema is described as, from its text; where memory was refused, it is described again.
fn described_once(alloc: Global, text: &str) -> Result<Vec<u8>, LogicalFault> {
    let logical = read_logical(alloc, text.as_bytes())?;
    let described = describe_logical(alloc, &logical)?;
    Ok(described)
}

fn is_described(alloc: Global, text: &str) -> bool {
    let described = match described_once(alloc, text) {
        Err(LogicalFault::Source(SourceFault::NoMemory)) => described_once(alloc, text),
        described => described,
    };
    match described {
        Ok(described) => described.as_slice() == text.as_bytes(),
        Err(_) => false,
    }
}

/// Texts as they are described.
const DESCRIBED: [&str; 3] = [
    SALES,
    "column,a,slices,9\nlimit,4294967296\n",
    "column,a,slices,9\nlimit,5\ndialect,\t,.\nnull,NA\nnull,\"a \"\"b\"\"\"\ntitle,a,\nkind,a,time,us,local,mdy,/\n",
];

#[test]
fn each_schema_is_described_as_its_text(rt: HostRuntime) {
    for &text in &DESCRIBED {
        assert!(rt; is_described(rt.alloc(), text), "{text}");
    }
}

#[test]
fn a_text_that_breaks_off_says_nothing(rt: HostRuntime) {
    let reader = broken(b"column,a,slices,3\n");
    assert!(rt; fault(rt.alloc(), reader) == Some(LogicalFault::Source(SourceFault::Read)));
    let none = whole(b"limit,5\n");
    assert!(rt; fault(rt.alloc(), none) == Some(LogicalFault::NoColumns));
}

/// Titles and names, and the places of their columns.
const CALLED: [(&str, Option<u32>); 8] = [
    ("Amount (EUR)", Some(0)),
    ("amount", Some(0)),
    ("day", Some(1)),
    ("station", Some(2)),
    ("seen, by \"us\"", Some(4)),
    ("pieces", Some(5)),
    ("Amount", None),
    ("", None),
];

/// Columns, fields, and what these spell.
const ENTRIES: [(&str, &str, Option<Option<i64>>); 18] = [
    ("amount", "12,5", Some(Some(1250))),
    ("amount", "12.5", None),
    ("amount", "", Some(None)),
    ("amount", "n/a", Some(None)),
    ("amount", "NA", None),
    ("day", "31.01.2026", Some(Some(20_484))),
    ("day", "2026-01-31", None),
    ("station", "Harbour", Some(Some(0))),
    ("station", "n/a", Some(Some(1))),
    ("station", "Hill", None),
    ("station", "", Some(None)),
    ("paid", "yes", Some(Some(1))),
    ("paid", "no", Some(Some(0))),
    ("paid", "Yes", None),
    ("seen", "1970-01-01T00:00:00.5Z", Some(Some(500))),
    ("seen", "1970-01-01T00:00:00.5", None),
    ("pieces", "-7", Some(Some(-7))),
    ("pieces", "7,5", None),
];

/// Columns, comparisons with constants, and those of numbers.
const COMPARED: [(&str, Op, &str, Option<Comparison>); 7] = [
    (
        "amount",
        Op::Lt,
        "12.505",
        Some(Comparison {
            op: Op::Lt,
            number: 1251,
        }),
    ),
    (
        "amount",
        Op::Eq,
        "12.505",
        Some(Comparison {
            op: Op::Eq,
            number: 1 << 64,
        }),
    ),
    ("amount", Op::Lt, "12,5", None),
    (
        "day",
        Op::Ge,
        "2026-01-31",
        Some(Comparison {
            op: Op::Ge,
            number: 20_484,
        }),
    ),
    ("day", Op::Ge, "31.01.2026", None),
    (
        "station",
        Op::Gt,
        "Hill",
        Some(Comparison {
            op: Op::Ge,
            number: 1,
        }),
    ),
    (
        "paid",
        Op::Eq,
        "no",
        Some(Comparison {
            op: Op::Eq,
            number: 0,
        }),
    ),
];

// Whether each call of a schema answers as the tables say.
fn finds_columns(sales: &LogicalSchema) -> bool {
    CALLED
        .iter()
        .all(|(name, want)| sales.find(name.as_bytes()) == *want)
}

fn reads_entry(sales: &LogicalSchema, name: &str, field: &str, want: Option<Option<i64>>) -> bool {
    match sales.schema().find(name.as_bytes()) {
        Some(c) => sales.read_entry(c, field.as_bytes()) == want,
        None => false,
    }
}

fn compares(
    sales: &LogicalSchema,
    name: &str,
    op: Op,
    constant: &str,
    want: Option<Comparison>,
) -> bool {
    match sales.schema().find(name.as_bytes()) {
        Some(c) => sales.compare(c, op, constant.as_bytes()) == want,
        None => false,
    }
}

#[test]
fn columns_read_fields_and_constants_by_their_kinds(rt: HostRuntime) -> Result<(), Fail> {
    let sales = read(rt.alloc(), whole(SALES.as_bytes()))?;
    assert!(rt; finds_columns(&sales));
    for &(name, field, want) in &ENTRIES {
        assert!(rt; reads_entry(&sales, name, field, want), "{name} {field}");
    }
    for &(name, op, constant, want) in &COMPARED {
        assert!(rt;
            compares(&sales, name, op, constant, want),
            "{name} {constant}"
        );
    }
    Ok(())
}

/// The text of columns that compare with one another, or don't.
const LIKE: &str = "column,a,slices,9\ncolumn,b,slices,9\ncolumn,c,slices,9\ncolumn,d,slices,9\n\
    kind,b,decimal,2\nkind,c,date,ymd,-\nkind,d,date,dmy,.\n";

#[test]
fn columns_compare_where_their_values_do(rt: HostRuntime) -> Result<(), Fail> {
    let like = read(rt.alloc(), whole(LIKE.as_bytes()))?;
    assert_eq!(rt; like.schema().columns(), 4);
    assert!(rt; like.are_alike(0, 0) && like.are_alike(2, 3));
    assert!(rt; !like.are_alike(0, 1) && !like.are_alike(1, 2));
    assert!(rt; like.is_summed(0) && like.is_summed(1) && !like.is_summed(2));
    assert!(rt; like.may_sum(1) && !like.may_sum(3) && !like.may_sum(4));
    assert!(rt; like.may_compare(2, 3) && !like.may_compare(1, 2) && !like.may_compare(0, 4));
    Ok(())
}

/// Numbers of columns of the sales, and how answers write them: values, or numbers that stand for none.
const WRITTEN: [(&str, i128, &str); 13] = [
    ("amount", 1_250, "12.50"),
    ("amount", -5, "-0.05"),
    (
        "amount",
        100_000_000_000_000_000_000,
        "1000000000000000000.00",
    ),
    ("day", 20_484, "2026-01-31"),
    ("day", 5_000_000, "5000000"),
    ("station", 0, "Harbour"),
    ("station", 1, "n/a"),
    ("station", 2, "2"),
    ("station", -1, "-1"),
    ("paid", 0, "no"),
    ("paid", 2, "2"),
    ("seen", 1, "1970-01-01T00:00:00.001Z"),
    ("pieces", 7, "7"),
];

/// The text of a column of texts, most of which answers write in quotes.
const QUOTED: &str =
    "column,t,slices,3\nkind,t,text\ntext,t,\" \"\ntext,t,\"a, b\"\ntext,t,a:b\ntext,t,a=b\n\
    text,t,plain\ntext,t,\"say \"\"a\"\"\"\n";

/// How answers write these texts.
const IN_QUOTES: [&str; 6] = [
    "\" \"",
    "\"a, b\"",
    "\"a:b\"",
    "\"a=b\"",
    "plain",
    "\"say \"\"a\"\"\"",
];

// The text of a number of a column.
fn text_of(
    alloc: Global,
    schema: &LogicalSchema,
    c: u32,
    number: i128,
) -> Result<Vec<u8>, NoMemory> {
    let mut line = Vec::new(alloc);
    schema.write_number(c, number, &mut line)?;
    Ok(line)
}

// Whether answers write the number of a column so. Where memory was refused, it is written again.
fn writes(alloc: Global, schema: &LogicalSchema, name: &str, number: i128, want: &str) -> bool {
    let Some(c) = schema.schema().find(name.as_bytes()) else {
        return false;
    };
    let text = match text_of(alloc, schema, c, number) {
        Err(_) => text_of(alloc, schema, c, number),
        text => text,
    };
    match text {
        Ok(text) => text.as_slice() == want.as_bytes(),
        Err(_) => false,
    }
}

#[test]
fn answers_write_values(rt: HostRuntime) -> Result<(), Fail> {
    let sales = read(rt.alloc(), whole(SALES.as_bytes()))?;
    for &(name, number, want) in &WRITTEN {
        assert!(rt;
            writes(rt.alloc(), &sales, name, number, want),
            "{name} {number}"
        );
    }
    let quoted = read(rt.alloc(), whole(QUOTED.as_bytes()))?;
    for (number, want) in IN_QUOTES.iter().enumerate() {
        assert!(rt;
            writes(rt.alloc(), &quoted, "t", number as i128, want),
            "{want}"
        );
    }
    Ok(())
}

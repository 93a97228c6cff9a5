//! Tests of the schemas that are made of worked texts, also of two with one header.

ghost use Rattle.std.specs.Prelude.{◌≡◌, []};
ghost use Rattle.bsi_survey.specs.Surveys.{LooksFor};

use bsi_inference::Doubt;
use bsi_input::SourceFault;
use bsi_kinds::DateOrder;
use bsi_logical::{Dialect, describe_logical};
use bsi_survey::{
    ColumnDoubt, ColumnStart, JoinError, NoMemory, SchemaRefusal, Survey, SurveyError,
    SurveyOptions,
};
use std::alloc::Global;

/// The byte between fields, the decimal point, a text, and the text of its schema, or what stands in the way.
type Worked = (u8, u8, &'static str, &'static str);

const TEXTS: [Worked; 11] = [
    (
        b',',
        b'.',
        "a,b\n1,x\n2\n3,y\n4,y,z\n",
        "column,a,slices,3,1\ncolumn,b,slices,2,0\nlimit,4294967296\nkind,b,text\ntext,b,x\ntext,b,y\n",
    ),
    (
        b';',
        b',',
        "Preis;Tag;\n12,50;31.01.2026;\n-3;1.2.2026;NA\n",
        "column,preis,slices,12,-300\ncolumn,tag,slices,2,20484\ncolumn,column,slices,1,0\n\
         limit,4294967296\ndialect,;,\",\"\nnull,NA\ntitle,preis,Preis\nkind,preis,decimal,2\n\
         title,tag,Tag\nkind,tag,date,dmy,.\ntitle,column,\n",
    ),
    (
        b',',
        b'.',
        "all,A,a,1st,%\n1,1,1,1,1\n",
        "column,c_all,slices,1,1\ncolumn,a_2,slices,1,1\ncolumn,a,slices,1,1\n\
         column,c_1st,slices,1,1\ncolumn,column,slices,1,1\nlimit,4294967296\n\
         title,c_all,all\ntitle,a_2,A\ntitle,c_1st,1st\ntitle,column,%\n",
    ),
    (b',', b'.', "x,x,x_2\n1,1,1\n", "column 2 is repeated"),
    (
        b',',
        b'.',
        "x,,x,\n1,1,1,1\n",
        "column,x,slices,1,1\ncolumn,column,slices,1,1\ncolumn,x_2,slices,1,1\n\
         column,c__2,slices,1,1\nlimit,4294967296\ntitle,column,\ntitle,c__2,_2\n",
    ),
    (
        b',',
        b'.',
        "\u{feff}Net amount (EUR)\n7\n",
        "column,net_amount_eur,slices,1,7\nlimit,4294967296\ntitle,net_amount_eur,Net amount (EUR)\n",
    ),
    (b',', b'.', "a\n", "column,a,slices,1,0\nlimit,4294967296\n"),
    (
        b',',
        b'.',
        "a\n9223372036854775807\n9223372036854775806\n",
        "column,a,slices,2,9223372036854775804\nlimit,4294967296\n",
    ),
    (
        b',',
        b'.',
        "day,b\n01/02/2026,1\n03/04/2026,x\n",
        "day: two orders; b: texts missing",
    ),
    (b',', b'.', "", "bad header"),
    (b',', b'.', "a\n0.1234567890123456789\n", "a: 19 places"),
];

/// Makes the options of a survey.
fn options_of(alloc: Global, worked: Worked, order: Option<DateOrder>) -> SurveyOptions
    ensures { result.starts.items ≡ [] }
{
    SurveyOptions {
        dialect: Dialect {
            delimiter: worked.0,
            point: worked.1,
        },
        order,
        nulls: Vec::new(alloc),
        columns: None,
        rounding: None,
        starts: Vec::new(alloc),
    }
}

/// Describes the schema of a survey, or what stands in the way.
fn describe(alloc: Global, survey: Survey) -> Result<String, NoMemory>
    requires { LooksFor survey }
{
    match survey.make_schema(alloc) {
        Ok(schema) => {
            let text = describe_logical(alloc, &schema)?;
            String::from_utf8(text).map_err(|_| NoMemory)
        }
        Err(SchemaRefusal::Doubts(doubts)) => describe_doubts(alloc, &doubts),
        Err(SchemaRefusal::TooManyColumns) => String::from_str(alloc, "too many columns"),
        Err(SchemaRefusal::RepeatedTitle(c)) => format!(in alloc; "column {c} is repeated"),
        Err(SchemaRefusal::Undeclared(_)) => String::from_str(alloc, "undeclared"),
        Err(SchemaRefusal::NoMemory) => Err(NoMemory),
    }
}

/// Describes the columns in doubt.
fn describe_doubts(alloc: Global, doubts: &[ColumnDoubt]) -> Result<String, NoMemory> {
    let mut text = String::new(alloc);
    'doubts: for doubt in doubts {
        if !text.is_empty() {
            text.push_str("; ")?;
        }
        let title = String::from_utf8(Vec::from_slice(alloc, doubt.title.as_slice())?).map_err(
            |_| NoMemory,
        )?;
        text.push_str(title.as_str())?;
        text.push_str(": ")?;
        match doubt.doubt {
            Doubt::TwoOrders(_) => text.push_str("two orders")?,
            Doubt::TextsMissing => text.push_str("texts missing")?,
            Doubt::TooManyTexts => text.push_str("too many texts")?,
            Doubt::TooManyDigits(places) => {
                text.push_str(&format!(in alloc; "{places} places")?)?;
            }
        }
    }
    Ok(text)
}

fn describe_text_once(
    alloc: Global,
    text: &str,
    options: &SurveyOptions,
) -> Result<String, NoMemory> {
    match Survey::read(alloc, text.as_bytes(), options) {
        Ok(survey) => describe(alloc, survey),
        Err(SurveyError::Source(SourceFault::NoMemory)) => Err(NoMemory),
        Err(SurveyError::Source(fault)) => String::from_str(alloc, fault.text()),
        Err(SurveyError::NoColumn(_)) => String::from_str(alloc, "no column"),
    }
}

// Where memory was refused, the text is read again.
fn describe_text(alloc: Global, text: &str, options: &SurveyOptions) -> Result<String, NoMemory> {
    match describe_text_once(alloc, text, options) {
        Err(NoMemory) => describe_text_once(alloc, text, options),
        described => described,
    }
}

#[test]
fn schemas_are_made_of_texts(rt: HostRuntime) -> Result<(), NoMemory> {
    for &worked in &TEXTS {
        let options = options_of(rt.alloc(), worked, None);
        let described = describe_text(rt.alloc(), worked.2, &options)?;
        assert!(rt; described.as_str() == worked.3, "{described}");
    }
    Ok(())
}

#[test]
fn said_orders_and_texts_end_doubts(rt: HostRuntime) -> Result<(), NoMemory> {
    let alloc = rt.alloc();
    let worked = (b',', b'.', "day,b\n01/02/2026,1\n03/04/2026,x\n", "");
    let mut options = options_of(alloc, worked, Some(DateOrder::MonthFirst));
    if options.starts.push(ColumnStart::Any).is_err() {
        options.starts.push(ColumnStart::Any)?;
    }
    options.starts.push(ColumnStart::Texts)?;
    let described = describe_text(alloc, worked.2, &options)?;
    let expected = "column,day,slices,7,20455\ncolumn,b,slices,2,0\nlimit,4294967296\n\
                    kind,day,date,mdy,/\nkind,b,text\ntext,b,1\ntext,b,x\n";
    assert!(rt; described.as_str() == expected, "{described}");
    Ok(())
}

fn describe_two_once(alloc: Global, second: &str) -> Result<String, NoMemory> {
    let options = options_of(alloc, (b',', b'.', "", ""), None);
    let Ok(mut first) = Survey::read(alloc, b"a,b\n1,x\n2\n".as_slice(), &options) else {
        return Err(NoMemory);
    };
    let Ok(second) = Survey::read(alloc, second.as_bytes(), &options) else {
        return Err(NoMemory);
    };
    match first.join(second) {
        Ok(()) => describe(alloc, first),
        Err(JoinError::OtherHeader) => String::from_str(alloc, "other header"),
        Err(JoinError::TooLong) => String::from_str(alloc, "too long"),
        Err(JoinError::NoMemory) => Err(NoMemory),
    }
}

fn describe_two(alloc: Global, second: &str) -> Result<String, NoMemory> {
    match describe_two_once(alloc, second) {
        Err(NoMemory) => describe_two_once(alloc, second),
        described => described,
    }
}

#[test]
fn surveys_of_one_header_are_joined(rt: HostRuntime) -> Result<(), NoMemory> {
    let joined = describe_two(rt.alloc(), "a,b\n-0.5,y\n")?;
    let expected = "column,a,slices,5,-5\ncolumn,b,slices,2,0\nlimit,4294967296\n\
                    kind,a,decimal,1\nkind,b,text\ntext,b,x\ntext,b,y\n";
    assert!(rt; joined.as_str() == expected, "{joined}");
    let other = describe_two(rt.alloc(), "a,c\n1,y\n")?;
    assert!(rt; other.as_str() == "other header", "{other}");
    Ok(())
}

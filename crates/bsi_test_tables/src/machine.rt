//! Tests of step machines: what their makers refuse, runs, and calls that are refused memory.

use bsi_columns::NoMemory;
use bsi_fixtures::{DeclaredColumn, QTY, row_of, schema_of};
use bsi_load::{
    CloseRefused, Core, Event, LoadRefused, MakeError, Reply, RunRefused, SubmitRefused,
    check_sizes,
};
use bsi_table::{Answer, AskError, IndexError, Pred, Query, Row, Schema, SchemaError, Total};
use std::alloc::Global;
use std::test::Fail;

/// What a machine is made of.
#[derive(Clone, Copy)]
struct Machine<'a> {
    columns: &'a [DeclaredColumn<'a>],
    capacities: &'a [u32],
    limit: u64,
}

const PAIR: Machine<'static> = Machine {
    columns: &[QTY],
    capacities: &[2],
    limit: 10,
};

fn core_of(alloc: Global, machine: Machine) -> Result<Core, MakeError> {
    match schema_of(alloc, machine.columns) {
        Err(_) => Err(MakeError::NoMemory),
        Ok(schema) => {
            let capacities = Vec::from_slice(alloc, machine.capacities)?;
            Core::new(alloc, schema, capacities, machine.limit)
        }
    }
}

/// Makes a machine with no row. If memory is refused, it makes the same call again.
fn made(alloc: Global, machine: Machine) -> Result<Core, MakeError> {
    match core_of(alloc, machine) {
        Err(MakeError::NoMemory) => core_of(alloc, machine),
        made => made,
    }
}

fn lacks_memory(reply: &Reply) -> bool {
    match reply {
        Reply::Loaded(Err(LoadRefused::NoMemory)) | Reply::Answered(Err(AskError::NoMemory)) =>
            true,
        _ => false,
    }
}

/// Returns whether the replies are the expected ones. A reply that memory was refused makes it refuse the whole run.
fn are_replies(replies: &[Reply], expected: &[Reply]) -> Result<bool, NoMemory> {
    if replies.iter().any(lacks_memory) {
        return Err(NoMemory);
    }
    Ok(replies == expected)
}

/// An event, and the reply to it: a feeder, and then what is sent or answered.
#[derive(Clone, Copy)]
enum Step {
    /// A row of this number is accepted.
    Accept(u32, i128),
    /// It comes back, since as many rows wait as may.
    Full(u32, i128),
    /// It comes back, since the feeder is closed.
    Late(u32, i128),
    /// A row is loaded, and is at this position.
    Load(u32, u64),
    /// No row waits.
    Empty(u32),
    /// No row waits, and none will.
    End(u32),
    /// The feeder is closed.
    Close(u32),
    /// It was closed before.
    CloseAgain(u32),
    /// The rows are so many.
    Count(u64),
    /// The numbers come to this sum.
    Sum(i128),
    /// The rows are these.
    Rows(&'static [(u32, u64)]),
}

fn ask(total: Total) -> Event {
    Event::Ask(Query {
        total,
        pred: Pred::All,
    })
}

fn event(alloc: Global, step: Step) -> Result<Event, NoMemory> {
    match step {
        Step::Accept(f, number) | Step::Full(f, number) | Step::Late(f, number) => {
            let row = row_of(alloc, &[Some(number)])?;
            Ok(Event::Submit(f, row))
        }
        Step::Load(f, _) | Step::Empty(f) | Step::End(f) => Ok(Event::Load(f)),
        Step::Close(f) | Step::CloseAgain(f) => Ok(Event::Close(f)),
        Step::Count(_) => Ok(ask(Total::Count)),
        Step::Sum(_) => Ok(ask(Total::Sum(0))),
        Step::Rows(_) => Ok(ask(Total::Rows)),
    }
}

fn reply(alloc: Global, step: Step) -> Result<Reply, NoMemory> {
    match step {
        Step::Accept(_, _) => Ok(Reply::Submitted(Ok(()))),
        Step::Full(_, number) => {
            let row = row_of(alloc, &[Some(number)])?;
            Ok(Reply::Submitted(Err(SubmitRefused::Full(row))))
        }
        Step::Late(_, number) => {
            let row = row_of(alloc, &[Some(number)])?;
            Ok(Reply::Submitted(Err(SubmitRefused::Closed(row))))
        }
        Step::Load(_, position) => Ok(Reply::Loaded(Ok(position))),
        Step::Empty(_) => Ok(Reply::Loaded(Err(LoadRefused::Empty))),
        Step::End(_) => Ok(Reply::Loaded(Err(LoadRefused::Ended))),
        Step::Close(_) => Ok(Reply::Closed(Ok(()))),
        Step::CloseAgain(_) => Ok(Reply::Closed(Err(CloseRefused::AlreadyClosed))),
        Step::Count(rows) => Ok(Reply::Answered(Ok(Answer::Count(rows)))),
        Step::Sum(sum) => Ok(Reply::Answered(Ok(Answer::Sum(sum)))),
        Step::Rows(rows) => {
            let rows = Vec::from_slice(alloc, rows)?;
            Ok(Reply::Answered(Ok(Answer::Rows(rows))))
        }
    }
}

fn events(alloc: Global, steps: &[Step]) -> Result<Vec<Event>, NoMemory> {
    let mut events = Vec::new(alloc);
    for step in steps {
        events.push(event(alloc, *step)?)?;
    }
    Ok(events)
}

fn replies(alloc: Global, steps: &[Step]) -> Result<Vec<Reply>, NoMemory> {
    let mut replies = Vec::new(alloc);
    for step in steps {
        replies.push(reply(alloc, *step)?)?;
    }
    Ok(replies)
}

// Whether an event is that of a step.
fn is_event(event: &Event, step: Step) -> bool {
    match (event, step) {
        (Event::Submit(f, row), Step::Accept(own, number))
        | (Event::Submit(f, row), Step::Full(own, number))
        | (Event::Submit(f, row), Step::Late(own, number)) => {
            *f == own && row.values() == &[Some(number)][..]
        }
        (Event::Load(f), Step::Load(own, _))
        | (Event::Load(f), Step::Empty(own))
        | (Event::Load(f), Step::End(own))
        | (Event::Close(f), Step::Close(own))
        | (Event::Close(f), Step::CloseAgain(own)) => *f == own,
        (Event::Ask(query), Step::Count(_)) => query.total == Total::Count,
        (Event::Ask(query), Step::Sum(_)) => query.total == Total::Sum(0),
        (Event::Ask(query), Step::Rows(_)) => query.total == Total::Rows,
        _ => false,
    }
}

// Whether the events are those of the steps.
fn are_events(events: &[Event], steps: &[Step]) -> bool {
    if events.len() != steps.len() {
        return false;
    }
    events
        .iter()
        .zip(steps)
        .all(|(event, step)| is_event(event, *step))
}

// Whether a run of the steps gets their replies. If memory for the list of replies is refused, the events come back and
// the rows that wait stay, and they are run once more.
fn runs(alloc: Global, core: &mut Core, steps: &[Step]) -> Result<bool, NoMemory> {
    let expected = replies(alloc, steps)?;
    let waiting = core.waiting(0);
    match core.run(events(alloc, steps)?) {
        Ok(replies_given) => are_replies(&replies_given, &expected),
        Err(RunRefused { events }) if are_events(&events, steps) && core.waiting(0) == waiting => {
            let replies_given = core.run(events).map_err(|_| NoMemory)?;
            are_replies(&replies_given, &expected)
        }
        Err(_) => Ok(false),
    }
}

/// The capacities of a machine, and runs one after the other, after which no row waits.
type Worked = (&'static [u32], &'static [&'static [Step]]);

const WORKED: [Worked; 6] = [
    (
        &[2],
        &[
            &[Step::Accept(0, 1), Step::Accept(0, 2)],
            &[
                Step::Load(0, 0),
                Step::Close(0),
                Step::Late(0, 3),
                Step::Load(0, 1),
                Step::End(0),
                Step::Sum(3),
            ],
        ],
    ),
    (
        &[2],
        &[&[
            Step::Accept(0, 1),
            Step::Accept(0, 2),
            Step::Full(0, 3),
            Step::Load(0, 0),
            Step::Accept(0, 3),
            Step::Load(0, 1),
            Step::Load(0, 2),
            Step::Empty(0),
            Step::Sum(6),
        ]],
    ),
    (
        &[4],
        &[&[
            Step::Accept(0, 5),
            Step::Close(0),
            Step::CloseAgain(0),
            Step::Late(0, 6),
            Step::Load(0, 0),
            Step::End(0),
            Step::Sum(5),
        ]],
    ),
    (
        &[2, 2],
        &[&[
            Step::Accept(0, 1),
            Step::Accept(1, 2),
            Step::Accept(0, 3),
            Step::Load(1, 0),
            Step::Load(0, 1),
            Step::Load(0, 2),
            Step::Rows(&[(1, 0), (0, 0), (0, 1)]),
        ]],
    ),
    (&[1], &[&[]]),
    (
        &[1],
        &[&[Step::Accept(0, 5), Step::Load(0, 0), Step::Count(1)]],
    ),
];

// Whether the machine has so many feeders, none of whose rows wait.
fn has_none_waiting(core: &Core, feeders: usize) -> bool {
    let last = core.feeders();
    let waits = (0..last).any(|f| core.waiting(f) != Some(0));
    last as usize == feeders && !waits && core.waiting(last) == None && core.schema().columns() == 1
}

fn runs_each(alloc: Global, core: &mut Core, steps: &[&[Step]]) -> Result<bool, MakeError> {
    for run in steps {
        if !runs(alloc, core, run)? {
            return Ok(false);
        }
    }
    Ok(true)
}

fn works(alloc: Global, worked: Worked) -> Result<bool, MakeError> {
    let (capacities, steps) = worked;
    let machine = Machine { capacities, ..PAIR };
    let mut core = made(alloc, machine)?;
    Ok(runs_each(alloc, &mut core, steps)? && has_none_waiting(&core, capacities.len()))
}

fn all_work(alloc: Global) -> Result<bool, MakeError> {
    for &worked in &WORKED {
        if !works(alloc, worked)? {
            return Ok(false);
        }
    }
    Ok(true)
}

#[test]
fn worked_runs(rt: HostRuntime) {
    let done = match all_work(rt.alloc()) {
        Err(_) => all_work(rt.alloc()),
        done => done,
    };
    assert!(rt; matches!(done, Ok(true)));
}

/// Capacities, a limit, and what is wrong with them for an index of a column.
const SIZES: [(&[u32], u64, Result<(), MakeError>); 6] = [
    (&[4], 10, Ok(())),
    (&[], 10, Err(MakeError::NoFeeders)),
    (&[1; 65], 10, Err(MakeError::TooManyFeeders)),
    (&[1, 0], 10, Err(MakeError::CapacityOutOfRange(1))),
    (&[1, 65_537], 10, Err(MakeError::CapacityOutOfRange(1))),
    (&[4], 0, Err(MakeError::Index(IndexError::LimitOutOfRange))),
];

// Whether sizes are checked as they should be, with a column and with none.
fn is_checked(schema: &Schema, empty: &Schema) -> bool {
    let none = Err(MakeError::Index(IndexError::NoColumns));
    SIZES.iter().all(|(capacities, limit, expected)| check_sizes(schema, capacities, *limit)
        == *expected)
        && check_sizes(empty, &[4], 0) == none
}

// Whether a machine is not made for this reason.
fn is_refused(alloc: Global, machine: Machine, expected: MakeError) -> bool {
    match made(alloc, machine) {
        Err(refused) => refused == expected,
        Ok(_) => false,
    }
}

// Whether of all that is wrong with a machine the first is returned.
fn first_refusal_is_returned(alloc: Global) -> bool {
    let nothing = Machine {
        columns: &[],
        capacities: &[],
        limit: 0,
    };
    let many = Machine {
        capacities: &[0; 65],
        ..nothing
    };
    let no_place = Machine {
        capacities: &[1, 0, 65_537],
        ..nothing
    };
    let no_columns = Machine {
        capacities: &[1; 64],
        ..nothing
    };
    let no_limit = Machine { limit: 0, ..PAIR };
    is_refused(alloc, nothing, MakeError::NoFeeders)
        && is_refused(alloc, many, MakeError::TooManyFeeders)
        && is_refused(alloc, no_place, MakeError::CapacityOutOfRange(1))
        && is_refused(alloc, no_columns, MakeError::Index(IndexError::NoColumns))
        && is_refused(
            alloc,
            no_limit,
            MakeError::Index(IndexError::LimitOutOfRange),
        )
}

fn sizes_are_refused(alloc: Global) -> Result<bool, SchemaError> {
    let schema = schema_of(alloc, &[QTY])?;
    Ok(is_checked(&schema, &Schema::new(alloc)) && first_refusal_is_returned(alloc))
}

#[test]
fn sizes_are_checked(rt: HostRuntime) {
    assert!(rt; matches!(sizes_are_refused(rt.alloc()), Ok(true)));
}

fn asked_of(core: &Core, total: Total) -> Result<Answer, AskError> {
    let query = Query {
        total,
        pred: Pred::All,
    };
    match core.ask(&query) {
        Err(AskError::NoMemory) => core.ask(&query),
        answer => answer,
    }
}

// Whether a row waits, and none is indexed.
fn waits_alone(core: &Core) -> bool {
    core.waiting(0) == Some(1) && asked_of(core, Total::Count) == Ok(Answer::Count(0))
}

// The load of the row that waits. One that finds no memory leaves it waiting, and is made again.
fn load_of(core: &mut Core) -> Result<u64, LoadRefused> {
    match core.load(0) {
        Err(LoadRefused::NoMemory) if waits_alone(core) => core.load(0),
        loaded => loaded,
    }
}

// Whether the row is accepted and loaded.
fn loads(core: &mut Core, row: Row) -> bool {
    let sent = core.submit(0, row).is_ok();
    let loaded = load_of(core);
    let sum = asked_of(core, Total::Sum(0));
    sent && loaded == Ok(0) && core.waiting(0) == Some(0) && sum == Ok(Answer::Sum(5))
}

fn loads_the_row(alloc: Global) -> Result<bool, MakeError> {
    let row = row_of(alloc, &[Some(5)])?;
    let mut core = made(alloc, PAIR)?;
    Ok(loads(&mut core, row))
}

#[test]
fn load_refused_memory(rt: HostRuntime) {
    assert!(rt; matches!(loads_the_row(rt.alloc()), Ok(true)));
}

/// Rows of their own numbers.
#[derive(Drop)]
struct ThreeRows {
    first: Row,
    second: Row,
    third: Row,
}

fn three_rows(alloc: Global) -> Result<ThreeRows, NoMemory> {
    Ok(ThreeRows {
        first: row_of(alloc, &[Some(1)])?,
        second: row_of(alloc, &[Some(2)])?,
        third: row_of(alloc, &[Some(3)])?,
    })
}

fn are_accepted(core: &mut Core, first: Row, second: Row) -> bool {
    let first = core.submit(0, first);
    let second = core.submit(0, second);
    first.is_ok() && second.is_ok()
}

fn is_closed(refused: &SubmitRefused) -> bool {
    match refused {
        SubmitRefused::Closed(row) => row.values() == &[Some(3)][..],
        _ => false,
    }
}

fn comes_back_after_closing(core: &mut Core, third: Row) -> bool {
    let closed = core.close(0);
    let refused = core.submit(0, third).err();
    let waiting = core.waiting(0);
    closed == Ok(()) && waiting == Some(2) && refused.is_some_and(|refused| is_closed(&refused))
}

// Whether a machine with room for two rows accepts them, and no third one once it is closed. It gives none where memory
// for the machine or the rows is refused. From the probe on nothing asks for memory: each later growth may be refused
// too.
fn accepts_two_and_closes(alloc: Global) -> Option<bool> {
    let rows = three_rows(alloc).ok()?;
    let mut core = made(alloc, PAIR).ok()?;
    let _probe = Vec::<u8>::with_capacity(alloc, 1);
    let accepted = are_accepted(&mut core, rows.first, rows.second);
    Some(accepted && comes_back_after_closing(&mut core, rows.third))
}

#[test]
fn submit_and_close_take_no_memory(rt: HostRuntime) -> Result<(), Fail> {
    let done = match accepts_two_and_closes(rt.alloc()) {
        None => accepts_two_and_closes(rt.alloc()),
        done => done,
    };
    let refused = done.is_none() && Vec::<u8>::with_capacity(rt.alloc(), 1).is_err();
    if refused {
        eprintln!(&rt; "gave up: no memory for the fixture")?;
    }
    assert!(&rt; done.unwrap_or(refused));
    Ok(())
}

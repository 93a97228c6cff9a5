//! The state of a script (`Session`): its setup, and from `begin` on its machine. It makes the line that answers each
//! record.

ghost use Rattle.std.specs.Prelude.{◌≡◌, ◌++◌, [], IfOk, IsTrue, OnOk};
ghost use Rattle.csv.specs.Records.{fields_of};
ghost use Rattle.bsi_syntax.specs.Lines.{done_line};
ghost use Rattle.bsi_syntax.specs.Setups.{can_begin, machine_of};
ghost use Rattle.bsi_input.specs.Scripts.{IsTurn, Running};

use crate::NoMemory;
use bsi_load::{Core, MakeError};
use bsi_syntax::{Setup, is_begin, read_event, write_bad, write_reply};
use csv::ByteRecord;
use std::alloc::Global;
use std::mem;

/// A script: what it declares before it begins, and its machine from then on.
#[derive(Drop)]
pub(crate) enum Session {
    /// The setup goes on.
    Declaring(Setup),
    /// The machine runs.
    Running(Core),
}

impl Session {
    ghost use Rattle.bsi_syntax.specs.Setups.{nothing_declared};
    ghost use Rattle.bsi_input.specs.Scripts.{Declaring};
    ghost use Rattle.bsi_text.specs.Sessions.{phase_of};

    /// Makes a script of which no record has been read.
    pub(crate) fn new(alloc: Global) -> Session
        ensures { phase_of result ≡ Declaring nothing_declared }
    {
        Session::Declaring(Setup::new(alloc))
    }

    /// Carries out what a record asks for, and makes `line` the line that answers it. A load or a query that is refused
    /// memory is answered so. Every other refusal of memory is an error, after which the script can't go on.
    pub(crate) fn answer(
        &mut self,
        alloc: Global,
        fields: &ByteRecord,
        line: &mut Vec<u8>,
    ) -> Result<(), NoMemory>
        ensures { OnOk result (IsTurn (phase_of self.old) (fields_of fields.now) line.new.items
            (phase_of self.new)) }
    {
        line.clear();
        match self {
            Session::Running(core) => run(alloc, core, fields, line),
            Session::Declaring(setup) if is_begin(fields) => {
                if !setup.can_begin() {
                    return write_bad(line);
                }
                let declared = mem::replace(setup, Setup::new(alloc));
                *self = Session::Running(begin(alloc, declared)?);
                write_done(line)
            }
            Session::Declaring(setup) => {
                if setup.declare(alloc, fields)? {
                    write_done(line)
                } else {
                    write_bad(line)
                }
            }
        }
    }
}

/// Makes the machine that a setup declares.
fn begin(alloc: Global, declared: Setup) -> Result<Core, NoMemory>
    requires { IsTrue (can_begin declared) }
    ensures { IfOk result (λ core. core ≡ machine_of declared) }
{
    let (table, capacities) = declared.into_parts();
    Core::new(alloc, table.schema, capacities, table.limit).map_err(only_memory)
}

/// Turns the refusal of a machine into refused memory. No other refusal is left once the sizes are in range.
fn only_memory(_refused: MakeError) -> NoMemory
    requires { _refused ≡ MakeError.NoMemory }
{
    NoMemory
}

/// Writes the line that answers a record of the setup that was carried out.
fn write_done(line: &mut Vec<u8>) -> Result<(), NoMemory>
    ensures { OnOk result (line.new.items ≡ line.old.items ++ done_line) }
{
    line.extend_from_slice(b"ok\n")
}

/// Carries out what a record asks of the machine, and writes the line that answers it.
fn run(
    alloc: Global,
    core: &mut Core,
    fields: &ByteRecord,
    line: &mut Vec<u8>,
) -> Result<(), NoMemory>
    requires { line.old.items ≡ [] }
    ensures { OnOk result (IsTurn (Running core.old) (fields_of fields.now) line.new.items
        (Running core.new)) }
{
    let Some(event) = read_event(alloc, core.schema(), fields)? else {
        return write_bad(line);
    };
    write_reply(&core.step(event), line)
}

//! An analyst (`Analyst`): it asks the published index, and no answer of it is over fewer rows than an earlier one.

ghost use Rattle.std.specs.Prelude.{◌≡◌, ◌≢◌, ◌⊎◌, ◌↔◌, Err, IfErr, IfSome, IsTrue, OnErr, OnOk};
ghost use mathlib.Core.List.{IsPrefix};
ghost use Rattle.bsi_rows.specs.Answers.{CountsConjunction, IsReply};

use crate::history::VersionToken;
use crate::system_tag::VersionRule;
use crate::version::Version;
use crate::{SystemTag, Told};
use bsi_table::{Answer, AskError, Query};
use core::mem::replace_with;
use left_right::reader::Reader;
use std::marker::Model;

/// Why a query is not answered, in the order of the checks.
#[derive(Clone, Copy, Debug, PartialEq, Eq)]
pub enum AnalystRefused {
    /// The analyst was given no copy of the index, as may happen once the publisher is gone. It is also the answer to a
    /// copy with fewer rows than the analyst knows, which no run meets.
    Gone,
    /// The index refused the query.
    Ask(AskError),
}

/// It asks the published index. It may move to a thread of its own.
#[derive(Drop)]
pub struct Analyst<B: SystemTag> {
    reader: Reader<Version, (), VersionRule<B>>,
    token: VersionToken,
}

// Clauses see the longest list that the analyst knows: each list that it answered over or was told of begins it.
impl<B: SystemTag> Model for Analyst<B> {
    ghost use Rattle.std.specs.Prelude.{◌≡◌};
    ghost use Rattle.bsi_snapshots.specs.History.{RowList};

    ghost Value = { RowList };

    ghost view = { λ a. a.token.list };

    ghost invariant = { λ a. a.token.book ≡ B.book };
}

impl<B: SystemTag> Analyst<B> {
    ghost use Rattle.bsi_snapshots.specs.Questions.{IsAnalystReply};

    /// Makes an analyst who knows a list.
    pub(crate) fn new(
        reader: Reader<Version, (), VersionRule<B>>,
        token: VersionToken,
    ) -> Analyst<B>
        requires { token.book ≡ B.book }
        ensures { result ≡ token.list }
    {
        Analyst { reader, token }
    }

    /// Answers a query over a published list that begins with each list that the analyst knew. From then on it knows
    /// that list. It never waits.
    pub fn ask(&mut self, query: &Query) -> Result<Answer, AnalystRefused>
        ensures reply { IsAnalystReply B.about.schema self.new query.now result }
        ensures succeeds { CountsConjunction query.now →
            IfErr result (λ refused. refused ≢ AnalystRefused.Ask AskError.NoMemory) }
        ensures grows { IsPrefix self.old self.new }
        ensures unchanged { OnErr result (self.new ≡ self.old) }
    {
        let asked = replace_with(&mut self.reader, query, |reader, query| {
            let Returned { reader, asked } = read::<B>(reader, query);
            (reader, asked)
        });
        let Some(Asked { reply, token }) = asked else {
            return Err(AnalystRefused::Gone);
        };
        if !token.follows(&self.token) {
            return Err(AnalystRefused::Gone);
        }
        let answer = reply.map_err(AnalystRefused::Ask)?;
        self.token = token;
        Ok(answer)
    }

    /// Answers a query over exactly the list that was told. It answers `Gone` where `ask` does, and if it knows another
    /// list by then, as it does once more rows were published. It never waits.
    pub fn ask_told(&mut self, told: &Told<B>, query: &Query) -> Result<Answer, AnalystRefused>
        ensures reply { IsAnalystReply B.about.schema told.now query.now result }
        ensures succeeds { CountsConjunction query.now →
            IfErr result (λ refused. refused ≢ AnalystRefused.Ask AskError.NoMemory) }
        ensures told { OnOk result (self.new ≡ told.now) }
        ensures gone { result ≡ Err AnalystRefused.Gone →
            (self.new ≡ self.old) ⊎ (self.new ≢ told.now) }
        ensures unchanged { IfErr result (λ refused. refused ≢ AnalystRefused.Gone → self.new ≡ self.old) }
        ensures grows { IsPrefix self.old self.new }
    {
        let answer = self.ask(query)?;
        if !self.knows(told) {
            return Err(AnalystRefused::Gone);
        }
        Ok(answer)
    }

    /// Returns whether the list that was told is the longest list that the analyst knows.
    fn knows(&self, told: &Told<B>) -> bool
        ensures { IsTrue result ↔ (self.now ≡ told.now) }
    {
        let told = told.token();
        self.token.follows(told) && told.follows(&self.token)
    }

    /// Learns of a list: each later answer is over a list that begins with it. It allocates no memory.
    pub fn learn(&mut self, told: Told<B>)
        ensures one { (self.new ≡ self.old) ⊎ (self.new ≡ told) }
        ensures grows { IsPrefix self.old self.new }
        ensures told { IsPrefix told self.new }
    {
        let told = told.into_token();
        if !self.token.follows(&told) {
            self.token = told;
        }
    }
}

/// The reply of a copy, and the list that the copy has.
#[derive(Drop)]
struct Asked {
    reply: Result<Answer, AskError>,
    token: VersionToken,
}

/// A reader that comes back from a copy, and what the copy was asked, or none if there was no copy.
#[derive(Drop)]
struct Returned<B: SystemTag> {
    reader: Reader<Version, (), VersionRule<B>>,
    asked: Option<Asked>,
}

/// Asks the published copy.
fn read<B: SystemTag>(reader: Reader<Version, (), VersionRule<B>>, query: &Query) -> Returned<B>
    ensures book { IfSome result.asked (λ asked. asked.token.book ≡ B.book) }
    ensures reply { IfSome result.asked
        (λ asked. IsReply B.about.schema asked.token.list query.now asked.reply) }
    ensures succeeds { CountsConjunction query.now →
        IfSome result.asked (λ asked. IfErr asked.reply (λ refused. refused ≢ AskError.NoMemory)) }
{
    match reader.enter_as::<VersionRule<B>>() {
        Ok(reading) => {
            let version = reading.get();
            let reply = version.index().ask(query);
            let token = version.token().again();
            Returned {
                reader: reading.leave(),
                asked: Some(Asked { reply, token }),
            }
        }
        Err(reader) => Returned {
            reader,
            asked: None,
        },
    }
}

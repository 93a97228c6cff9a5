//! A version of the index (`Version`): its rows, and the list of the history that they make.

ghost use Rattle.std.specs.Prelude.{◌≡◌, IfOk, OnErr, OnOk};

use crate::NoMemory;
use crate::history::VersionToken;
use bsi_table::{Block, Index};
use std::marker::Model;

/// An index, and the list that its rows make once it is published.
#[derive(Drop)]
pub struct Version {
    index: Index,
    token: VersionToken,
}

impl Model for Version {
    ghost use Rattle.bsi_table.specs.Index.{table_of};
    ghost use Rattle.bsi_snapshots.specs.History.{Version};

    ghost Value = { Version };

    ghost view = { λ v. record { table = table_of v.index; token = v.token } };
}

impl Version {
    ghost use Rattle.bsi_rows.specs.Table.{with_rows};
    ghost use Rattle.bsi_table.specs.Index.{table_of};

    /// Makes a version of an index and the list that its rows make.
    pub(crate) fn new(index: Index, token: VersionToken) -> Version
        ensures { result ≡ record { table = table_of index; token = token } }
    {
        Version { index, token }
    }

    /// Makes a second version of the same rows.
    pub(crate) fn copy(&self) -> Result<Version, NoMemory>
        ensures { IfOk result (λ version. version ≡ self.now) }
    {
        Ok(Version {
            index: self.index.copy()?,
            token: self.token.again(),
        })
    }

    /// Lends the index.
    pub(crate) fn index(&self) -> &Index
        ensures { table_of result.now ≡ self.now.table }
    {
        &self.index
    }

    /// Hands over the index.
    pub(crate) fn into_index(self) -> Index
        ensures { table_of result ≡ self.table }
    {
        self.index
    }

    /// Lends what is known of the history.
    pub(crate) fn token(&self) -> &VersionToken
        ensures { result.now ≡ self.now.token }
    {
        &self.token
    }

    /// Stamps the version with another list, which it knows from then on.
    pub(crate) fn stamp(&mut self, token: &VersionToken)
        ensures { self.new ≡ record self.old { token = token.now } }
    {
        self.token = token.again();
    }

    /// Appends the rows of a block. `NoMemory` is also the answer to a block that the index does not accept, which no
    /// pending operation has.
    pub(crate) fn append(&mut self, block: &Block) -> Result<(), NoMemory>
        ensures ok { OnOk result (self.new
            ≡ record self.old { table = with_rows self.old.table block.now.rows }) }
        ensures err { OnErr result (self.new ≡ self.old) }
    {
        if !self.index.accepts(block) {
            return Err(NoMemory);
        }
        self.index.append_block(block).map_err(|_| NoMemory)?;
        Ok(())
    }

    /// Appends all rows of a batch, by words. `NoMemory` is also the answer to a batch that is encoded otherwise than
    /// the index, or has more feeders, which no pending operation has.
    pub(crate) fn append_batch(&mut self, batch: &Index) -> Result<(), NoMemory>
        ensures ok { OnOk result (self.new
            ≡ record self.old { table = with_rows self.old.table batch.now.rows }) }
        ensures err { OnErr result (self.new ≡ self.old) }
    {
        if !self.index.is_encoded_like(batch) {
            return Err(NoMemory);
        }
        self.index.append_index(batch).map_err(|_| NoMemory)?;
        Ok(())
    }
}

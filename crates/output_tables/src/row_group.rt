//! The rows of one section of the SDT.

use std::alloc::{AllocError, Global};
use std::marker::Model;
use tables::SdtRow;

/// Rows that go into one section. Contracts see them as a list.
#[derive(Drop)]
pub struct RowGroup {
    rows: Vec<SdtRow>,
}

impl Model for RowGroup {
    ghost use Rattle.std.specs.Prelude.{List};
    ghost use Rattle.std.specs.List.{All};
    ghost use Rattle.tables.specs.declared.sdt_row.SdtRow.{SdtRow};
    ghost use Rattle.tables.specs.Sdt.{IsSdtRow};

    ghost Value = { List SdtRow };

    ghost view = { λ g. g.rows.items };

    ghost invariant = { λ g. All IsSdtRow g.rows.items };
}

impl RowGroup {
    ghost use Rattle.std.specs.Prelude.{◌≡◌, [], ◌∷◌, ◌++◌, MatchResult};
    ghost use Rattle.std.specs.List.{All};
    ghost use Rattle.tables.specs.Sdt.{IsSdtRow};

    /// No rows.
    pub fn new(alloc: Global) -> RowGroup
        ensures { result ≡ [] }
    {
        RowGroup {
            rows: Vec::new(alloc),
        }
    }

    /// Adds a row behind the others. It fails only for want of memory, and changes nothing then.
    pub fn push(&mut self, row: SdtRow) -> Result<(), AllocError>
        requires { IsSdtRow row }
        ensures { MatchResult result (λ _. self.new ≡ self.old ++ row ∷ []) (λ _. self.new ≡ self.old) }
    {
        self.rows.push(row)?;
        Ok(())
    }

    /// The rows.
    pub fn into_rows(self) -> Vec<SdtRow>
        ensures value { result.items ≡ self }
        ensures fits { All IsSdtRow result.items }
    {
        let RowGroup { rows } = self;
        rows
    }
}

// The continuations of a list of hits.
ghost use Rattle.std.specs.Prelude.{◌≡◌, IfOk};
ghost use Rattle.continuation_table.specs.Table.{IsTable};

use crate::Tally;
use crate::rows::{add_to_row, first_row};
use kb_geometry::{Colour, NoMemory};
use pattern_images::Hit;
use std::alloc::Global;
use std::marker::Model;

/// A continuation, in the pattern's own frame and colours, and the tally of the hits that go on so.
#[derive(Clone, Copy, Debug, PartialEq, Eq, Hash)]
pub struct Row {
    pub colour: Colour,
    pub x: u8,
    pub y: u8,
    pub tally: Tally,
}

/// How a list of hits goes on: a row for each continuation, and the tally of all hits.
#[derive(Debug, Drop)]
pub struct Table {
    rows: Vec<Row>,
    totals: Tally,
}

impl Model for Table {
    ghost use Rattle.continuation_table.specs.Table.{TableView};

    ghost Value = { TableView };

    ghost view = { λ t. record { rows = t.rows.items; totals = t.totals } };
}

impl Table {
    /// The table of a list of hits. The only error is `NoMemory`.
    pub fn of(alloc: Global, hits: &[Hit]) -> Result<Table, NoMemory>
        ensures { IfOk result (λ table. IsTable hits.now table) }
    {
        let mut rows = Vec::new(alloc);
        let mut totals = Tally::none();
        for hit in hits {
            totals = totals.with(hit);
            if let Some(next) = hit.next {
                add_to_row(&mut rows, first_row(next, hit), hit)?;
            }
        }
        Ok(Table { rows, totals })
    }

    /// The rows: one for each colour and point by which a hit goes on, black first, then by `y`,
    /// then by `x`.
    pub fn rows(&self) -> &[Row]
        ensures { result.now ≡ self.now.rows }
    {
        self.rows.as_slice()
    }

    /// The tally of all hits.
    pub fn totals(&self) -> Tally
        ensures { result ≡ self.now.totals }
    {
        let _rows = &self.rows;
        self.totals
    }
}

use crate::{apply, history};
use gl_config::Config;
use gl_history::History;
use gl_rows::{Answering, Row};
use std::alloc::{AllocError, Global};

/// What the rows of a file put down for those behind them: a configuration, and what is remembered of a journal with its
/// number of entries. At first both are those of a new store.
#[derive(Drop)]
pub struct Desk {
    pub config: Config,
    pub history: History,
    pub entries: u64,
}

impl Desk {
    pub fn new(alloc: Global) -> Result<Desk, AllocError> {
        Ok(Desk {
            config: Config::initial(alloc)?,
            history: History::new(alloc, Config::initial(alloc)?)?,
            entries: 0,
        })
    }
}

impl Answering for Desk {
    fn answer(
        &mut self,
        alloc: Global,
        file: &str,
        row: &Row,
        out: &mut String,
    ) -> Result<(), AllocError> {
        if row.text(0) == "new" {
            *self = Desk::new(alloc)?;
            return Ok(());
        }
        match file {
            "apply.rows" | "limits.rows" => apply::answer(alloc, row, self, out),
            "history.rows" => history::answer(alloc, row, self, out),
            _ => out.push_str("no such file"),
        }
    }
}

use crate::{access, replies};
use gl_base::{Items, Text};
use gl_check::Checked;
use gl_fields::FieldMap;
use gl_rows::{Answering, Row};
use gl_rulelang::Pipeline;
use gl_settings::{Parts, User, copies};
use gl_streams::Stream;
use std::alloc::{AllocError, Global};

/// A message that is live.
#[derive(Drop)]
pub struct Kept {
    pub streams: Items<u64>,
    pub fields: FieldMap,
}

/// What a server counts.
#[derive(Drop)]
pub struct Counts {
    pub committed: u64,
    pub journal: u64,
    pub version: u64,
    pub indexes: Vec<(Text, u64)>,
}

/// What the rows of a file put down for those behind them; the configuration is at first that of a new store.
#[derive(Drop)]
pub struct Desk {
    pub config: Parts,
    pub rules: Vec<Checked>,
    pub pipelines: Vec<Pipeline>,
    pub live: Vec<Kept>,
    pub counts: Counts,
}

impl Desk {
    pub fn new(alloc: Global) -> Result<Desk, AllocError> {
        Ok(Desk {
            config: Parts::initial(alloc)?,
            rules: Vec::new(alloc),
            pipelines: Vec::new(alloc),
            live: Vec::new(alloc),
            counts: Counts {
                committed: 0,
                journal: 0,
                version: 0,
                indexes: Vec::new(alloc),
            },
        })
    }

    /// Puts a stream behind the others: `stream ID NAME`.
    pub fn add_stream(&mut self, alloc: Global, row: &Row) -> Result<(), AllocError> {
        let mut streams = copied_streams(alloc, self.config.streams())?;
        streams.push(Stream {
            id: row.number(1),
            name: Text::from_str(alloc, row.text(2))?,
            index_set: Text::from_str(alloc, "graylog")?,
            any: false,
            remove_from_default: false,
            paused: false,
            rules: Items::new(alloc),
        })?;
        self.config = self.config.copy()?.with_streams(alloc, streams)?;
        Ok(())
    }

    /// Puts a user behind the others: `user NAME HASH KIND ID..`, where the kind is `administrator` or `reader`.
    pub fn add_user(&mut self, alloc: Global, row: &Row) -> Result<(), AllocError> {
        let mut users = copies(alloc, self.config.users())?;
        users.push(User {
            name: Text::from_str(alloc, row.text(1))?,
            token_sha256: Text::from_str(alloc, row.text(2))?,
            admin: row.text(3) == "administrator",
            streams: ids_of(alloc, row)?,
        })?;
        self.config = self.config.copy()?.with_users(alloc, users)?;
        Ok(())
    }
}

fn copied_streams(alloc: Global, streams: &[Stream]) -> Result<Items<Stream>, AllocError> {
    let mut copied = Items::new(alloc);
    for stream in streams {
        copied.push(stream.copy(alloc)?)?;
    }
    Ok(copied)
}

/// The numbers that the words of a row write, from the fifth on.
fn ids_of(alloc: Global, row: &Row) -> Result<Items<u64>, AllocError> {
    let mut ids = Items::new(alloc);
    for index in 4..row.len() {
        ids.push(row.number(index))?;
    }
    Ok(ids)
}

impl Answering for Desk {
    fn answer(
        &mut self,
        alloc: Global,
        file: &str,
        row: &Row,
        out: &mut String,
    ) -> Result<(), AllocError> {
        match file {
            "access.rows" => access::answer(alloc, row, self, out),
            "replies.rows" => replies::answer(alloc, row, self, out),
            _ => out.push_str("no such file"),
        }
    }
}

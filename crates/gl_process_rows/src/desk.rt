use crate::messages;
use gl_config::{Config, ConfigRefusal, decode_command};
use gl_rows::{Answering, Row};
use std::alloc::{AllocError, Global};

/// The configuration that the rows of a file have made so far.
#[derive(Drop)]
pub struct Desk {
    config: Config,
}

impl Desk {
    pub fn new(alloc: Global) -> Result<Desk, AllocError> {
        Ok(Desk {
            config: Config::initial(alloc)?,
        })
    }

    /// The configuration behind the command of this kept text.
    fn command(&mut self, alloc: Global, text: &[u8], out: &mut String) -> Result<(), AllocError> {
        let Some(command) = decode_command(alloc, text)? else {
            return out.push_str("no command");
        };
        if self.config.version() == u64::MAX {
            return out.push_str("no version left");
        }
        match self.config.apply(alloc, &command) {
            Ok(config) => {
                self.config = config;
                Ok(())
            }
            Err(ConfigRefusal::OutOfMemory) => Err(AllocError),
            Err(_) => out.push_str("refused"),
        }
    }
}

impl Answering for Desk {
    fn answer(
        &mut self,
        alloc: Global,
        _file: &str,
        row: &Row,
        out: &mut String,
    ) -> Result<(), AllocError> {
        match row.text(0) {
            "new" => {
                let config = Config::initial(alloc)?;
                self.config = config;
                Ok(())
            }
            "command" => self.command(alloc, row.bytes(1), out),
            "messages" => messages::answer(alloc, row, &self.config, out),
            _ => out.push_str("no such subject"),
        }
    }
}

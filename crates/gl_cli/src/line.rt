use gl_base::{Items, Text};

/// A line of a script.
#[derive(Drop)]
pub enum Line {
    Blank,
    At {
        moment: u64,
    },
    Udp {
        input: Text,
        peer: Text,
        payload: Items<u8>,
    },
    Tcp {
        input: Text,
        number: u32,
        peer: Text,
        payload: Items<u8>,
    },
    End {
        input: Text,
        number: u32,
    },
    Claim {
        worker: u32,
        limit: u32,
    },
    Finish {
        worker: u32,
    },
    Listing,
}

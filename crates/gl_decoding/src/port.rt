// The port of a message's peer, as a field.
ghost use Rattle.std.specs.Prelude.{◌≡◌, IfOk};
ghost use Rattle.gl_decoding.specs.Decoding.{port_of, with_port};

use gl_fields::{FieldMap, FieldRefusal, Origin, Value};
use std::alloc::AllocError;

/// The port of a message's peer; 0 where none is known.
pub fn port_of(origin: Option<Origin>) -> u16
    ensures { result ≡ port_of origin }
{
    match origin {
        Some(origin) => origin.port,
        None => 0,
    }
}

/// The fields with the port, unless none is known or the map refuses it.
#[tactic(auto, unfolding(crate::specs::Decoding::with_port))]
pub fn with_port(mut fields: FieldMap, port: u16) -> Result<FieldMap, AllocError>
    ensures { IfOk result (λ map. map ≡ with_port port fields) }
{
    if port == 0 {
        return Ok(fields);
    }
    match fields.set("remote_port", Value::Whole(i64::from(port))) {
        Err(FieldRefusal::OutOfMemory) => Err(AllocError),
        Ok(())
        | Err(FieldRefusal::BadFieldName)
        | Err(FieldRefusal::TooManyFields)
        | Err(FieldRefusal::TooLarge)
        | Err(FieldRefusal::Reserved) => Ok(fields),
    }
}

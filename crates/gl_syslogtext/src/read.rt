// A whole message of RFC 5424.
ghost use Rattle.std.specs.Prelude.{◌≡◌, IfOk, IfSome, Some};
ghost use Rattle.gl_syslogtext.specs.declared.parts.Parts.{Parts};
ghost use Rattle.gl_syslogtext.specs.Rfc5424.{Reads5424};
ghost use Rattle.gl_syslogtext.specs.Sections.{Gives};
ghost use Rattle.gl_syslogtext.specs.MessageReading.{are_distinct, ids_of, elements_of, version_at, parts_of};

use crate::data::{data_at, message_of};
use crate::sections::{MAX_APP, MAX_HOST, MAX_MSG_ID, MAX_PROC_ID, name_at, pri_at, split_space};
use crate::stamp::stamp_at;
use crate::unread::Unread;
use crate::{Element, Parts};
use gl_base::Items;
use std::alloc::{AllocError, Global};
use std::collections::BTreeSet;

/// Whether no two elements have one id.
pub fn are_distinct(alloc: Global, elements: &[Element]) -> Result<bool, AllocError>
    ensures { IfOk result (λ b. b ≡ are_distinct (ids_of elements.now)) }
{
    let mut seen = BTreeSet::new(alloc);
    for element in elements {
        if !seen.insert(element.id.as_str())? {
            return Ok(false);
        }
    }
    Ok(true)
}

#[tactic(auto, unfolding(crate::specs::MessageReading::elements_of))]
fn elements_of(alloc: Global, text: &str) -> Result<(Items<Element>, &str), Unread>
    ensures { Gives (λ x. (x.0, x.1.now)) result (elements_of text.now) }
{
    let (elements, rest) = data_at(alloc, text)?;
    if !are_distinct(alloc, elements.as_slice())? {
        return Err(Unread::Other);
    }
    Ok((elements, rest))
}

#[tactic(auto, unfolding(crate::specs::MessageReading::version_at))]
fn version_at(text: &str) -> Result<&str, Unread>
    ensures { Gives (λ x. x.now) result (version_at text.now) }
{
    let (version, rest) = split_space(text)?;
    if version != "1" {
        return Err(Unread::Other);
    }
    Ok(rest)
}

#[tactic(auto, unfolding(crate::specs::MessageReading::parts_of))]
fn parts_of(alloc: Global, text: &str) -> Result<Parts, Unread>
    ensures { Gives (λ x. x) result (parts_of text.now) }
{
    let (pri, rest) = pri_at(text)?;
    let rest = version_at(rest)?;
    let (stamp, rest) = stamp_at(alloc, rest)?;
    let (host, rest) = name_at(alloc, rest, MAX_HOST)?;
    let (app, rest) = name_at(alloc, rest, MAX_APP)?;
    let (proc_id, rest) = name_at(alloc, rest, MAX_PROC_ID)?;
    let (msg_id, rest) = name_at(alloc, rest, MAX_MSG_ID)?;
    let (elements, rest) = elements_of(alloc, rest)?;
    let (bom, msg) = message_of(alloc, rest)?;
    Ok(Parts {
        pri,
        stamp,
        host,
        app,
        proc_id,
        msg_id,
        elements,
        bom,
        msg,
    })
}

/// The parts of a message of RFC 5424 with version 1; None where the text is none.
pub fn read_5424(alloc: Global, text: &str) -> Result<Option<Parts>, AllocError>
    // What is read is in the grammar, with these parts.
    ensures found { IfOk result (λ r. IfSome r (Reads5424 text.now)) }
    // What is in the grammar is read, and has no other parts.
    ensures only { IfOk result (λ r. (parts : Parts) → Reads5424 text.now parts → r ≡ Some parts) }
    // The parts as they are read from left to right.
    ensures exact { IfOk result (λ r. r ≡ parts_of text.now) }
{
    match parts_of(alloc, text) {
        Ok(parts) => Ok(Some(parts)),
        Err(Unread::Other) => Ok(None),
        Err(Unread::OutOfMemory) => Err(AllocError),
    }
}

// Names of pipelines.
ghost use Rattle.std.specs.Prelude.{◌≡◌, ◌++◌, map, OnOk};
ghost use Rattle.std.specs.Str.{bytes_eq};
ghost use Rattle.gl_fields.specs.Fields.{comes_before};
ghost use Rattle.gl_stage.specs.Stages.{is_among};
ghost use Rattle.gl_stage.specs.Lent.{names_now, pipelines_now};
ghost use Rattle.gl_stage.specs.Rounds.{names_of};

use gl_base::Text;
use gl_rulelang::Pipeline;
use std::alloc::AllocError;
use std::cmp::Ordering;

fn is_same(name: &Text, other: &Text) -> bool
    ensures { result ≡ bytes_eq name.now other.now }
{
    name.as_str() == other.as_str()
}

pub(crate) fn is_before(name: &Text, other: &Text) -> bool
    ensures { result ≡ comes_before name.now other.now }
{
    match name.as_str().cmp(other.as_str()) {
        Ordering::Less => true,
        Ordering::Equal => false,
        Ordering::Greater => false,
    }
}

// Whether a name is among these.
pub(crate) fn is_named(names: &[Text], name: &Text) -> bool
    ensures { result ≡ is_among names.now name.now }
{
    names.iter().any(|other| is_same(name, other))
}

// The same of names that are lent.
pub(crate) fn is_among(names: &[&Text], name: &Text) -> bool
    ensures { result ≡ is_among (names_now names.now) name.now }
{
    for other in names {
        if is_same(name, *other) {
            return true;
        }
    }
    false
}

// Puts the names of these pipelines behind the others.
pub(crate) fn push_names<'a>(
    names: &mut Vec<&'a Text>,
    pipelines: &[&'a Pipeline],
) -> Result<(), AllocError>
    ensures { OnOk result (names_now names.new.items ≡ names_now names.old.items ++ names_of (pipelines_now pipelines.now)) }
{
    for pipeline in pipelines {
        let pipeline: &'a Pipeline = *pipeline;
        names.push(&pipeline.name)?;
    }
    Ok(())
}

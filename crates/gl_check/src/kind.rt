ghost use Rattle.std.specs.Prelude.{◌≡◌};
ghost use Rattle.gl_check.specs.Checking.{is_kind, is_wrong};

/// The kind of an expression: what its values are where they aren't missing.
#[derive(Clone, Copy)]
pub enum Kind {
    Text,
    Whole,
    Bool,
    /// A text or a whole number, as a field holds it; as a parameter's kind it takes each.
    Any,
}

/// Whether both are one kind.
pub fn is_kind(one: Kind, other: Kind) -> bool
    ensures { result ≡ is_kind one other }
{
    match one {
        Kind::Text => matches!(other, Kind::Text),
        Kind::Whole => matches!(other, Kind::Whole),
        Kind::Bool => matches!(other, Kind::Bool),
        Kind::Any => matches!(other, Kind::Any),
    }
}

/// Whether there is a kind, and it isn't this one.
pub fn is_wrong(wanted: Kind, kind: Option<Kind>) -> bool
    ensures { result ≡ is_wrong wanted kind }
{
    match kind {
        None => false,
        Some(kind) => !is_kind(wanted, kind),
    }
}

/// What stands for an argument that isn't given.
#[derive(Clone, Copy)]
pub enum Preset {
    /// The empty text.
    Empty,
    Number(i64),
    /// False.
    No,
}

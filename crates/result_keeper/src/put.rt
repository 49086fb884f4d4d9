/// What became of a project that was put.
#[derive(Clone, Copy, Debug, PartialEq, Eq)]
pub enum Put {
    /// Its name was new.
    Added,
    /// A project of its name was kept; its file is the new one.
    Replaced,
    /// Its name was new, and as many projects are kept as a keeper takes. Nothing changed.
    Full,
}

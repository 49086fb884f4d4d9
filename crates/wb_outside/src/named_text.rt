// Texts by their names.
ghost use Rattle.std.specs.Prelude.{◌≡◌, ℕ, min};
ghost use Rattle.std.specs.Option.{option_map};
ghost use Rattle.wb_outside.specs.Causes.{raised};

/// A text and its name.
#[derive(Debug, PartialEq, Eq, Drop)]
pub struct NamedText {
    pub name: Vec<u8>,
    pub bytes: Vec<u8>,
}

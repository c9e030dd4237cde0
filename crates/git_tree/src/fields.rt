//! The fields of a record.
ghost use Rattle.std.specs.Prelude.{◌≡◌};
ghost use Rattle.std.specs.Option.{option_map};
ghost use Rattle.git_tree.specs.GitRecord.{fields_of};

use eden_base::cut;

/// The fields of a record: `MODE SP TYPE SP OBJECT SP SIZE TAB PATH`.
#[derive(Drop)]
pub struct Fields<'a> {
    pub mode: &'a [u8],
    pub object_type: &'a [u8],
    pub object: &'a [u8],
    /// The size with the spaces in front of it.
    pub size: &'a [u8],
    pub path: &'a [u8],
}

impl<'a> Fields<'a> {
    /// Splits a record, which is given without its NUL, or returns none if it lacks a field.
    pub fn of(text: &'a [u8]) -> Option<Fields<'a>>
        ensures fields { option_map (λ f. record {
          mode = f.mode.now;
          object_type = f.object_type.now;
          object = f.object.now;
          size = f.size.now;
          path = f.path.now;
        }) result ≡ fields_of text.now }
    {
        let (mode, rest) = cut(text, b' ')?;
        let (object_type, rest) = cut(rest, b' ')?;
        let (object, rest) = cut(rest, b' ')?;
        let (size, path) = cut(rest, b'\t')?;
        Some(Fields {
            mode,
            object_type,
            object,
            size,
            path,
        })
    }
}

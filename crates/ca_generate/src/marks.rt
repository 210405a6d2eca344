//! Marks at places of the list of defects.

ghost use Rattle.std.specs.Prelude.{◌≡◌, false, slice_index_or};

/// Whether a place is marked; past the marks none is.
pub(crate) fn is_marked(marks: &[bool], place: usize) -> bool
    ensures { result ≡ slice_index_or marks.now place false }
{
    place < marks.len() && marks[place]
}

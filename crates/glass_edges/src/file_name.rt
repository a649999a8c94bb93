//! The names that files may have.

ghost use Rattle.std.specs.Prelude.{◌≡◌};
ghost use Rattle.glass_edges.specs.FileNames.{is_file_name};

/// Whether a text can name a file: 1 to 255 bytes.
pub fn is_file_name(text: &str) -> bool
    ensures { result ≡ is_file_name text.now }
{
    1 <= text.len() && text.len() <= 255
}

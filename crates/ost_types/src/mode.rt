ghost use Rattle.std.specs.Prelude.{◌≡◌, ◌↔◌, IsTrue};
ghost use Rattle.ost_types.specs.Mode.{IsFolderMode, IsFileMode, IsLinkMode};

/// Whether this is the mode of a folder (`S_IFDIR`) with permissions and no other bits.
pub fn is_folder_mode(mode: u32) -> bool
    ensures { IsTrue result ↔ IsFolderMode mode }
{
    matches!(mode, 0o040000..=0o047777)
}

/// Whether this is the mode of a regular file (`S_IFREG`) with permissions and no other bits.
pub fn is_file_mode(mode: u32) -> bool
    ensures { IsTrue result ↔ IsFileMode mode }
{
    matches!(mode, 0o100000..=0o107777)
}

/// Whether this is the mode of a symbolic link (`S_IFLNK`) with permissions and no other bits.
pub fn is_link_mode(mode: u32) -> bool
    ensures { IsTrue result ↔ IsLinkMode mode }
{
    matches!(mode, 0o120000..=0o127777)
}

//! Directories of paths: credentials given for a path are tried, unasked, for paths below its
//! directory (RFC 7617 section 2.2).

ghost use Rattle.std.specs.Prelude.{◌≡◌};
ghost use Rattle.spaces.specs.Paths.{covers, dir_of};

/// Whether a directory covers a path: the directory is a prefix of the path.
pub fn covers(dir: &[u8], path: &[u8]) -> bool
    ensures { result ≡ covers dir.now path.now }
{
    path.starts_with(dir)
}

/// The path up to and with its last slash; nothing where it has none.
pub fn dir_of(path: &[u8]) -> &[u8]
    ensures { result.now ≡ dir_of path.now }
{
    let mut end = path.len();
    while end > 0 && path[end - 1] != b'/' {
        end -= 1;
    }
    &path[..end]
}

// Root directories of fresh volumes: empty, named `$`, and their own parents.
ghost use Rattle.std.specs.Prelude.{◌≡◌, ◌<◌, ◌^◌};
ghost use Rattle.fc_format.specs.Fresh.{big_root, new_root, old_root};

use fc_bytes::{big_dir_check, put, put_le24, small_dir_check};

/// A root's name and its end, as they stand in a field.
const ROOT_NAME: &[u8] = b"$\r";

/// A root of 2048 bytes: `Nick`, the parent, title and name, `Nick` again, and the check.
pub fn new_root(parent: u32) -> [u8; 2048]
    requires { parent < 2 ^ 24 }
    ensures { result ≡ new_root parent }
{
    let mut root = [0; 2048];
    put(&mut root, 1, b"Nick");
    put_le24(&mut root, 2010, parent);
    put(&mut root, 2013, ROOT_NAME);
    put(&mut root, 2032, ROOT_NAME);
    put(&mut root, 2043, b"Nick");
    root[2047] = small_dir_check(&root, 5);
    root
}

/// A root of 1280 bytes: `Hugo`, the name, the parent, the title, and `Hugo` again. No check is written there.
pub fn old_root(parent: u32) -> [u8; 1280]
    requires { parent < 2 ^ 24 }
    ensures { result ≡ old_root parent }
{
    let mut root = [0; 1280];
    put(&mut root, 1, b"Hugo");
    put(&mut root, 1228, ROOT_NAME);
    put_le24(&mut root, 1238, parent);
    put(&mut root, 1241, ROOT_NAME);
    put(&mut root, 1275, b"Hugo");
    root
}

/// A big root of 2048 bytes at &301: head with the length of its name, its size and its parent, the name, and the tail.
pub fn big_root() -> [u8; 2048]
    ensures { result ≡ big_root 0x301 }
{
    let mut root = [0; 2048];
    put(&mut root, 4, b"SBPr");
    root[8] = 1;
    put_le24(&mut root, 12, 2048);
    put_le24(&mut root, 24, 0x301);
    put(&mut root, 28, ROOT_NAME);
    put(&mut root, 2040, b"oven");
    root[2047] = big_dir_check(&root, 32);
    root
}

// Names in fields of bytes.
ghost use Rattle.std.specs.Prelude.{◌≡◌, ◌≤◌, ◌<◌, length};
ghost use Rattle.fc_dirs.specs.Entries.{padded_name};

// A name in a field of N bytes: 13 follows it, and then bytes 0, as far as there is room.
pub fn padded<const N: usize>(name: &[u8]) -> [u8; N]
    requires { length name.now ≤ N }
    ensures { result ≡ padded_name N name.now }
{
    let mut field = [0; N];
    field[..name.len()].copy_from_slice(name);
    if name.len() < N {
        field[name.len()] = 13;
    }
    field
}

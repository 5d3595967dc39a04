// How a name is read from lent bytes.
ghost use Rattle.std.specs.Prelude.{◌≡◌, ◌≤◌, length};
ghost use Rattle.names_values.specs.Names.{name_of};

use super::Name;

// The name that these bytes are.
pub fn name_of(name: &[u8]) -> Name
    requires { length name.now ≤ 32 }
    ensures { result ≡ name_of name.now }
{
    let mut bytes = [0; 32];
    bytes[..name.len()].copy_from_slice(name);
    Name {
        bytes,
        length: name.len() as u8,
    }
}

ghost use Rattle.std.specs.Prelude.{◌≡◌, ◌≢◌, ◌↔◌, ◌<◌, ◌^◌, IfOk, IsOk, IsErr, length};
ghost use Rattle.requests.specs.Layouts.{commanded_bytes, commanded_of};

use crate::not_this::NotThis;
use name_field::Name;

/// A command to a NAME to hold another address.
#[derive(Clone, Copy, Debug, PartialEq, Eq)]
pub struct Commanded {
    /// Who is commanded.
    pub name: Name,
    /// The address to hold; one who reads it looks whether it is at most 253.
    pub address: u8,
}

impl Commanded {
    /// The command in a payload of nine bytes; `NotThis` exactly for another number of bytes.
    pub fn read(bytes: &[u8]) -> Result<Commanded, NotThis>
        ensures value { IfOk result (λ c. c ≡ commanded_of bytes.now) }
        ensures accepted { IsOk result ↔ (length bytes.now ≡ 9) }
        ensures not_this { IsErr result ↔ (length bytes.now ≢ 9) }
        ensures reads_back { (c : Commanded) → c.name < 2 ^ 64 → bytes.now ≡ commanded_bytes c → result ≡ Ok c }
    {
        if bytes.len() != 9 {
            return Err(NotThis);
        }
        match <[u8; 8]>::try_from(&bytes[..8]) {
            Ok(name) => Ok(Commanded {
                name: Name::from_bytes(name),
                address: bytes[8],
            }),
            Err(_) => Err(NotThis),
        }
    }

    /// Its nine bytes: the NAME, lowest byte first, and the address.
    pub fn to_bytes(self) -> [u8; 9]
        ensures { result ≡ commanded_bytes self }
    {
        let [a, b, c, d, e, f, g, h] = self.name.to_bytes();
        [a, b, c, d, e, f, g, h, self.address]
    }
}

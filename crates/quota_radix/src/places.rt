ghost use Rattle.std.specs.Prelude.{◌≡◌};
ghost use Rattle.quota_radix.specs.Digits.{digits_of, id_of};

/// The four bytes of an identifier, the most significant first: its places in the blocks of levels 1 to 4.
pub fn digits(id: u32) -> [u8; 4]
    ensures digits { result ≡ digits_of id }
    ensures id { id_of result ≡ id }
{
    id.to_be_bytes()
}

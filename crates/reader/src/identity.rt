// The identity that an account is registered under.
ghost use Rattle.std.specs.Prelude.{◌≡◌, length};

// Its 14 bytes, borrowed from the input.
#[derive(Clone, Copy, Debug)]
pub struct IdentityBytes<'a> {
    pub bytes: &'a [u8],
    ghost whole: { length bytes.now ≡ 14 },
}
